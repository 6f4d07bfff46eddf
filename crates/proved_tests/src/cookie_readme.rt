//! The example of the README of `cookie`.

// README: crates/cookie/README.md
use cookie::{Cookie, CookieJar, Host, Key};
use jiff::civil::DateTime;
use std::alloc::{AllocError, Global};
use std::process::Abort;
use std::test::Fail;

// What the response is to set and to remove.
fn sign_in(jar: &mut CookieJar, key: &Key, now: DateTime) -> Result<(), AllocError> {
    jar.signed_mut(key).add(Cookie::new("user", "7"))?;
    jar.prefixed_mut(Host).add(Cookie::new("sid", "a3f"))?;
    jar.remove(Cookie::new("theme", ""), now)
}

// The response to a request that has a cookie.
fn respond(jar: &mut CookieJar, key: &Key) -> Result<(), AllocError> {
    jar.add_original(Cookie::new("theme", "dark"))?;
    sign_in(jar, key, DateTime::constant(2024, 1, 1, 0, 0, 0, 0))
}

// Whether this user is signed in.
fn is_user(jar: &CookieJar, key: &Key, wanted: &str) -> Result<bool, AllocError> {
    match jar.signed(key).get("user")? {
        Some(user) => Ok(user.value() == wanted),
        None => Ok(false),
    }
}

// What the response tells of this name.
fn line(alloc: Global, jar: &CookieJar, name: &str) -> Result<String, AllocError> {
    for cookie in jar.delta() {
        if cookie.name() == name {
            return cookie.encoded().to_string(alloc);
        }
    }
    Ok(String::new(alloc))
}

fn check(rt: &impl Abort, alloc: Global, jar: &CookieJar, key: &Key) -> Result<(), Fail> {
    assert!(rt; jar.get("theme").is_none());
    assert!(rt; is_user(jar, key, "7")?);
    let line = line(alloc, jar, "__Host-sid")?;
    assert!(rt; line.as_str() == "__Host-sid=a3f; Secure; Path=/");
    Ok(())
}

#[test]
fn tells_the_client_what_changed(rt: HostRuntime) -> Result<(), Fail> {
    let key = Key::from(&[7; 64]);
    let mut jar = CookieJar::new(rt.alloc());
    respond(&mut jar, &key)?;
    check(&rt, rt.alloc(), &jar, &key)
}
// README: end
