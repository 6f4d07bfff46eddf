//! Uses of calls of whose contracts more is proved than that the call may be made.
ghost use Rattle.std.specs.Prelude.{◌≡◌, Some, true, IsErrOf};
ghost use Rattle.cookie_text.specs.Setting.{with_secure};

use cookie::{Cookie, CookieBuilder, CookieJar, Key, PrivateError};
use rand_chacha::ChaCha20Rng;
use rand_core::SeedableRng;
use std::alloc::Global;
use std::fmt::Display;

// Whether this is what is printed.
fn prints<D: Display>(alloc: Global, shown: &D, wanted: &str) -> bool {
    match format!(in alloc; "{shown}") {
        Ok(printed) => printed.as_str() == wanted,
        Err(_) => false,
    }
}

// The contract of `inner_mut` shows a caller what it wrote.
fn write_secure(builder: &mut CookieBuilder<'_>)
    ensures { builder.new ≡ with_secure builder.old (Some true) }
{
    builder.inner_mut().set_secure(Some(true));
}

#[test]
fn builds_on_a_cookie(rt: HostRuntime) {
    let mut builder = Cookie::build(Cookie::new("a", "1"));
    builder.inner_mut().set_name("c");
    write_secure(&mut builder);
    assert!(rt; prints(rt.alloc(), &builder.build(), "c=1; Secure"));
}

// What a scenario answers of a value that it is lent: what owns one itself is dear to prove.
fn lent<T: Drop, E: Drop, F: FnOnce(&mut T) -> Result<bool, E> + Drop>(
    owned: T,
    scenario: F,
) -> Result<bool, E>
    requires { F.IsAlwaysCallable scenario }
{
    let mut owned = owned;
    scenario(&mut owned)
}

// The value under a name; `-` stands for none.
fn value<'j>(jar: &'j CookieJar, name: &str) -> &'j str {
    match jar.get(name) {
        Some(cookie) => cookie.value(),
        None => "-",
    }
}

fn zero_key() -> Key {
    Key::from(&[0; 64])
}

// By a generator that can't fail: that its fill is never what failed is proved.
fn seal_at_random(
    jar: &mut CookieJar,
    name: &'static str,
    rng: &mut ChaCha20Rng,
) -> Result<(), PrivateError>
    ensures { ¬ (IsErrOf result PrivateError.Rng) }
{
    jar.private_mut(&zero_key())
        .add(Cookie::new(name, "1"), rng)
}

// The nonce is the front of the stream of the zero seed (RFC 8439, appendix A.1, first vector).
fn seals_at_random(jar: &mut CookieJar) -> Result<bool, PrivateError> {
    let mut rng = ChaCha20Rng::from_seed([0; 32]);
    begins_at_random(jar, &mut rng)
}

fn begins_at_random(jar: &mut CookieJar, rng: &mut ChaCha20Rng) -> Result<bool, PrivateError> {
    seal_at_random(jar, "a", rng)?;
    Ok(value(jar, "a").starts_with("drjgraDxPZBAXWrl"))
}

#[test]
fn seals_by_a_generator_that_never_fails(rt: HostRuntime) -> Result<(), PrivateError> {
    assert!(rt; lent(CookieJar::new(rt.alloc()), seals_at_random)?);
    Ok(())
}

// The key of a generator that can't fail. That there is one is proved, since `unwrap` asks it.
fn given(rng: &mut ChaCha20Rng) -> Key {
    Key::try_generate(rng).unwrap()
}

#[test]
fn makes_a_key_by_a_generator_that_never_fails(rt: HostRuntime) {
    let key = given(&mut ChaCha20Rng::from_seed([0; 32]));
    assert!(rt;
        key.master()
            .starts_with(&[0x76, 0xb8, 0xe0, 0xad, 0xa0, 0xf1, 0x3d, 0x90])
    );
}
