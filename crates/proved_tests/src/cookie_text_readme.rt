//! The examples of the README of `cookie_text`.

// README: crates/cookie_text/README.md
use cookie_text::{Cookie, SameSite};
use std::alloc::{AllocError, Global};
use std::test::Fail;

#[test]
fn reads(rt: HostRuntime) -> Result<(), Fail> {
    let cookie = Cookie::parse("id=a3fWa; Path=/; Max-Age=60; Secure")?;
    assert_eq!(rt; cookie.name_value(), ("id", "a3fWa"));
    assert_eq!(rt; cookie.path_raw(), Some("/"));
    Ok(())
}

fn printed(alloc: Global) -> Result<String, AllocError> {
    let cookie = Cookie::build(Cookie::new("foo", "bar; 1"))
        .same_site(SameSite::None)
        .build();
    cookie.encoded().to_string(alloc)
}

#[test]
fn prints_and_reads_back(rt: HostRuntime) -> Result<(), Fail> {
    let line = printed(rt.alloc())?;
    assert_eq!(rt; line.as_str(), "foo=bar%3B%201; SameSite=None; Secure");
    let back = Cookie::parse_encoded(rt.alloc(), &line)?;
    assert_eq!(rt; back.value(), "bar; 1");
    Ok(())
}
// README: end
