//! The examples of the READMEs of `devices`, `seal` and `publicsuffix`, word for word.

use devices::Counting;
use devices::pour::{flush, read_all, write_all, write_number};
use publicsuffix::{List, ListError};
use seal::{SealError, open_in_registers, seal_in_registers};
use std::test::Fail;

#[test]
fn pours_from_one_to_the_other(rt: HostRuntime) -> Result<(), Fail> {
    // README: crates/devices/README.md
    let mut reader = Counting::new(b"a=1".as_slice());
    let mut out = Vec::new(rt.alloc());
    let mut writer = Counting::new(&mut out);
    let all = read_all(rt.alloc(), &mut reader)?;
    write_all(&mut writer, all.as_slice())?;
    write_number(&mut writer, 17)?;
    flush(&mut writer)?;
    assert!(rt; out.as_slice() == b"a=117".as_slice());
    // README: end
    Ok(())
}

#[test]
fn readme_seal(rt: HostRuntime) -> Result<(), SealError> {
    // README: crates/seal/README.md
    let (key, nonce) = ([7; 32], [9; 12]);
    let mut text = *b"attack at dawn";
    let tag = seal_in_registers(&key, &nonce, b"header", &mut text)?;
    assert!(rt; text != *b"attack at dawn");
    open_in_registers(&key, &nonce, b"header", &mut text, &tag)?;
    assert!(rt; text == *b"attack at dawn");
    // README: end
    Ok(())
}

#[test]
fn readme_publicsuffix(rt: HostRuntime) -> Result<(), ListError> {
    // README: crates/publicsuffix/README.md
    let list = List::parse(rt.alloc(), b"com\n*.ck\n!www.ck\n")?;
    assert!(rt; list.is_listed(b"foo.ck") && !list.is_listed(b"www.ck"));
    let known = list.suffix(b"a.www.ck.");
    assert!(rt; known.is_some_and(|it| it.as_bytes() == b"ck".as_slice() && it.is_known()));
    let other = list.suffix(b"a.example");
    assert!(rt; other.is_some_and(|it| it.as_bytes() == b"example".as_slice() && !it.is_known()));
    // README: end
    Ok(())
}
