//! The calls of `seal` that count their turns: how many they take is proved.

ghost use Rattle.std.specs.Prelude.{◌≡◌, ◌≤◌, ◌<◌, ◌+◌};

use hex::{FromHex, FromHexError};
use seal::{Multiples, SealError, Turns, open_counted, seal_counted};
use std::marker::Brand;
use std::sync::ledger::{Blank, Ledger};

// Seals a block and opens the sealing, 67 turns each: three, and 32 for the block and for the
// lengths. Answers the tag and what was opened.
fn seal_and_open<L: Ledger>(
    text: &mut [u8; 16],
    turns: &mut Turns<L>,
) -> Result<([u8; 16], [u8; 16]), SealError>
    ensures { turns.new ≤ turns.old + 134 }
{
    let tag = seal_counted(&[0; 32], &[0; 12], &[], text, turns)?;
    let mut opened = *text;
    open_counted(&[0; 32], &[0; 12], &[], &mut opened, &tag, turns)?;
    Ok((tag, opened))
}

fn seal_and_open_from<L: Ledger>(
    text: &mut [u8; 16],
    blank: Blank,
) -> Result<([u8; 16], [u8; 16]), SealError>
    requires name { blank.name ≡ L.name }
    requires parts { blank.parts ≡ L.parts }
    requires some { 0 < L.parts }
{
    let mut turns = Turns::<L>::new(blank);
    seal_and_open(text, &mut turns)
}

// Test case 14 of "The Galois/Counter Mode of Operation (GCM)" (McGrew and Viega): all is zeros.
#[test]
fn seals_and_opens_with_a_count(rt: HostRuntime) -> Result<(), FromHexError> {
    let ciphertext = <[u8; 16] as FromHex>::from_hex("cea7403d4d606b6e074ec5d3baf39d18")?;
    let tag = <[u8; 16] as FromHex>::from_hex("d0d1c8a799996bf0265b98b5d48ab919")?;
    let mut text = [0; 16];
    let answer = seal_and_open_from::<Brand>(&mut text, Blank::new(1));
    assert!(rt; answer == Ok((tag, [0; 16])) && text == ciphertext);
    Ok(())
}

// Two steps of GHASH, 67 turns: three for the multiples, and 32 for each.
fn two_steps<L: Ledger>(
    h: &[u8; 16],
    first: &[u8; 16],
    second: &[u8; 16],
    turns: &mut Turns<L>,
) -> ([u8; 16], [u8; 16])
    ensures { turns.new ≤ turns.old + 67 }
{
    let multiples = Multiples::new(h, turns);
    let one = multiples.step(&[0; 16], first, turns);
    let two = multiples.step(&one, second, turns);
    (one, two)
}

fn two_steps_from<L: Ledger>(
    h: &[u8; 16],
    first: &[u8; 16],
    second: &[u8; 16],
    blank: Blank,
) -> ([u8; 16], [u8; 16])
    requires name { blank.name ≡ L.name }
    requires parts { blank.parts ≡ L.parts }
    requires some { 0 < L.parts }
{
    let mut turns = Turns::<L>::new(blank);
    two_steps(h, first, second, &mut turns)
}

// H, the ciphertext's block, X1 and GHASH of test case 2 of "The Galois/Counter Mode of Operation
// (GCM)" (McGrew and Viega): its lengths are none, and a block of 128 bits.
#[test]
fn steps_as_published(rt: HostRuntime) -> Result<(), FromHexError> {
    let h = <[u8; 16] as FromHex>::from_hex("66e94bd4ef8a2c3b884cfa59ca342b2e")?;
    let block = <[u8; 16] as FromHex>::from_hex("0388dace60b6a392f328c2b971b2fe78")?;
    let lengths = <[u8; 16] as FromHex>::from_hex("00000000000000000000000000000080")?;
    let one = <[u8; 16] as FromHex>::from_hex("5e2ec746917062882c85b0685353deb7")?;
    let two = <[u8; 16] as FromHex>::from_hex("f38cbb1ad69223dcc3457ae5b6b0f885")?;
    assert!(rt; two_steps_from::<Brand>(&h, &block, &lengths, Blank::new(1)) == (one, two));
    Ok(())
}
