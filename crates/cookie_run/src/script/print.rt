//! What a script's run prints.
ghost use Rattle.std.specs.Prelude.{◌≡◌, ◌++◌, IfOk, OnOk, string_bytes};
ghost use Rattle.cookie_client.specs.Ending.{placed};
ghost use Rattle.cookie_run.specs.RingPlay.{Header, Read, ReadUntil};
ghost use Rattle.cookie_run.specs.ScriptText.{ending_way_text, read_text, reading_text, shown_escaped, shown_place};
ghost use Rattle.cookie_run.specs.ScriptText.{shown_read, way_text};

use crate::step::Way;
use cookie_client::EndingWay;
use percent_encoding::{AsciiSet, CONTROLS, ascii_set, percent_encode};
use std::alloc::{AllocError, Global};

/// The bytes that are escaped in what is printed: all but graphic ASCII, and `%`.
pub const SHOWN: AsciiSet = ascii_set!(CONTROLS.add(b' ').add(b'%'));

/// The line of a value that was read: way, name, and `=` with the value or `-`, parted by tabs. Behind a value stands
/// the place of its key, where that isn't 0.
pub fn value_line(
    alloc: Global,
    way: Way,
    name: &str,
    read: &Option<(String, usize)>,
) -> Result<String, AllocError>
    ensures { IfOk result (λ line. string_bytes line ≡ reading_text (Read way name.now (placed read.now))) }
{
    got_line(alloc, way_name(way), name, read)
}

/// The same of a value that ends.
pub fn ending_line(
    alloc: Global,
    way: EndingWay,
    name: &str,
    read: &Option<(String, usize)>,
) -> Result<String, AllocError>
    ensures { IfOk result (λ line. string_bytes line ≡ reading_text (ReadUntil way name.now (placed read.now))) }
{
    got_line(alloc, ending_way_name(way), name, read)
}

fn got_line(
    alloc: Global,
    word: &str,
    name: &str,
    read: &Option<(String, usize)>,
) -> Result<String, AllocError>
    ensures { IfOk result (λ line. string_bytes line ≡ read_text word.now name.now (placed read.now)) }
{
    let mut line = String::from_str(alloc, word)?;
    line.push_str("\t")?;
    push_shown(&mut line, name)?;
    line.push_str("\t")?;
    push_read(&mut line, read)?;
    line.push_str("\n")?;
    Ok(line)
}

/// The line of a header: the word and the header, parted by a tab.
pub fn header_line(alloc: Global, header: &str) -> Result<String, AllocError>
    ensures { IfOk result (λ line. string_bytes line ≡ reading_text (Header header.now)) }
{
    let mut line = String::new(alloc);
    line.push_str("header\t")?;
    push_shown(&mut line, header)?;
    line.push_str("\n")?;
    Ok(line)
}

fn way_name(way: Way) -> &'static str
    ensures { result.now ≡ way_text way }
{
    match way {
        Way::Plain => "plain",
        Way::Host => "host",
        Way::Secure => "secure",
        Way::Signed => "signed",
        Way::Sealed => "sealed",
    }
}

fn ending_way_name(way: EndingWay) -> &'static str
    ensures { result.now ≡ ending_way_text way }
{
    match way {
        EndingWay::Signed => "signed-until",
        EndingWay::Sealed => "sealed-until",
    }
}

fn push_read(line: &mut String, read: &Option<(String, usize)>) -> Result<(), AllocError>
    ensures { OnOk result (string_bytes line.new ≡ string_bytes line.old ++ shown_read (placed read.now)) }
{
    match read {
        Some((value, place)) => {
            line.push_str("=")?;
            push_shown(line, value.as_str())?;
            push_place(line, *place)
        }
        None => line.push_str("-"),
    }
}

fn push_place(line: &mut String, place: usize) -> Result<(), AllocError>
    ensures { OnOk result (string_bytes line.new ≡ string_bytes line.old ++ shown_place place) }
{
    if place == 0 {
        return Ok(());
    }
    write!(line, "\t{place}")
}

fn push_shown(line: &mut String, text: &str) -> Result<(), AllocError>
    ensures { OnOk result (string_bytes line.new ≡ string_bytes line.old ++ shown_escaped text.now) }
{
    percent_encode(text.as_bytes(), SHOWN).append_to(line)
}
