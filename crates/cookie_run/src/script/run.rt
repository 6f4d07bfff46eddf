//! The run of a script.
ghost use Rattle.std.specs.Prelude.{◌≡◌, ◌⊎◌, ◌^◌, ◌-◌, ℕ, List, IfOk, OnOk, OnErr, IfErr, IfSome, IsErrOf, None};
ghost use Rattle.std.specs.Io.KnownBytes.{Appends};
ghost use Rattle.jiff.specs.Words.{civil_nanos};
ghost use Rattle.cookie.specs.KeyRing.{alone};
ghost use Rattle.devices.specs.Device.{Rose, one_more};
ghost use Rattle.cookie_run.specs.Drawn.{DrawsSo};
ghost use Rattle.cookie_run.specs.ScriptDrawn.{IsScriptBy};
ghost use Rattle.cookie_run.specs.ScriptText.{Runs, LeavesFront, fault_text};

use crate::script::cause::Cause;
use crate::script::ended::{Ended, RunError};
use crate::script::field::cut_line;
use crate::script::visit::{Visit, follow};
use cookie::{Key, KeyRing};
use cookie_client::Client;
use cookie_client::session::copy_of;
use devices::pour::{Stop, flush, read_all, write_all, write_number};
use devices::{Sink, Source};
use jiff::civil::DateTime;
use rand_core::TryRng;
use std::alloc::Global;

/// Plays the script that is read, line by line, on the client, and writes what it prints. Its sessions open on a ring
/// of keys, which is this key alone at first.
///
/// `last` is the last moment so far, in UTC; afterwards it is that of the last line done that has
/// one. The first line with a fault ends the run with `line N: Name` as the last thing printed, and
/// what was done before it stands. The writer is flushed once, before the run ends. Whatever fails, the
/// client's cookies and `last` are those that the first lines of what was read leave.
///
/// # Errors
///
/// `Read` where a call of the reader failed, or 2^64 - 1 reads met no end, and `Write` where a call of
/// the writer failed.
pub fn run<R: Source, W: Sink, G: TryRng>(
    alloc: Global,
    reader: &mut R,
    writer: &mut W,
    client: &mut Client,
    last: &mut DateTime,
    key: &Key,
    rng: &mut G,
) -> Result<Ended, RunError>
    ensures text { IfOk result (λ ended. IfSome (R.left reader.old) (λ input. (output : List ℕ)
        × Appends (W.written writer.old) (W.written writer.new) output
        × Runs G.Error client.old.suffixes (alone key.now) client.old.rows (civil_nanos last.old) input output
        client.new.rows (civil_nanos last.new) ended)) }
    ensures list { client.new.suffixes ≡ client.old.suffixes }
    ensures read { IsErrOf result RunError.Read
        → Rose (R.failures reader.old) (R.failures reader.new) ⊎ (R.reads reader.new ≡ 2 ^ 64 - 1) }
    ensures write { IsErrOf result RunError.Write → Rose (W.failures writer.old) (W.failures writer.new) }
    ensures failures { OnOk result ((R.failures reader.new ≡ R.failures reader.old)
        × (W.failures writer.new ≡ W.failures writer.old)) }
    ensures flushed { OnOk result (W.flushes writer.new ≡ one_more (W.flushes writer.old)) }
    ensures unflushed { OnOk result (W.unflushed writer.new ≡ 0) }
    ensures leaves { (input : List ℕ) × IfSome (R.left reader.old) (λ whole. input ≡ whole)
        × LeavesFront client.old.suffixes (alone key.now) client.old.rows (civil_nanos last.old) input client.new.rows
        (civil_nanos last.new) result }
    ensures unread { IsErrOf result RunError.Read
        → (client.new ≡ client.old) × (last.new ≡ last.old) × (rng.new ≡ rng.old) }
    ensures draws { (input : List ℕ) × IfSome (R.left reader.old) (λ whole. input ≡ whole)
        × DrawsSo G.may_fill G.Error rng.old (λ drawn. IsScriptBy drawn client.old.suffixes (alone key.now)
        client.old.rows (civil_nanos last.old) input (W.written writer.old) (W.written writer.new) client.new.rows
        (civil_nanos last.new) result) rng.new }
{
    match read_all(alloc, reader) {
        Ok(input) => {
            let mut visit = None;
            let mut ring = KeyRing::new(alloc, copy_of(key));
            play_text(
                alloc, &input, writer, client, last, &mut visit, &mut ring, rng,
            )
        }
        Err(Stop::Memory) => stop_at(writer, 1, Cause::Memory),
        Err(Stop::Read) => Err(RunError::Read),
    }
}

// Plays the lines of a text, and flushes. No session is open at first.
fn play_text<W: Sink, G: TryRng>(
    alloc: Global,
    text: &[u8],
    writer: &mut W,
    client: &mut Client,
    last: &mut DateTime,
    visit: &mut Option<Visit>,
    ring: &mut KeyRing,
    rng: &mut G,
) -> Result<Ended, RunError>
    requires { visit.old ≡ None }
    ensures text { IfOk result (λ ended. (output : List ℕ)
        × Appends (W.written writer.old) (W.written writer.new) output
        × Runs G.Error client.old.suffixes ring.old client.old.rows (civil_nanos last.old) text.now output
        client.new.rows (civil_nanos last.new) ended) }
    ensures list { client.new.suffixes ≡ client.old.suffixes }
    ensures failures { OnOk result (W.failures writer.new ≡ W.failures writer.old) }
    ensures write { OnErr result (Rose (W.failures writer.old) (W.failures writer.new)) }
    ensures only { IfErr result (λ e. e ≡ RunError.Write) }
    ensures flushed { OnOk result (W.flushes writer.new ≡ one_more (W.flushes writer.old)) }
    ensures unflushed { OnOk result (W.unflushed writer.new ≡ 0) }
    ensures leaves { LeavesFront client.old.suffixes ring.old client.old.rows (civil_nanos last.old) text.now
        client.new.rows (civil_nanos last.new) result }
    ensures draws { DrawsSo G.may_fill G.Error rng.old (λ drawn. IsScriptBy drawn client.old.suffixes ring.old
        client.old.rows (civil_nanos last.old) text.now (W.written writer.old) (W.written writer.new) client.new.rows
        (civil_nanos last.new) result) rng.new }
{
    let mut done = 0;
    let mut rest = text;
    while !rest.is_empty() {
        let (line, more) = cut_line(rest);
        match follow(alloc, ring, line, client, last, visit, rng) {
            Ok(printed) => write_all(writer, printed.as_str().as_bytes())?,
            Err(cause) => return stop_at(writer, done + 1, cause),
        }
        done += 1;
        rest = more;
    }
    flush(writer)?;
    Ok(Ended::Whole)
}

// Writes the line of a fault, which takes no memory, and flushes.
fn stop_at<W: Sink>(writer: &mut W, line: u64, cause: Cause) -> Result<Ended, RunError>
    ensures text { OnOk result (Appends (W.written writer.old) (W.written writer.new) (fault_text line cause)) }
    ensures ended { IfOk result (λ ended. ended ≡ Ended.Faulty line) }
    ensures failures { OnOk result (W.failures writer.new ≡ W.failures writer.old) }
    ensures write { OnErr result (Rose (W.failures writer.old) (W.failures writer.new)) }
    ensures only { IfErr result (λ e. e ≡ RunError.Write) }
    ensures flushed { OnOk result (W.flushes writer.new ≡ one_more (W.flushes writer.old)) }
    ensures unflushed { OnOk result (W.unflushed writer.new ≡ 0) }
{
    write_all(writer, b"line ")?;
    write_number(writer, line)?;
    write_all(writer, b": ")?;
    write_all(writer, cause.name().as_bytes())?;
    write_all(writer, b"\n")?;
    flush(writer)?;
    Ok(Ended::Faulty(line))
}
