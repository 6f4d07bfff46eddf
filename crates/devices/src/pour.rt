//! All that a source has, and all of a text to a sink. A call that fails isn't tried again.
ghost use Rattle.std.specs.Prelude.{◌≡◌, ◌⊎◌, ◌^◌, ◌-◌, IfOk, IsOk, OnOk, OnErr, IfSome, IsErrOf, decimal, length, ◌<◌};
ghost use Rattle.std.specs.Io.KnownBytes.{Appends, Keeps};
ghost use Rattle.devices.specs.Device.{AppendsFront, Rose, one_more};

use crate::device::{Sink, Source};
use std::alloc::Global;

/// Why a source isn't read to its end.
#[derive(Clone, Copy, Debug, PartialEq, Eq)]
pub enum Stop {
    /// A read failed, or 2^64 - 1 reads met no end.
    Read,
    /// Memory was refused.
    Memory,
}

/// All that is left to read. Memory is asked for where there is something to read.
pub fn read_all<R: Source>(alloc: Global, reader: &mut R) -> Result<Vec<u8>, Stop>
    ensures bytes { IfOk result (λ all. IfSome (R.left reader.old) (λ input. all.items ≡ input)) }
    ensures memory { IsErrOf result Stop.Memory → IfSome (R.left reader.old) (λ input. 0 < length input) }
    ensures failures { IsOk result ⊎ IsErrOf result Stop.Memory → R.failures reader.new ≡ R.failures reader.old }
    ensures read { IsErrOf result Stop.Read
        → Rose (R.failures reader.old) (R.failures reader.new) ⊎ (R.reads reader.new ≡ 2 ^ 64 - 1) }
{
    let mut all = Vec::new(alloc);
    let mut chunk = [0; 64];
    'reads: for _ in 0..u64::MAX {
        match reader.read(&mut chunk) {
            Ok(0) => return Ok(all),
            Ok(n) => match all.extend_from_slice(&chunk[..n]) {
                Ok(()) => {}
                Err(_) => return Err(Stop::Memory),
            },
            Err(_) => return Err(Stop::Read),
        }
    }
    Err(Stop::Read)
}

/// The writer failed.
#[derive(Clone, Copy, Debug, PartialEq, Eq)]
pub struct WriteFailed;

/// All of the bytes. A failed call isn't tried again.
pub fn write_all<W: Sink>(writer: &mut W, bytes: &[u8]) -> Result<(), WriteFailed>
    ensures bytes { OnOk result (Appends (W.written writer.old) (W.written writer.new) bytes.now) }
    ensures front { OnErr result (AppendsFront (W.written writer.old) (W.written writer.new) bytes.now) }
    ensures failures { OnOk result (W.failures writer.new ≡ W.failures writer.old) }
    ensures err { OnErr result (Rose (W.failures writer.old) (W.failures writer.new)) }
    ensures flushes { W.flushes writer.new ≡ W.flushes writer.old }
{
    let mut rest = bytes;
    while !rest.is_empty() {
        let Ok(n) = writer.write(rest) else {
            return Err(WriteFailed);
        };
        if n == 0 {
            return Err(WriteFailed);
        }
        rest = &rest[n..];
    }
    Ok(())
}

/// The decimal digits of a number. It takes no memory.
pub fn write_number<W: Sink>(writer: &mut W, n: u64) -> Result<(), WriteFailed>
    ensures bytes { OnOk result (Appends (W.written writer.old) (W.written writer.new) (decimal n)) }
    ensures failures { OnOk result (W.failures writer.new ≡ W.failures writer.old) }
    ensures err { OnErr result (Rose (W.failures writer.old) (W.failures writer.new)) }
    ensures flushes { W.flushes writer.new ≡ W.flushes writer.old }
{
    if n >= 10 {
        write_number(writer, n / 10)?;
    }
    let digit = b'0' + (n % 10) as u8;
    write_all(writer, &[digit])
}

/// Flushes the writer.
pub fn flush<W: Sink>(writer: &mut W) -> Result<(), WriteFailed>
    ensures bytes { OnOk result (Keeps (W.written writer.old) (W.written writer.new)) }
    ensures failures { OnOk result (W.failures writer.new ≡ W.failures writer.old) }
    ensures err { OnErr result (Rose (W.failures writer.old) (W.failures writer.new)) }
    ensures flushes { W.flushes writer.new ≡ one_more (W.flushes writer.old) }
    ensures unflushed { OnOk result (W.unflushed writer.new ≡ 0) }
{
    match writer.flush() {
        Ok(()) => Ok(()),
        Err(_) => Err(WriteFailed),
    }
}
