//! All bytes of a source, up to a bound.

ghost use Rattle.std.specs.Prelude.{◌≡◌, ◌≤◌, OnOk, OnErr};
ghost use Rattle.std.specs.Io.KnownBytes.{Appends};
ghost use Rattle.unum_io.specs.Causes.{HasCause};
ghost use Rattle.unum_io.specs.Told.{CountsFaults, ReadsAll, TookFront};

use crate::sink::Sink;
use crate::source::{Failed, Source};
use std::alloc::Global;

// How many bytes a read is asked for.
const BUFFER: usize = 4_096;

/// What was read: a list of bytes.
pub type Bytes = Vec<u8>;

/// Why not all bytes were read. What the source gave before is gone.
#[derive(Clone, Copy, Debug, PartialEq, Eq)]
pub enum ReadAll {
    /// The source gave more bytes than were asked for.
    TooLong,
    /// A read failed.
    Fault,
    /// Memory ran out.
    NoMemory,
}

/// All bytes to the end, of which there are at most `max`. Each read is handed a buffer of 4,096 bytes.
///
/// `TooLong` comes exactly where more than `max` bytes were given, and `Fault` only where the source's count of faults
/// rose. Else that count is as it was.
pub fn read_all<S: Source>(alloc: Global, source: &mut S, max: u64) -> Result<Bytes, ReadAll>
    ensures later { S.faults source.old ≤ S.faults source.new }
    ensures counted { CountsFaults (S.faults source.old) (S.faults source.new) result }
    ensures read { ReadsAll (S.left source.old) (S.left source.new) (S.faults source.old) (S.faults source.new) max result }
{
    let mut bytes = Vec::new(alloc);
    let mut buffer = [0u8; BUFFER];
    'reads: while bytes.len() as u64 <= max {
        let Ok(count) = source.read(&mut buffer) else {
            return Err(ReadAll::Fault);
        };
        if count == 0 {
            return Ok(bytes);
        }
        if bytes.extend_from_slice(&buffer[..count]).is_err() {
            return Err(ReadAll::NoMemory);
        }
    }
    Err(ReadAll::TooLong)
}

/// Writes the whole text. Each write is handed all that is left of it.
///
/// `Failed` comes only where the sink's count of faults rose. Then a front of the text was taken. Else that count is as it
/// was.
pub fn write_all<K: Sink>(sink: &mut K, text: &[u8]) -> Result<(), Failed>
    ensures ok { OnOk result (Appends (K.taken sink.old) (K.taken sink.new) text.now) }
    ensures err { OnErr result (TookFront (K.taken sink.old) (K.taken sink.new) text.now) }
    ensures cause { HasCause (K.faults sink.old) (K.faults sink.new) result }
{
    let mut rest = text;
    while !rest.is_empty() {
        let count = sink.write(rest)?;
        rest = &rest[count..];
    }
    Ok(())
}
