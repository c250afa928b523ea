//! Cases of sources and sinks:
//!
//! - `source memory BYTES, [CALL,..], MOST`: reading all of a source in memory, whose reads with these numbers fail (a MOST that
//!   is null is the greatest);
//! - `source long COUNT, [CALL,..], MOST`: so too of so many bytes;
//! - `source device CALL`: reading all of a device that fails at one call;
//! - `source gauge COUNT`: the buffers that a source is handed;
//! - `sink memory TEXT, [CALL,..], ROOM`, `sink device CALL, STEP`, `sink gauge`: so too of writing all.
ghost use Rattle.std.specs.Prelude.{None};

use crate::cells::{bytes, formatted, list_in, number, numbers, said, text_in};
use crate::refused::{Refused, Told};
use std::alloc::Global;
use std::io::{self, ErrorKind};
use unum_io::{
    Bytes, Failed, MemSink, MemSource, ReadAll, Sink, Source, StdSink, StdSource, read_all,
    write_all,
};
use unum_json::{Json, Seen};

/// What was read, which is to be these bytes.
fn all_read(alloc: Global, answer: Result<Bytes, ReadAll>, wanted: &[u8]) -> Told {
    let bytes = answer?;
    let same = bytes.as_slice() == wanted;
    drop(bytes);
    if !same {
        return Err(Refused::Other);
    }
    formatted(format!(in alloc; "all {} bytes", wanted.len()))
}

fn most(cell: &Json) -> u64 {
    match cell.seen() {
        Seen::Int(n) => u64::try_from(n).unwrap_or(0),
        _ => u64::MAX,
    }
}

fn read_memory(alloc: Global, given: &[u8], calls: &[Json], most: u64) -> Told {
    let failing = numbers(alloc, calls)?;
    let source = MemSource::new(alloc, given, failing.as_slice());
    drop(failing);
    let mut source = source?;
    let answer = read_all(alloc, &mut source, most);
    drop(source);
    all_read(alloc, answer, given)
}

fn read_bytes(alloc: Global, given: &Json, calls: &[Json], most: u64) -> Told {
    let given = bytes(alloc, given)?;
    let told = read_memory(alloc, given.as_slice(), calls, most);
    drop(given);
    told
}

fn read_long(alloc: Global, count: &Json, calls: &[Json], most: u64) -> Told {
    let count = number(count)?;
    let given = vec![in alloc; 7u8; count as usize]?;
    let told = read_memory(alloc, given.as_slice(), calls, most);
    drop(given);
    told
}

fn written(answer: Result<(), Failed>) -> &'static str {
    match answer {
        Ok(()) => "written",
        Err(Failed) => "Failed",
    }
}

fn write_memory(alloc: Global, text: &[u8], calls: &[Json], room: &Json) -> Told {
    let room = u64::from(number(room)?);
    let failing = numbers(alloc, calls)?;
    let sink = MemSink::new(alloc, room, failing.as_slice());
    drop(failing);
    let mut sink = sink?;
    let answer = written(write_all(&mut sink, text));
    let held = str::from_utf8(sink.held()).unwrap_or("no text");
    let told = formatted(format!(in alloc; "{answer}, holds \"{held}\""));
    drop(sink);
    told
}

/// A device that gives or takes so many bytes at a time, and fails at the call of this number.
#[derive(Drop)]
struct Device {
    calls: u32,
    failing: u32,
    step: usize,
}

impl Device {
    fn call(&mut self) -> io::Result<u32> {
        let call = self.calls;
        self.calls = call.saturating_add(1);
        if call == self.failing {
            return Err(io::Error::from(ErrorKind::ConnectionReset));
        }
        Ok(call)
    }
}

impl io::Read for Device {
    fn read(&mut self, buf: &mut [u8]) -> io::Result<usize> {
        if self.call()? >= 3 {
            return Ok(0);
        }
        let count = buf.len().min(self.step);
        buf[..count].fill(b'x');
        Ok(count)
    }
}

impl io::Write for Device {
    fn write(&mut self, buf: &[u8]) -> io::Result<usize> {
        self.call()?;
        Ok(buf.len().min(self.step))
    }

    fn flush(&mut self) -> io::Result<()> {
        Ok(())
    }
}

fn failing_at(call: &Json, step: u32) -> Result<Device, Refused> {
    Ok(Device {
        calls: 0,
        failing: number(call)?,
        step: step as usize,
    })
}

fn read_device(alloc: Global, call: &Json) -> Told {
    let device = failing_at(call, 2)?;
    let mut source = StdSource::new(device);
    let answer = read_all(alloc, &mut source, 6);
    drop(source);
    all_read(alloc, answer, b"xxxxxx")
}

fn write_device(alloc: Global, call: &Json, step: &Json) -> Told {
    let step = number(step)?;
    let device = failing_at(call, step)?;
    let mut sink = StdSink::new(device);
    let answer = write_all(&mut sink, b"abcde");
    drop(sink);
    said(alloc, written(answer))
}

/// It notes the smallest buffer that it was handed, and whether each piece was all that was left.
#[derive(Drop)]
struct Gauge {
    left: usize,
    smallest: usize,
    whole: bool,
}

impl Source for Gauge {
    ghost left = { λ _. None };

    ghost faults = { λ _. 0 };

    fn read(&mut self, into: &mut [u8]) -> Result<usize, Failed> {
        self.smallest = self.smallest.min(into.len());
        let count = into.len().min(self.left);
        self.left -= count;
        Ok(count)
    }
}

impl Sink for Gauge {
    ghost taken = { λ _. None };

    ghost faults = { λ _. 0 };

    fn write(&mut self, from: &[u8]) -> Result<usize, Failed> {
        self.whole = self.whole && from.len() == self.left;
        let count = from.len().min(2);
        self.left = self.left.saturating_sub(count);
        Ok(count)
    }
}

fn gauged(left: usize) -> Gauge {
    Gauge {
        left,
        smallest: usize::MAX,
        whole: true,
    }
}

fn read_gauge(alloc: Global, count: &Json) -> Told {
    let count = number(count)?;
    let mut source = gauged(count as usize);
    let read = read_all(alloc, &mut source, u64::from(count)).is_ok();
    let enough = source.smallest >= 512;
    let left = source.left;
    drop(source);
    formatted(format!(in alloc; "read {read}, left {left}, 512 bytes or more {enough}"))
}

fn write_gauge(alloc: Global) -> Told {
    let mut sink = gauged(5);
    let answer = written(write_all(&mut sink, b"abcde"));
    let left = sink.left;
    let whole = sink.whole;
    drop(sink);
    formatted(format!(in alloc; "{answer}, left {left}, pieces whole {whole}"))
}

/// What a case of sources comes to.
pub fn source(alloc: Global, verb: &str, cells: &[Json]) -> Told {
    match (verb, cells) {
        ("memory", [given, calls, last]) => read_bytes(alloc, given, list_in(calls)?, most(last)),
        ("long", [count, calls, last]) => read_long(alloc, count, list_in(calls)?, most(last)),
        ("device", [call]) => read_device(alloc, call),
        ("gauge", [count]) => read_gauge(alloc, count),
        _ => Err(Refused::NoCase),
    }
}

/// What a case of sinks comes to.
pub fn sink(alloc: Global, verb: &str, cells: &[Json]) -> Told {
    match (verb, cells) {
        ("memory", [text, calls, room]) => {
            write_memory(alloc, text_in(text)?.as_bytes(), list_in(calls)?, room)
        }
        ("device", [call, step]) => write_device(alloc, call, step),
        ("gauge", []) => write_gauge(alloc),
        _ => Err(Refused::NoCase),
    }
}
