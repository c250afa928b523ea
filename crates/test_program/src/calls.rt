//! Cases of the top call.
ghost use Rattle.std.specs.Prelude.{◌≤◌, IfOk, IfSome};

use crate::fault::Fault;
use crate::given::number;
use std::alloc::Global;
use unum_cli::{Desk, tool};
use unum_io::{MemSink, MemSource};
use unum_json::{Items, Text};

/// The most bytes that a call may write.
const ROOM: u64 = 65_536;

fn push_words(alloc: Global, words: &mut Items<Text>, list: &str) -> Result<(), Fault> {
    for word in list.split_whitespace() {
        words.push(Text::from_str(alloc, word)?)?;
    }
    Ok(())
}

/// The words of a list, between which there are blanks.
fn words(alloc: Global, list: &str) -> Result<Items<Text>, Fault> {
    let mut words = Items::new(alloc);
    push_words(alloc, &mut words, list)?;
    Ok(words)
}

fn push_numbers(numbers: &mut Vec<u32>, list: &str) -> Result<(), Fault> {
    for word in list.split_whitespace() {
        numbers.push(number(word)?)?;
    }
    Ok(())
}

/// The numbers after that word in the parts of a line.
fn numbers(alloc: Global, line: &str, word: &str) -> Result<Vec<u32>, Fault> {
    let mut numbers = Vec::new(alloc);
    for part in line.split('|') {
        if let Some(list) = part.trim().strip_prefix(word) {
            push_numbers(&mut numbers, list)?;
        }
    }
    Ok(numbers)
}

/// The size of the pieces after that word in the parts of a line, if it is there and no zero.
fn piece(line: &str, word: &str) -> Result<Option<u32>, Fault>
    ensures { IfOk result (λ p. IfSome p (λ n. 1 ≤ n)) }
{
    for part in line.split('|') {
        if let Some(digits) = part.trim().strip_prefix(word) {
            let size = number(digits)?;
            return if size > 0 {
                Ok(Some(size))
            } else {
                Err(Fault::NotRead)
            };
        }
    }
    Ok(None)
}

/// A source of these bytes, which may give them in pieces, and some of whose reads fail.
fn source(alloc: Global, bytes: &[u8], line: &str) -> Result<MemSource, Fault> {
    let failing = numbers(alloc, line, "reads ")?;
    match piece(line, "gives ")? {
        Some(size) => Ok(MemSource::in_pieces(alloc, bytes, size, failing.as_slice())?),
        None => Ok(MemSource::new(alloc, bytes, failing.as_slice())?),
    }
}

/// A sink, which may take its bytes in pieces, and some of whose writes fail.
fn sink(alloc: Global, line: &str) -> Result<MemSink, Fault> {
    let failing = numbers(alloc, line, "writes ")?;
    match piece(line, "takes ")? {
        Some(size) => Ok(MemSink::in_pieces(alloc, ROOM, size, failing.as_slice())?),
        None => Ok(MemSink::new(alloc, ROOM, failing.as_slice())?),
    }
}

fn tell_desk(out: &mut String, desk: &Desk) -> Result<(), Fault> {
    match desk {
        Desk::Empty => out.push_str("desk empty\n")?,
        Desk::Open(world) => writeln!(out, "desk open, {} events", world.length())?,
    }
    Ok(())
}

fn tell(out: &mut String, code: u8, text: &[u8], desk: &Desk) -> Result<(), Fault> {
    writeln!(out, "status {code}")?;
    out.push_str(str::from_utf8(text).ok().ok_or(Fault::NotRead)?)?;
    tell_desk(out, desk)
}

/// Makes the call, and writes its status, what it wrote and what is on the desk.
fn call(
    alloc: Global,
    out: &mut String,
    words: &Items<Text>,
    source: &mut MemSource,
    sink: &mut MemSink,
) -> Result<(), Fault> {
    let mut desk = Desk::Empty;
    let status = tool(alloc, words, source, sink, &mut desk);
    let told = tell(out, status.code(), sink.held(), &desk);
    drop(desk);
    told
}

/// The answer to these bytes.
fn answer(
    alloc: Global,
    out: &mut String,
    words: &Items<Text>,
    bytes: &[u8],
    failing: &str,
) -> Result<(), Fault> {
    let mut source = source(alloc, bytes, failing)?;
    let mut sink = sink(alloc, failing)?;
    call(alloc, out, words, &mut source, &mut sink)
}

/// The top call with these words.
pub fn tool_case(alloc: Global, out: &mut String, bytes: &[u8], rest: &str) -> Result<(), Fault> {
    let (list, failing) = match rest.split_once('|') {
        Some(parts) => parts,
        None => (rest, ""),
    };
    let words = words(alloc, list)?;
    answer(alloc, out, &words, bytes, failing)
}

/// How many of the proper prefixes are answered so.
fn count_same(alloc: Global, words: &Items<Text>, bytes: &[u8], first: &str) -> Result<u32, Fault> {
    let mut found = String::new(alloc);
    let mut count = 0u32;
    for length in 0..bytes.len() {
        found.clear();
        answer(alloc, &mut found, words, &bytes[..length], "")?;
        if found.as_str() == first {
            count = count.saturating_add(1);
        }
    }
    Ok(count)
}

/// The top call with each proper prefix of the bytes: how many are answered as the empty one.
pub fn prefixes(alloc: Global, out: &mut String, bytes: &[u8], rest: &str) -> Result<(), Fault> {
    let words = words(alloc, rest)?;
    let mut first = String::new(alloc);
    answer(alloc, &mut first, &words, b"", "")?;
    let count = count_same(alloc, &words, bytes, first.as_str())?;
    writeln!(out, "{count} of {} lengths:", bytes.len())?;
    out.push_str(first.as_str())?;
    Ok(())
}
