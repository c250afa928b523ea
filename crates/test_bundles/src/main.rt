//! Asks `validate`, `compile` and `ir` about texts, good and broken at every rule and field, and prints the status and what is written.
//!
//! A line `command WORD` says which command is asked from there on. A line `base JSON` gives a text. A line `edited OLD => NEW`, or
//! with several edits `edited OLD => NEW && OLD => NEW`, asks about that text with each OLD, which stands there once, in another
//! form; a line `text BYTES` about these bytes.
#![tactic(auto)]

use std::alloc::{AllocError, Global};
use std::io;
use std::io::Print;
use unum_cli::{Desk, Status, tool};
use unum_io::{MemSink, MemSource};
use unum_json::{Items, NoMemory, Text};

/// Room for the longest list of broken rules.
const ROOM: u64 = 65_536;

/// Why a case has no answer.
#[derive(Drop)]
enum Trouble {
    /// The line is no case: an edit has no ` => `, or its old text does not stand in the bundle.
    NoCase,
    NoMemory,
}

impl From<AllocError> for Trouble {
    fn from(_refused: AllocError) -> Trouble {
        Trouble::NoMemory
    }
}

impl From<NoMemory> for Trouble {
    fn from(_refused: NoMemory) -> Trouble {
        Trouble::NoMemory
    }
}

/// The text with one edit made.
fn edited(alloc: Global, text: &str, edit: &str) -> Result<String, Trouble> {
    let (old, new) = edit.split_once(" => ").ok_or(Trouble::NoCase)?;
    let (before, after) = text.split_once(old).ok_or(Trouble::NoCase)?;
    let mut made = String::from_str(alloc, before)?;
    made.push_str(new)?;
    made.push_str(after)?;
    Ok(made)
}

/// The text with all edits of a line made.
fn with_edits(alloc: Global, base: &str, edits: &str) -> Result<String, Trouble> {
    let mut text = String::from_str(alloc, base)?;
    for edit in edits.split(" && ") {
        text = edited(alloc, text.as_str(), edit)?;
    }
    Ok(text)
}

/// What a command answers to these bytes, and what it writes.
fn answer(alloc: Global, command: &str, bytes: &[u8]) -> Result<(Status, MemSink), Trouble> {
    let mut words = Items::new(alloc);
    words.push(Text::from_str(alloc, command)?)?;
    let mut source = MemSource::new(alloc, bytes, &[])?;
    let mut out = MemSink::new(alloc, ROOM, &[])?;
    let mut desk = Desk::Empty;
    let status = tool(alloc, &words, &mut source, &mut out, &mut desk);
    Ok((status, out))
}

/// Prints the code of the status, and then what was written.
fn show(rt: &impl Print, answer: Result<(Status, MemSink), Trouble>) -> io::Result<()> {
    match answer {
        Ok((status, out)) => {
            let text = str::from_utf8(out.held()).unwrap_or("no text\n");
            print!(rt; "{} {text}", status.code())
        }
        Err(Trouble::NoCase) => println!(rt; "no case"),
        Err(Trouble::NoMemory) => println!(rt; "no memory"),
    }
}

/// Asks about the text with the edits of a line.
fn ask(
    alloc: Global,
    command: &str,
    base: &str,
    edits: &str,
) -> Result<(Status, MemSink), Trouble> {
    let text = with_edits(alloc, base, edits)?;
    answer(alloc, command, text.as_bytes())
}

/// Makes a text out of another one.
fn replace(text: &mut String, with: &str) -> Result<(), AllocError> {
    text.clear();
    text.push_str(with)
}

fn main(rt: HostRuntime) -> io::Result<()> {
    let alloc = rt.alloc();
    let mut command = String::from_str(alloc, "validate")?;
    let mut base = String::new(alloc);
    for line in rt.lines(alloc) {
        let line = line?;
        let line = line.as_str();
        if let Some(word) = line.strip_prefix("command ") {
            replace(&mut command, word)?;
        } else if let Some(text) = line.strip_prefix("base ") {
            replace(&mut base, text)?;
            show(&rt, answer(alloc, command.as_str(), text.as_bytes()))?;
        } else if let Some(edits) = line.strip_prefix("edited ") {
            show(&rt, ask(alloc, command.as_str(), base.as_str(), edits))?;
        } else if let Some(text) = line.strip_prefix("text ") {
            show(&rt, answer(alloc, command.as_str(), text.as_bytes()))?;
        }
    }
    Ok(())
}
