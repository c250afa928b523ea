//! What cases are given.

use crate::fault::Fault;
use std::alloc::Global;
use std::fmt::Debug;

/// The last bundle, and the bytes that lines made of it.
#[derive(Drop)]
pub struct Given {
    bundle: String,
    bytes: Vec<u8>,
}

/// The number in a word.
pub fn number(word: &str) -> Result<u32, Fault> {
    word.parse().ok().ok_or(Fault::NotRead)
}

/// The whole number in a word.
pub fn whole(word: &str) -> Result<i64, Fault> {
    word.parse().ok().ok_or(Fault::NotRead)
}

/// The word that a line begins with, and the rest.
pub fn split_word(line: &str) -> (&str, &str) {
    line.split_once(" ").unwrap_or((line, ""))
}

/// Writes a line with a word and what it comes to.
pub fn tell<V: Debug>(out: &mut String, word: &str, value: &V) -> Result<(), Fault> {
    writeln!(out, "{word}: {value:?}")?;
    Ok(())
}

/// The two parts of a text round the first place of a mark.
pub fn parted<'a>(text: &'a str, mark: &str) -> Result<(&'a str, &'a str), Fault> {
    text.split_once(mark).ok_or(Fault::NotRead)
}

/// Adds a byte that is given by two digits, and the text behind these.
fn push_escaped(bytes: &mut Vec<u8>, text: &str) -> Result<(), Fault> {
    let (digits, rest) = text.split_at_checked(2).ok_or(Fault::NotRead)?;
    bytes.push(u8::from_str_radix(digits, 16).ok().ok_or(Fault::NotRead)?)?;
    bytes.extend_from_slice(rest.as_bytes())?;
    Ok(())
}

/// Adds the bytes of a text, in which `\xHH` stands for a byte.
fn push_text(bytes: &mut Vec<u8>, text: &str) -> Result<(), Fault> {
    for (i, piece) in text.split("\\x").enumerate() {
        if i == 0 {
            bytes.extend_from_slice(piece.as_bytes())?;
        } else {
            push_escaped(bytes, piece)?;
        }
    }
    Ok(())
}

/// Adds a byte so many times.
fn push_times(bytes: &mut Vec<u8>, byte: u8, times: u32) -> Result<(), Fault> {
    for _ in 0..times {
        bytes.push(byte)?;
    }
    Ok(())
}

/// Adds the states of a chain of Tasks with the names 0 to `last`.
fn push_chain(text: &mut String, last: u32) -> Result<(), Fault> {
    for name in 0..last {
        let next = name + 1;
        write!(
            text,
            "\"{name}\":{{\"Type\":\"Task\",\"Resource\":\"f\",\"Next\":\"{next}\"}},"
        )?;
    }
    write!(
        text,
        "\"{last}\":{{\"Type\":\"Task\",\"Resource\":\"f\",\"End\":true}}"
    )?;
    Ok(())
}

/// What stands before and behind the states of a chain.
const CHAIN: (&str, &str) = (
    "{\"functions\":{\"f\":{\"kind\":\"echo\"}},\"machines\":{\"m\":{\"StartAt\":\"0\",\"States\":{",
    "}}},\"sessions\":[{\"machine\":\"m\",\"input\":5}]}",
);

impl Given {
    /// No bundle, and no bytes.
    pub fn new(alloc: Global) -> Given {
        Given {
            bundle: String::new(alloc),
            bytes: Vec::new(alloc),
        }
    }

    /// The bytes that were taken over last.
    pub fn bytes(&self) -> &[u8] {
        self.bytes.as_slice()
    }

    /// Takes over a bundle.
    pub fn set_bundle(&mut self, text: &str) -> Result<bool, Fault> {
        self.bundle.clear();
        self.bundle.push_str(text)?;
        self.bytes.clear();
        push_text(&mut self.bytes, text)?;
        Ok(true)
    }

    /// The bundle with another text in place of the first such one.
    pub fn change(&mut self, rest: &str) -> Result<bool, Fault> {
        let (old, new) = parted(rest, " | ")?;
        let (before, behind) = parted(self.bundle.as_str(), old)?;
        self.bytes.clear();
        push_text(&mut self.bytes, before)?;
        push_text(&mut self.bytes, new)?;
        push_text(&mut self.bytes, behind)?;
        Ok(true)
    }

    /// A bundle with a chain of so many Tasks.
    pub fn chain(&mut self, alloc: Global, rest: &str) -> Result<bool, Fault> {
        let count = number(rest)?;
        let mut text = String::from_str(alloc, CHAIN.0)?;
        push_chain(&mut text, count.saturating_sub(1))?;
        text.push_str(CHAIN.1)?;
        self.set_bundle(text.as_str())
    }

    /// So many blanks.
    pub fn blank(&mut self, rest: &str) -> Result<bool, Fault> {
        self.bytes.clear();
        push_times(&mut self.bytes, b' ', number(rest)?)?;
        Ok(true)
    }
}
