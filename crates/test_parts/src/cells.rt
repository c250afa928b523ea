//! The cells of a case, and the words for what it comes to.

use crate::refused::{Refused, Told};
use std::alloc::{AllocError, Global};
use unum_json::{Fields, Items, Json, Seen, Text, copy_items, read, to_json, to_text};

/// The first word, and what stands behind the blank after it.
pub fn word(text: &str) -> (&str, &str) {
    text.split_once(' ').unwrap_or((text, ""))
}

/// The value that bytes spell.
pub fn json(alloc: Global, bytes: &[u8]) -> Result<Json, Refused> {
    let value = read(alloc, bytes)?;
    let json = to_json(alloc, &value);
    drop(value);
    Ok(json?)
}

/// The cells that stand in a text.
pub fn cells_in(alloc: Global, text: &str) -> Result<Items<Json>, Refused> {
    let text = format!(in alloc; "[{text}]")?;
    let cells = json(alloc, text.as_bytes());
    drop(text);
    let cells = cells?;
    let list = list_of(alloc, &cells);
    drop(cells);
    list
}

fn list_of(alloc: Global, cell: &Json) -> Result<Items<Json>, Refused> {
    match cell.seen() {
        Seen::Arr(cells) => Ok(copy_items(alloc, cells)?),
        _ => Err(Refused::NoCase),
    }
}

/// The cells of a list.
pub fn list_in(cell: &Json) -> Result<&[Json], Refused> {
    match cell.seen() {
        Seen::Arr(cells) => Ok(cells.as_slice()),
        _ => Err(Refused::NoCase),
    }
}

/// The members of an object.
pub fn members_in(cell: &Json) -> Result<&Fields<Json>, Refused> {
    match cell.seen() {
        Seen::Obj(fields) => Ok(fields),
        _ => Err(Refused::NoCase),
    }
}

/// The text of a cell.
pub fn text_in(cell: &Json) -> Result<&Text, Refused> {
    match cell.seen() {
        Seen::Str(text) => Ok(text),
        _ => Err(Refused::NoCase),
    }
}

/// The number of a cell, below 2 to the 32nd. `NoCase` where it has none.
pub fn number(cell: &Json) -> Result<u32, Refused> {
    match cell.seen() {
        Seen::Int(n) => u32::try_from(n).ok().ok_or(Refused::NoCase),
        _ => Err(Refused::NoCase),
    }
}

fn push_numbers(numbers: &mut Vec<u32>, cells: &[Json]) -> Result<(), Refused> {
    for cell in cells {
        numbers.push(number(cell)?)?;
    }
    Ok(())
}

/// The numbers of cells, in their order. `NoCase` where some cell has none.
pub fn numbers(alloc: Global, cells: &[Json]) -> Result<Vec<u32>, Refused> {
    let mut numbers = Vec::new(alloc);
    match push_numbers(&mut numbers, cells) {
        Ok(()) => Ok(numbers),
        Err(refused) => {
            drop(numbers);
            Err(refused)
        }
    }
}

/// Adds the bytes of a text, or the byte with a number.
fn push_part(out: &mut Vec<u8>, part: &Json) -> Result<(), AllocError> {
    match part.seen() {
        Seen::Str(text) => out.extend_from_slice(text.as_bytes()),
        Seen::Int(n) => out.extend_from_slice(&[u8::try_from(n).unwrap_or(b'?')]),
        _ => Ok(()),
    }
}

fn push_parts(out: &mut Vec<u8>, cell: &Json) -> Result<(), AllocError> {
    let Seen::Arr(parts) = cell.seen() else {
        return push_part(out, cell);
    };
    for part in parts.as_slice() {
        push_part(out, part)?;
    }
    Ok(())
}

/// The bytes of a cell.
pub fn bytes(alloc: Global, cell: &Json) -> Result<Vec<u8>, AllocError> {
    let mut out = Vec::new(alloc);
    match push_parts(&mut out, cell) {
        Ok(()) => Ok(out),
        Err(refused) => {
            drop(out);
            Err(refused)
        }
    }
}

/// The text.
pub fn said(alloc: Global, text: &str) -> Told {
    Ok(Text::from_str(alloc, text)?)
}

/// Whether two are the same.
pub fn said_same(alloc: Global, is_same: bool) -> Told {
    said(alloc, if is_same { "same" } else { "different" })
}

/// The text that was formatted.
pub fn formatted(text: Result<String, AllocError>) -> Told {
    Ok(Text::from_string(text?)?)
}

/// The text in quotes.
pub fn quoted(alloc: Global, word: &str, text: Text) -> Told {
    let told = formatted(format!(in alloc; "{word}\"{}\"", text.as_str()));
    drop(text);
    told
}

/// The text of a value.
pub fn shown(alloc: Global, value: Json) -> Told {
    let text = to_text(alloc, &value);
    drop(value);
    Ok(text?)
}
