//! Cases of values, outcomes and texts:
//!
//! - `text JSON`: the compact text of the value that the rest of the line spells;
//! - `json bytes BYTES`: so too of bytes;
//! - `json size VALUE`, `json wide COUNT`, `json deep COUNT`: how large a value is: the cell, an array of so many nulls, or an
//!   empty array in others so that it nests so deep, and whether the text of that is read;
//! - `json same VALUE, VALUE`: whether the first is the same as a copy of the second;
//! - `outcome text OUTCOME`, `outcome same OUTCOME, OUTCOME`: so too, where an outcome is `{"ok":VALUE}` or
//!   `{"fail":[ERROR,CAUSE]}`;
//! - `outcome copy BYTES`, `outcome new`: a copy of a text, and its length.

use crate::cells::{
    bytes, formatted, json, list_in, members_in, number, quoted, said_same, shown, text_in,
};
use crate::refused::{Refused, Told};
use std::alloc::Global;
use unum_json::{
    Fault, Items, Json, NoMemory, Outcome, Text, WholeError, array, copy, copy_outcome, copy_text,
    depth, is_small, nodes, outcome_json, read, same, same_outcome, same_text, to_json, to_text,
};

/// Whether bytes spell a value.
fn spells(alloc: Global, bytes: &[u8], value: &Json) -> bool {
    match json(alloc, bytes) {
        Ok(found) => {
            let same = same(&found, value);
            drop(found);
            same
        }
        Err(_) => false,
    }
}

/// The text of a value, if it spells the same value.
fn written(alloc: Global, value: &Json) -> Told {
    let text = to_text(alloc, value)?;
    if spells(alloc, text.as_bytes(), value) {
        Ok(text)
    } else {
        drop(text);
        Err(Refused::Other)
    }
}

/// The compact text of the value that the bytes spell.
pub fn compact(alloc: Global, bytes: &[u8]) -> Told {
    let value = read(alloc, bytes)?;
    let json = to_json(alloc, &value);
    drop(value);
    match json {
        Ok(json) => {
            let told = written(alloc, &json);
            drop(json);
            told
        }
        Err(WholeError::NotWhole { at }) => quoted(alloc, "NotWhole at ", at),
        Err(WholeError::NoMemory) => Err(Refused::NoMemory),
    }
}

fn compact_of(alloc: Global, cell: &Json) -> Told {
    let bytes = bytes(alloc, cell)?;
    let told = compact(alloc, bytes.as_slice());
    drop(bytes);
    told
}

fn size(alloc: Global, value: &Json) -> Told {
    let nodes = nodes(value);
    let depth = depth(value);
    let small = is_small(value);
    formatted(format!(in alloc; "nodes {nodes}, depth {depth}, small {small}"))
}

fn push_nulls(items: &mut Items<Json>, count: u32) -> Result<(), NoMemory> {
    for _ in 0..count {
        items.push(Json::null())?;
    }
    Ok(())
}

fn wide(alloc: Global, count: &Json) -> Told {
    let count = number(count)?;
    let mut items = Items::new(alloc);
    let pushed = push_nulls(&mut items, count);
    let value = array(alloc, items)?;
    let told = size(alloc, &value);
    drop(value);
    pushed?;
    told
}

fn nested(alloc: Global, count: u32) -> Result<Json, NoMemory> {
    let mut value = array(alloc, Items::new(alloc))?;
    for _ in 1..count {
        let mut items = Items::new(alloc);
        items.push(value)?;
        value = array(alloc, items)?;
    }
    Ok(value)
}

fn is_read(alloc: Global, value: &Json) -> bool {
    let Ok(text) = to_text(alloc, value) else {
        return false;
    };
    let is_read = read(alloc, text.as_bytes()).is_ok();
    drop(text);
    is_read
}

fn deep(alloc: Global, count: &Json) -> Told {
    let count = number(count)?;
    let value = nested(alloc, count)?;
    let depth = depth(&value);
    let small = is_small(&value);
    let read = is_read(alloc, &value);
    drop(value);
    formatted(format!(in alloc; "depth {depth}, small {small}, read {read}"))
}

fn is_copy(alloc: Global, left: &Json, right: &Json) -> Told {
    let right = copy(alloc, right)?;
    let same = same(left, &right);
    drop(right);
    said_same(alloc, same)
}

/// What a case of values comes to.
pub fn value(alloc: Global, verb: &str, cells: &[Json]) -> Told {
    match (verb, cells) {
        ("bytes", [cell]) => compact_of(alloc, cell),
        ("size", [value]) => size(alloc, value),
        ("wide", [count]) => wide(alloc, count),
        ("deep", [count]) => deep(alloc, count),
        ("same", [left, right]) => is_copy(alloc, left, right),
        _ => Err(Refused::NoCase),
    }
}

fn fault(alloc: Global, error: &Text, cause: &Text) -> Result<Fault, NoMemory> {
    let error = copy_text(alloc, error)?;
    match copy_text(alloc, cause) {
        Ok(cause) => Ok(Fault { error, cause }),
        Err(refused) => {
            drop(error);
            Err(refused)
        }
    }
}

/// The failure with an error and a cause.
pub fn failure(alloc: Global, cell: &Json) -> Result<Fault, Refused> {
    match list_in(cell)? {
        [error, cause] => Ok(fault(alloc, text_in(error)?, text_in(cause)?)?),
        _ => Err(Refused::NoCase),
    }
}

fn outcome_in(alloc: Global, cell: &Json) -> Result<Outcome, Refused> {
    let fields = members_in(cell)?;
    if let Some(value) = fields.get(b"ok") {
        return Ok(Outcome::Done(copy(alloc, value)?));
    }
    match fields.get(b"fail") {
        Some(parts) => Ok(Outcome::Failed(failure(alloc, parts)?)),
        None => Err(Refused::NoCase),
    }
}

/// The text of an outcome.
pub fn shown_outcome(alloc: Global, outcome: &Outcome) -> Told {
    let value = outcome_json(alloc, outcome)?;
    shown(alloc, value)
}

fn text_of_outcome(alloc: Global, cell: &Json) -> Told {
    let outcome = outcome_in(alloc, cell)?;
    let told = shown_outcome(alloc, &outcome);
    drop(outcome);
    told
}

fn same_as_copy(alloc: Global, left: &Outcome, right: &Outcome) -> Told {
    let copy = copy_outcome(alloc, right)?;
    let same = same_outcome(left, &copy);
    drop(copy);
    said_same(alloc, same)
}

fn is_copy_of(alloc: Global, left: &Outcome, right: &Json) -> Told {
    let right = outcome_in(alloc, right)?;
    let told = same_as_copy(alloc, left, &right);
    drop(right);
    told
}

fn is_copy_of_outcome(alloc: Global, left: &Json, right: &Json) -> Told {
    let left = outcome_in(alloc, left)?;
    let told = is_copy_of(alloc, &left, right);
    drop(left);
    told
}

fn copy_of_text(alloc: Global, text: Text) -> Told {
    let copy = copy_text(alloc, &text);
    let count = text.len();
    let empty = text.is_empty();
    let same = copy.as_ref().is_ok_and(|copy| same_text(copy, &text));
    drop(text);
    let copy = copy?;
    let told = formatted(format!(in alloc;
        "\"{}\", {count} bytes, empty {empty}, same {same}",
        copy.as_str()
    ));
    drop(copy);
    told
}

fn copy_of_bytes(alloc: Global, cell: &Json) -> Told {
    let bytes = bytes(alloc, cell)?;
    let text = Text::from_bytes(alloc, bytes.as_slice());
    drop(bytes);
    match text? {
        Some(text) => copy_of_text(alloc, text),
        None => Err(Refused::Nothing),
    }
}

/// What a case of outcomes comes to.
pub fn outcome(alloc: Global, verb: &str, cells: &[Json]) -> Told {
    match (verb, cells) {
        ("text", [cell]) => text_of_outcome(alloc, cell),
        ("same", [left, right]) => is_copy_of_outcome(alloc, left, right),
        ("copy", [cell]) => copy_of_bytes(alloc, cell),
        ("new", []) => copy_of_text(alloc, Text::new(alloc)),
        _ => Err(Refused::NoCase),
    }
}
