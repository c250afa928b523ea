//! Cases of lists:
//!
//! - `list fields [[KEY,NUMBER],..], KEY`: what comes of setting keys to numbers, and the number of a key;
//! - `list items [NUMBER,..], [NUMBER,..], NUMBER`: what comes of appending, popping the last, setting the first, and removing
//!   the second.

use crate::cells::{formatted, list_in, number, numbers, text_in};
use crate::refused::{Refused, Told};
use std::alloc::{AllocError, Global};
use unum_json::{Fields, Items, Json, NoMemory, Text, copy_text};

fn insert(alloc: Global, fields: &mut Fields<u32>, pair: &Json) -> Result<(), Refused> {
    let [key, value] = list_in(pair)? else {
        return Err(Refused::NoCase);
    };
    let value = number(value)?;
    let key = copy_text(alloc, text_in(key)?)?;
    Ok(fields.insert(key, value)?)
}

fn insert_all(alloc: Global, fields: &mut Fields<u32>, pairs: &[Json]) -> Result<(), Refused> {
    for pair in pairs {
        insert(alloc, fields, pair)?;
    }
    Ok(())
}

fn push_pairs(out: &mut String, pairs: &[(Text, u32)]) -> Result<(), AllocError> {
    for (key, value) in pairs {
        write!(out, "{}={value} ", key.as_str())?;
    }
    Ok(())
}

fn listed(out: &mut String, fields: Fields<u32>, key: &str) -> Result<(), AllocError> {
    let found = fields.get(key.as_bytes()).copied();
    let count = fields.len();
    let empty = fields.is_empty();
    let pairs = fields.into_vec();
    let pushed = push_pairs(out, pairs.as_slice());
    drop(pairs);
    pushed?;
    write!(out, "{found:?} of {count}, empty {empty}")
}

fn fields(alloc: Global, pairs: &[Json], key: &str) -> Told {
    let mut fields = Fields::new(alloc);
    let inserted = insert_all(alloc, &mut fields, pairs);
    let mut out = String::new(alloc);
    let written = listed(&mut out, fields, key);
    let text = Text::from_string(out)?;
    match (inserted, written) {
        (Ok(()), Ok(())) => Ok(text),
        _ => {
            drop(text);
            Err(Refused::NoCase)
        }
    }
}

fn items_in(alloc: Global, cells: &[Json]) -> Result<Items<u32>, Refused> {
    let numbers = numbers(alloc, cells)?;
    let items = Items::from_slice(alloc, numbers.as_slice());
    drop(numbers);
    Ok(items?)
}

/// What comes of items that are two or more but for the last.
fn changed(alloc: Global, mut items: Items<u32>, put: u32) -> Told {
    let last = items.pop();
    if items.len() < 2 {
        drop(items);
        return Err(Refused::NoCase);
    }
    items.set(0, put);
    let first = items.get(0).copied();
    let past = items.get(items.len()).copied();
    let count = items.len();
    let second = items.remove(1);
    let empty = items.is_empty();
    let left = items.into_vec();
    let told = formatted(format!(in alloc;
        "popped {last:?}, first {first:?} of {count}, past {past:?}, removed {second}, empty {empty}, left {left:?}"
    ));
    drop(left);
    told
}

fn appended(mut items: Items<u32>, more: Items<u32>) -> Result<Items<u32>, NoMemory> {
    match items.append(more) {
        Ok(()) => Ok(items),
        Err(refused) => {
            drop(items);
            Err(refused)
        }
    }
}

fn items(alloc: Global, first: &[Json], more: &[Json], put: &Json) -> Told {
    let put = number(put)?;
    let more = items_in(alloc, more)?;
    match items_in(alloc, first) {
        Ok(first) => changed(alloc, appended(first, more)?, put),
        Err(refused) => {
            drop(more);
            Err(refused)
        }
    }
}

/// What a case of lists comes to.
pub fn list(alloc: Global, verb: &str, cells: &[Json]) -> Told {
    match (verb, cells) {
        ("fields", [pairs, key]) => fields(alloc, list_in(pairs)?, text_in(key)?.as_str()),
        ("items", [first, more, put]) => items(alloc, list_in(first)?, list_in(more)?, put),
        _ => Err(Refused::NoCase),
    }
}
