//! Cases of names:
//!
//! - `name parse NAME`: the spelling of the name that is read;
//! - `name order NAME, NAME`: how the first stands to the second;
//! - `name child NAME, INDEX, COUNT`: the first name in a branch of the fan at a name's place;
//! - `name up NAME`: the fan that a name's scope is a branch of;
//! - `name scopes NAME, NAME`: whether the names are in the same scope;
//! - `name objects OBJECT, OBJECT`: whether they are the same, where an object is `[KIND,NAME,COUNT]`, of a kind `check`, `out`,
//!   `saved`, `bits` or `arg`, and the count is that of bits;
//! - `name trail COUNT`: a trail to which so many segments were added, as far as there is room.

use crate::cells::{formatted, list_in, number, said, said_same, text_in};
use crate::refused::{Refused, Told};
use place_name::{
    Kind, MOST_BRANCHES, Name, Obj, Place, Seg, Trail, child, order, parse, spell, up,
};
use std::alloc::Global;
use std::cmp::Ordering;
use unum_json::Json;

fn name_in(cell: &Json) -> Result<Name, Refused> {
    Ok(parse(text_in(cell)?.as_bytes())?)
}

fn spelled(alloc: Global, name: &Name) -> Told {
    Ok(spell(alloc, name)?)
}

fn parsed(alloc: Global, cell: &Json) -> Told {
    spelled(alloc, &name_in(cell)?)
}

fn both(left: &Json, right: &Json) -> Result<(Name, Name), Refused> {
    Ok((name_in(left)?, name_in(right)?))
}

fn ordered(alloc: Global, left: &Json, right: &Json) -> Told {
    let (left, right) = both(left, right)?;
    match (order(&left, &right), left.same(&right)) {
        (Ordering::Less, false) => said(alloc, "less"),
        (Ordering::Equal, true) => said(alloc, "same"),
        (Ordering::Greater, false) => said(alloc, "greater"),
        _ => said(alloc, "unclear"),
    }
}

fn entered(alloc: Global, place: Place) -> Told {
    if place.hop > 0 {
        return Err(Refused::NoCase);
    }
    let kind = Kind::Enter;
    spelled(alloc, &Name { place, kind })
}

fn below(alloc: Global, place: &Place, index: u32, count: u32) -> Told {
    if place.trail.is_full() || index >= count || count > MOST_BRANCHES {
        return Err(Refused::NoCase);
    }
    entered(alloc, child(place, index, count))
}

fn first_below(alloc: Global, name: &Json, index: &Json, count: &Json) -> Told {
    let index = number(index)?;
    let count = number(count)?;
    below(alloc, &name_in(name)?.place, index, count)
}

fn above(alloc: Global, cell: &Json) -> Told {
    let Some(parent) = up(&name_in(cell)?.place.scope()) else {
        return said(alloc, "none");
    };
    let place = parent.place;
    let kind = Kind::Join;
    let fan = spell(alloc, &Name { place, kind })?;
    let told = formatted(format!(in alloc;
        "{} of {} at {}",
        parent.index,
        parent.count,
        fan.as_str()
    ));
    drop(fan);
    told
}

fn scopes(alloc: Global, left: &Json, right: &Json) -> Told {
    let (left, right) = both(left, right)?;
    said_same(alloc, left.place.scope().same(&right.place.scope()))
}

fn object_in(cell: &Json) -> Result<Obj, Refused> {
    let [kind, name, count] = list_in(cell)? else {
        return Err(Refused::NoCase);
    };
    let kind = text_in(kind)?;
    let name = name_in(name)?;
    let count = number(count)?;
    match kind.as_str() {
        "check" => Ok(Obj::Check(name)),
        "out" => Ok(Obj::Out(name.place.scope())),
        "saved" => Ok(Obj::Saved(name.place)),
        "bits" => Ok(Obj::Bits(name.place, count)),
        "arg" => Ok(Obj::Arg(name)),
        _ => Err(Refused::NoCase),
    }
}

fn objects(alloc: Global, left: &Json, right: &Json) -> Told {
    let left = object_in(left)?;
    let right = object_in(right)?;
    said_same(alloc, left.same(&right))
}

const SEG: Seg = Seg {
    hop: 1999,
    index: 999,
    count: 1000,
};

fn filled(count: u32) -> Trail {
    let mut trail = Trail::new();
    for _ in 0..count {
        if !trail.is_full() {
            trail.push(SEG);
        }
    }
    trail
}

fn trail(alloc: Global, cell: &Json) -> Told {
    let trail = filled(number(cell)?);
    let mut rest = trail;
    let popped = rest.pop() == Some(SEG);
    let left = rest.as_slice().len();
    let same = rest.same(&trail);
    let count = trail.len();
    let empty = trail.is_empty();
    let full = trail.is_full();
    formatted(format!(in alloc;
        "{count} segments, empty {empty}, full {full}; popped {popped}, {left} left, same {same}"
    ))
}

/// What a case of names comes to.
pub fn name(alloc: Global, verb: &str, cells: &[Json]) -> Told {
    match (verb, cells) {
        ("parse", [name]) => parsed(alloc, name),
        ("order", [left, right]) => ordered(alloc, left, right),
        ("child", [name, index, count]) => first_below(alloc, name, index, count),
        ("up", [name]) => above(alloc, name),
        ("scopes", [left, right]) => scopes(alloc, left, right),
        ("objects", [left, right]) => objects(alloc, left, right),
        ("trail", [count]) => trail(alloc, count),
        _ => Err(Refused::NoCase),
    }
}
