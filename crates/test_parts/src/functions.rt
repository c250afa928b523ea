//! Cases of functions, which are `"echo"`, `"sum"`, `"ticket"`, `{"const":VALUE}`, `{"flaky":EVERY}` or `{"fail":[ERROR,CAUSE]}`:
//!
//! - `function answer FUNCTION, VALUE, TICKET`: what it answers to an input;
//! - `function same FUNCTION, FUNCTION`: whether the first is the same as a copy of the second;
//! - `function find NAME, [[NAME,FUNCTION],..]`: the names of the table in which these were set in turn, and the numbers of the
//!   rows with the function that is found.

use crate::cells::{list_in, number, said_same, text_in};
use crate::refused::{Refused, Told};
use crate::values::{failure, shown_outcome};
use fn_table::{Answered, BuiltIns, FnKind, Functions, Table, copy_kind, same_kind};
use std::alloc::{AllocError, Global};
use unum_json::{Json, Seen, Text, copy, copy_text, same};

fn simple(name: &str) -> Option<FnKind> {
    match name {
        "echo" => Some(FnKind::Echo),
        "sum" => Some(FnKind::Sum),
        "ticket" => Some(FnKind::Ticket),
        _ => None,
    }
}

fn made(alloc: Global, name: &str, value: &Json) -> Result<FnKind, Refused> {
    match name {
        "const" => Ok(FnKind::Const(copy(alloc, value)?)),
        "flaky" => Ok(FnKind::Flaky(number(value)?)),
        "fail" => Ok(FnKind::Fail(failure(alloc, value)?)),
        _ => Err(Refused::NoCase),
    }
}

fn function_in(alloc: Global, cell: &Json) -> Result<FnKind, Refused> {
    match cell.seen() {
        Seen::Str(name) => simple(name.as_str()).ok_or(Refused::NoCase),
        Seen::Obj(fields) => match fields.as_slice() {
            [(name, value)] => made(alloc, name.as_str(), value),
            _ => Err(Refused::NoCase),
        },
        _ => Err(Refused::NoCase),
    }
}

fn is_of_call(answered: &Answered, kind: &FnKind, input: &Json, ticket: u32) -> bool {
    same_kind(answered.kind(), kind) && same(answered.input(), input) && answered.ticket() == ticket
}

fn answer(alloc: Global, kind: &FnKind, input: &Json, ticket: u32) -> Told {
    let caller = BuiltIns::new(alloc);
    let answered = caller.answer(kind, input, ticket)?;
    let told = if is_of_call(&answered, kind, input, ticket) {
        shown_outcome(alloc, answered.outcome())
    } else {
        Err(Refused::Other)
    };
    drop(answered);
    told
}

fn answered(alloc: Global, kind: &Json, input: &Json, ticket: &Json) -> Told {
    let ticket = number(ticket)?;
    let kind = function_in(alloc, kind)?;
    let told = answer(alloc, &kind, input, ticket);
    drop(kind);
    told
}

fn same_as_copy(alloc: Global, left: &FnKind, right: &FnKind) -> Told {
    let copy = copy_kind(alloc, right)?;
    let same = same_kind(left, &copy);
    drop(copy);
    said_same(alloc, same)
}

fn is_copy_of(alloc: Global, left: &FnKind, right: &Json) -> Told {
    let right = function_in(alloc, right)?;
    let told = same_as_copy(alloc, left, &right);
    drop(right);
    told
}

fn is_copy(alloc: Global, left: &Json, right: &Json) -> Told {
    let left = function_in(alloc, left)?;
    let told = is_copy_of(alloc, &left, right);
    drop(left);
    told
}

fn row(cell: &Json) -> Result<(&Text, &Json), Refused> {
    match list_in(cell)? {
        [name, function] => Ok((text_in(name)?, function)),
        _ => Err(Refused::NoCase),
    }
}

fn insert(alloc: Global, table: &mut Table, cell: &Json) -> Result<(), Refused> {
    let (name, function) = row(cell)?;
    let name = copy_text(alloc, name)?;
    match function_in(alloc, function) {
        Ok(kind) => Ok(table.insert(name, kind)?),
        Err(refused) => {
            drop(name);
            Err(refused)
        }
    }
}

fn insert_all(alloc: Global, table: &mut Table, rows: &[Json]) -> Result<(), Refused> {
    for row in rows {
        insert(alloc, table, row)?;
    }
    Ok(())
}

fn push_names(out: &mut String, table: &Table) -> Result<(), AllocError> {
    write!(out, "{}:", table.rows().len())?;
    for (name, _kind) in table.rows() {
        write!(out, " {}", name.as_str())?;
    }
    Ok(())
}

fn is_in_row(alloc: Global, found: &FnKind, cell: &Json) -> Result<bool, Refused> {
    let (_name, function) = row(cell)?;
    let kind = function_in(alloc, function)?;
    let same = same_kind(found, &kind);
    drop(kind);
    Ok(same)
}

/// Adds the numbers of the rows with this function.
fn push_rows(
    alloc: Global,
    out: &mut String,
    found: &FnKind,
    rows: &[Json],
) -> Result<(), Refused> {
    out.push_str("; row")?;
    for (i, row) in rows.iter().enumerate() {
        if is_in_row(alloc, found, row)? {
            write!(out, " {i}")?;
        }
    }
    Ok(())
}

fn find(
    alloc: Global,
    out: &mut String,
    table: &Table,
    name: &[u8],
    rows: &[Json],
) -> Result<(), Refused> {
    push_names(out, table)?;
    match table.find(name) {
        Some(found) => push_rows(alloc, out, found, rows),
        None => Ok(out.push_str("; nothing")?),
    }
}

fn find_in(alloc: Global, out: &mut String, name: &[u8], rows: &[Json]) -> Result<(), Refused> {
    let mut table = Table::new(alloc);
    let told = match insert_all(alloc, &mut table, rows) {
        Ok(()) => find(alloc, out, &table, name, rows),
        Err(refused) => Err(refused),
    };
    drop(table);
    told
}

fn found(alloc: Global, name: &[u8], rows: &[Json]) -> Told {
    let mut out = String::new(alloc);
    let written = find_in(alloc, &mut out, name, rows);
    let text = Text::from_string(out)?;
    match written {
        Ok(()) => Ok(text),
        Err(refused) => {
            drop(text);
            Err(refused)
        }
    }
}

/// What a case of functions comes to.
pub fn function(alloc: Global, verb: &str, cells: &[Json]) -> Told {
    match (verb, cells) {
        ("answer", [kind, input, ticket]) => answered(alloc, kind, input, ticket),
        ("same", [left, right]) => is_copy(alloc, left, right),
        ("find", [name, rows]) => found(alloc, text_in(name)?.as_bytes(), list_in(rows)?),
        _ => Err(Refused::NoCase),
    }
}
