//! The ranges of numbers.

ghost use Rattle.std.specs.Prelude.{◌≡◌, codes};
ghost use Rattle.unum_json.specs.Parsed.{view};
ghost use Rattle.serde_json.specs.Find.{get};
ghost use Rattle.asl_read.specs.Checks.{Checks};
ghost use Rattle.ir_text.specs.Ranges.{bound as bound_of, is_below as below, number_faults, number_or_null_faults, next_faults, range_faults};
ghost use Rattle.ir_text.specs.Reads.{sizes_of as size_of_tables};

use crate::kinds::{Number, Part};
use asl_read::{LRule, ReadFault, list_in, refused, under_key, whole_of};
use std::alloc::Global;
use unum_json::Value;

/// How many nodes, functions and scopes there are.
#[derive(Clone, Copy)]
pub struct Sizes {
    /// How many nodes.
    pub nodes: usize,
    /// How many functions.
    pub funcs: usize,
    /// How many scopes.
    pub scopes: usize,
}

pub(crate) fn sizes_of(value: &Value) -> Sizes
    ensures { result ≡ size_of_tables (view value.now) }
{
    Sizes {
        nodes: list_in(value, "nodes").len(),
        funcs: list_in(value, "funcs").len(),
        scopes: list_in(value, "scopes").len(),
    }
}

/// What a number is below.
fn bound(sizes: Sizes, number: Number) -> usize
    ensures { result ≡ bound_of sizes number }
{
    match number {
        Number::Node => sizes.nodes,
        Number::Func => sizes.funcs,
        Number::Scope => sizes.scopes,
        Number::Most => 100_000_000,
        Number::Limit => 1_000_001,
    }
}

fn is_below(bound: usize, number: i64) -> bool
    ensures { result ≡ below bound number }
{
    match usize::try_from(number) {
        Ok(number) => number < bound,
        Err(_) => false,
    }
}

fn check_number(alloc: Global, sizes: Sizes, number: Number, value: &Value) -> Result<(), ReadFault>
    ensures { Checks result (number_faults sizes number (view value.now)) }
{
    if is_below(bound(sizes, number), whole_of(value)) {
        Ok(())
    } else {
        refused(alloc, LRule::L8)
    }
}

fn check_number_or_null(
    alloc: Global,
    sizes: Sizes,
    number: Number,
    value: &Value,
) -> Result<(), ReadFault>
    ensures { Checks result (number_or_null_faults sizes number (view value.now)) }
{
    match value {
        Value::Null => Ok(()),
        _ => check_number(alloc, sizes, number, value),
    }
}

/// Checks the node that a rule leads to.
fn check_next(alloc: Global, sizes: Sizes, value: &Value) -> Result<(), ReadFault>
    ensures { Checks result (next_faults sizes (get (codes "Next") (view value.now))) }
{
    match value.get("Next") {
        Some(next) => {
            let made = check_number(alloc, sizes, Number::Node, next);
            under_key(alloc, "Next", made)
        }
        None => Ok(()),
    }
}

/// Checks the numbers of a value that is read as a whole.
pub(crate) fn check_ranges(
    alloc: Global,
    sizes: Sizes,
    part: Part,
    value: &Value,
) -> Result<(), ReadFault>
    ensures { Checks result (range_faults sizes part (view value.now)) }
{
    match part {
        Part::Number(number) => check_number(alloc, sizes, number, value),
        Part::NumberOrNull(number) => check_number_or_null(alloc, sizes, number, value),
        Part::Rule => check_next(alloc, sizes, value),
        _ => Ok(()),
    }
}
