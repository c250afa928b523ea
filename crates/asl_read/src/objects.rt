//! How the fields of an object are checked, by a table of its fields.

ghost use Rattle.std.specs.Prelude.{◌≡◌, map, option_map};
ghost use Rattle.asl_read.specs.Objects.{row_of, need_of, find_row, how_at, has, has_any, key_rule, key_faults, is_needed, is_missing, missing_faults, stands_beside};
ghost use Rattle.asl_read.specs.Checks.{Checks};
ghost use Rattle.asl_read.specs.Names.{is_timestamp, left_out, names_left_out, named};
ghost use Rattle.unum_json.specs.Parsed.{view};

use crate::fault::{LRule, ReadFault, refused_at};
use std::alloc::Global;
use unum_json::Value;

/// When a field has to stand in its object.
#[derive(Clone, Copy)]
pub enum Need {
    /// Always.
    Required,
    /// It need not.
    Optional,
    /// Unless one of these fields stands there.
    RequiredUnless(&'static [&'static str]),
    /// It need not, and it may not stand beside this field, whose alternative it is.
    NotBeside(&'static str),
}

/// A field of a kind of object: its key, when it has to be there, and how its value is read.
#[derive(Clone, Copy)]
pub struct Row<H> {
    /// The key.
    pub key: &'static str,
    /// When it has to be there.
    pub need: Need,
    /// How its value is read.
    pub how: H,
}

/// Which fields that are not in the table are left out by name.
#[derive(Clone, Copy)]
pub enum LeftOut {
    /// None: all are unknown.
    Nothing,
    /// The fields of the public standard that the profile leaves out.
    Names,
    /// These, and the operators on timestamps.
    Operators,
    /// All.
    Everything,
}

/// The fields of the public standard that the profile leaves out.
///
/// Source: Amazon States Language, "Task State", "Map State", "Fail State" and "Data Transformation".
const NAMES: [&str; 18] = [
    "Credentials",
    "TimeoutSecondsPath",
    "HeartbeatSecondsPath",
    "MaxConcurrencyPath",
    "ItemReader",
    "ItemBatcher",
    "ResultWriter",
    "Label",
    "ToleratedFailureCount",
    "ToleratedFailureCountPath",
    "ToleratedFailurePercentage",
    "ToleratedFailurePercentagePath",
    "ErrorPath",
    "CausePath",
    "Assign",
    "Arguments",
    "Items",
    "Output",
];

/// Whether a text is one of these.
fn is_among(names: &[&str], text: &str) -> bool
    ensures { result ≡ named (map (λ n. n.now) names.now) text.now }
{
    for name in names {
        if *name == text {
            return true;
        }
    }
    false
}

fn is_name_left_out(key: &str) -> bool
    ensures { result ≡ named names_left_out key.now }
{
    is_among(&NAMES, key)
}

/// Whether the key is that of an operator on timestamps.
fn is_timestamp(key: &str) -> bool
    ensures { result ≡ is_timestamp key.now }
{
    key == "IsTimestamp" || key.as_bytes().starts_with(b"Timestamp".as_slice())
}

fn is_left_out(out: LeftOut, key: &str) -> bool
    ensures { result ≡ left_out out key.now }
{
    match out {
        LeftOut::Nothing => false,
        LeftOut::Names => is_name_left_out(key),
        LeftOut::Operators => is_timestamp(key) || is_name_left_out(key),
        LeftOut::Everything => true,
    }
}

/// Whether an object has a key.
pub(crate) fn has(value: &Value, key: &str) -> bool
    ensures { result ≡ has key.now (view value.now) }
{
    value.get(key).is_some()
}

fn has_any(value: &Value, keys: &[&str]) -> bool
    ensures { result ≡ has_any (map (λ k. k.now) keys.now) (view value.now) }
{
    for key in keys {
        if has(value, *key) {
            return true;
        }
    }
    false
}

/// The row of a key.
fn find_row<'a, H>(rows: &'a [Row<H>], key: &str) -> Option<&'a Row<H>>
    ensures { option_map (λ r. row_of r.now) result ≡ find_row key.now (map row_of rows.now) }
{
    for row in rows {
        if row.key == key {
            return Some(row);
        }
    }
    None
}

/// How the value of a key is read, or else `other`.
pub fn how_of<H: Copy>(rows: &[Row<H>], key: &str, other: H) -> H
    ensures { result ≡ how_at (map row_of rows.now) other key.now }
{
    match find_row(rows, key) {
        Some(row) => row.how,
        None => other,
    }
}

/// Whether the field may not stand beside another that is there.
fn stands_beside(value: &Value, need: Need) -> bool
    ensures { result ≡ stands_beside (need_of need) (view value.now) }
{
    match need {
        Need::NotBeside(key) => has(value, key),
        _ => false,
    }
}

/// The rule that a key of an object breaks, if it breaks one.
fn key_rule<H>(value: &Value, rows: &[Row<H>], out: LeftOut, key: &str) -> Option<LRule>
    ensures { result ≡ key_rule (map row_of rows.now) (left_out out) (view value.now) key.now }
{
    match find_row(rows, key) {
        Some(row) => {
            if stands_beside(value, row.need) {
                Some(LRule::L4)
            } else {
                None
            }
        }
        None => {
            if is_left_out(out, key) {
                Some(LRule::L5)
            } else {
                Some(LRule::L4)
            }
        }
    }
}

/// Checks each key of an object, in byte order.
///
/// A key that is in no row breaks L5 where it is left out by name, and else L4. One that stands beside its alternative
/// breaks L4.
pub fn check_keys<H>(
    alloc: Global,
    value: &Value,
    rows: &[Row<H>],
    out: LeftOut,
) -> Result<(), ReadFault>
    ensures { Checks result (key_faults (map row_of rows.now) (left_out out) (view value.now)) }
{
    let Some(members) = value.as_object() else {
        return Ok(());
    };
    for member in members.as_slice() {
        let key = member.0.as_str();
        if let Some(rule) = key_rule(value, rows, out, key) {
            return refused_at(alloc, rule, key);
        }
    }
    Ok(())
}

fn is_needed(value: &Value, need: Need) -> bool
    ensures { result ≡ is_needed (need_of need) (view value.now) }
{
    match need {
        Need::Required => true,
        Need::Optional | Need::NotBeside(_) => false,
        Need::RequiredUnless(keys) => !has_any(value, keys),
    }
}

fn is_missing<H>(value: &Value, row: &Row<H>) -> bool
    ensures { result ≡ is_missing (view value.now) (row_of row.now) }
{
    is_needed(value, row.need) && !has(value, row.key)
}

/// Checks that each required key of an object is there, and else breaks L3. The rows of required fields stand in the byte
/// order of their keys.
pub fn check_required<H>(alloc: Global, value: &Value, rows: &[Row<H>]) -> Result<(), ReadFault>
    ensures { Checks result (missing_faults (map row_of rows.now) (view value.now)) }
{
    for row in rows {
        if is_missing(value, row) {
            return refused_at(alloc, LRule::L3, row.key);
        }
    }
    Ok(())
}
