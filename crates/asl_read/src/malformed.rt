//! Choice rules that are malformed.

ghost use Rattle.std.specs.Prelude.{◌≡◌, ◌==◌, ◌&&◌, IfOk, codes};
ghost use Rattle.unum_json.specs.Parsed.{view};
ghost use Rattle.serde_json.specs.Find.{get};
ghost use Rattle.asl_read.specs.Objects.{keys, has, has_any};
ghost use Rattle.asl_read.specs.Choices.{joins, is_beside, count_heads, is_empty_array, has_lone_backslash, is_malformed};

use crate::objects::has;
use choice_rules::{Pattern, PatternError};
use std::alloc::Global;
use unum_json::{NoMemory, Value};

fn is_beside(key: &str) -> bool
    ensures { result ≡ is_beside key.now }
{
    key == "Comment" || key == "Next" || key == "Variable"
}

/// Whether exactly one key says what the rule is.
fn has_one_head(value: &Value) -> bool
    ensures { result ≡ (count_heads (keys (view value.now)) == 1) }
{
    let Some(members) = value.as_object() else {
        return false;
    };
    let mut heads = 0u8;
    for member in members.as_slice() {
        if !is_beside(member.0.as_str()) {
            if heads == 1 {
                return false;
            }
            heads += 1;
        }
    }
    heads == 1
}

fn is_empty(value: &Value) -> bool
    ensures { result ≡ is_empty_array (Some (view value.now)) }
{
    match value {
        Value::Array(items) => items.as_slice().is_empty(),
        _ => false,
    }
}

/// Whether an empty array stands at a key.
fn is_empty_at(value: &Value, key: &str) -> bool
    ensures { result ≡ is_empty_array (get key.now (view value.now)) }
{
    match value.get(key) {
        Some(found) => is_empty(found),
        None => false,
    }
}

/// Whether the text of StringMatches has a last backslash that makes no character literal.
fn has_lone_backslash(alloc: Global, value: &Value) -> Result<bool, NoMemory>
    ensures { IfOk result (λ b. b ≡ has_lone_backslash (get (codes "StringMatches") (view value.now))) }
{
    match value.get("StringMatches") {
        Some(Value::String(text)) => match Pattern::read(alloc, text.as_str()) {
            Ok(pattern) => {
                drop(pattern);
                Ok(false)
            }
            Err(PatternError::LoneBackslash) => Ok(true),
            Err(PatternError::NoMemory) => Err(NoMemory),
        },
        _ => Ok(false),
    }
}

/// Whether what joins rules stands beside a Variable.
fn joins_beside_variable(value: &Value) -> bool
    ensures { result ≡ (has_any joins (view value.now) && has (codes "Variable") (view value.now)) }
{
    (has(value, "And") || has(value, "Or") || has(value, "Not")) && has(value, "Variable")
}

/// Whether a rule is malformed, by its keys and what of its values belongs to its form.
pub(crate) fn is_malformed(alloc: Global, inner: bool, value: &Value) -> Result<bool, NoMemory>
    ensures { IfOk result (λ b. b ≡ is_malformed inner (view value.now)) }
{
    if !has_one_head(value)
        || is_empty_at(value, "And")
        || is_empty_at(value, "Or")
        || (inner && has(value, "Next"))
        || joins_beside_variable(value)
    {
        return Ok(true);
    }
    has_lone_backslash(alloc, value)
}
