//! What a value says as a text, a number, a path and so on.

ghost use Rattle.std.specs.Prelude.{◌≡◌, [], IfOk, Option, map, option_map, option_and_then};
ghost use Rattle.unum_json.specs.Parsed.{view};
ghost use Rattle.serde_json.specs.Find.{get};
ghost use Rattle.unum_json.specs.Whole.{of_data};
ghost use Rattle.asl_read.specs.Parts.{text_of, truth_of, whole_of, json_of, text_if, text_in, truth_in, items_of, list_in, number_in, within};

use std::alloc::Global;
use unum_json::{Items, Json, NoMemory, Text, Value, WholeError, to_json};

/// The text, or the empty one.
pub fn text_of(alloc: Global, value: &Value) -> Result<Text, NoMemory>
    ensures { IfOk result (λ t. t ≡ text_of (view value.now)) }
{
    match value.as_str() {
        Some(text) => Text::from_str(alloc, text),
        None => Ok(Text::new(alloc)),
    }
}

/// The truth value, or false.
pub(crate) fn truth_of(value: &Value) -> bool
    ensures { result ≡ truth_of (view value.now) }
{
    value.as_bool().unwrap_or(false)
}

/// The whole number, or 0.
pub fn whole_of(value: &Value) -> i64
    ensures { result ≡ whole_of (view value.now) }
{
    value.as_i64().unwrap_or(0)
}

/// The data, or null.
pub fn json_of(alloc: Global, value: &Value) -> Result<Json, NoMemory>
    ensures { IfOk result (λ v. v ≡ json_of (view value.now)) }
{
    match to_json(alloc, value) {
        Ok(json) => Ok(json),
        Err(WholeError::NotWhole { at: _ }) => Ok(Json::null()),
        Err(WholeError::NoMemory) => Err(NoMemory),
    }
}

/// The text of a key, if it is there.
pub(crate) fn text_if(alloc: Global, value: &Value, key: &str) -> Result<Option<Text>, NoMemory>
    ensures { IfOk result (λ t. t ≡ text_if key.now (view value.now)) }
{
    match value.get(key) {
        Some(found) => Ok(Some(text_of(alloc, found)?)),
        None => Ok(None),
    }
}

/// The text of a key, which is empty where the key is missing.
pub fn text_in(alloc: Global, value: &Value, key: &str) -> Result<Text, NoMemory>
    ensures { IfOk result (λ t. t ≡ text_in key.now (view value.now)) }
{
    match value.get(key) {
        Some(found) => text_of(alloc, found),
        None => Ok(Text::new(alloc)),
    }
}

/// The truth value of a key, which is false where the key is missing.
pub(crate) fn truth_in(value: &Value, key: &str) -> bool
    ensures { result ≡ truth_in key.now (view value.now) }
{
    match value.get(key) {
        Some(found) => truth_of(found),
        None => false,
    }
}

/// The items of an array.
fn items_of(value: &Value) -> &[Value]
    ensures { map view result.now ≡ items_of (view value.now) }
{
    match value {
        Value::Array(items) => items.as_slice(),
        _ => &[],
    }
}

/// The items of a key's array, and none where it is missing.
pub fn list_in<'a>(value: &'a Value, key: &str) -> &'a [Value]
    ensures { map view result.now ≡ list_in key.now (view value.now) }
{
    match value.get(key) {
        Some(found) => items_of(found),
        None => &[],
    }
}

/// A number from 0 to the bound, and any other as the greatest `u32`.
fn within(bound: u32, number: i64) -> u32
    ensures { result ≡ within bound number }
{
    match u32::try_from(number) {
        Ok(number) if number <= bound => number,
        _ => u32::MAX,
    }
}

/// The number of a key, from 0 to the bound. Any other is the greatest `u32`.
pub fn number_in(value: &Value, key: &str, bound: u32, missing: u32) -> u32
    ensures { result ≡ number_in key.now bound missing (view value.now) }
{
    match value.get(key) {
        Some(found) => within(bound, whole_of(found)),
        None => missing,
    }
}

/// The texts of a key's array.
pub fn texts_in(alloc: Global, value: &Value, key: &str) -> Result<Items<Text>, NoMemory>
    ensures { IfOk result (λ ts. ts ≡ map text_of (list_in key.now (view value.now))) }
{
    let mut texts = Items::new(alloc);
    for item in list_in(value, key) {
        texts.push(text_of(alloc, item)?)?;
    }
    Ok(texts)
}
