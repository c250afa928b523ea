//! Where a value is not as it would be printed.

ghost use Rattle.std.specs.Prelude.{◌≡◌, Option, Some};
ghost use Rattle.std.specs.Option.{option_copied};
ghost use Rattle.unum_json.specs.Parsed.{view, items_view, members_view};
ghost use Rattle.unum_json.specs.Seen.{shape_of};
ghost use Rattle.unum_json.specs.declared.value.Json.{out-Json};
ghost use Rattle.asl_read.specs.Checks.{Checks};
ghost use Rattle.ir_text.specs.Texts.{text_unlike, printed_items as items_printed, printed_fields as fields_printed, unlike, items_unlike, members_unlike};
ghost use Rattle.unum_json.specs.Keys.{find_key};

use asl_read::{LRule, ReadFault, refused, under_index, under_key};
use std::alloc::Global;
use unum_json::{Fields, Json, Seen, Value};

fn text_seen(alloc: Global, text: &str, printed: Seen<'_>) -> Result<(), ReadFault>
    ensures { Checks result (text_unlike text.now (shape_of printed.entry)) }
{
    match printed {
        Seen::Str(other) => {
            if text == other.as_str() {
                Ok(())
            } else {
                refused(alloc, LRule::L6)
            }
        }
        _ => refused(alloc, LRule::L6),
    }
}

fn check_text(alloc: Global, text: &str, printed: &Json) -> Result<(), ReadFault>
    ensures { Checks result (text_unlike text.now (out-Json printed.now)) }
{
    text_seen(alloc, text, printed.seen())
}

fn items_seen<'a>(printed: Seen<'a>) -> &'a [Json]
    ensures { result.now ≡ items_printed (shape_of printed.entry) }
{
    match printed {
        Seen::Arr(items) => items.as_slice(),
        _ => &[],
    }
}

/// The items of an array that is printed.
fn printed_items(printed: &Json) -> &[Json]
    ensures { result.now ≡ items_printed (out-Json printed.now) }
{
    items_seen(printed.seen())
}

fn field_seen<'a>(printed: Seen<'a>, key: &str) -> Option<&'a Json>
    ensures { option_copied result ≡ find_key key.now (fields_printed (shape_of printed.entry)) }
{
    match printed {
        Seen::Obj(fields) => fields.get(key.as_bytes()),
        _ => None,
    }
}

/// What is printed at a key of an object.
fn printed_field<'a>(printed: &'a Json, key: &str) -> Option<&'a Json>
    ensures { option_copied result ≡ find_key key.now (fields_printed (out-Json printed.now)) }
{
    field_seen(printed.seen(), key)
}

/// Compares a value with what is printed in its place: `Refused` comes exactly where a text stands otherwise or a field is left
/// out, with the first such place.
#[cycle(texts)]
pub(crate) fn check_printed(
    alloc: Global,
    value: &Value,
    printed: Option<&Json>,
) -> Result<(), ReadFault>
    ensures { Checks result (unlike (view value.now) (option_copied printed.entry)) }
{
    let Some(printed) = printed else {
        return refused(alloc, LRule::L4);
    };
    match value {
        Value::String(text) => check_text(alloc, text.as_str(), printed),
        Value::Array(items) => check_items(alloc, items, printed_items(printed)),
        Value::Object(members) => check_members(alloc, members, printed),
        _ => Ok(()),
    }
}

#[cycle(texts)]
fn check_items(alloc: Global, items: &Vec<Value>, printed: &[Json]) -> Result<(), ReadFault>
    ensures { Checks result (items_unlike 0 (items_view items.now.items) printed.now) }
{
    for (i, item) in items.iter().enumerate() {
        if i >= printed.len() {
            return Ok(());
        }
        under_index(alloc, i, check_printed(alloc, item, Some(&printed[i])))?;
    }
    Ok(())
}

#[cycle(texts)]
fn check_members(alloc: Global, members: &Fields<Value>, printed: &Json) -> Result<(), ReadFault>
    ensures { Checks result (members_unlike (members_view members.now) (fields_printed (out-Json printed.now))) }
{
    for member in members.as_slice() {
        let key = member.0.as_str();
        let found = printed_field(printed, key);
        under_key(alloc, key, check_printed(alloc, &member.1, found))?;
    }
    Ok(())
}
