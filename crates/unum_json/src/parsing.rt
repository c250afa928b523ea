//! From a text to a value, in one pass over its tokens.

ghost use Rattle.std.specs.Prelude.{◌≡◌, ◌<◌, length, Some, None, Err, IfOk, OnOk};
ghost use Rattle.json.specs.Json.{value, items, members};
ghost use Rattle.serde_json.specs.Data.{no_members};
ghost use Rattle.serde_json.specs.Read.{of_json, of_items, of_members, converted, read as read_text};
ghost use Rattle.unum_json.specs.Parsed.{view, items_view, members_view};

use crate::fields::Fields;
use crate::gathering::Gathered;
use crate::memory::NoMemory;
use crate::numbers::number_of;
use crate::parsed::Value;
use crate::reading::JsonError;
use crate::text::Text;
use json::{Invalid, Reader, Scratch, Token};
use std::alloc::{AllocError, AllocFailed, Global};

/// How deep arrays and objects may nest.
const MAX_DEPTH: usize = 127;

impl From<NoMemory> for JsonError {
    ghost use Rattle.std.specs.Prelude.{◌≡◌};
    ghost use Rattle.unum_json.specs.declared.reading.JsonError.TheVariants as error;

    ghost from_gives = { λ _ e. e ≡ error.NoMemory };

    fn from(_refused: NoMemory) -> JsonError {
        JsonError::NoMemory
    }
}

impl From<AllocError> for JsonError {
    ghost use Rattle.std.specs.Prelude.{◌≡◌};
    ghost use Rattle.unum_json.specs.declared.reading.JsonError.TheVariants as error;

    ghost from_gives = { λ _ e. e ≡ error.NoMemory };

    fn from(_refused: AllocError) -> JsonError {
        JsonError::NoMemory
    }
}

impl<T: Drop> From<AllocFailed<T>> for JsonError {
    ghost use Rattle.std.specs.Prelude.{◌≡◌};
    ghost use Rattle.unum_json.specs.declared.reading.JsonError.TheVariants as error;

    ghost from_gives = { λ _ e. e ≡ error.NoMemory };

    fn from(_refused: AllocFailed<T>) -> JsonError {
        JsonError::NoMemory
    }
}

impl From<Invalid> for JsonError {
    ghost use Rattle.std.specs.Prelude.{◌≡◌};
    ghost use Rattle.unum_json.specs.declared.reading.JsonError.TheVariants as error;

    ghost from_gives = { λ _ e. e ≡ error.NotJson };

    fn from(_invalid: Invalid) -> JsonError {
        JsonError::NotJson
    }
}

/// The value of a text.
pub(crate) fn value_of(alloc: Global, text: &str) -> Result<Value, JsonError>
    ensures ok { IfOk result (λ v. read_text text.now ≡ Some (view v)) }
    ensures not_json { result ≡ Err JsonError.NotJson → read_text text.now ≡ None }
{
    let mut scratch = Scratch::new(alloc);
    let mut reader = Reader::new(text, &mut scratch)?;
    let value = read(alloc, &mut reader, MAX_DEPTH)?;
    if reader.next().is_some() {
        return Err(JsonError::NotJson);
    }
    Ok(value)
}

/// The next value, in which arrays and objects nest at most so deep.
#[cycle(read)]
fn read(alloc: Global, reader: &mut Reader<'_>, depth: usize) -> Result<Value, JsonError>
    ensures ok { IfOk result
        (λ v. converted of_json (value depth reader.old) ≡ Some (view v, reader.new)) }
    ensures shorter { OnOk result (length reader.new < length reader.old) }
    ensures not_json { result ≡ Err JsonError.NotJson → converted of_json (value depth reader.old) ≡ None }
{
    let token = reader.next().ok_or(JsonError::NotJson)?;
    match token {
        Token::String(text) => Ok(Value::String(Text::from_str(alloc, text)?)),
        Token::Number(text) => match number_of(text) {
            Some(number) => Ok(Value::Number(number)),
            None => Err(JsonError::NotJson),
        },
        Token::Bool(truth) => Ok(Value::Bool(truth)),
        Token::Null => Ok(Value::Null),
        Token::EndObject | Token::EndArray | Token::Key(_) | Token::Bad => Err(JsonError::NotJson),
        Token::BeginArray => {
            if depth == 0 {
                return Err(JsonError::NotJson);
            }
            Ok(Value::Array(read_items(alloc, reader, depth - 1)?))
        }
        Token::BeginObject => {
            if depth == 0 {
                return Err(JsonError::NotJson);
            }
            Ok(Value::Object(read_members(alloc, reader, depth - 1)?))
        }
    }
}

/// The items up to the bracket that closes the array.
#[cycle(read)]
fn read_items(alloc: Global, reader: &mut Reader<'_>, depth: usize) -> Result<Vec<Value>, JsonError>
    ensures ok { IfOk result
        (λ v. converted of_items (items (value depth) (length reader.old) reader.old)
        ≡ Some (items_view v.items, reader.new)) }
    ensures shorter { OnOk result (length reader.new < length reader.old) }
    ensures not_json { result ≡ Err JsonError.NotJson
        → converted of_items (items (value depth) (length reader.old) reader.old) ≡ None }
{
    let mut found = Vec::new(alloc);
    'items: while !reader.take_end_array() {
        let item = read(alloc, reader, depth)?;
        found.push(item)?;
    }
    Ok(found)
}

/// The members up to the brace that closes the object.
#[cycle(read)]
fn read_members(
    alloc: Global,
    reader: &mut Reader<'_>,
    depth: usize,
) -> Result<Fields<Value>, JsonError>
    ensures ok { IfOk result
        (λ m. converted (λ ms. of_members ms no_members)
        (members (value depth) (length reader.old) reader.old)
        ≡ Some (members_view m, reader.new)) }
    ensures shorter { OnOk result (length reader.new < length reader.old) }
    ensures not_json { result ≡ Err JsonError.NotJson
        → converted (λ ms. of_members ms no_members)
        (members (value depth) (length reader.old) reader.old) ≡ None }
{
    let mut found = Gathered::new(alloc);
    'members: while let Some(key) = reader.next_key()? {
        let member = read(alloc, reader, depth)?;
        found = found.with(alloc, key, member)?;
    }
    Ok(found.into_fields(alloc)?)
}
