//! Objects that are filled field by field.

ghost use Rattle.std.specs.Prelude.{◌≡◌, OnOk};
ghost use Rattle.unum_json.specs.Keys.{with_key};
ghost use Rattle.ir_text.specs.Printed.{put_row};

use std::alloc::Global;
use unum_json::{Fields, Json, NoMemory, Text};

/// Sets a field.
pub(crate) fn put(
    alloc: Global,
    fields: &mut Fields<Json>,
    key: &str,
    value: Json,
) -> Result<(), NoMemory>
    ensures { OnOk result (fields.new ≡ with_key key.now value fields.old) }
{
    match Text::from_str(alloc, key) {
        Ok(key) => fields.insert(key, value),
        Err(refused) => {
            drop(value);
            Err(refused)
        }
    }
}

/// Sets a field, if there is a value.
pub(crate) fn put_if(
    alloc: Global,
    fields: &mut Fields<Json>,
    key: &str,
    value: Option<Json>,
) -> Result<(), NoMemory>
    ensures { OnOk result (fields.new ≡ put_row key.now value fields.old) }
{
    match value {
        Some(value) => put(alloc, fields, key, value),
        None => Ok(()),
    }
}
