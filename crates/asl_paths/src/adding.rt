//! Fields that are added one by one.

ghost use Rattle.std.specs.Prelude.{◌≡◌, ◌++◌, ◌∷◌, [], OnOk};
ghost use Rattle.std.specs.Map.{keys_of};
ghost use Rattle.unum_json.specs.Keys.{IsRising, with_key};

use std::alloc::Global;
use unum_json::{Fields, NoMemory, Text, copy_text};

/// Adds a copy of a key, which is above the last, and its value at the end.
pub(crate) fn add_field<V: Drop>(
    alloc: Global,
    fields: &mut Fields<V>,
    key: &Text,
    value: V,
) -> Result<(), NoMemory>
    requires { IsRising (keys_of (fields.old ++ (key.now, value) ∷ [])) }
    ensures { OnOk result (fields.new ≡ fields.old ++ (key.now, value) ∷ []) }
{
    let key = copy_text(alloc, key)?;
    fields.push(key, value)
}

/// Sets the value of a key, which is copied.
pub(crate) fn set_field<V: Drop>(
    alloc: Global,
    fields: &mut Fields<V>,
    key: &Text,
    value: V,
) -> Result<(), NoMemory>
    ensures { OnOk result (fields.new ≡ with_key key.now value fields.old) }
{
    let key = copy_text(alloc, key)?;
    fields.insert(key, value)
}
