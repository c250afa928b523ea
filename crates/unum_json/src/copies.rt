//! Copies of lists of values.
ghost use Rattle.std.specs.Prelude.{◌≡◌, IfOk};

use crate::fields::Fields;
use crate::items::Items;
use crate::kept::{Json, copy};
use crate::memory::NoMemory;
use crate::text::copy_text;
use std::alloc::Global;

/// Equal items, in a list of their own.
pub fn copy_items(alloc: Global, items: &Items<Json>) -> Result<Items<Json>, NoMemory>
    ensures { IfOk result (λ v. v ≡ items.now) }
{
    let mut copies = Items::with_room(alloc, items.len())?;
    for item in items.as_slice() {
        copies.push(copy(alloc, item)?)?;
    }
    Ok(copies)
}

/// Equal fields, in a list of their own.
pub fn copy_fields(alloc: Global, fields: &Fields<Json>) -> Result<Fields<Json>, NoMemory>
    ensures { IfOk result (λ v. v ≡ fields.now) }
{
    let mut copies = Fields::with_room(alloc, fields.len())?;
    for field in fields.as_slice() {
        let key = copy_text(alloc, &field.0)?;
        copies.push(key, copy(alloc, &field.1)?)?;
    }
    Ok(copies)
}
