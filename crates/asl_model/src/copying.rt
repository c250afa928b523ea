//! Equal copies of what a state has, but for the states inside it.

ghost use Rattle.std.specs.Prelude.{◌≡◌, IfOk};

use crate::machine::Retrier;
use crate::shapes::{ItemTemplate, MapShape, PassShape, PathShape};
use asl_paths::copy_template;
use asl_shape::copy_shape;
use std::alloc::Global;
use unum_json::{Items, NoMemory, Text, copy_text};

/// An equal shape.
pub fn copy_pass_shape(alloc: Global, shape: &PassShape) -> Result<PassShape, NoMemory>
    ensures { IfOk result (λ s. s ≡ shape.now) }
{
    Ok(PassShape::from_shape(copy_shape(alloc, shape.shape())?))
}

/// An equal shape.
pub fn copy_path_shape(alloc: Global, shape: &PathShape) -> Result<PathShape, NoMemory>
    ensures { IfOk result (λ s. s ≡ shape.now) }
{
    Ok(PathShape::from_shape(copy_shape(alloc, shape.shape())?))
}

/// An equal shape.
pub fn copy_map_shape(alloc: Global, shape: &MapShape) -> Result<MapShape, NoMemory>
    ensures { IfOk result (λ s. s ≡ shape.now) }
{
    Ok(MapShape::from_shape(copy_shape(alloc, shape.shape())?))
}

/// An equal item template.
pub fn copy_item_template(alloc: Global, item: &ItemTemplate) -> Result<ItemTemplate, NoMemory>
    ensures { IfOk result (λ t. t ≡ item.now) }
{
    Ok(ItemTemplate::from_template(copy_template(alloc, item.template())?))
}

/// Equal error names.
pub fn copy_errors(alloc: Global, errors: &Items<Text>) -> Result<Items<Text>, NoMemory>
    ensures { IfOk result (λ e. e ≡ errors.now) }
{
    let mut copies = Items::with_room(alloc, errors.len())?;
    for error in errors.as_slice() {
        copies.push(copy_text(alloc, error)?)?;
    }
    Ok(copies)
}

/// Equal retriers.
pub fn copy_retriers(alloc: Global, retry: &Items<Retrier>) -> Result<Items<Retrier>, NoMemory>
    ensures { IfOk result (λ r. r ≡ retry.now) }
{
    let mut copies = Items::with_room(alloc, retry.len())?;
    for retrier in retry.as_slice() {
        let errors = copy_errors(alloc, &retrier.errors)?;
        copies.push(Retrier {
            errors,
            most: retrier.most,
        })?;
    }
    Ok(copies)
}
