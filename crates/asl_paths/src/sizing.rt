//! How large a template becomes when it is filled.

ghost use Rattle.std.specs.Prelude.{◌≡◌, pos, option_and_then};
ghost use Rattle.std.specs.Option.{option_copied, option_map};
ghost use Rattle.unum_json.specs.declared.value.Json as json;
ghost use Rattle.unum_json.specs.Tree.{text_nodes};
ghost use Rattle.asl_paths.specs.Lookup.{get};
ghost use Rattle.asl_paths.specs.Filling.{fill_part, fill_parts, fill_fields, item_of};
ghost use Rattle.asl_paths.specs.Sizes.{size, value_size, items_size, fields_size, joined as both, around as outer, is_small_size};

use crate::path::Path;
use crate::template::{Item, Part};
use unum_json::{Fields, Items, Json, Text, depth, nodes};

/// The nodes of a value and how deep it nests, each capped at the greatest number.
#[derive(Clone, Copy)]
pub(crate) struct Size {
    pub(crate) nodes: u64,
    pub(crate) depth: u32,
}

fn nothing() -> Size
    ensures { result ≡ size 0 0 }
{
    Size { nodes: 0, depth: 0 }
}

fn joined(a: Size, b: Size) -> Size
    ensures { result ≡ both a b }
{
    Size {
        nodes: a.nodes.saturating_add(b.nodes),
        depth: a.depth.max(b.depth),
    }
}

/// The size of the array or the object that has parts of this size.
pub(crate) fn around(parts: Size) -> Size
    ensures { result ≡ outer parts }
{
    Size {
        nodes: parts.nodes.saturating_add(1),
        depth: parts.depth.saturating_add(1),
    }
}

/// The most nodes of a small value.
const MOST_NODES: u64 = 200_000;

/// The greatest depth of a small value.
const MOST_DEPTH: u32 = 120;

/// Whether a size is within the limit of every value in a run.
pub(crate) fn is_small(size: Size) -> bool
    ensures { result ≡ is_small_size size }
{
    size.nodes <= MOST_NODES && size.depth <= MOST_DEPTH
}

fn of_value(value: &Json) -> Size
    ensures { result ≡ value_size value.now }
{
    Size {
        nodes: nodes(value),
        depth: depth(value),
    }
}

/// The size with that of a key.
fn with_key(key: &Text, value: Size) -> Size
    ensures { result ≡ both (size (text_nodes key.now) 0) value }
{
    let own = Size {
        nodes: (key.len() / 32) as u64,
        depth: 0,
    };
    joined(own, value)
}

fn of_found(found: Option<&Json>) -> Option<Size>
    ensures { result ≡ option_map value_size (option_copied found.entry) }
{
    match found {
        Some(value) => Some(of_value(value)),
        None => None,
    }
}

/// The size of the item's number, if there is an item.
fn of_index(item: Option<Item<'_>>) -> Option<Size>
    ensures { result ≡ option_map value_size (option_map (λ i. json.Int (pos i.1)) (item_of item.entry)) }
{
    match item {
        Some(item) => of_found(Some(&Json::whole(i64::from(item.index)))),
        None => None,
    }
}

fn of_item(path: &Path, item: Option<Item<'_>>) -> Option<Size>
    ensures { result ≡ option_map value_size (option_and_then (λ i. get path.now i.0) (item_of item.entry)) }
{
    match item {
        Some(item) => of_found(path.get(item.value)),
        None => None,
    }
}

/// The size of what a part is filled to, or `None` exactly where some path finds nothing.
#[cycle(sizing)]
fn of_part(part: &Part, value: &Json, item: Option<Item<'_>>) -> Option<Size>
    ensures { result ≡ option_map value_size (fill_part value.now (item_of item.entry) part.now) }
{
    match part {
        Part::Constant(constant) => of_found(Some(constant)),
        Part::Found(path) => of_found(path.get(value)),
        Part::ItemIndex => of_index(item),
        Part::ItemValue(path) => of_item(path, item),
        Part::Array(parts) => Some(around(of_parts(parts, value, item)?)),
        Part::Object(fields) => Some(around(of_fields(fields, value, item)?)),
    }
}

#[cycle(sizing)]
fn of_parts(parts: &Items<Part>, value: &Json, item: Option<Item<'_>>) -> Option<Size>
    ensures { result ≡ option_map items_size (fill_parts value.now (item_of item.entry) parts.now) }
{
    let mut total = nothing();
    for part in parts.as_slice() {
        let own = of_part(part, value, item)?;
        total = joined(total, own);
    }
    Some(total)
}

/// The size of what fields are filled to, or `None` exactly where some path finds nothing.
#[cycle(sizing)]
pub(crate) fn of_fields(fields: &Fields<Part>, value: &Json, item: Option<Item<'_>>) -> Option<Size>
    ensures { result ≡ option_map fields_size (fill_fields value.now (item_of item.entry) fields.now) }
{
    let mut total = nothing();
    for field in fields.as_slice() {
        let own = of_part(&field.1, value, item)?;
        total = joined(total, with_key(&field.0, own));
    }
    Some(total)
}
