//! The inputs of a fan. They are counted before copies of them are made.
//!
//! Source: Amazon States Language, "Parallel State" and "Map State".

ghost use Rattle.std.specs.Prelude.{◌≡◌, ◌≤◌, ◌-◌, ◌^◌, ◌++◌, ◌∷◌, [], min, length, nat_le, List, IfOk, IsSome, slice_get, Some, None};
ghost use Rattle.unum_json.specs.Tree.{nodes as node_count};
ghost use Rattle.unum_json.specs.Seen.{shape_of};
ghost use Rattle.unum_json.specs.declared.value.Json as json;
ghost use Rattle.asl_paths.specs.Lookup.{get};
ghost use Rattle.asl_model.specs.Data.{Json as ModelJson, repeat, and_then, fitting, parallel_inputs, array_in, array_of, selected, map_inputs};
ghost use Rattle.unum_ir.specs.Given.{Gives};
ghost use Rattle.unum_ir.specs.Kinds.{item_input, input_at, Keeps};

use crate::trouble::{FlowError, StateError};
use asl_model::ItemTemplate;
use asl_paths::{FillError, Item, Path};
use std::alloc::Global;
use unum_json::{Items, Json, NoMemory, Seen, copy, copy_items, nodes};

/// The most nodes that the inputs of a fan have together.
const MOST_NODES: u64 = 200_000;

/// The most items of a Map.
const MOST_ITEMS: usize = 1000;

/// So many copies of a value.
fn copies(alloc: Global, count: usize, value: &Json) -> Result<Items<Json>, NoMemory>
    ensures { IfOk result (λ vs. vs ≡ repeat count value.now) }
{
    let mut made = Items::with_room(alloc, count)?;
    'filling: while made.len() < count {
        made.push(copy(alloc, value)?)?;
    }
    Ok(made)
}

/// Whether so many copies of a value are few enough nodes together.
fn copies_fit(count: usize, value: &Json) -> bool
    ensures { result ≡ nat_le (node_count (json.Arr (repeat count value.now))) 200000 }
{
    let each = nodes(value);
    each.saturating_mul(count as u64).saturating_add(1) <= MOST_NODES
}

/// Each branch of a Parallel has its prepared value as input. The error is that all together are too large.
///
/// Source: Amazon States Language, "Parallel State".
#[tactic(auto, unfolding(asl_model::specs::Data::parallel_inputs, asl_model::specs::Data::data_limit))]
pub fn parallel_inputs(alloc: Global, count: usize, value: &Json) -> Result<Items<Json>, FlowError>
    ensures { Gives (λ vs. vs) result (parallel_inputs count value.now) }
{
    if !copies_fit(count, value) {
        return Err(FlowError::Named(StateError::TooLarge));
    }
    Ok(copies(alloc, count, value)?)
}

/// How many nodes an array of these values has, capped at the greatest `u64`.
fn total_nodes(values: &Items<Json>) -> u64
    ensures { result ≡ min (node_count (json.Arr values.now)) (2 ^ 64 - 1) }
{
    let mut total = 1u64;
    for value in values.as_slice() {
        total = total.saturating_add(nodes(value));
    }
    total
}

/// The items of an array.
#[tactic(auto, unfolding(asl_model::specs::Data::items_not_array))]
fn items_in<'a>(value: Seen<'a>) -> Result<&'a Items<Json>, FlowError>
    ensures { Gives (λ vs. vs.now) result (array_of (shape_of value.entry)) }
{
    match value {
        Seen::Arr(items) => Ok(items),
        _ => Err(FlowError::Named(StateError::NoArray)),
    }
}

/// The array that ItemsPath finds.
#[tactic(auto, unfolding(asl_model::specs::Data::path_failure, asl_model::specs::Data::items_not_array))]
fn array_at<'a>(items: &Path, value: &'a Json) -> Result<&'a Items<Json>, FlowError>
    ensures { Gives (λ vs. vs.now) result (array_in (get items.now value.now)) }
{
    let Some(found) = items.get(value) else {
        return Err(FlowError::Named(StateError::Path));
    };
    items_in(found.seen())
}

/// The items themselves as inputs.
#[tactic(auto, unfolding(asl_model::specs::Data::data_limit))]
fn own_items(alloc: Global, items: &Items<Json>) -> Result<Items<Json>, FlowError>
    ensures { Gives (λ vs. vs) result (fitting items.now) }
{
    if total_nodes(items) > MOST_NODES {
        return Err(FlowError::Named(StateError::TooLarge));
    }
    Ok(copy_items(alloc, items)?)
}

/// What the item template makes of the item with this number.
fn fill_item(
    alloc: Global,
    template: &ItemTemplate,
    value: &Json,
    item: &Json,
    index: u32,
) -> Result<Json, FlowError>
    ensures { Gives (λ v. v) result (item_input template.now value.now item.now index) }
{
    let item = Item { value: item, index };
    match template.template().fill(alloc, value, Some(item)) {
        Ok(made) => Ok(made),
        Err(FillError::Missing) => Err(FlowError::Named(StateError::Parameter)),
        Err(FillError::TooLarge) => Err(FlowError::Named(StateError::TooLarge)),
        Err(FillError::NoMemory) => Err(FlowError::NoMemory),
    }
}

/// Counts one more input, and keeps it while all are few enough together. The result is the new count.
fn keep(inputs: &mut Items<Json>, total: u64, input: Json) -> Result<u64, NoMemory>
    ensures { IfOk result (λ count. (made : List ModelJson) → Keeps inputs.old total made → Keeps inputs.new count (made ++ input ∷ [])) }
{
    let total = total.saturating_add(nodes(&input));
    if total > MOST_NODES {
        drop(input);
        return Ok(total);
    }
    inputs.push(input)?;
    Ok(total)
}

/// What the item template makes of each item. The first filling that fails is the error, and then the limit of all together.
///
/// Source: Amazon States Language, "ItemSelector".
#[tactic(auto, unfolding(asl_model::specs::Data::data_limit))]
fn select(
    alloc: Global,
    template: &ItemTemplate,
    value: &Json,
    items: &Items<Json>,
) -> Result<Items<Json>, FlowError>
    requires { length items.now ≤ 1000 }
    ensures { Gives (λ vs. vs) result (and_then (selected template.now value.now 0 items.now) fitting) }
{
    let mut inputs = Items::new(alloc);
    let mut total = 1u64;
    for (i, item) in items.as_slice().iter().enumerate() {
        let input = fill_item(alloc, template, value, item, i as u32)?;
        total = keep(&mut inputs, total, input)?;
    }
    if total > MOST_NODES {
        drop(inputs);
        return Err(FlowError::Named(StateError::TooLarge));
    }
    Ok(inputs)
}

/// The inputs of a Map: the items that ItemsPath finds, or what the item template makes of them. The errors, in their order: the
/// path finds nothing, or no array, there are more than 1,000 items, the first filling that fails, all together are too large.
///
/// Source: Amazon States Language, "Map State".
#[tactic(auto, unfolding(asl_model::specs::Data::map_inputs, asl_model::specs::Data::item_limit, asl_model::specs::Data::item_limit_error))]
pub fn map_inputs(
    alloc: Global,
    items: &Path,
    selector: &Option<ItemTemplate>,
    value: &Json,
) -> Result<Items<Json>, FlowError>
    ensures { Gives (λ vs. vs) result (map_inputs items.now selector.now value.now) }
{
    let found = array_at(items, value)?;
    if found.len() > MOST_ITEMS {
        return Err(FlowError::Named(StateError::TooManyItems));
    }
    match selector {
        None => own_items(alloc, found),
        Some(template) => select(alloc, template, value, found),
    }
}

/// The input with that index of a Parallel with so many branches. All of them are the same, so none is made for the others.
///
/// Source: Amazon States Language, "Parallel State".
#[tactic(auto, unfolding(asl_model::specs::Data::parallel_inputs))]
pub fn parallel_input(
    alloc: Global,
    count: usize,
    index: u32,
    value: &Json,
) -> Result<Option<Json>, NoMemory>
    ensures { IfOk result (λ x. x ≡ input_at index (parallel_inputs count value.now)) }
{
    if index as usize >= count {
        return Ok(None);
    }
    if !copies_fit(count, value) {
        return Ok(None);
    }
    Ok(Some(copy(alloc, value)?))
}

/// The item with that index.
fn item_at(alloc: Global, items: &Items<Json>, index: u32) -> Result<Option<Json>, NoMemory>
    ensures { IfOk result (λ x. x ≡ slice_get items.now index) }
{
    match items.get(index as usize) {
        Some(item) => Ok(Some(copy(alloc, item)?)),
        None => Ok(None),
    }
}

/// The input with that index of a Map without an item template: the item itself, and none is made for the others.
fn own_item(alloc: Global, items: &Path, index: u32, value: &Json) -> Result<Option<Json>, NoMemory>
    ensures { IfOk result (λ x. x ≡ input_at index (map_inputs items.now None value.now)) }
{
    let Some(found) = items.get(value) else {
        return Ok(None);
    };
    let Seen::Arr(list) = found.seen() else {
        return Ok(None);
    };
    if list.len() > MOST_ITEMS {
        return Ok(None);
    }
    if nodes(found) > MOST_NODES {
        return Ok(None);
    }
    item_at(alloc, list, index)
}

/// The input with that index among these, which are dropped.
fn taken(inputs: Items<Json>, index: u32) -> Option<Json>
    ensures { result ≡ slice_get inputs index }
{
    let mut inputs = inputs;
    if index as usize >= inputs.len() {
        drop(inputs);
        return None;
    }
    let taken = inputs.remove(index as usize);
    drop(inputs);
    Some(taken)
}

/// The input with that index of a Map. With an item template all of them are made, since one that fails leaves none.
///
/// Source: Amazon States Language, "Map State".
pub fn map_input(
    alloc: Global,
    items: &Path,
    selector: &Option<ItemTemplate>,
    index: u32,
    value: &Json,
) -> Result<Option<Json>, NoMemory>
    ensures { IfOk result (λ x. x ≡ input_at index (map_inputs items.now selector.now value.now)) }
{
    if let None = selector {
        return own_item(alloc, items, index, value);
    }
    match map_inputs(alloc, items, selector, value) {
        Ok(inputs) => Ok(taken(inputs, index)),
        Err(FlowError::Named(_)) => Ok(None),
        Err(FlowError::NoMemory) => Err(NoMemory),
    }
}

/// The input with that index of a Map with an item template, where there is one: what the template makes of that item. Nothing is
/// made of the others.
///
/// Source: Amazon States Language, "ItemSelector".
fn filled_item(
    alloc: Global,
    items: &Path,
    template: &ItemTemplate,
    index: u32,
    value: &Json,
) -> Result<Json, NoMemory>
    requires { IsSome (input_at index (map_inputs items.now (Some template.now) value.now)) }
    ensures { IfOk result (λ x. input_at index (map_inputs items.now (Some template.now) value.now) ≡ Some x) }
{
    let list = match array_at(items, value) {
        Ok(list) => list,
        Err(FlowError::Named(_)) => unreachable!(),
        Err(FlowError::NoMemory) => return Err(NoMemory),
    };
    let item = list.get(index as usize).unwrap();
    match fill_item(alloc, template, value, item, index) {
        Ok(input) => Ok(input),
        Err(FlowError::Named(_)) => unreachable!(),
        Err(FlowError::NoMemory) => Err(NoMemory),
    }
}

/// The input with that index of a Map, where there is one. None is made for the others.
///
/// Source: Amazon States Language, "Map State".
pub fn map_input_given(
    alloc: Global,
    items: &Path,
    selector: &Option<ItemTemplate>,
    index: u32,
    value: &Json,
) -> Result<Json, NoMemory>
    requires { IsSome (input_at index (map_inputs items.now selector.now value.now)) }
    ensures { IfOk result (λ x. input_at index (map_inputs items.now selector.now value.now) ≡ Some x) }
{
    match selector {
        None => Ok(own_item(alloc, items, index, value)?.unwrap()),
        Some(template) => filled_item(alloc, items, template, index, value),
    }
}
