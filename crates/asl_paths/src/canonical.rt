//! A template's value with the canonical text of each path.

ghost use Rattle.std.specs.Prelude.{◌≡◌, ◌++◌, IfOk, MatchOption, codes, drop, flat_map, string_bytes};
ghost use Rattle.asl_paths.specs.Grammar.{path_text, step_text};
ghost use Rattle.asl_paths.specs.Canonical.{text_by, plain_text, into_item, item_text, canonical_text, at_path, value_by, canonical_items, canonical_fields, canonical};
ghost use Rattle.asl_paths.specs.Reading.{path_of};
ghost use Rattle.asl_paths.specs.Templates.{path_name as name_of_key};
ghost use Rattle.unum_json.specs.Seen.{shape_of, shown};
ghost use Rattle.unum_json.specs.declared.value.Json.{out-Json};

use crate::adding::add_field;
use crate::path::Path;
use crate::spelling::spelled;
use crate::templating::{path_from_root, path_in, path_name};
use std::alloc::Global;
use unum_json::{Fields, Items, Json, NoMemory, Seen, Text, array, copy, copy_text, object};

/// The canonical text of the path that a text spells, or else the text itself.
fn plain_text(alloc: Global, text: &Text) -> Result<Text, NoMemory>
    ensures { IfOk result (λ t. t ≡ plain_text text.now) }
{
    match path_in(alloc, text.as_bytes())? {
        Some(path) => path.spell(alloc),
        None => copy_text(alloc, text),
    }
}

/// The canonical text of a path into an item.
fn into_item(alloc: Global, path: &Path) -> Result<Text, NoMemory>
    ensures { IfOk result (λ t. t ≡ into_item path.now) }
{
    let text = spelled(alloc, "$$.Map.Item.Value", path.steps())?;
    Ok(Text::from_string(text)?)
}

/// The canonical text of a path, or of a path into an item.
fn item_text(alloc: Global, text: &Text) -> Result<Text, NoMemory>
    ensures { IfOk result (λ t. t ≡ item_text text.now) }
{
    let bytes = text.as_bytes();
    if bytes == b"$$.Map.Item.Index".as_slice() {
        return copy_text(alloc, text);
    }
    let Some(steps) = bytes.strip_prefix(b"$$.Map.Item.Value".as_slice()) else {
        return plain_text(alloc, text);
    };
    match path_from_root(alloc, steps)? {
        Some(path) => into_item(alloc, &path),
        None => copy_text(alloc, text),
    }
}

fn canonical_text(alloc: Global, text: &Text, item: bool) -> Result<Text, NoMemory>
    ensures { IfOk result (λ t. t ≡ canonical_text item text.now) }
{
    if item {
        item_text(alloc, text)
    } else {
        plain_text(alloc, text)
    }
}

/// The value of a key that ends in `.$`, which is seen so.
fn at_path_seen(alloc: Global, value: &Json, seen: Seen<'_>, item: bool) -> Result<Json, NoMemory>
    ensures { IfOk result (λ v. v ≡ at_path item value.now (shape_of seen.entry)) }
{
    match seen {
        Seen::Str(text) => Ok(Json::string(canonical_text(alloc, text, item)?)),
        _ => copy(alloc, value),
    }
}

/// The value of a key that ends in `.$`.
fn at_path(alloc: Global, value: &Json, item: bool) -> Result<Json, NoMemory>
    ensures { IfOk result (λ v. v ≡ at_path item value.now (out-Json value.now)) }
{
    at_path_seen(alloc, value, value.seen(), item)
}

/// The value of a field, by its key.
fn value_by(alloc: Global, key: &Text, value: &Json, item: bool) -> Result<Json, NoMemory>
    ensures { IfOk result (λ v. v ≡ value_by item value.now (name_of_key key.now)) }
{
    match path_name(key.as_str()) {
        Some(_name) => at_path(alloc, value, item),
        None => copy(alloc, value),
    }
}

/// The value with the canonical text of each path.
#[cycle(canonical)]
pub(crate) fn canonical(alloc: Global, value: &Json, item: bool) -> Result<Json, NoMemory>
    ensures { IfOk result (λ v. v ≡ canonical item value.now) }
{
    canonical_seen(alloc, value.seen(), item)
}

#[cycle(canonical)]
fn canonical_seen(alloc: Global, value: Seen<'_>, item: bool) -> Result<Json, NoMemory>
    ensures { IfOk result (λ v. v ≡ canonical item (shown value.entry)) }
{
    match value {
        Seen::Arr(items) => {
            let made = canonical_items(alloc, items, item)?;
            array(alloc, made)
        }
        Seen::Obj(fields) => {
            let made = canonical_fields(alloc, fields, item)?;
            object(alloc, made)
        }
        Seen::Str(text) => Ok(Json::string(copy_text(alloc, text)?)),
        Seen::Int(number) => Ok(Json::whole(number)),
        Seen::Bool(truth) => Ok(Json::truth(truth)),
        Seen::Null => Ok(Json::null()),
    }
}

#[cycle(canonical)]
fn canonical_items(alloc: Global, items: &Items<Json>, item: bool) -> Result<Items<Json>, NoMemory>
    ensures { IfOk result (λ v. v ≡ canonical_items item items.now) }
{
    let mut made = Items::new(alloc);
    for value in items.as_slice() {
        made.push(canonical(alloc, value, item)?)?;
    }
    Ok(made)
}

#[cycle(canonical)]
fn canonical_fields(
    alloc: Global,
    fields: &Fields<Json>,
    item: bool,
) -> Result<Fields<Json>, NoMemory>
    ensures { IfOk result (λ v. v ≡ canonical_fields item fields.now) }
{
    let mut made = Fields::new(alloc);
    for field in fields.as_slice() {
        let inner = canonical(alloc, &field.1, item)?;
        let value = value_by(alloc, &field.0, &inner, item);
        drop(inner);
        let value = value?;
        add_field(alloc, &mut made, &field.0, value)?;
    }
    Ok(made)
}
