//! Numbers, texts, paths and templates, as they are printed.

ghost use Rattle.std.specs.Prelude.{◌≡◌, ◌++◌, IfOk, OnOk, map, Option, Some};
ghost use Rattle.unum_json.specs.declared.value.Json as json;
ghost use Rattle.ir_text.specs.Printed.{number_value, number_or_null, unless_zero, texts_value, scopes_value, unless_none, path_value, unless_root, template_value, flow, with_rows};

use crate::objects::put_if;
use asl_paths::{Path, Template};
use asl_shape::Shape;
use std::alloc::Global;
use unum_json::{Fields, Items, Json, NoMemory, Text, array, copy, copy_text};

pub(crate) fn text_value(alloc: Global, text: &Text) -> Result<Json, NoMemory>
    ensures { IfOk result (λ v. v ≡ json.Str text.now) }
{
    Ok(Json::string(copy_text(alloc, text)?))
}

pub(crate) fn word(alloc: Global, word: &str) -> Result<Json, NoMemory>
    ensures { IfOk result (λ v. v ≡ json.Str word.now) }
{
    Ok(Json::string(Text::from_str(alloc, word)?))
}

pub(crate) fn number_value(number: u32) -> Json
    ensures { result ≡ number_value number }
{
    Json::whole(i64::from(number))
}

pub(crate) fn number_or_null(number: Option<u32>) -> Json
    ensures { result ≡ number_or_null number }
{
    match number {
        Some(number) => number_value(number),
        None => Json::null(),
    }
}

/// The number, unless it is 0.
pub(crate) fn unless_zero(number: u32) -> Option<Json>
    ensures { result ≡ unless_zero number }
{
    if number == 0 {
        None
    } else {
        Some(number_value(number))
    }
}

pub(crate) fn texts_value(alloc: Global, texts: &Items<Text>) -> Result<Json, NoMemory>
    ensures { IfOk result (λ v. v ≡ texts_value texts.now) }
{
    let mut values = Items::with_room(alloc, texts.len())?;
    for text in texts.as_slice() {
        values.push(text_value(alloc, text)?)?;
    }
    array(alloc, values)
}

pub(crate) fn scopes_value(alloc: Global, scopes: &[u32]) -> Result<Json, NoMemory>
    ensures { IfOk result (λ v. v ≡ scopes_value scopes.now) }
{
    let mut values = Items::new(alloc);
    for scope in scopes {
        values.push(number_value(*scope))?;
    }
    array(alloc, values)
}

/// The array of these, unless there is none.
pub(crate) fn unless_none(alloc: Global, values: Items<Json>) -> Result<Option<Json>, NoMemory>
    ensures { IfOk result (λ o. o ≡ unless_none values) }
{
    if values.is_empty() {
        drop(values);
        return Ok(None);
    }
    Ok(Some(array(alloc, values)?))
}

pub(crate) fn path_value(alloc: Global, path: &Path) -> Result<Json, NoMemory>
    ensures { IfOk result (λ v. v ≡ path_value path.now) }
{
    Ok(Json::string(path.spell(alloc)?))
}

/// The path, unless it is `$`.
pub(crate) fn unless_root(alloc: Global, path: &Option<Path>) -> Result<Option<Json>, NoMemory>
    ensures { IfOk result (λ o. o ≡ unless_root path.now) }
{
    match path {
        None => Ok(Some(Json::null())),
        Some(path) => {
            if path.steps().is_empty() {
                Ok(None)
            } else {
                Ok(Some(path_value(alloc, path)?))
            }
        }
    }
}

pub(crate) fn template_value(
    alloc: Global,
    template: &Option<Template>,
) -> Result<Option<Json>, NoMemory>
    ensures { IfOk result (λ o. o ≡ template_value template.now) }
{
    match template {
        Some(template) => Ok(Some(copy(alloc, template.source())?)),
        None => Ok(None),
    }
}

/// Adds the fields of a state's data flow.
pub(crate) fn put_flow(
    alloc: Global,
    fields: &mut Fields<Json>,
    shape: &Shape,
) -> Result<(), NoMemory>
    ensures { OnOk result (fields.new ≡ with_rows fields.old (flow shape.now)) }
{
    let input = unless_root(alloc, &shape.input)?;
    put_if(alloc, fields, "InputPath", input)?;
    let output = unless_root(alloc, &shape.output)?;
    put_if(alloc, fields, "OutputPath", output)?;
    let result = unless_root(alloc, &shape.result)?;
    put_if(alloc, fields, "ResultPath", result)?;
    let parameters = template_value(alloc, &shape.parameters)?;
    put_if(alloc, fields, "Parameters", parameters)?;
    let selector = template_value(alloc, &shape.selector)?;
    put_if(alloc, fields, "ResultSelector", selector)
}
