//! Paths, templates and data flow.

ghost use Rattle.std.specs.Prelude.{◌≡◌, [], IfOk, IsTrue, true};
ghost use Rattle.unum_json.specs.Parsed.{view};
ghost use Rattle.asl_shape.specs.Stages.{is_plain};
ghost use Rattle.asl_read.specs.Parts.{path_at, path_in, path_if, path_or_null, path_in_text, template_at, template_if, shape_in, pass_shape_in, path_shape_in, map_shape_in, item_template_in};

use crate::values::json_of;
use asl_model::{ItemTemplate, MapShape, PassShape, PathShape};
use asl_paths::{Path, PathError, Template, TemplateError};
use asl_shape::Shape;
use std::alloc::Global;
use unum_json::{NoMemory, Value};

/// The path of a text, or `$`.
fn path_in_text(alloc: Global, text: &str) -> Result<Path, NoMemory>
    ensures { IfOk result (λ p. p ≡ path_in_text text.now) }
{
    match Path::parse(alloc, text.as_bytes()) {
        Ok(path) => Ok(path),
        Err(PathError::Bad { at: _ }) => Ok(Path::root(alloc)),
        Err(PathError::NoMemory) => Err(NoMemory),
    }
}

/// The path, or `$`.
pub fn path_at(alloc: Global, value: &Value) -> Result<Path, NoMemory>
    ensures { IfOk result (λ p. p ≡ path_at (view value.now)) }
{
    match value.as_str() {
        Some(text) => path_in_text(alloc, text),
        None => path_in_text(alloc, ""),
    }
}

/// The path of a key, which is `$` where the key is missing.
pub fn path_in(alloc: Global, value: &Value, key: &str) -> Result<Path, NoMemory>
    ensures { IfOk result (λ p. p ≡ path_in key.now (view value.now)) }
{
    match value.get(key) {
        Some(found) => path_at(alloc, found),
        None => Ok(Path::root(alloc)),
    }
}

fn path_or_null(alloc: Global, value: &Value) -> Result<Option<Path>, NoMemory>
    ensures { IfOk result (λ p. p ≡ path_or_null (view value.now)) }
{
    match value {
        Value::Null => Ok(None),
        _ => Ok(Some(path_at(alloc, value)?)),
    }
}

/// The path of a key, which is `$` where the key is missing, and none where it is null.
pub fn path_if(alloc: Global, value: &Value, key: &str) -> Result<Option<Path>, NoMemory>
    ensures { IfOk result (λ p. p ≡ path_if key.now (view value.now)) }
{
    match value.get(key) {
        Some(found) => path_or_null(alloc, found),
        None => Ok(Some(Path::root(alloc))),
    }
}

/// The template, or the empty one.
fn template_at(alloc: Global, value: &Value, item: bool) -> Result<Template, NoMemory>
    ensures { IfOk result (λ t. t ≡ template_at item (view value.now)) }
{
    let json = json_of(alloc, value)?;
    match Template::read(alloc, &json, item) {
        Ok(template) => Ok(template),
        Err(TemplateError::BadTemplate { at: _ }) => Template::empty(alloc, item),
        Err(TemplateError::NoMemory) => Err(NoMemory),
    }
}

/// The template of a key, if it is there.
fn template_if(
    alloc: Global,
    value: &Value,
    key: &str,
    item: bool,
) -> Result<Option<Template>, NoMemory>
    ensures { IfOk result (λ t. t ≡ template_if item key.now (view value.now)) }
{
    match value.get(key) {
        Some(found) => Ok(Some(template_at(alloc, found, item)?)),
        None => Ok(None),
    }
}

/// The shape of a Task or a Parallel.
pub fn shape_in(alloc: Global, value: &Value) -> Result<Shape, NoMemory>
    ensures { IfOk result (λ s. s ≡ shape_in (view value.now)) }
{
    let input = path_if(alloc, value, "InputPath")?;
    let parameters = template_if(alloc, value, "Parameters", false)?;
    let selector = template_if(alloc, value, "ResultSelector", false)?;
    let result = path_if(alloc, value, "ResultPath")?;
    let output = path_if(alloc, value, "OutputPath")?;
    Ok(Shape {
        input,
        parameters,
        selector,
        result,
        output,
    })
}

/// The shape of a Pass.
pub fn pass_shape_in(alloc: Global, value: &Value) -> Result<PassShape, NoMemory>
    ensures { IfOk result (λ s. s ≡ pass_shape_in (view value.now)) }
{
    let input = path_if(alloc, value, "InputPath")?;
    let parameters = template_if(alloc, value, "Parameters", false)?;
    let result = path_if(alloc, value, "ResultPath")?;
    let output = path_if(alloc, value, "OutputPath")?;
    Ok(PassShape::from_shape(Shape {
        input,
        parameters,
        selector: None,
        result,
        output,
    }))
}

/// The shape of a Choice or a Succeed.
pub fn path_shape_in(alloc: Global, value: &Value) -> Result<PathShape, NoMemory>
    ensures { IfOk result (λ s. s ≡ path_shape_in (view value.now)) }
{
    let input = path_if(alloc, value, "InputPath")?;
    let output = path_if(alloc, value, "OutputPath")?;
    Ok(PathShape::from_shape(Shape {
        input,
        parameters: None,
        selector: None,
        result: Some(Path::root(alloc)),
        output,
    }))
}

/// The shape of a Map.
pub fn map_shape_in(alloc: Global, value: &Value) -> Result<MapShape, NoMemory>
    ensures { IfOk result (λ s. s ≡ map_shape_in (view value.now)) }
{
    let input = path_if(alloc, value, "InputPath")?;
    let selector = template_if(alloc, value, "ResultSelector", false)?;
    let result = path_if(alloc, value, "ResultPath")?;
    let output = path_if(alloc, value, "OutputPath")?;
    Ok(MapShape::from_shape(Shape {
        input,
        parameters: None,
        selector,
        result,
        output,
    }))
}

/// The template of a Map's items: ItemSelector, or else Parameters.
pub(crate) fn item_template_in(
    alloc: Global,
    value: &Value,
) -> Result<Option<ItemTemplate>, NoMemory>
    ensures { IfOk result (λ t. t ≡ item_template_in (view value.now)) }
{
    let found = match value.get("ItemSelector") {
        Some(found) => Some(found),
        None => value.get("Parameters"),
    };
    match found {
        Some(found) => Ok(Some(ItemTemplate::from_template(template_at(alloc, found, true)?))),
        None => Ok(None),
    }
}

/// The item template of a value, or the empty one.
pub fn item_template_at(alloc: Global, value: &Value) -> Result<ItemTemplate, NoMemory>
    ensures { IfOk result (λ t. t ≡ template_at true (view value.now)) }
{
    Ok(ItemTemplate::from_template(template_at(alloc, value, true)?))
}
