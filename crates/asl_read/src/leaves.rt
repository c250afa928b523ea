//! Values that are read as a whole.

ghost use Rattle.std.specs.Prelude.{[]};
ghost use Rattle.std.specs.Str.{bytes_eq};
ghost use Rattle.unum_json.specs.Parsed.{view};
ghost use Rattle.unum_json.specs.Whole.{of_data};
ghost use Rattle.asl_paths.specs.Templates.{template_of};
ghost use Rattle.asl_read.specs.Objects.{here, unless};
ghost use Rattle.asl_read.specs.Leaves.{leaf_faults, text_faults, path_faults, whole_faults, data_faults, form_faults, template_faults};
ghost use Rattle.asl_read.specs.Checks.{Checks};

use crate::fault::{LRule, ReadFault, refused};
use crate::table::How;
use asl_paths::{Path, PathError, Template, TemplateError};
use std::alloc::Global;
use unum_json::{Json, Value, WholeError, to_json};

/// A fault unless the test holds.
fn unless(alloc: Global, holds: bool, rule: LRule) -> Result<(), ReadFault>
    ensures { Checks result (unless holds (here rule)) }
{
    if holds { Ok(()) } else { refused(alloc, rule) }
}

fn check_text(alloc: Global, value: &Value) -> Result<(), ReadFault>
    ensures { Checks result (text_faults (λ t. []) (view value.now)) }
{
    unless(alloc, value.as_str().is_some(), LRule::L2)
}

/// A text that is this one, or else left out.
fn check_named(alloc: Global, value: &Value, name: &str) -> Result<(), ReadFault>
    ensures { Checks result (text_faults (λ t. unless (bytes_eq t name.now) (here LRule.L5)) (view value.now)) }
{
    match value.as_str() {
        Some(text) => unless(alloc, text == name, LRule::L5),
        None => refused(alloc, LRule::L2),
    }
}

fn check_path(alloc: Global, value: &Value) -> Result<(), ReadFault>
    ensures { Checks result (path_faults (view value.now)) }
{
    let Some(text) = value.as_str() else {
        return refused(alloc, LRule::L2);
    };
    match Path::parse(alloc, text.as_bytes()) {
        Ok(path) => {
            drop(path);
            Ok(())
        }
        Err(PathError::Bad { at: _ }) => refused(alloc, LRule::L6),
        Err(PathError::NoMemory) => Err(ReadFault::NoMemory),
    }
}

fn check_whole(alloc: Global, value: &Value) -> Result<(), ReadFault>
    ensures { Checks result (whole_faults (view value.now)) }
{
    match value.as_number() {
        Some(number) => unless(alloc, number.as_i64().is_some(), LRule::L8),
        None => refused(alloc, LRule::L2),
    }
}

fn check_data(alloc: Global, value: &Value) -> Result<(), ReadFault>
    ensures { Checks result (data_faults (of_data (view value.now))) }
{
    match to_json(alloc, value) {
        Ok(json) => {
            drop(json);
            Ok(())
        }
        Err(WholeError::NotWhole { at }) => Err(ReadFault::Refused {
            rule: LRule::L8,
            at,
        }),
        Err(WholeError::NoMemory) => Err(ReadFault::NoMemory),
    }
}

fn check_parts(alloc: Global, json: &Json, item: bool) -> Result<(), ReadFault>
    ensures { Checks result (form_faults (template_of item json.now)) }
{
    match Template::read(alloc, json, item) {
        Ok(template) => {
            drop(template);
            Ok(())
        }
        Err(TemplateError::BadTemplate { at }) => Err(ReadFault::Refused {
            rule: LRule::L6,
            at,
        }),
        Err(TemplateError::NoMemory) => Err(ReadFault::NoMemory),
    }
}

fn check_template(alloc: Global, value: &Value, item: bool) -> Result<(), ReadFault>
    ensures { Checks result (template_faults item (view value.now)) }
{
    if value.as_object().is_none() {
        return refused(alloc, LRule::L2);
    }
    match to_json(alloc, value) {
        Ok(json) => check_parts(alloc, &json, item),
        Err(WholeError::NotWhole { at }) => Err(ReadFault::Refused {
            rule: LRule::L8,
            at,
        }),
        Err(WholeError::NoMemory) => Err(ReadFault::NoMemory),
    }
}

/// Checks a value that is read as a whole, or one that has not the type of what is read.
pub(crate) fn check_leaf(alloc: Global, how: How, value: &Value) -> Result<(), ReadFault>
    ensures { Checks result (leaf_faults how (view value.now)) }
{
    match how {
        How::Unread => Ok(()),
        How::Text => check_text(alloc, value),
        How::Truth => unless(alloc, value.as_bool().is_some(), LRule::L2),
        How::Whole => check_whole(alloc, value),
        How::Data => check_data(alloc, value),
        How::Language => check_named(alloc, value, "JSONPath"),
        How::Mode => check_named(alloc, value, "INLINE"),
        How::Path => check_path(alloc, value),
        How::PathOrNull => match value {
            Value::Null => Ok(()),
            _ => check_path(alloc, value),
        },
        How::Template => check_template(alloc, value, false),
        How::ItemTemplate => check_template(alloc, value, true),
        How::Texts | How::Object(_) | How::Each(_) | How::State | How::States => {
            refused(alloc, LRule::L2)
        }
    }
}
