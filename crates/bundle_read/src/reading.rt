//! The first walk over a bundle's value: which rule of reading it breaks first.

ghost use Rattle.std.specs.Prelude.{◌≡◌};
ghost use Rattle.unum_json.specs.Parsed.{view, items_view, members_view};
ghost use Rattle.asl_read.specs.Checks.{Checks};
ghost use Rattle.bundle_read.specs.Faults.{named, named_by, form_of, member_part, whole_faults, field_faults, part_faults, item_faults, member_faults};

use crate::kinds::{Object, Part};
use crate::parts::{fields, item_part, kind_named};
use asl_read::{
    How, Kind, LRule, LeftOut, ReadFault, check, check_keys, check_required, how_of, refused,
    refused_at, under_index, under_key,
};
use std::alloc::Global;
use unum_json::{Fields, Value};

/// What an object is read as.
#[derive(Clone, Copy)]
pub enum Form {
    /// Its kind breaks this rule.
    Refused(LRule),
    /// By the table of its kind.
    Fields(Object),
    /// With such a part at each key.
    Each(Part),
    /// As a whole, or not at all.
    Whole,
}

fn named(name: &str) -> Form
    ensures { result ≡ named name.now }
{
    match kind_named(name) {
        Some(kind) => Form::Fields(Object::Function(kind)),
        None => Form::Refused(LRule::L4),
    }
}

/// What a function is read as, by its kind.
fn function_form(value: &Value) -> Form
    ensures { result ≡ form_of Part.Function (view value.now) }
{
    match value.get("kind") {
        None => Form::Refused(LRule::L3),
        Some(kind) => match kind.as_str() {
            None => Form::Refused(LRule::L2),
            Some(name) => named(name),
        },
    }
}

fn form_of(part: Part, value: &Value) -> Form
    ensures { result ≡ form_of part (view value.now) }
{
    match part {
        Part::Object(kind) => Form::Fields(kind),
        Part::Function => function_form(value),
        Part::Functions => Form::Each(Part::Function),
        Part::Machines => Form::Each(Part::Field(How::Object(Kind::Machine))),
        _ => Form::Whole,
    }
}

fn member_part(form: Form, key: &str) -> Part
    ensures { result ≡ member_part form key.now }
{
    match form {
        Form::Fields(kind) => how_of(fields(kind), key, Part::Field(How::Unread)),
        Form::Each(part) => part,
        _ => Part::Field(How::Unread),
    }
}

/// Checks what is no object or array of parts.
fn check_whole(alloc: Global, part: Part, value: &Value) -> Result<(), ReadFault>
    ensures { Checks result (whole_faults part (view value.now)) }
{
    match part {
        Part::Field(how) => check(alloc, how, value),
        _ => refused(alloc, LRule::L2),
    }
}

/// Checks the keys of an object of a kind: each key, then each required key.
fn check_fields(alloc: Global, kind: Object, value: &Value) -> Result<(), ReadFault>
    ensures { Checks result (field_faults kind (view value.now)) }
{
    check_keys(alloc, value, fields(kind), LeftOut::Nothing)?;
    check_required(alloc, value, fields(kind))
}

/// Checks a part: `Refused` comes exactly where it breaks a rule, with the first one in the order of reading and its place.
#[cycle(reading)]
pub fn check_part(alloc: Global, part: Part, value: &Value) -> Result<(), ReadFault>
    ensures { Checks result (part_faults part (view value.now)) }
{
    match value {
        Value::Array(items) => match item_part(part) {
            Some(inner) => check_items(alloc, inner, items),
            None => check_whole(alloc, part, value),
        },
        Value::Object(members) => match form_of(part, value) {
            Form::Refused(rule) => refused_at(alloc, rule, "kind"),
            Form::Fields(kind) => {
                check_fields(alloc, kind, value)?;
                check_members(alloc, Form::Fields(kind), members)
            }
            Form::Each(inner) => check_members(alloc, Form::Each(inner), members),
            Form::Whole => check_whole(alloc, part, value),
        },
        _ => check_whole(alloc, part, value),
    }
}

#[cycle(reading)]
fn check_items(alloc: Global, part: Part, items: &Vec<Value>) -> Result<(), ReadFault>
    ensures { Checks result (item_faults part 0 (items_view items.now.items)) }
{
    for (i, item) in items.iter().enumerate() {
        under_index(alloc, i, check_part(alloc, part, item))?;
    }
    Ok(())
}

#[cycle(reading)]
fn check_members(alloc: Global, form: Form, members: &Fields<Value>) -> Result<(), ReadFault>
    ensures { Checks result (member_faults form (members_view members.now)) }
{
    for member in members.as_slice() {
        let key = member.0.as_str();
        let part = member_part(form, key);
        under_key(alloc, key, check_part(alloc, part, &member.1))?;
    }
    Ok(())
}
