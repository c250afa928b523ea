//! The walks over a value: what one of them finds first.

ghost use Rattle.std.specs.Prelude.{◌≡◌, codes};
ghost use Rattle.serde_json.specs.Find.{get};
ghost use Rattle.unum_json.specs.Parsed.{view, items_view, members_view};
ghost use Rattle.asl_read.specs.Checks.{Checks};
ghost use Rattle.ir_text.specs.Tables.{ops, kinds};
ghost use Rattle.ir_text.specs.Walks.{tagged, tag_key as key_of_tag, form_of as object_form, member_part as part_at, form_faults, whole_faults, field_faults, part_faults, item_faults, member_faults};

use crate::kinds::{Object, Part};
use crate::ranges::{Sizes, check_ranges};
use crate::rows::{fields, item_part, kind_named, op_named};
use asl_read::{
    How, Kind, LRule, LeftOut, ReadFault, check, check_keys, check_required, how_of, refused,
    refused_at, under_index, under_key,
};
use std::alloc::Global;
use unum_json::{Fields, Value};

/// What a walk asks.
#[derive(Clone, Copy)]
pub enum Walk {
    /// Whether each part has its form.
    Forms,
    /// Whether each number is in its range, where the tables have these sizes.
    Ranges(Sizes),
}

/// What an object is read as.
#[derive(Clone, Copy)]
pub enum Form {
    /// Its tag breaks this rule.
    Refused(LRule),
    /// By the table of its kind.
    Fields(Object),
    /// As a whole, or not at all.
    Whole,
}

fn named(found: Option<Object>) -> Form
    ensures { result ≡ elim found [ None ↦ Form.Refused LRule.L4 | Some kind ↦ Form.Fields kind ] }
{
    match found {
        Some(kind) => Form::Fields(kind),
        None => Form::Refused(LRule::L4),
    }
}

/// What a node is read as, by its op.
fn node_form(value: &Value) -> Form
    ensures { result ≡ tagged ops (get (codes "op") (view value.now)) }
{
    match value.get("op") {
        None => Form::Refused(LRule::L3),
        Some(tag) => match tag.as_str() {
            None => Form::Refused(LRule::L2),
            Some(name) => named(op_named(name)),
        },
    }
}

/// What a function is read as, by its kind.
fn func_form(value: &Value) -> Form
    ensures { result ≡ tagged kinds (get (codes "kind") (view value.now)) }
{
    match value.get("kind") {
        None => Form::Refused(LRule::L3),
        Some(tag) => match tag.as_str() {
            None => Form::Refused(LRule::L2),
            Some(name) => named(kind_named(name)),
        },
    }
}

fn form_of(part: Part, value: &Value) -> Form
    ensures { result ≡ object_form part (view value.now) }
{
    match part {
        Part::Object(kind) => Form::Fields(kind),
        Part::Node => node_form(value),
        Part::Func => func_form(value),
        _ => Form::Whole,
    }
}

fn tag_key(part: Part) -> &'static str
    ensures { result.now ≡ key_of_tag part }
{
    match part {
        Part::Node => "op",
        _ => "kind",
    }
}

fn member_part(kind: Object, key: &str) -> Part
    ensures { result ≡ part_at kind key.now }
{
    how_of(fields(kind), key, Part::Field(How::Unread))
}

fn check_form(alloc: Global, part: Part, value: &Value) -> Result<(), ReadFault>
    ensures { Checks result (form_faults part (view value.now)) }
{
    match part {
        Part::Field(how) => check(alloc, how, value),
        Part::Number(_) => check(alloc, How::Whole, value),
        Part::NumberOrNull(_) => match value {
            Value::Null => Ok(()),
            _ => check(alloc, How::Whole, value),
        },
        Part::Rule => check(alloc, How::Object(Kind::FlatRule), value),
        _ => refused(alloc, LRule::L2),
    }
}

/// Checks what is no object or array of parts.
fn check_whole(alloc: Global, walk: Walk, part: Part, value: &Value) -> Result<(), ReadFault>
    ensures { Checks result (whole_faults walk part (view value.now)) }
{
    match walk {
        Walk::Forms => check_form(alloc, part, value),
        Walk::Ranges(sizes) => check_ranges(alloc, sizes, part, value),
    }
}

/// Checks the keys of an object of a kind: each key, then each required key.
fn check_fields(alloc: Global, walk: Walk, kind: Object, value: &Value) -> Result<(), ReadFault>
    ensures { Checks result (field_faults walk kind (view value.now)) }
{
    match walk {
        Walk::Forms => {
            check_keys(alloc, value, fields(kind), LeftOut::Nothing)?;
            check_required(alloc, value, fields(kind))
        }
        Walk::Ranges(_) => Ok(()),
    }
}

/// Checks a part: `Refused` comes exactly where the walk finds something, with the place of what it finds first.
#[cycle(walk)]
pub(crate) fn check_part(
    alloc: Global,
    walk: Walk,
    part: Part,
    value: &Value,
) -> Result<(), ReadFault>
    ensures { Checks result (part_faults walk part (view value.now)) }
{
    match value {
        Value::Array(items) => match item_part(part) {
            Some(inner) => check_items(alloc, walk, inner, items),
            None => check_whole(alloc, walk, part, value),
        },
        Value::Object(members) => match form_of(part, value) {
            Form::Refused(rule) => refused_at(alloc, rule, tag_key(part)),
            Form::Fields(kind) => {
                check_fields(alloc, walk, kind, value)?;
                check_members(alloc, walk, kind, members)
            }
            Form::Whole => check_whole(alloc, walk, part, value),
        },
        _ => check_whole(alloc, walk, part, value),
    }
}

#[cycle(walk)]
fn check_items(alloc: Global, walk: Walk, part: Part, items: &Vec<Value>) -> Result<(), ReadFault>
    ensures { Checks result (item_faults walk part 0 (items_view items.now.items)) }
{
    for (i, item) in items.iter().enumerate() {
        under_index(alloc, i, check_part(alloc, walk, part, item))?;
    }
    Ok(())
}

#[cycle(walk)]
fn check_members(
    alloc: Global,
    walk: Walk,
    kind: Object,
    members: &Fields<Value>,
) -> Result<(), ReadFault>
    ensures { Checks result (member_faults walk kind (members_view members.now)) }
{
    for member in members.as_slice() {
        let key = member.0.as_str();
        let part = member_part(kind, key);
        under_key(alloc, key, check_part(alloc, walk, part, &member.1))?;
    }
    Ok(())
}
