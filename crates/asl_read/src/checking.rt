//! The first walk: which rule a value breaks first.

ghost use Rattle.std.specs.Prelude.{◌≡◌, map};
ghost use Rattle.unum_json.specs.Parsed.{view, items_view, members_view};
ghost use Rattle.unum_json.specs.Keys.{find_key};
ghost use Rattle.asl_read.specs.Tables.{others, state_types};
ghost use Rattle.asl_read.specs.Faults.{named_type, typed, form_of, rule_faults, field_faults, item_how, member_how, value_faults, item_faults, member_faults};
ghost use Rattle.asl_read.specs.Checks.{Checks};

use crate::fault::{LRule, ReadFault, refused, refused_at, under_index, under_key};
use crate::leaves::check_leaf;
use crate::malformed::is_malformed;
use crate::objects::{LeftOut, check_keys, check_required, how_of};
use crate::rows::rows;
use crate::table::{How, Kind, StateType};
use std::alloc::Global;
use unum_json::{Fields, Value};

/// What an object is read as.
#[derive(Clone, Copy)]
pub(crate) enum Form {
    /// Its Type breaks this rule.
    Refused(LRule),
    /// By the table of its kind.
    Fields(Kind),
    /// A state at each key.
    States,
    /// As a whole, or not at all.
    Leaf,
}

/// The state types, by their names.
const STATE_TYPES: [(&'static str, StateType); 7] = [
    ("Task", StateType::Task),
    ("Pass", StateType::Pass),
    ("Choice", StateType::Choice),
    ("Succeed", StateType::Succeed),
    ("Fail", StateType::Fail),
    ("Parallel", StateType::Parallel),
    ("Map", StateType::Map),
];

fn type_among(types: &[(&'static str, StateType)], name: &str) -> Option<StateType>
    ensures { result ≡ find_key name.now (map named_type types.now) }
{
    for row in types {
        if row.0 == name {
            return Some(row.1);
        }
    }
    None
}

/// The state type of that name.
pub(crate) fn type_named(name: &str) -> Option<StateType>
    ensures { result ≡ find_key name.now state_types }
{
    type_among(&STATE_TYPES, name)
}

fn typed(name: &str) -> Form
    ensures { result ≡ typed name.now }
{
    match type_named(name) {
        Some(kind) => Form::Fields(Kind::State(kind)),
        None => {
            if name == "Wait" {
                Form::Refused(LRule::L5)
            } else {
                Form::Refused(LRule::L4)
            }
        }
    }
}

/// What a state is read as, by its Type.
fn state_form(value: &Value) -> Form
    ensures { result ≡ form_of How.State (view value.now) }
{
    match value.get("Type") {
        None => Form::Refused(LRule::L3),
        Some(kind) => match kind.as_str() {
            None => Form::Refused(LRule::L2),
            Some(name) => typed(name),
        },
    }
}

fn form_of(how: How, value: &Value) -> Form
    ensures { result ≡ form_of how (view value.now) }
{
    match how {
        How::Object(kind) => Form::Fields(kind),
        How::State => state_form(value),
        How::States => Form::States,
        _ => Form::Leaf,
    }
}

fn left_out_of(kind: Kind) -> LeftOut
    ensures { result ≡ others kind }
{
    match kind {
        Kind::ProcessorConfig => LeftOut::Everything,
        Kind::TopRule | Kind::InnerRule | Kind::FlatRule => LeftOut::Operators,
        _ => LeftOut::Names,
    }
}

/// Checks a choice rule as a whole.
fn check_rule(alloc: Global, kind: Kind, value: &Value) -> Result<(), ReadFault>
    ensures { Checks result (rule_faults kind (view value.now)) }
{
    let malformed = match kind {
        Kind::TopRule | Kind::FlatRule => is_malformed(alloc, false, value)?,
        Kind::InnerRule => is_malformed(alloc, true, value)?,
        _ => false,
    };
    if malformed {
        refused(alloc, LRule::L7)
    } else {
        Ok(())
    }
}

/// Checks the keys of an object of a kind: each key, then a rule as a whole, then each required key.
pub fn check_fields(alloc: Global, kind: Kind, value: &Value) -> Result<(), ReadFault>
    ensures { Checks result (field_faults kind (view value.now)) }
{
    let rows = rows(kind);
    check_keys(alloc, value, rows, left_out_of(kind))?;
    check_rule(alloc, kind, value)?;
    check_required(alloc, value, rows)
}

/// How the items of an array are read, if it is an array that is read.
fn item_how(how: How) -> Option<How>
    ensures { result ≡ item_how how }
{
    match how {
        How::Texts => Some(How::Text),
        How::Each(kind) => Some(How::Object(kind)),
        _ => None,
    }
}

/// How the members of an object are read: by the table of its kind, or each as a state.
fn member_how(kind: Option<Kind>, key: &str) -> How
    ensures { result ≡ member_how kind key.now }
{
    match kind {
        Some(kind) => how_of(rows(kind), key, How::Unread),
        None => How::State,
    }
}

/// Checks a value: `Refused` comes exactly where it breaks a rule, with the first one in the order of reading and its place.
#[cycle(check)]
pub fn check(alloc: Global, how: How, value: &Value) -> Result<(), ReadFault>
    ensures { Checks result (value_faults how (view value.now)) }
{
    match value {
        Value::Array(items) => match item_how(how) {
            Some(inner) => check_items(alloc, inner, items),
            None => check_leaf(alloc, how, value),
        },
        Value::Object(members) => match form_of(how, value) {
            Form::Refused(rule) => refused_at(alloc, rule, "Type"),
            Form::Fields(kind) => {
                check_fields(alloc, kind, value)?;
                check_members(alloc, Some(kind), members)
            }
            Form::States => check_members(alloc, None, members),
            Form::Leaf => check_leaf(alloc, how, value),
        },
        _ => check_leaf(alloc, how, value),
    }
}

#[cycle(check)]
fn check_items(alloc: Global, how: How, items: &Vec<Value>) -> Result<(), ReadFault>
    ensures { Checks result (item_faults how 0 (items_view items.now.items)) }
{
    for (i, item) in items.iter().enumerate() {
        under_index(alloc, i, check(alloc, how, item))?;
    }
    Ok(())
}

#[cycle(check)]
fn check_members(
    alloc: Global,
    kind: Option<Kind>,
    members: &Fields<Value>,
) -> Result<(), ReadFault>
    ensures { Checks result (member_faults kind (members_view members.now)) }
{
    for member in members.as_slice() {
        let key = member.0.as_str();
        let how = member_how(kind, key);
        under_key(alloc, key, check(alloc, how, &member.1))?;
    }
    Ok(())
}
