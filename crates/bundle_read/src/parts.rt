//! The kinds of objects in a bundle, and how their fields are read.

ghost use Rattle.std.specs.Prelude.{◌≡◌, map};
ghost use Rattle.asl_read.specs.Objects.{row_of};
ghost use Rattle.unum_json.specs.Keys.{find_key};
ghost use Rattle.bundle_read.specs.Parts.{fields, function_fields, item_part, kinds, named_kind};

use crate::kinds::{FunctionKind, Object, Part};
use asl_read::{How, Kind, Need, Row};

/// The fields of a bundle.
static BUNDLE: [Row<Part>; 4] = [
    Row {
        key: "functions",
        need: Need::Required,
        how: Part::Functions,
    },
    Row {
        key: "machines",
        need: Need::Required,
        how: Part::Machines,
    },
    Row {
        key: "plan",
        need: Need::Optional,
        how: Part::Object(Object::Plan),
    },
    Row {
        key: "sessions",
        need: Need::Required,
        how: Part::Sessions,
    },
];

/// The fields of a plan.
static PLAN: [Row<Part>; 5] = [
    Row {
        key: "crash",
        need: Need::Optional,
        how: Part::Field(How::Whole),
    },
    Row {
        key: "repeat",
        need: Need::Optional,
        how: Part::Field(How::Whole),
    },
    Row {
        key: "script",
        need: Need::Optional,
        how: Part::Script,
    },
    Row {
        key: "seed",
        need: Need::Optional,
        how: Part::Field(How::Whole),
    },
    Row {
        key: "twins",
        need: Need::Optional,
        how: Part::Numbers,
    },
];

/// The fields of a session.
static SESSION: [Row<Part>; 2] = [
    Row {
        key: "input",
        need: Need::Required,
        how: Part::Field(How::Data),
    },
    Row {
        key: "machine",
        need: Need::Required,
        how: Part::Field(How::Text),
    },
];

/// The fields of an echo, a sum and a ticket.
static PLAIN: [Row<Part>; 1] = [Row {
    key: "kind",
    need: Need::Optional,
    how: Part::Field(How::Unread),
}];

/// The fields of a const.
static CONST: [Row<Part>; 2] = [
    Row {
        key: "kind",
        need: Need::Optional,
        how: Part::Field(How::Unread),
    },
    Row {
        key: "value",
        need: Need::Required,
        how: Part::Field(How::Data),
    },
];

/// The fields of a flaky.
static FLAKY: [Row<Part>; 2] = [
    Row {
        key: "kind",
        need: Need::Optional,
        how: Part::Field(How::Unread),
    },
    Row {
        key: "every",
        need: Need::Required,
        how: Part::Field(How::Whole),
    },
];

/// The fields of a fail.
static FAIL: [Row<Part>; 3] = [
    Row {
        key: "kind",
        need: Need::Optional,
        how: Part::Field(How::Unread),
    },
    Row {
        key: "cause",
        need: Need::Required,
        how: Part::Field(How::Text),
    },
    Row {
        key: "error",
        need: Need::Required,
        how: Part::Field(How::Text),
    },
];

fn function_fields(kind: FunctionKind) -> &'static [Row<Part>]
    ensures { map row_of result.now ≡ function_fields kind }
{
    match kind {
        FunctionKind::Const => &CONST,
        FunctionKind::Flaky => &FLAKY,
        FunctionKind::Fail => &FAIL,
        _ => &PLAIN,
    }
}

/// The table of a kind of object.
pub fn fields(object: Object) -> &'static [Row<Part>]
    ensures { map row_of result.now ≡ fields object }
{
    match object {
        Object::Bundle => &BUNDLE,
        Object::Function(kind) => function_fields(kind),
        Object::Plan => &PLAN,
        Object::Session => &SESSION,
    }
}

/// How the items of an array are read, if it is an array that is read.
pub fn item_part(part: Part) -> Option<Part>
    ensures { result ≡ item_part part }
{
    match part {
        Part::Numbers => Some(Part::Field(How::Whole)),
        Part::Script => Some(Part::Numbers),
        Part::Sessions => Some(Part::Object(Object::Session)),
        _ => None,
    }
}

/// The kinds of functions, by their names.
static KINDS: [(&str, FunctionKind); 6] = [
    ("echo", FunctionKind::Echo),
    ("const", FunctionKind::Const),
    ("sum", FunctionKind::Sum),
    ("ticket", FunctionKind::Ticket),
    ("flaky", FunctionKind::Flaky),
    ("fail", FunctionKind::Fail),
];

fn kind_among(kinds: &[(&'static str, FunctionKind)], name: &str) -> Option<FunctionKind>
    ensures { result ≡ find_key name.now (map named_kind kinds.now) }
{
    for row in kinds {
        if row.0 == name {
            return Some(row.1);
        }
    }
    None
}

/// The kind of that name.
pub fn kind_named(name: &str) -> Option<FunctionKind>
    ensures { result ≡ find_key name.now kinds }
{
    kind_among(&KINDS, name)
}
