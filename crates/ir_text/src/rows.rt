//! The table of fields: for each kind of object its keys, which of them have to be there, and how their values are read.

ghost use Rattle.std.specs.Prelude.{◌≡◌, map};
ghost use Rattle.asl_read.specs.Objects.{row_of};
ghost use Rattle.unum_json.specs.Keys.{find_key};
ghost use Rattle.ir_text.specs.Tables.{fields as fields_of, func_fields, item_part as item_of, kinds, named_object, node_fields, ops};

use crate::kinds::{FuncKind, NodeKind, Number, Object, Part};
use asl_read::{How, Need, Row};

/// A field that has to be there.
macro_rules! must {
    ($key:expr, $how:expr) => {
        Row {
            key: $key,
            need: Need::Required,
            how: $how,
        }
    };
}

/// A field that may be there.
macro_rules! may {
    ($key:expr, $how:expr) => {
        Row {
            key: $key,
            need: Need::Optional,
            how: $how,
        }
    };
}

/// The fields of a pass.
static PASS: [Row<Part>; 9] = [
    may!("InputPath", Part::Field(How::PathOrNull)),
    may!("OutputPath", Part::Field(How::PathOrNull)),
    may!("Parameters", Part::Field(How::Template)),
    may!("Result", Part::Field(How::Data)),
    may!("ResultPath", Part::Field(How::PathOrNull)),
    must!("name", Part::Field(How::Text)),
    must!("next", Part::NumberOrNull(Number::Node)),
    may!("op", Part::Field(How::Unread)),
    must!("scope", Part::Number(Number::Scope)),
];

/// The fields of a choice.
static CHOICE: [Row<Part>; 7] = [
    may!("InputPath", Part::Field(How::PathOrNull)),
    may!("OutputPath", Part::Field(How::PathOrNull)),
    must!("default", Part::NumberOrNull(Number::Node)),
    must!("name", Part::Field(How::Text)),
    may!("op", Part::Field(How::Unread)),
    must!("rules", Part::Rules),
    must!("scope", Part::Number(Number::Scope)),
];

/// The fields of a succeed.
static SUCCEED: [Row<Part>; 5] = [
    may!("InputPath", Part::Field(How::PathOrNull)),
    may!("OutputPath", Part::Field(How::PathOrNull)),
    must!("name", Part::Field(How::Text)),
    may!("op", Part::Field(How::Unread)),
    must!("scope", Part::Number(Number::Scope)),
];

/// The fields of a fail.
static FAIL: [Row<Part>; 5] = [
    must!("cause", Part::Field(How::Text)),
    must!("error", Part::Field(How::Text)),
    must!("name", Part::Field(How::Text)),
    may!("op", Part::Field(How::Unread)),
    must!("scope", Part::Number(Number::Scope)),
];

/// The fields of a task.
static TASK: [Row<Part>; 12] = [
    may!("InputPath", Part::Field(How::PathOrNull)),
    may!("OutputPath", Part::Field(How::PathOrNull)),
    may!("Parameters", Part::Field(How::Template)),
    may!("ResultPath", Part::Field(How::PathOrNull)),
    may!("ResultSelector", Part::Field(How::Template)),
    may!("catch", Part::Each(Object::Catcher)),
    may!("retry", Part::Each(Object::Retrier)),
    must!("func", Part::Number(Number::Func)),
    must!("name", Part::Field(How::Text)),
    must!("next", Part::NumberOrNull(Number::Node)),
    may!("op", Part::Field(How::Unread)),
    must!("scope", Part::Number(Number::Scope)),
];

/// The fields of a parallel.
static PARALLEL: [Row<Part>; 13] = [
    may!("InputPath", Part::Field(How::PathOrNull)),
    may!("OutputPath", Part::Field(How::PathOrNull)),
    may!("Parameters", Part::Field(How::Template)),
    may!("ResultPath", Part::Field(How::PathOrNull)),
    may!("ResultSelector", Part::Field(How::Template)),
    may!("catch", Part::Each(Object::Catcher)),
    may!("retry", Part::Each(Object::Retrier)),
    must!("func", Part::Number(Number::Func)),
    must!("name", Part::Field(How::Text)),
    must!("next", Part::NumberOrNull(Number::Node)),
    may!("op", Part::Field(How::Unread)),
    must!("scope", Part::Number(Number::Scope)),
    must!("scopes", Part::Numbers(Number::Scope)),
];

/// The fields of a map.
static MAP: [Row<Part>; 15] = [
    may!("InputPath", Part::Field(How::PathOrNull)),
    may!("OutputPath", Part::Field(How::PathOrNull)),
    may!("ResultPath", Part::Field(How::PathOrNull)),
    may!("ResultSelector", Part::Field(How::Template)),
    may!("catch", Part::Each(Object::Catcher)),
    may!("retry", Part::Each(Object::Retrier)),
    must!("func", Part::Number(Number::Func)),
    must!("items", Part::Field(How::Path)),
    may!("limit", Part::Number(Number::Limit)),
    must!("name", Part::Field(How::Text)),
    must!("next", Part::NumberOrNull(Number::Node)),
    may!("op", Part::Field(How::Unread)),
    must!("scope", Part::Number(Number::Scope)),
    must!("scopes", Part::Numbers(Number::Scope)),
    may!("selector", Part::Field(How::ItemTemplate)),
];

/// The fields of an Enter.
static ENTER: [Row<Part>; 2] = [
    may!("kind", Part::Field(How::Unread)),
    must!("scope", Part::Number(Number::Scope)),
];

/// The fields of a Task's function.
static TASK_FUNC: [Row<Part>; 3] = [
    may!("kind", Part::Field(How::Unread)),
    must!("node", Part::Number(Number::Node)),
    must!("resource", Part::Field(How::Text)),
];

/// The fields of a Join.
static JOIN: [Row<Part>; 2] = [
    may!("kind", Part::Field(How::Unread)),
    must!("node", Part::Number(Number::Node)),
];

/// The fields of the whole.
static IR: [Row<Part>; 3] = [
    must!("funcs", Part::Funcs),
    must!("nodes", Part::Nodes),
    must!("scopes", Part::Each(Object::Scope)),
];

/// The fields of a scope.
static SCOPE: [Row<Part>; 2] = [
    must!("parent", Part::NumberOrNull(Number::Func)),
    must!("start", Part::Number(Number::Node)),
];

/// The fields of a retrier.
static RETRIER: [Row<Part>; 2] = [
    must!("errors", Part::Field(How::Texts)),
    must!("most", Part::Number(Number::Most)),
];

/// The fields of a catcher.
static CATCHER: [Row<Part>; 3] = [
    must!("errors", Part::Field(How::Texts)),
    must!("next", Part::Number(Number::Node)),
    may!("result", Part::Field(How::PathOrNull)),
];

fn node_rows(kind: NodeKind) -> &'static [Row<Part>]
    ensures { map row_of result.now ≡ node_fields kind }
{
    match kind {
        NodeKind::Pass => &PASS,
        NodeKind::Choice => &CHOICE,
        NodeKind::Succeed => &SUCCEED,
        NodeKind::Fail => &FAIL,
        NodeKind::Task => &TASK,
        NodeKind::Parallel => &PARALLEL,
        NodeKind::Map => &MAP,
    }
}

fn func_rows(kind: FuncKind) -> &'static [Row<Part>]
    ensures { map row_of result.now ≡ func_fields kind }
{
    match kind {
        FuncKind::Enter => &ENTER,
        FuncKind::Task => &TASK_FUNC,
        FuncKind::Join => &JOIN,
    }
}

/// The table of a kind of object.
pub(crate) fn fields(object: Object) -> &'static [Row<Part>]
    ensures { map row_of result.now ≡ fields_of object }
{
    match object {
        Object::Ir => &IR,
        Object::Scope => &SCOPE,
        Object::Func(kind) => func_rows(kind),
        Object::Node(kind) => node_rows(kind),
        Object::Retrier => &RETRIER,
        Object::Catcher => &CATCHER,
    }
}

/// How the items of an array are read, if it is an array that is read.
pub(crate) fn item_part(part: Part) -> Option<Part>
    ensures { result ≡ item_of part }
{
    match part {
        Part::Numbers(number) => Some(Part::Number(number)),
        Part::Rules => Some(Part::Rule),
        Part::Each(kind) => Some(Part::Object(kind)),
        Part::Nodes => Some(Part::Node),
        Part::Funcs => Some(Part::Func),
        _ => None,
    }
}

/// What a node is, by its op.
static OPS: [(&str, Object); 7] = [
    ("pass", Object::Node(NodeKind::Pass)),
    ("choice", Object::Node(NodeKind::Choice)),
    ("succeed", Object::Node(NodeKind::Succeed)),
    ("fail", Object::Node(NodeKind::Fail)),
    ("task", Object::Node(NodeKind::Task)),
    ("parallel", Object::Node(NodeKind::Parallel)),
    ("map", Object::Node(NodeKind::Map)),
];

/// What a function is, by its kind.
static KINDS: [(&str, Object); 3] = [
    ("enter", Object::Func(FuncKind::Enter)),
    ("task", Object::Func(FuncKind::Task)),
    ("join", Object::Func(FuncKind::Join)),
];

fn object_among(objects: &[(&'static str, Object)], name: &str) -> Option<Object>
    ensures { result ≡ find_key name.now (map named_object objects.now) }
{
    for row in objects {
        if row.0 == name {
            return Some(row.1);
        }
    }
    None
}

/// What a node with that op is.
pub(crate) fn op_named(name: &str) -> Option<Object>
    ensures { result ≡ find_key name.now ops }
{
    object_among(&OPS, name)
}

/// What a function of that kind is.
pub(crate) fn kind_named(name: &str) -> Option<Object>
    ensures { result ≡ find_key name.now kinds }
{
    object_among(&KINDS, name)
}
