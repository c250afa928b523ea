//! The table of fields: for each kind of object its keys, which of them have to be there, and how their values are read.

ghost use Rattle.std.specs.Prelude.{◌≡◌, map};
ghost use Rattle.asl_read.specs.Objects.{row_of};
ghost use Rattle.asl_read.specs.Tables.{table, state_fields};

use crate::objects::{Need, Row};
use crate::table::{How, Kind, StateType};

macro_rules! row {
    ($key:expr, $need:expr, $how:expr) => {
        Row {
            key: $key,
            need: $need,
            how: $how,
        }
    };
}

/// A field that has to be there.
macro_rules! must {
    ($key:expr, $how:expr) => {
        row!($key, Need::Required, $how)
    };
}

/// A field that may be there.
macro_rules! may {
    ($key:expr, $how:expr) => {
        row!($key, Need::Optional, $how)
    };
}

/// The fields of a Task.
static TASK: [Row<How>; 15] = [
    may!("Type", How::Unread),
    may!("Comment", How::Unread),
    may!("QueryLanguage", How::Language),
    must!("Resource", How::Text),
    may!("InputPath", How::PathOrNull),
    may!("OutputPath", How::PathOrNull),
    may!("Parameters", How::Template),
    may!("ResultSelector", How::Template),
    may!("ResultPath", How::PathOrNull),
    may!("Next", How::Text),
    may!("End", How::Truth),
    may!("Retry", How::Each(Kind::Retrier)),
    may!("Catch", How::Each(Kind::Catcher)),
    may!("TimeoutSeconds", How::Unread),
    may!("HeartbeatSeconds", How::Unread),
];

/// The fields of a Pass.
static PASS: [Row<How>; 10] = [
    may!("Type", How::Unread),
    may!("Comment", How::Unread),
    may!("QueryLanguage", How::Language),
    may!("Result", How::Data),
    may!("InputPath", How::PathOrNull),
    may!("OutputPath", How::PathOrNull),
    may!("Parameters", How::Template),
    may!("ResultPath", How::PathOrNull),
    may!("Next", How::Text),
    may!("End", How::Truth),
];

/// The fields of a Choice.
static CHOICE: [Row<How>; 7] = [
    may!("Type", How::Unread),
    may!("Comment", How::Unread),
    may!("QueryLanguage", How::Language),
    must!("Choices", How::Each(Kind::TopRule)),
    may!("Default", How::Text),
    may!("InputPath", How::PathOrNull),
    may!("OutputPath", How::PathOrNull),
];

/// The fields of a Succeed.
static SUCCEED: [Row<How>; 5] = [
    may!("Type", How::Unread),
    may!("Comment", How::Unread),
    may!("QueryLanguage", How::Language),
    may!("InputPath", How::PathOrNull),
    may!("OutputPath", How::PathOrNull),
];

/// The fields of a Fail.
static FAIL: [Row<How>; 5] = [
    may!("Type", How::Unread),
    may!("Comment", How::Unread),
    may!("QueryLanguage", How::Language),
    may!("Error", How::Text),
    may!("Cause", How::Text),
];

/// The fields of a Parallel.
static PARALLEL: [Row<How>; 13] = [
    may!("Type", How::Unread),
    may!("Comment", How::Unread),
    may!("QueryLanguage", How::Language),
    must!("Branches", How::Each(Kind::Branch)),
    may!("InputPath", How::PathOrNull),
    may!("OutputPath", How::PathOrNull),
    may!("Parameters", How::Template),
    may!("ResultSelector", How::Template),
    may!("ResultPath", How::PathOrNull),
    may!("Next", How::Text),
    may!("End", How::Truth),
    may!("Retry", How::Each(Kind::Retrier)),
    may!("Catch", How::Each(Kind::Catcher)),
];

/// The fields of a Map.
static MAP: [Row<How>; 17] = [
    may!("Type", How::Unread),
    may!("Comment", How::Unread),
    may!("QueryLanguage", How::Language),
    row!(
        "ItemProcessor",
        Need::RequiredUnless(&["Iterator"]),
        How::Object(Kind::ItemBody)
    ),
    row!(
        "Iterator",
        Need::NotBeside("ItemProcessor"),
        How::Object(Kind::ItemBody)
    ),
    may!("ItemsPath", How::Path),
    may!("ItemSelector", How::ItemTemplate),
    row!(
        "Parameters",
        Need::NotBeside("ItemSelector"),
        How::ItemTemplate
    ),
    may!("MaxConcurrency", How::Whole),
    may!("InputPath", How::PathOrNull),
    may!("OutputPath", How::PathOrNull),
    may!("ResultSelector", How::Template),
    may!("ResultPath", How::PathOrNull),
    may!("Next", How::Text),
    may!("End", How::Truth),
    may!("Retry", How::Each(Kind::Retrier)),
    may!("Catch", How::Each(Kind::Catcher)),
];

/// The fields of a machine.
static MACHINE: [Row<How>; 6] = [
    must!("StartAt", How::Text),
    must!("States", How::States),
    may!("Comment", How::Unread),
    may!("QueryLanguage", How::Language),
    may!("TimeoutSeconds", How::Unread),
    may!("Version", How::Unread),
];

/// The fields of a branch.
static BRANCH: [Row<How>; 3] = [
    must!("StartAt", How::Text),
    must!("States", How::States),
    may!("Comment", How::Unread),
];

/// The fields of an ItemProcessor or an Iterator.
static ITEM_BODY: [Row<How>; 4] = [
    must!("StartAt", How::Text),
    must!("States", How::States),
    may!("Comment", How::Unread),
    may!("ProcessorConfig", How::Object(Kind::ProcessorConfig)),
];

/// The fields of a ProcessorConfig.
static PROCESSOR_CONFIG: [Row<How>; 1] = [may!("Mode", How::Mode)];

/// The fields of a retrier.
static RETRIER: [Row<How>; 7] = [
    must!("ErrorEquals", How::Texts),
    may!("MaxAttempts", How::Whole),
    may!("IntervalSeconds", How::Unread),
    may!("BackoffRate", How::Unread),
    may!("MaxDelaySeconds", How::Unread),
    may!("JitterStrategy", How::Unread),
    may!("Comment", How::Unread),
];

/// The fields of a catcher.
static CATCHER: [Row<How>; 4] = [
    must!("ErrorEquals", How::Texts),
    must!("Next", How::Text),
    may!("ResultPath", How::PathOrNull),
    may!("Comment", How::Unread),
];

/// The fields of a rule of Choices.
static TOP_RULE: [Row<How>; 34] = [
    must!("Next", How::Text),
    may!("And", How::Each(Kind::InnerRule)),
    may!("Or", How::Each(Kind::InnerRule)),
    may!("Not", How::Object(Kind::InnerRule)),
    row!(
        "Variable",
        Need::RequiredUnless(&["And", "Or", "Not"]),
        How::Path
    ),
    may!("Comment", How::Unread),
    may!("StringEquals", How::Text),
    may!("StringLessThan", How::Text),
    may!("StringLessThanEquals", How::Text),
    may!("StringGreaterThan", How::Text),
    may!("StringGreaterThanEquals", How::Text),
    may!("StringEqualsPath", How::Path),
    may!("StringLessThanPath", How::Path),
    may!("StringLessThanEqualsPath", How::Path),
    may!("StringGreaterThanPath", How::Path),
    may!("StringGreaterThanEqualsPath", How::Path),
    may!("NumericEquals", How::Whole),
    may!("NumericLessThan", How::Whole),
    may!("NumericLessThanEquals", How::Whole),
    may!("NumericGreaterThan", How::Whole),
    may!("NumericGreaterThanEquals", How::Whole),
    may!("NumericEqualsPath", How::Path),
    may!("NumericLessThanPath", How::Path),
    may!("NumericLessThanEqualsPath", How::Path),
    may!("NumericGreaterThanPath", How::Path),
    may!("NumericGreaterThanEqualsPath", How::Path),
    may!("BooleanEquals", How::Truth),
    may!("BooleanEqualsPath", How::Path),
    may!("StringMatches", How::Text),
    may!("IsNull", How::Truth),
    may!("IsPresent", How::Truth),
    may!("IsNumeric", How::Truth),
    may!("IsString", How::Truth),
    may!("IsBoolean", How::Truth),
];

/// The fields of a rule of a choice in flat code.
static FLAT_RULE: [Row<How>; 34] = [
    must!("Next", How::Whole),
    may!("And", How::Each(Kind::InnerRule)),
    may!("Or", How::Each(Kind::InnerRule)),
    may!("Not", How::Object(Kind::InnerRule)),
    row!(
        "Variable",
        Need::RequiredUnless(&["And", "Or", "Not"]),
        How::Path
    ),
    may!("Comment", How::Unread),
    may!("StringEquals", How::Text),
    may!("StringLessThan", How::Text),
    may!("StringLessThanEquals", How::Text),
    may!("StringGreaterThan", How::Text),
    may!("StringGreaterThanEquals", How::Text),
    may!("StringEqualsPath", How::Path),
    may!("StringLessThanPath", How::Path),
    may!("StringLessThanEqualsPath", How::Path),
    may!("StringGreaterThanPath", How::Path),
    may!("StringGreaterThanEqualsPath", How::Path),
    may!("NumericEquals", How::Whole),
    may!("NumericLessThan", How::Whole),
    may!("NumericLessThanEquals", How::Whole),
    may!("NumericGreaterThan", How::Whole),
    may!("NumericGreaterThanEquals", How::Whole),
    may!("NumericEqualsPath", How::Path),
    may!("NumericLessThanPath", How::Path),
    may!("NumericLessThanEqualsPath", How::Path),
    may!("NumericGreaterThanPath", How::Path),
    may!("NumericGreaterThanEqualsPath", How::Path),
    may!("BooleanEquals", How::Truth),
    may!("BooleanEqualsPath", How::Path),
    may!("StringMatches", How::Text),
    may!("IsNull", How::Truth),
    may!("IsPresent", How::Truth),
    may!("IsNumeric", How::Truth),
    may!("IsString", How::Truth),
    may!("IsBoolean", How::Truth),
];

/// The fields of a rule in And, Or or Not.
static INNER_RULE: [Row<How>; 34] = [
    may!("Next", How::Text),
    may!("And", How::Each(Kind::InnerRule)),
    may!("Or", How::Each(Kind::InnerRule)),
    may!("Not", How::Object(Kind::InnerRule)),
    row!(
        "Variable",
        Need::RequiredUnless(&["And", "Or", "Not"]),
        How::Path
    ),
    may!("Comment", How::Unread),
    may!("StringEquals", How::Text),
    may!("StringLessThan", How::Text),
    may!("StringLessThanEquals", How::Text),
    may!("StringGreaterThan", How::Text),
    may!("StringGreaterThanEquals", How::Text),
    may!("StringEqualsPath", How::Path),
    may!("StringLessThanPath", How::Path),
    may!("StringLessThanEqualsPath", How::Path),
    may!("StringGreaterThanPath", How::Path),
    may!("StringGreaterThanEqualsPath", How::Path),
    may!("NumericEquals", How::Whole),
    may!("NumericLessThan", How::Whole),
    may!("NumericLessThanEquals", How::Whole),
    may!("NumericGreaterThan", How::Whole),
    may!("NumericGreaterThanEquals", How::Whole),
    may!("NumericEqualsPath", How::Path),
    may!("NumericLessThanPath", How::Path),
    may!("NumericLessThanEqualsPath", How::Path),
    may!("NumericGreaterThanPath", How::Path),
    may!("NumericGreaterThanEqualsPath", How::Path),
    may!("BooleanEquals", How::Truth),
    may!("BooleanEqualsPath", How::Path),
    may!("StringMatches", How::Text),
    may!("IsNull", How::Truth),
    may!("IsPresent", How::Truth),
    may!("IsNumeric", How::Truth),
    may!("IsString", How::Truth),
    may!("IsBoolean", How::Truth),
];

/// The fields of a state of a type.
fn state_rows(kind: StateType) -> &'static [Row<How>]
    ensures { map row_of result.now ≡ state_fields kind }
{
    match kind {
        StateType::Task => &TASK,
        StateType::Pass => &PASS,
        StateType::Choice => &CHOICE,
        StateType::Succeed => &SUCCEED,
        StateType::Fail => &FAIL,
        StateType::Parallel => &PARALLEL,
        StateType::Map => &MAP,
    }
}

/// The fields of a kind of object.
pub(crate) fn rows(kind: Kind) -> &'static [Row<How>]
    ensures { map row_of result.now ≡ table kind }
{
    match kind {
        Kind::State(kind) => state_rows(kind),
        Kind::Machine => &MACHINE,
        Kind::Branch => &BRANCH,
        Kind::ItemBody => &ITEM_BODY,
        Kind::ProcessorConfig => &PROCESSOR_CONFIG,
        Kind::Retrier => &RETRIER,
        Kind::Catcher => &CATCHER,
        Kind::TopRule => &TOP_RULE,
        Kind::InnerRule => &INNER_RULE,
        Kind::FlatRule => &FLAT_RULE,
    }
}
