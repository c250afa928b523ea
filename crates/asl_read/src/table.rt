//! The kinds of objects, and how a field's value is read.

use choice_rules::Rel;

/// The type of a state.
///
/// Source: Amazon States Language, "State Types".
#[derive(Clone, Copy)]
pub enum StateType {
    /// It calls a function.
    Task,
    /// It hands on what it is given, or a value of its own.
    Pass,
    /// It goes on as the first of its rules says that matches.
    Choice,
    /// It ends its scope with a value.
    Succeed,
    /// It ends its scope with a fault.
    Fail,
    /// It runs each of its branches.
    Parallel,
    /// It runs its one body for each item of an array.
    Map,
}

/// A kind of object, which has a table of fields.
#[derive(Clone, Copy)]
pub enum Kind {
    /// A state machine.
    Machine,
    /// A branch of a Parallel.
    Branch,
    /// An ItemProcessor, or an Iterator.
    ItemBody,
    /// The ProcessorConfig of an ItemProcessor.
    ProcessorConfig,
    /// A state of this type.
    State(StateType),
    /// A retrier.
    Retrier,
    /// A catcher.
    Catcher,
    /// A rule of Choices.
    TopRule,
    /// A rule in And, Or or Not.
    InnerRule,
    /// A rule of a choice in flat code, whose Next is a number.
    FlatRule,
}

/// How a field's value is read.
#[derive(Clone, Copy)]
pub enum How {
    /// It is accepted and not read.
    Unread,
    /// A text.
    Text,
    /// A truth value.
    Truth,
    /// A whole number.
    Whole,
    /// Any data, whose numbers are whole.
    Data,
    /// The name of the query language, which is `JSONPath`.
    Language,
    /// The mode of a Map, which is `INLINE`.
    Mode,
    /// A path's text.
    Path,
    /// A path's text, or null.
    PathOrNull,
    /// A template.
    Template,
    /// The template of a Map's items, which may have paths into the item.
    ItemTemplate,
    /// An array of texts.
    Texts,
    /// An object of this kind.
    Object(Kind),
    /// An array of objects of this kind.
    Each(Kind),
    /// A state, which is an object of the kind that its Type names.
    State,
    /// An object that has a state at each key.
    States,
}

/// What an operator of a choice rule compares its variable with.
///
/// Source: Amazon States Language, "Choice State".
#[derive(Clone, Copy)]
pub(crate) enum Operator {
    /// With this text.
    Text(Rel),
    /// With the text at this path.
    TextAt(Rel),
    /// With this number.
    Number(Rel),
    /// With the number at this path.
    NumberAt(Rel),
    /// With this truth value.
    Truth,
    /// With the truth value at this path.
    TruthAt,
    /// With this pattern.
    Matches,
    IsNull,
    IsPresent,
    IsNumeric,
    IsString,
    IsBoolean,
}
