//! The rules that choose by a value.

use crate::comparison::Comparison;
use crate::pattern::Pattern;
use crate::several::NonEmpty;
use asl_paths::Path;
use sqlite_items::Boxed;

/// What a rule asks of the value that its variable finds.
#[derive(Drop)]
pub enum Op {
    /// A value of the comparison's kind that stands so to the operand.
    Compare(Comparison),
    /// A text that matches the pattern.
    Matches(Pattern),
    /// Whether the value is null, which is to equal the flag.
    IsNull(bool),
    /// Whether the variable finds a value at all, which is to equal the flag.
    IsPresent(bool),
    /// Whether the value is a number, which is to equal the flag.
    IsNumeric(bool),
    /// Whether the value is a text, which is to equal the flag.
    IsString(bool),
    /// Whether the value is a truth value, which is to equal the flag.
    IsBoolean(bool),
}

/// A rule, by which a state chooses.
///
/// Source: Amazon States Language, "Choice State".
#[derive(Drop)]
pub enum Rule {
    /// What the variable finds is as the operator asks.
    Test { variable: Path, op: Op },
    /// Each of these matches.
    And(NonEmpty<Rule>),
    /// Some of these matches.
    Or(NonEmpty<Rule>),
    /// This does not match.
    Not(Boxed<Rule>),
}
