//! The rules of validity, and what is told where one is broken.

use unum_json::Text;

/// A rule of validity.
///
/// Source: Amazon States Language, "Structure of a State Machine", "States" and "State Types". The bounds are this
/// project's own.
#[derive(Clone, Copy, Debug, PartialEq, Eq)]
pub enum VRule {
    /// StartAt is a state of its block.
    V1,
    /// Each Next, Default and Next of a rule or a catcher is a state of the same block.
    V2,
    /// No name stands in two blocks.
    V3,
    /// A name has 1 to 80 characters.
    V4,
    /// A Task, Pass, Parallel or Map has exactly one of Next and End true.
    V5,
    /// A Choice has a rule.
    V6,
    /// A Parallel has 1 to 100 branches.
    V7,
    /// No block is deeper than 8, where the root is 1 deep.
    V8,
    /// There are at most 1,000 states.
    V9,
    /// Each ErrorEquals has a name, States.ALL stands alone and last, MaxAttempts is at most 99,999,999, and there are
    /// at most 16 retriers and 16 catchers.
    V10,
    /// MaxConcurrency is at most 1,000,000.
    V11,
}

/// A rule that is broken, with the name of the state that breaks it. For a StartAt that names no state it is that
/// name, and for too many states the StartAt of the root.
#[derive(Debug, Drop)]
pub struct BrokenRule {
    /// The rule.
    pub rule: VRule,
    /// The name that is told with it.
    pub state: Text,
}
