//! State machines: their blocks, their states, and what these have.

ghost use Rattle.std.specs.Prelude.{◌≡◌, option_map};
ghost use Rattle.std.specs.Option.{option_copied};
ghost use Rattle.asl_model.specs.Machine.{state_of};
ghost use Rattle.asl_model.specs.Tree.{block_tree, state_tree};

use crate::shapes::{ItemTemplate, MapShape, PassShape, PathShape};
use asl_paths::Path;
use asl_shape::Shape;
use choice_rules::Rule;
use sqlite_items::Boxed;
use unum_json::{Fields, Items, Json, Text};

/// What follows a state: the state of that name, or the end of its scope. A valid state has exactly one of the two.
///
/// Source: Amazon States Language, "Transitions".
#[derive(Drop)]
pub struct After {
    /// The state in Next.
    pub next: Option<Text>,
    /// Whether End is true.
    pub end: bool,
}

/// A rule of a Choice, and the state that it leads to.
///
/// Source: Amazon States Language, "Choice State".
#[derive(Drop)]
pub struct TopRule {
    /// When it leads there.
    pub rule: Rule,
    /// The state that follows.
    pub next: Text,
}

/// Errors that are retried.
///
/// Source: Amazon States Language, "Retrying After Error".
#[derive(Drop)]
pub struct Retrier {
    /// The error names that it matches.
    pub errors: Items<Text>,
    /// MaxAttempts: how often it may be taken.
    pub most: u32,
}

/// Errors that lead to another state.
///
/// Source: Amazon States Language, "Fallback States".
#[derive(Drop)]
pub struct Catcher {
    /// The error names that it matches.
    pub errors: Items<Text>,
    /// Where the error is put into the state's raw input. `None` is the null of a machine: nowhere.
    pub result: Option<Path>,
    /// The state that follows.
    pub next: Text,
}

/// What a state does about errors: its retriers and its catchers, in their order.
///
/// Source: Amazon States Language, "Errors".
#[derive(Drop)]
pub struct Care {
    /// Which errors are tried again, and how often.
    pub retry: Items<Retrier>,
    /// Which errors lead to another state.
    pub catch: Items<Catcher>,
}

/// What a state is.
///
/// Each type of state has the data flow that its fields allow, and no other.
///
/// Source: Amazon States Language, "State Types".
#[derive(Drop)]
#[cycle(machine)]
pub enum State {
    /// Calls the function of its resource.
    Task {
        shape: Shape,
        resource: Text,
        after: After,
        care: Care,
    },
    /// Hands its Result on, or else its input.
    Pass {
        shape: PassShape,
        result: Option<Json>,
        after: After,
    },
    /// Goes to the state of the first rule that matches, or else to Default.
    Choice {
        shape: PathShape,
        rules: Items<TopRule>,
        default: Option<Text>,
    },
    /// Ends its scope.
    Succeed {
        shape: PathShape,
    },
    /// Ends its scope with this error and cause.
    Fail {
        error: Text,
        cause: Text,
    },
    /// Runs each of its branches.
    Parallel {
        shape: Shape,
        branches: Items<Block>,
        after: After,
        care: Care,
    },
    /// Runs its body once for each item of an array.
    Map {
        shape: MapShape,
        /// ItemsPath: where the array is.
        items: Path,
        /// ItemSelector: what each iteration is given. If it is missing, the item.
        selector: Option<ItemTemplate>,
        body: Boxed<Block>,
        after: After,
        care: Care,
        /// MaxConcurrency: how many iterations run at once, 0 where there is no limit.
        limit: u32,
    },
}

/// States by name, and which of them is entered first. The names rise strictly by bytes.
///
/// Source: Amazon States Language, "Structure of a State Machine".
#[derive(Drop)]
#[cycle(machine)]
pub struct Block {
    /// StartAt.
    pub start: Text,
    /// The states.
    pub states: Fields<State>,
}

impl Block {
    /// The state of that name, or `None` exactly where the block has none.
    pub fn state(&self, name: &[u8]) -> Option<&State>
        ensures { option_map state_tree (option_copied result) ≡ state_of (block_tree self.now) name.now }
    {
        self.states.get(name)
    }
}

/// A state machine.
///
/// Source: Amazon States Language, "Structure of a State Machine".
#[derive(Drop)]
pub struct Machine {
    /// The block that a session enters.
    pub root: Block,
}
