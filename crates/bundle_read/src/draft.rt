//! What the text of a bundle says, before machines are tried for validity, and names and numbers for what they may be.

use asl_model::Machine;
use fn_table::FnKind;
use unum_json::{Fields, Items, Json, Text};

/// A session: the name of its machine, and its input.
#[derive(Drop)]
pub struct DraftSession {
    /// The name of its machine.
    pub machine: Text,
    /// Its input.
    pub input: Json,
}

/// A plan of mishaps. A missing number is 0, and a missing list empty. A number that no `u32` is stands as the greatest.
#[derive(Drop)]
pub struct DraftPlan {
    /// How many of 1,000 attempts crash.
    pub crash: u32,
    /// How many of 1,000 attempts have a twin.
    pub repeat: u32,
    /// The attempts that crash whatever the rate is: lists that are to be pairs of an attempt and a count of steps.
    pub script: Items<Items<u32>>,
    /// What draws depend on.
    pub seed: u32,
    /// The attempts that have a twin whatever the rate is.
    pub twins: Items<u32>,
}

/// The parts of a bundle.
#[derive(Drop)]
pub struct Draft {
    /// The functions, by the resources that name them.
    pub functions: Fields<FnKind>,
    /// The machines by their names.
    pub machines: Fields<Machine>,
    /// The plan of mishaps.
    pub plan: DraftPlan,
    /// The sessions, in their order.
    pub sessions: Items<DraftSession>,
}
