//! Where a scope stops next, by the sites of code.
use crate::held::Used;
use unum_json::{Items, Json, Outcome};

/// Where an instance's scope stops next. Raw data and used list are what the state was entered with; the hop is the state's.
/// Source: Amazon States Language, State Types (Task State, Parallel State, Map State) and Transitions.
#[derive(Drop)]
pub enum Stop<S: Drop> {
    /// At a Task.
    Call {
        task: S,
        hop: u32,
        raw: Json,
        used: Used,
    },
    /// At a fan: its Join, and the Enter of each branch.
    Fan {
        join: S,
        hop: u32,
        raw: Json,
        used: Used,
        enters: Items<S>,
    },
    /// At the scope's end.
    Over(Outcome),
}
