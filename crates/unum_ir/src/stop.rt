//! Where a walk stops.

use unum_json::{Items, Json, Outcome};

/// A branch of a fan: the function that is its Enter, and its input.
#[derive(Drop)]
pub struct Child {
    /// The function that is its Enter.
    pub func: u32,
    /// Its input.
    pub input: Json,
}

/// Where a scope stops next: at a Task, at a fan with its branches, or at its end. The raw data and the used list are what the
/// state was entered with.
#[derive(Drop)]
pub enum Stop {
    /// At a Task: the function of it, and the hop at which it stands.
    Call {
        func: u32,
        hop: u32,
        raw: Json,
        used: Items<u32>,
    },
    /// At a fan: the function that is its Join, the hop at which it stands, and its branches.
    Fan {
        func: u32,
        hop: u32,
        raw: Json,
        used: Items<u32>,
        children: Items<Child>,
    },
    /// At its end, with this outcome.
    End(Outcome),
}
