//! How a world begins.
use continuation_gen::Compiled;
use fn_table::Table;
use unum_json::{Fields, Items, Json};
use world_plans::Plan;

/// A session: the number of its machine, and its input.
#[derive(Drop)]
pub struct Session {
    /// The number of its machine, in the order of names.
    pub machine: u32,
    /// What its first instance is entered with.
    pub input: Json,
}

/// How a world begins: the machines by rising names, the functions, the sessions, and the plan of mishaps.
#[derive(Drop)]
pub struct Opening {
    /// The machines with their flat forms.
    pub machines: Fields<Compiled>,
    /// The functions by their resources.
    pub table: Table,
    /// The sessions, numbered in this order.
    pub sessions: Items<Session>,
    /// The plan of mishaps.
    pub plan: Plan,
}
