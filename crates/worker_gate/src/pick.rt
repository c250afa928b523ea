//! What a worker is told.
use fn_table::FnKind;
use unum_json::Json;

/// What a worker is told in a turn.
#[derive(Drop)]
pub enum Pick {
    /// This attempt is the worker's own from now on.
    Mine(u32),
    /// The worker has no attempt from now on.
    Free,
    /// This function is to be called with this input for the worker's attempt, whose number is the ticket.
    Call {
        kind: FnKind,
        input: Json,
        ticket: u32,
    },
    /// There is nothing to do now, and the worker has no attempt.
    Idle,
    /// The log has no room.
    Spent,
    /// Memory ran out.
    NoMemory,
}
