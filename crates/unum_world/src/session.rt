//! How a session stands.
use unum_json::Outcome;

/// How a session stands.
#[derive(Clone, Copy)]
pub enum SessionState<'a> {
    /// Its own outcome is there: this one.
    Ended(&'a Outcome),
    /// It has not ended, each of its invocations is acknowledged or given up, and none of its attempts lives.
    Abandoned,
    /// Neither.
    Open,
}
