//! What a world counts.

/// The totals of a world and its history.
#[derive(Clone, Copy, Debug, PartialEq, Eq)]
pub struct Totals {
    /// Sessions of the opening.
    pub sessions: u64,
    /// Sessions whose outcome is there.
    pub ended: u64,
    /// Sessions that have not ended and whose invocations are all acknowledged or given up.
    pub abandoned: u64,
    /// All other sessions.
    pub still_open: u64,
    /// Checkpoints that won.
    pub entries: u64,
    /// Events of the history.
    pub events: u64,
    /// Messages that were sent, those of the opening with them.
    pub invocations: u64,
    /// Deliveries of messages.
    pub attempts: u64,
    /// Crash events.
    pub crashes: u64,
    /// Steps whose operation was a Mark.
    pub marks: u64,
}

/// How many sessions stand in each way.
#[derive(Clone, Copy)]
pub struct Counts {
    /// Sessions whose outcome is there.
    pub ended: u64,
    /// Sessions that have not ended and whose invocations are all acknowledged or given up.
    pub abandoned: u64,
    /// All other sessions.
    pub still_open: u64,
}
