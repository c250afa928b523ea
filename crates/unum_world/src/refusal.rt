//! Why an event did not happen.
use world_types::Event;

/// Why an event did not happen. Nothing changed.
#[derive(Clone, Copy, Debug, PartialEq, Eq)]
pub enum ApplyError {
    /// The event is not enabled.
    NotEnabled {
        /// The event.
        event: Event,
    },
    /// The event is enabled, and the history is full.
    Spent {
        /// How many events the history has.
        len: u64,
    },
    /// Memory was wanted and not found.
    NoMemory,
}

/// The history is full, and some attempt lives.
#[derive(Clone, Copy, Debug, PartialEq, Eq)]
pub struct Full {
    /// How many events the history has.
    pub len: u64,
}
