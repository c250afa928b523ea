//! How a world that its chooser runs comes to rest.

/// Why the chooser makes no more events.
#[derive(Clone, Copy, Debug, PartialEq, Eq)]
pub enum Settled {
    /// No event is enabled.
    Drained,
    /// The history is full, and some event is enabled.
    Spent,
}
