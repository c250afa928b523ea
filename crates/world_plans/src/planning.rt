//! Plans of mishaps, as data.
use unum_json::Items;

/// An attempt that is to crash once it has made so many steps.
#[derive(Clone, Copy)]
pub struct Mishap {
    /// The number of the attempt.
    pub attempt: u32,
    /// After how many steps it crashes.
    pub step: u32,
}

/// A plan of mishaps: which attempts crash and when, and which invocations are delivered twice.
#[derive(Drop)]
pub struct Plan {
    /// What draws depend on; with 0 the first event that is allowed is taken each time.
    pub seed: u32,
    /// How many of 1,000 attempts crash.
    pub crash: u32,
    /// How many of 1,000 attempts have a twin.
    pub repeat: u32,
    /// Attempts that crash whatever the rate is, by rising numbers.
    pub script: Items<Mishap>,
    /// Attempts that have a twin whatever the rate is, rising.
    pub twins: Items<u32>,
}
