//! The commands that are built.

/// What is done with a bundle.
#[derive(Clone, Copy, Debug, PartialEq, Eq)]
pub enum BundleCommand {
    /// Tells how much is in it.
    Validate,
    /// Prints the flat code of each of its machines.
    Compile,
    /// Tells how each of its sessions ends by the sequential run, for at most so many visits.
    Central { limit: u64 },
    /// Runs its world by its plan, for at most so many events.
    Simulate { limit: u64 },
}

/// How `run` is asked for.
#[derive(Clone, Copy, Debug, PartialEq, Eq)]
pub struct RunOptions {
    /// How many workers there are, from 1 to 32.
    pub workers: u32,
    /// The most events, at most 10,000,000.
    pub limit: u64,
}

/// A command with its options.
#[derive(Clone, Copy, Debug, PartialEq, Eq)]
pub enum Command {
    /// Reads a bundle, and does this with it.
    Bundle(BundleCommand),
    /// Reads the text of flat code, and tells how much is in it.
    Ir,
    /// Reads nothing: makes a bundle of so many sessions, and runs its world.
    Make { sessions: u32 },
}
