//! What the calls of a store answer.

/// What a Create did.
#[derive(Clone, Copy, Debug, PartialEq, Eq)]
pub enum Made {
    /// The object was absent, and is live now.
    Won,
    /// It was live, and nothing changed.
    Had,
    /// It was collected, and nothing changed.
    HadTombstone,
}

/// What a Set found.
#[derive(Clone, Copy, Debug, PartialEq, Eq)]
pub enum Bit {
    /// With this bit all are set.
    Full,
    /// Some bit is not set.
    NotFull,
    /// The bitmap was collected, and nothing changed.
    Tombstone,
}
