//! What a rule fails with where a path of it finds nothing.

/// A path of a rule found nothing.
#[derive(Clone, Copy, Debug, PartialEq, Eq)]
pub struct PathFailure;
