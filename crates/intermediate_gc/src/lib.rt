//! What an instance that is done may collect: the objects that nobody reads any more, one at a time by their number.
#![tactic(auto)]

mod objects;

pub use objects::due;
