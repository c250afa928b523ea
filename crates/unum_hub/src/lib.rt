//! Objects and queue in one: each operation of an instance is one step.
#![tactic(auto)]

mod copies;
mod hub;
mod parts;

pub use copies::{copy_held, copy_kept};
pub use hub::Hub;
