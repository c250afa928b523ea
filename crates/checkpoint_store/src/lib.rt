//! The objects of a world by their names: each is absent, live with what it holds, or collected.
#![tactic(auto)]

mod answers;
mod counts;
mod entries;
mod key;
mod reading;
mod slot;
mod store;
#[cfg(test)]
mod tests;

pub use answers::{Bit, Made};
pub use slot::Slot;
pub use store::Store;
