//! Workers: turns under a lock, and functions that are called between them.
//!
//! An [`Engine`] lies under the lock and says in each turn what comes next. A worker has a seat. It takes turns, calls
//! the functions that it is asked to call while the lock is free, and hands the answers in.
#![tactic(auto)]

mod all;
mod crew;
mod engine;
mod gate;
mod jobs;
mod pick;
#[cfg(test)]
mod tests;
mod worker;

pub use all::work_all;
pub use engine::Engine;
pub use gate::{Gate, Open};
pub use pick::Pick;
pub use worker::{WorkEnd, Worked, work};
