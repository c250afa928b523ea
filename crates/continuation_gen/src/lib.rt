//! The compiler: the flat form of a machine, and that it keeps what the machine means.
#![tactic(auto)]

mod at;
mod compiled;
mod compiler;
mod counting;
mod laws;
mod naming;
mod ops;
mod placed;
mod placing;
mod tables;

pub use compiled::Compiled;
pub use compiler::compile;
pub use laws::{examples, form, numbers, stands_for_sites, walks, worlds};
