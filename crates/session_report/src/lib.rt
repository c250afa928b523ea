//! What is told of a world: its sessions, its checkpoints, and what it counts.
#![tactic(auto)]

mod shown;
mod telling;

pub use shown::worked_report;
pub use telling::{push_number, push_outcome, report, totals_line};
