//! The plain interpreter of machines: the central run on given answers, and the sequential run on the answers of functions.
//!
//! It is one recursion on the nested blocks of a machine. Messages, objects and attempts play no part in it, so other programs are
//! held against it.
#![tactic(auto)]

mod answers;
mod beginning;
mod branching;
mod care;
mod combining;
mod entering;
mod finishing;
mod gathering;
mod laws;
mod onward;
mod rules;
mod run;
mod running;
mod source;
mod trouble;
mod visiting;
mod walk;

pub use answers::Answers;
pub use laws::answers_in_order;
pub use run::{End, Run, Visit};
pub use running::{central, central_all};
pub use trouble::CentralError;
