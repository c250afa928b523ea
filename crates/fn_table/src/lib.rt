//! The built-in functions: which there are, what each answers, and the table in which a resource finds its own.
#![tactic(auto)]

mod adding;
mod answered;
mod builtin;
mod calls;
mod kind;
mod table;

pub use answered::{Answered, Functions};
pub use builtin::BuiltIns;
pub use calls::call;
pub use kind::{FnKind, copy_kind, same_kind};
pub use table::Table;
