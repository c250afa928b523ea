//! The program of an instance: what an attempt of an invocation does next, and where it stands after a reply.
#![tactic(auto)]

mod acts;
mod copies;
mod laws;
mod names;
mod program;
mod replies;
mod stopping;

pub use acts::{act_at, act_count};
pub use laws::{attempts_are_ready, branches_have_inputs};
pub use program::{is_call, next};
pub use replies::{Instance, absorb, called};
pub use stopping::stop_at;
