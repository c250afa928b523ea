//! A lock whose turns go by tickets, and whose seats remember the log of the value under it.
//!
//! The value has an opening, which never changes, and a log, which only grows. Whoever has a seat takes turns: in each a
//! job runs once on the value. Whatever other seats do in between, the value that a job meets has the opening with which
//! the lock was made, and its log goes on from what the job's seat has seen.
#![tactic(auto)]

mod board;
mod calls;
mod law;
mod lock;
mod logged;

pub use law::rule_says;
pub use lock::{NoMemory, Seat, SeatLock};
pub use logged::{Job, Logged};

#[cfg(test)]
mod tests;
