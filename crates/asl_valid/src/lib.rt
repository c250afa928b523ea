//! The rules of validity of state machines: all that a machine breaks, rule by rule.
#![tactic(auto)]

mod care;
mod checking;
mod homes;
mod leading;
mod levels;
mod naming;
mod noting;
mod parts;

pub use care::{has_bad_attempts, has_bad_retry, is_bad_list};
pub use checking::{CheckError, check};
pub use naming::is_misnamed;
