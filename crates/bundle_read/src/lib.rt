//! Bundles: which bytes are accepted and what they say, and what all other bytes break first.
#![tactic(auto)]

mod bounds;
mod bundle;
mod calls;
mod draft;
mod drafts;
mod generating;
mod kinds;
mod lookup;
mod parts;
mod plans;
mod read;
mod reading;
mod refusal;
mod validity;

pub use bundle::{Bundle, open_bundle};
pub use generating::generate;
pub use read::read_bundle;
pub use refusal::{BRule, BrokenPair, BundleError, Refusal, RuleCode};
