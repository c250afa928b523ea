//! The rules of bundles, and why bytes are no bundle.

use asl_model::VRule;
use asl_read::LRule;
use ir_text::IRule;
use unum_json::{Items, NoMemory, Text};

/// A rule of bundles that are read and whose machines are valid.
#[derive(Clone, Copy, Debug, PartialEq, Eq)]
pub enum BRule {
    /// A session's machine is one of the bundle's.
    B1,
    /// Each Task's Resource is one of the bundle's functions.
    B2,
    /// An input or the value of a const has at most 200,000 nodes and depth at most 120.
    B3,
    /// There are at most 1,000 sessions.
    B4,
    /// Each number is in its range.
    B5,
}

/// A rule that bytes break at one place.
#[derive(Clone, Copy, Debug, PartialEq, Eq)]
pub enum RuleCode {
    /// A rule of reading.
    Reading(LRule),
    /// A rule of what was read.
    Bundle(BRule),
    /// A rule of the text of flat code.
    Flat(IRule),
}

/// A rule of validity that a machine breaks, with the state that is named for it.
#[derive(Debug, Drop)]
pub struct BrokenPair {
    /// The rule.
    pub rule: VRule,
    /// The name of the machine.
    pub machine: Text,
    /// The name of the state.
    pub state: Text,
}

/// Why bytes are no bundle.
#[derive(Debug, Drop)]
pub enum Refusal {
    /// They break this rule, which is the first, at this place. A place is a sequence of keys and indices, each with `/`
    /// before it, keys unescaped, and empty for the whole.
    One { rule: RuleCode, at: Text },
    /// A machine is not valid: all the rules that the first such machine by name breaks.
    Many(Items<BrokenPair>),
}

/// Why bytes gave no bundle.
#[derive(Debug, Drop)]
pub enum BundleError {
    /// They break rules.
    Refused(Refusal),
    /// Memory ran out.
    NoMemory,
}

impl From<NoMemory> for BundleError {
    ghost use Rattle.std.specs.Prelude.{◌≡◌};
    ghost use Rattle.bundle_read.specs.declared.refusal.BundleError.TheVariants as error;

    ghost from_gives = { λ _ e. e ≡ error.NoMemory };

    fn from(_refused: NoMemory) -> BundleError {
        BundleError::NoMemory
    }
}

impl From<std::alloc::AllocError> for BundleError {
    ghost use Rattle.std.specs.Prelude.{◌≡◌};
    ghost use Rattle.bundle_read.specs.declared.refusal.BundleError.TheVariants as error;

    ghost from_gives = { λ _ e. e ≡ error.NoMemory };

    fn from(_refused: std::alloc::AllocError) -> BundleError {
        BundleError::NoMemory
    }
}
