//! Rules that choose by a value (Amazon States Language, "Choice State"): comparisons, facts and patterns of texts, joined by
//! "and", "or" and "not".
//!
//! Contracts see a [`Rule`] as the plain tree of its variants: [`NonEmpty`] is a list, a [`Pattern`] the list of its pieces, and
//! a [`Comparison`] the record of its fields.
#![tactic(auto)]

mod choosing;
mod comparison;
mod copying;
mod evaluation;
mod failure;
mod matching;
mod pattern;
mod reading;
mod rule;
mod several;

pub use choosing::{HasRule, choose, first_match};
pub use comparison::{Comparison, OpKind, Operand, Rel, is_sound};
pub use copying::copy_rule;
pub use evaluation::matches;
pub use failure::PathFailure;
pub use pattern::{Pattern, Piece};
pub use reading::PatternError;
pub use rule::{Op, Rule};
pub use several::NonEmpty;
