//! Where the rules of a choice lead.

ghost use Rattle.std.specs.Prelude.{◌≡◌};
ghost use Rattle.unum_ir.specs.Given.{Gives};
ghost use Rattle.unum_ir.specs.Kinds.{next_node};

use crate::ir::NodeRule;
use crate::trouble::{FlowError, StateError};
use choice_rules::{PathFailure, matches};
use unum_json::{Items, Json};

/// The node of the first rule that matches a value, or the default.
///
/// Source: Amazon States Language, "Choice State".
#[tactic(auto, unfolding(asl_model::specs::Data::chosen, asl_model::specs::Data::path_failure, asl_model::specs::Data::no_choice))]
pub fn choose_next(
    rules: &Items<NodeRule>,
    default: Option<u32>,
    value: &Json,
) -> Result<u32, FlowError>
    ensures { Gives (λ n. n) result (next_node rules.now default value.now) }
{
    for rule in rules.as_slice() {
        match matches(&rule.rule, value) {
            Err(PathFailure) => return Err(FlowError::Named(StateError::Path)),
            Ok(true) => return Ok(rule.next),
            Ok(false) => {}
        }
    }
    match default {
        Some(next) => Ok(next),
        None => Err(FlowError::Named(StateError::NoChoice)),
    }
}
