//! Where the rules of a Choice lead.

ghost use Rattle.std.specs.Prelude.{◌≡◌};
ghost use Rattle.unum_ir.specs.Given.{Gives};
ghost use Rattle.central_model.specs.Kinds.{next_state};

use asl_model::TopRule;
use choice_rules::{PathFailure, matches};
use unum_ir::{FlowError, StateError};
use unum_json::{Items, Json, Text};

/// The state of the first rule that matches a value, or the default.
///
/// Source: Amazon States Language, "Choice State".
#[tactic(auto, unfolding(asl_model::specs::Data::chosen, asl_model::specs::Data::path_failure, asl_model::specs::Data::no_choice))]
pub fn choose_next<'m>(
    rules: &'m Items<TopRule>,
    default: &'m Option<Text>,
    value: &Json,
) -> Result<&'m Text, FlowError>
    ensures { Gives (λ t. t.now) result (next_state rules.now default.now value.now) }
{
    for rule in rules.as_slice() {
        match matches(&rule.rule, value) {
            Err(PathFailure) => return Err(FlowError::Named(StateError::Path)),
            Ok(true) => return Ok(&rule.next),
            Ok(false) => {}
        }
    }
    match default {
        Some(next) => Ok(next),
        None => Err(FlowError::Named(StateError::NoChoice)),
    }
}
