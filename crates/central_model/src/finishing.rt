//! How a state goes on after its answer.
//!
//! Source: Amazon States Language, "State Types" and "Errors".

ghost use Rattle.std.specs.Prelude.{◌≡◌, ℕ, List, IfOk};
ghost use Rattle.asl_model.specs.Data.{Text, handed_on};
ghost use Rattle.asl_model.specs.Data as model;
ghost use Rattle.asl_model.specs.Head.{leaves_or_caught, again_or, retried, caught};
ghost use Rattle.asl_model.specs.Step.{standard};
ghost use Rattle.asl_model.specs.Tree.{care_of, state_tree};
ghost use Rattle.central_model.specs.Finishing.{finish_with, fresh_with};
ghost use Rattle.central_model.specs.Views.{onward_of};

use crate::care::catch;
use crate::onward::{Onward, Used, leaves};
use asl_model::{After, Care, State};
use asl_shape::Shape;
use std::alloc::Global;
use unum_ir::{FlowError, hand_on, retry};
use unum_json::{Fault, Json, NoMemory, Outcome, Text, copy, copy_outcome};

/// What of a state counts once it has an answer.
#[derive(Drop)]
pub struct Answered<'m> {
    /// Its data flow.
    pub shape: &'m Shape,
    /// What follows it.
    pub after: &'m After,
    /// What it does about errors.
    pub care: &'m Care,
    /// Whether a function answers.
    pub by_function: bool,
}

/// The same of a state, where it has an answer.
#[tactic(auto, unfolding(asl_model::specs::Step::standard))]
pub fn parts_of(state: &State) -> Option<Answered<'_>>
    ensures finish { (name : Text) (raw : model.Json) (used : List ℕ) (o : model.Outcome) → standard.finish name (state_tree state.now) raw used o ≡ finish_with result name raw used o }
    ensures fresh { standard.fresh (state_tree state.now) ≡ fresh_with result }
{
    match state {
        State::Task {
            shape,
            after,
            care,
            ..
        } => Some(Answered {
            shape,
            after,
            care,
            by_function: true,
        }),
        State::Parallel {
            shape,
            after,
            care,
            ..
        } => Some(Answered {
            shape,
            after,
            care,
            by_function: false,
        }),
        State::Map {
            shape,
            after,
            care,
            ..
        } => Some(Answered {
            shape: shape.shape(),
            after,
            care,
            by_function: false,
        }),
        _ => None,
    }
}

/// A result is handed on, and an error of that goes to the catchers at once.
fn pass_result<'m>(
    alloc: Global,
    name: &Text,
    state: &Answered<'m>,
    raw: &Json,
    value: &Json,
) -> Result<Onward<'m>, NoMemory>
    ensures { IfOk result (λ o. onward_of o ≡ leaves_or_caught name.now raw.now state.now.after.now.next (care_of state.now.care.now) (handed_on state.now.shape.now raw.now value.now)) }
{
    match hand_on(alloc, state.shape, raw, value) {
        Ok(value) => Ok(leaves(state.after, value)),
        Err(FlowError::Named(error)) => {
            let cause = name.as_str();
            catch(
                alloc,
                name,
                raw,
                error.name(),
                cause,
                false,
                &state.care.catch,
            )
        }
        Err(FlowError::NoMemory) => Err(NoMemory),
    }
}

/// A failure goes to the retriers, and then to the catchers.
///
/// Source: Amazon States Language, "Errors".
fn recover<'m>(
    alloc: Global,
    name: &'m Text,
    state: &Answered<'m>,
    raw: &Json,
    used: &Used,
    fault: &Fault,
) -> Result<Onward<'m>, NoMemory>
    ensures { IfOk result (λ o. onward_of o ≡ again_or name.now raw.now (retried fault.now.error state.now.by_function state.now.care.now.retry used.now) (caught name.now raw.now fault.now.error fault.now.cause state.now.by_function (care_of state.now.care.now).catch)) }
{
    let error = fault.error.as_str();
    let by_function = state.by_function;
    match retry(alloc, error, by_function, &state.care.retry, used)? {
        Some(again) => Ok(Onward::Goes {
            next: name,
            data: copy(alloc, raw)?,
            again: Some(again),
        }),
        None => {
            let cause = fault.cause.as_str();
            catch(
                alloc,
                name,
                raw,
                error,
                cause,
                by_function,
                &state.care.catch,
            )
        }
    }
}

/// How the state of this name goes on after its answer, where it was entered with these raw data and this list used.
///
/// The only error is want of memory.
///
/// Source: Amazon States Language, "State Types" and "Errors".
pub fn finish<'m>(
    alloc: Global,
    name: &'m Text,
    state: &'m State,
    raw: &Json,
    used: &Used,
    answer: &Outcome,
) -> Result<Onward<'m>, NoMemory>
    ensures { IfOk result (λ o. onward_of o ≡ standard.finish name.now (state_tree state.now) raw.now used.now answer.now) }
{
    let Some(state) = parts_of(state) else {
        return Ok(Onward::Ends(copy_outcome(alloc, answer)?));
    };
    match answer {
        Outcome::Done(value) => pass_result(alloc, name, &state, raw, value),
        Outcome::Failed(fault) => recover(alloc, name, &state, raw, used, fault),
    }
}
