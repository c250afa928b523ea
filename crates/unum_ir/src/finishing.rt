//! How a node goes on after its answer.
//!
//! Source: Amazon States Language, "State Types" and "Errors".

ghost use Rattle.std.specs.Prelude.{◌≡◌, ℕ, List, IfOk};
ghost use Rattle.asl_model.specs.Data.{Text as ModelText, Json as ModelJson, Outcome as ModelOutcome, handed_on};
ghost use Rattle.asl_model.specs.Head.{finishes, leaves_or_caught, again_or, retried, caught};
ghost use Rattle.unum_ir.specs.Flat.{care_of, head_of};
ghost use Rattle.unum_ir.specs.Finishing.{finish_with};
ghost use Rattle.unum_ir.specs.Views.{onward_of};

use crate::care::catch;
use crate::flow::hand_on;
use crate::ir::{Node, NodeCare, Op};
use crate::matching::retry;
use crate::onward::{Onward, Used, leaves};
use crate::trouble::FlowError;
use asl_shape::Shape;
use std::alloc::Global;
use unum_json::{Fault, Json, NoMemory, Outcome, Text, copy, copy_outcome};

/// What of a node counts once it has an answer.
#[derive(Drop)]
pub struct Answered<'n> {
    /// Its data flow.
    pub shape: &'n Shape,
    /// The node that follows it. A missing one is the end of the scope.
    pub next: Option<u32>,
    /// What it does about errors.
    pub care: &'n NodeCare,
    /// Whether a function answers.
    pub by_function: bool,
}

/// The same of a node, where it has an answer.
fn parts_of(op: &Op) -> Option<Answered<'_>>
    ensures { (name : ModelText) (label : ℕ) (raw : ModelJson) (used : List ℕ) (o : ModelOutcome) → finishes name label (head_of op.now) raw used o ≡ finish_with result name label raw used o }
{
    match op {
        Op::Task {
            shape,
            next,
            care,
            ..
        } => Some(Answered {
            shape,
            next: *next,
            care,
            by_function: true,
        }),
        Op::Parallel {
            shape,
            next,
            care,
            ..
        } => Some(Answered {
            shape,
            next: *next,
            care,
            by_function: false,
        }),
        Op::Map {
            shape,
            next,
            care,
            ..
        } => Some(Answered {
            shape: shape.shape(),
            next: *next,
            care,
            by_function: false,
        }),
        _ => None,
    }
}

/// A result is handed on, and an error of that goes to the catchers at once.
fn pass_result(
    alloc: Global,
    name: &Text,
    state: &Answered<'_>,
    raw: &Json,
    value: &Json,
) -> Result<Onward, NoMemory>
    ensures { IfOk result (λ o. onward_of o ≡ leaves_or_caught name.now raw.now state.now.next (care_of state.now.care.now) (handed_on state.now.shape.now raw.now value.now)) }
{
    match hand_on(alloc, state.shape, raw, value) {
        Ok(value) => Ok(leaves(state.next, value)),
        Err(FlowError::Named(error)) => {
            let cause = name.as_str();
            catch(
                alloc,
                name,
                raw,
                error.name(),
                cause,
                false,
                &state.care.catch,
            )
        }
        Err(FlowError::NoMemory) => Err(NoMemory),
    }
}

/// A failure goes to the retriers, and then to the catchers.
///
/// Source: Amazon States Language, "Errors".
fn recover(
    alloc: Global,
    name: &Text,
    label: u32,
    state: &Answered<'_>,
    raw: &Json,
    used: &Used,
    fault: &Fault,
) -> Result<Onward, NoMemory>
    ensures { IfOk result (λ o. onward_of o ≡ again_or label raw.now (retried fault.now.error state.now.by_function state.now.care.now.retry used.now) (caught name.now raw.now fault.now.error fault.now.cause state.now.by_function (care_of state.now.care.now).catch)) }
{
    let error = fault.error.as_str();
    let by_function = state.by_function;
    match retry(alloc, error, by_function, &state.care.retry, used)? {
        Some(again) => Ok(Onward::Goes {
            next: label,
            data: copy(alloc, raw)?,
            again: Some(again),
        }),
        None => {
            let cause = fault.cause.as_str();
            catch(
                alloc,
                name,
                raw,
                error,
                cause,
                by_function,
                &state.care.catch,
            )
        }
    }
}

/// How the node with this number goes on after its answer, where it was entered with these raw data and this list used.
///
/// The only error is want of memory.
///
/// Source: Amazon States Language, "State Types" and "Errors".
pub fn finish(
    alloc: Global,
    label: u32,
    node: &Node,
    raw: &Json,
    used: &Used,
    answer: &Outcome,
) -> Result<Onward, NoMemory>
    ensures { IfOk result (λ o. onward_of o ≡ finishes node.now.name label (head_of node.now.op) raw.now used.now answer.now) }
{
    let Some(state) = parts_of(&node.op) else {
        return Ok(Onward::Ends(copy_outcome(alloc, answer)?));
    };
    match answer {
        Outcome::Done(value) => pass_result(alloc, &node.name, &state, raw, value),
        Outcome::Failed(fault) => recover(alloc, &node.name, label, &state, raw, used, fault),
    }
}
