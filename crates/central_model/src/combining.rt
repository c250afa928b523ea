//! What the outcomes of a fan's branches come to.
//!
//! Source: Amazon States Language, "Parallel State" and "Map State".

ghost use Rattle.std.specs.Prelude.{◌≡◌, Ok, IfOk};
ghost use Rattle.asl_model.specs.Data.{array_or_fault, combine};

use std::alloc::Global;
use unum_ir::failure;
use unum_json::{Items, Json, NoMemory, Outcome, Text, array, is_small};

/// The array of the outputs, or the failure of a fan of this name where that is too large.
#[tactic(auto, unfolding(asl_model::specs::Data::data_limit))]
fn array_of(alloc: Global, name: &Text, outputs: Items<Json>) -> Result<Outcome, NoMemory>
    ensures { IfOk result (λ o. o ≡ array_or_fault name.now (Ok outputs)) }
{
    let array = array(alloc, outputs)?;
    if is_small(&array) {
        return Ok(Outcome::Done(array));
    }
    drop(array);
    failure(alloc, "Unum.DataLimit", name.as_str())
}

/// What the outcomes of a fan's branches come to, for the fan of this name: the failure of the branch with the lowest index, or
/// else the array of the outputs. An array that is too large is a failure whose cause is the fan's name.
///
/// The only error is want of memory. No output is copied.
///
/// Source: Amazon States Language, "Parallel State" and "Map State".
#[tactic(auto, unfolding(asl_model::specs::Data::combine))]
pub fn combine(alloc: Global, name: &Text, outcomes: Items<Outcome>) -> Result<Outcome, NoMemory>
    ensures { IfOk result (λ o. o ≡ combine name.now outcomes) }
{
    let mut outputs = Items::new(alloc);
    for outcome in outcomes.into_vec() {
        match outcome {
            Outcome::Failed(fault) => {
                drop(outputs);
                return Ok(Outcome::Failed(fault));
            }
            Outcome::Done(value) => outputs.push(value)?,
        }
    }
    array_of(alloc, name, outputs)
}
