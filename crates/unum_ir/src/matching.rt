//! Which errors a name matches, and the retriers.
//!
//! Source: Amazon States Language, "Errors".

ghost use Rattle.std.specs.Prelude.{◌≡◌, IfOk};
ghost use Rattle.asl_model.specs.Data.{match_error};
ghost use Rattle.asl_model.specs.Head.{retried};
ghost use Rattle.unum_ir.specs.Given.{is_match};

use crate::onward::Used;
use asl_model::Retrier;
use std::alloc::Global;
use unum_json::{Items, NoMemory, Text};

/// Whether a name matches an error. `States.ALL` matches each error, and `States.TaskFailed` each that a Task's function answered.
///
/// Source: Amazon States Language, "Errors".
#[tactic(auto, unfolding(asl_model::specs::Data::all_errors, asl_model::specs::Data::task_failed))]
fn is_match(name: &Text, error: &str, answered: bool) -> bool
    ensures { result ≡ is_match name.now error.now answered }
{
    let name = name.as_str();
    name == error || name == "States.ALL" || (name == "States.TaskFailed" && answered)
}

/// Whether one of these names matches an error.
///
/// Source: Amazon States Language, "Errors".
#[tactic(auto, unfolding(asl_model::specs::Data::match_error))]
pub fn match_error(errors: &Items<Text>, error: &str, answered: bool) -> bool
    ensures { result ≡ match_error errors.now error.now answered }
{
    for name in errors.as_slice() {
        if is_match(name, error, answered) {
            return true;
        }
    }
    false
}

/// The list used with the first retrier that matches taken once more, if it may be. `None` where none matches or the first that
/// does is used up. The only error is want of memory.
///
/// Source: Amazon States Language, "Retrying After Error".
pub fn retry(
    alloc: Global,
    error: &str,
    answered: bool,
    retriers: &Items<Retrier>,
    used: &Used,
) -> Result<Option<Used>, NoMemory>
    ensures { IfOk result (λ again. again ≡ retried error.now answered retriers.now used.now) }
{
    let counts = used.as_slice();
    for (i, retrier) in retriers.as_slice().iter().enumerate() {
        if i >= counts.len() {
            return Ok(None);
        }
        if match_error(&retrier.errors, error, answered) {
            let count = counts[i];
            if count >= retrier.most {
                return Ok(None);
            }
            let mut again = Items::from_slice(alloc, counts)?;
            again.set(i, count + 1);
            return Ok(Some(again));
        }
    }
    Ok(None)
}
