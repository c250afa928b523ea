//! What each built-in function answers.

ghost use Rattle.std.specs.Prelude.{◌≡◌, IfOk};
ghost use Rattle.std.specs.Option.{option_and_then};
ghost use Rattle.unum_json.specs.Seen.{shape_of};
ghost use Rattle.fn_table.specs.Answers.{answer, items_in, summed, total_of, broken_with};

use crate::adding::sum_up;
use crate::kind::FnKind;
use std::alloc::Global;
use unum_json::{Fault, Json, NoMemory, Outcome, Seen, Text, copy, copy_fault};

/// The failure of a function that broke, with this cause.
fn broken(alloc: Global, cause: &str) -> Result<Outcome, NoMemory>
    ensures { IfOk result (λ o. o ≡ broken_with cause.now) }
{
    let error = Text::from_str(alloc, "States.TaskFailed")?;
    let cause = Text::from_str(alloc, cause)?;
    Ok(Outcome::Failed(Fault { error, cause }))
}

/// The total of the items of an array.
fn total_in(value: Seen<'_>) -> Option<i64>
    ensures { result ≡ option_and_then total_of (items_in (shape_of value.entry)) }
{
    match value {
        Seen::Arr(items) => sum_up(items.as_slice()),
        _ => None,
    }
}

/// What `sum` answers.
fn call_sum(alloc: Global, input: &Json) -> Result<Outcome, NoMemory>
    ensures { IfOk result (λ o. o ≡ summed input.now) }
{
    match total_in(input.seen()) {
        Some(total) => Ok(Outcome::Done(Json::whole(total))),
        None => broken(alloc, "sum"),
    }
}

/// What a function answers to an input, called by the attempt with the number `ticket`:
///
/// - `Echo`: its input;
/// - `Const`: its value;
/// - `Sum`: the sum of an array of whole numbers (0 of an empty one). Where the input is anything else, or where one of
///   the sums from the left does not fit `i64`, it fails with `States.TaskFailed` and the cause `sum`;
/// - `Ticket`: `ticket`;
/// - `Flaky(every)`: fails with `States.TaskFailed` and the cause `flaky` where `ticket` is a multiple of `every`,
///   and else its input;
/// - `Fail`: fails with its fault.
///
/// The only error is want of memory.
pub fn call(alloc: Global, kind: &FnKind, input: &Json, ticket: u32) -> Result<Outcome, NoMemory>
    ensures { IfOk result (λ o. o ≡ answer kind.now input.now ticket) }
{
    match kind {
        FnKind::Echo => Ok(Outcome::Done(copy(alloc, input)?)),
        FnKind::Const(value) => Ok(Outcome::Done(copy(alloc, value)?)),
        FnKind::Sum => call_sum(alloc, input),
        FnKind::Ticket => Ok(Outcome::Done(Json::whole(ticket as i64))),
        FnKind::Flaky(every) => {
            if ticket.is_multiple_of(*every) {
                broken(alloc, "flaky")
            } else {
                Ok(Outcome::Done(copy(alloc, input)?))
            }
        }
        FnKind::Fail(fault) => Ok(Outcome::Failed(copy_fault(alloc, fault)?)),
    }
}
