//! Who answers Tasks.

ghost use Rattle.std.specs.Prelude.{◌≡◌, IfOk};
ghost use Rattle.asl_model.specs.Names.{answers_of};
ghost use Rattle.central_model.specs.Asking.{asking_of, functions_of};
ghost use Rattle.central_model.specs.Walked.{HasTickets};

use crate::answers::Answers;
use fn_table::{Table, call};
use place_name::Place;
use std::alloc::Global;
use unum_ir::failure;
use unum_json::{Json, NoMemory, Outcome, Text, copy_outcome};

/// Who answers Tasks.
#[derive(Clone, Copy)]
pub enum Source<'a> {
    /// These answers, by their places.
    Given(&'a Answers),
    /// The functions of a table, by their resources.
    Functions(&'a Table),
}

/// The answer at a place, if there is one.
fn given(alloc: Global, answers: &Answers, place: &Place) -> Result<Option<Outcome>, NoMemory>
    ensures { IfOk result (λ o. o ≡ answers_of answers.now place.now) }
{
    match answers.find(place) {
        Some(answer) => Ok(Some(copy_outcome(alloc, answer)?)),
        None => Ok(None),
    }
}

/// What the function of a resource answers. A resource that the table does not have is a failure.
#[tactic(auto, unfolding(crate::specs::Asking::no_function))]
fn called(
    alloc: Global,
    table: &Table,
    resource: &Text,
    input: &Json,
    ticket: u32,
) -> Result<Outcome, NoMemory>
    ensures { IfOk result (λ o. o ≡ functions_of table.now resource.now input.now ticket) }
{
    match table.find(resource.as_bytes()) {
        Some(kind) => call(alloc, kind, input, ticket),
        None => failure(alloc, "no such function", resource.as_str()),
    }
}

/// What the Task at a place is answered, where so many Tasks were visited before. The only error is want of memory.
pub fn ask(
    alloc: Global,
    source: Source<'_>,
    place: &Place,
    resource: &Text,
    input: &Json,
    count: u64,
) -> Result<Option<Outcome>, NoMemory>
    requires { HasTickets source count }
    ensures { IfOk result (λ o. o ≡ asking_of source.entry place.now resource.now input.now count) }
{
    match source {
        Source::Given(answers) => given(alloc, answers, place),
        Source::Functions(table) => {
            Ok(Some(called(alloc, table, resource, input, count as u32)?))
        }
    }
}
