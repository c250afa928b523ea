//! The visits of a run.

ghost use Rattle.std.specs.Prelude.{◌≡◌, IfOk, Some, None};
ghost use Rattle.asl_model.specs.Machine.{Block as ModelBlock};
ghost use Rattle.asl_model.specs.Names.{Task, Join};
ghost use Rattle.central_model.specs.Told.{told};
ghost use Rattle.central_model.specs.Walked.{enter_visit};

use crate::run::Visit;
use place_name::{Kind, Name, Place, Scope};
use std::alloc::Global;
use unum_json::{Json, NoMemory, Outcome, Text, copy, copy_outcome, copy_text};

/// The Enter of a scope, which answers its input.
pub fn enter_of(alloc: Global, at: &Scope, input: &Json) -> Result<Visit, NoMemory>
    ensures { (b : ModelBlock) → IfOk result (λ v. v ≡ told (enter_visit b at.now input.now)) }
{
    let place = Place {
        session: at.session,
        trail: at.trail,
        hop: 0,
    };
    let given = copy(alloc, input)?;
    let answer = Outcome::Done(copy(alloc, input)?);
    Ok(Visit {
        name: Name {
            place,
            kind: Kind::Enter,
        },
        resource: None,
        given,
        answer: Some(answer),
    })
}

/// An equal answer.
fn copy_answer(alloc: Global, answer: &Option<Outcome>) -> Result<Option<Outcome>, NoMemory>
    ensures { IfOk result (λ o. o ≡ answer.now) }
{
    match answer {
        Some(answer) => Ok(Some(copy_outcome(alloc, answer)?)),
        None => Ok(None),
    }
}

/// A Task of a resource with its effective input, and its answer, if it has one.
pub fn task_of(
    alloc: Global,
    place: Place,
    resource: &Text,
    input: Json,
    answer: &Option<Outcome>,
) -> Result<Visit, NoMemory>
    ensures { IfOk result (λ v. v ≡ record { name = record { place = place; kind = Task }; resource = Some resource.now; given = input; answer = answer.now }) }
{
    let Ok(answer) = copy_answer(alloc, answer) else {
        drop(input);
        return Err(NoMemory);
    };
    Ok(Visit {
        name: Name {
            place,
            kind: Kind::Task,
        },
        resource: Some(copy_text(alloc, resource)?),
        given: input,
        answer,
    })
}

/// The Join of a fan with its raw input, and what its outcomes came to.
pub fn join_of(alloc: Global, place: Place, raw: &Json, answer: &Outcome) -> Result<Visit, NoMemory>
    ensures { IfOk result (λ v. v ≡ record { name = record { place = place; kind = Join }; resource = None; given = raw.now; answer = Some answer.now }) }
{
    let given = copy(alloc, raw)?;
    let answer = copy_outcome(alloc, answer)?;
    Ok(Visit {
        name: Name {
            place,
            kind: Kind::Join,
        },
        resource: None,
        given,
        answer: Some(answer),
    })
}
