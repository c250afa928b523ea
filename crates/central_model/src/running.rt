//! Central runs and sequential runs.

ghost use Rattle.std.specs.Prelude.{◌≡◌, ◌<◌, ◌≤◌};
ghost use Rattle.place_name.specs.declared.limits.TheConstants.{SESSIONS as MOST_SESSIONS};
ghost use Rattle.asl_model.specs.Central.{central};
ghost use Rattle.asl_model.specs.Names.{Answers as ModelAnswers, answers_of};
ghost use Rattle.asl_model.specs.Sequential.{sequential};
ghost use Rattle.asl_model.specs.Step.{standard};
ghost use Rattle.asl_model.specs.Tree.{tree_of};
ghost use Rattle.asl_model.specs.Valid.{IsValid};
ghost use Rattle.central_model.specs.Asking.{asking_of, functions_of, AreAnswered};
ghost use Rattle.central_model.specs.Walked.{HasTickets, Tells};

use crate::answers::Answers;
use crate::run::Run;
use crate::source::Source;
use crate::trouble::CentralError;
use crate::walk::Walk;
use asl_model::Machine;
use fn_table::Table;
use place_name::{Scope, Trail};
use std::alloc::Global;
use unum_json::Json;

/// The run of a machine for a session and an input, where Tasks are answered so.
fn run_by(
    alloc: Global,
    machine: &Machine,
    session: u32,
    input: &Json,
    source: Source<'_>,
    limit: u64,
) -> Result<Run, CentralError>
    requires valid { IsValid (tree_of machine.now) }
    requires session { session < MOST_SESSIONS }
    requires tickets { HasTickets source limit }
    ensures { (A : ModelAnswers) → AreAnswered (asking_of source.entry) 0 (central standard A (tree_of machine.now) session input.now).visits → Tells limit result (central standard A (tree_of machine.now) session input.now) }
{
    let mut walk = Walk::new(alloc, source, limit);
    let at = Scope {
        session,
        trail: Trail::new(),
    };
    let end = walk.scope(&machine.root, &at, input)?;
    Ok(Run {
        visits: walk.into_visits(),
        end,
    })
}

/// The central run of a machine for a session and an input, on these answers. A Task that has no answer waits. The machine is valid,
/// and the session below 1,000.
///
/// `TooLong` comes exactly where the run has more than `limit` visits; the only other error is want of memory. The time grows with
/// the visits.
pub fn central(
    alloc: Global,
    machine: &Machine,
    session: u32,
    input: &Json,
    answers: &Answers,
    limit: u64,
) -> Result<Run, CentralError>
    requires valid { IsValid (tree_of machine.now) }
    requires session { session < MOST_SESSIONS }
    ensures { Tells limit result (central standard (answers_of answers.now) (tree_of machine.now) session input.now) }
{
    run_by(
        alloc,
        machine,
        session,
        input,
        Source::Given(answers),
        limit,
    )
}

/// The sequential run of a machine for a session and an input, on the functions of a table: starting with no answers, the least
/// Task that waits is answered by its function, with the number of answers so far as ticket, until the run has ended. The machine is
/// valid, the session below 1,000, and the limit at most 4,294,967,295. A resource that the table does not have is answered by a
/// failure.
///
/// `TooLong` comes exactly where that last run has more than `limit` visits; the only other error is want of memory. Each Task is
/// answered where it is met, so the time grows with the visits, beside that of the functions.
pub fn central_all(
    alloc: Global,
    machine: &Machine,
    session: u32,
    input: &Json,
    table: &Table,
    limit: u64,
) -> Result<Run, CentralError>
    requires valid { IsValid (tree_of machine.now) }
    requires session { session < MOST_SESSIONS }
    requires limit { limit ≤ 4294967295 }
    ensures { Tells limit result (sequential (tree_of machine.now) session input.now (functions_of table.now)) }
{
    run_by(
        alloc,
        machine,
        session,
        input,
        Source::Functions(table),
        limit,
    )
}
