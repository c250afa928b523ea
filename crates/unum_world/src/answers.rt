//! Answers of functions.
ghost use Rattle.std.specs.Prelude.{◌≡◌, slice_get, IfOk, OnOk, OnErr, IsTrue};
ghost use Rattle.world_types.specs.declared.queue.Event.TheVariants.{Answer};
ghost use Rattle.world_model.specs.AnyCode.Code.{flags};
ghost use Rattle.world_model.specs.AnyCode.World.{enabled, effect};
ghost use Rattle.unum_world.specs.Openings.{codes_of};
ghost use Rattle.unum_world.specs.Traces.{world_of};
ghost use Rattle.unum_world.specs.Calls.{outcome_of, function_call};
ghost use Rattle.unum_world.specs.Instances.{CanAnswer, CanRun, outcome_at, queue_answered};
ghost use Rattle.unum_world.specs.Kept.{Keeps, Holds};

use crate::flat::form_of;
use crate::opening::Opening;
use crate::places::{message_of, session_of};
use crate::steps::next_doing;
use crate::twins::put_twin;
use crate::world_state::WorldState;
use fn_table::{Table, call};
use fn_wrapper::{Instance, called};
use invoke_queue::Queue;
use std::alloc::Global;
use unum_json::{Json, NoMemory, Outcome, Text};
use world_types::{Doing, Phase};

/// What the function of a resource answers, if the table has it.
fn function_outcome(
    alloc: Global,
    table: &Table,
    resource: &Text,
    input: &Json,
    ticket: u32,
) -> Result<Option<Outcome>, NoMemory>
    ensures { IfOk result (λ x. x ≡ outcome_of (function_call table.now resource.now input.now ticket)) }
{
    match table.find(resource.as_bytes()) {
        Some(kind) => Ok(Some(call(alloc, kind, input, ticket)?)),
        None => Ok(None),
    }
}

/// What the function answers that an attempt waits for, if the table has it.
fn outcome_of(
    alloc: Global,
    table: &Table,
    now: &WorldState,
    instance: Instance<'_>,
) -> Result<Option<Outcome>, NoMemory>
    requires { CanRun instance.ir.now instance.invocation.now now.now instance.ticket }
    ensures { let it = instance.entry in IfOk result (λ x. x ≡ outcome_at table.now it.ir.now it.invocation.now now.now.hub.queue it.ticket) }
{
    match next_doing(alloc, now, instance)? {
        Doing::Ask { resource, input } => {
            let outcome = function_outcome(alloc, table, &resource, &input, instance.ticket);
            drop(input);
            drop(resource);
            outcome
        }
        other => {
            drop(other);
            Ok(None)
        }
    }
}

/// An attempt takes the answer of its function.
fn take_answer(queue: &mut Queue, attempt: u32, outcome: Outcome)
    requires { CanAnswer queue.old attempt }
    ensures { queue.new ≡ queue_answered queue.old attempt outcome (slice_get queue.old.atts attempt) }
{
    let Ok(phase) = queue.put_phase(attempt, Phase::Looking) else {
        drop(outcome);
        unreachable!();
    };
    let mut phase = phase;
    called(attempt, &mut phase, outcome);
    let Ok(before) = queue.advance(attempt, phase) else {
        unreachable!();
    };
    drop(before);
}

/// An attempt gets its function's answer. Where the table has no such function nothing changes.
pub fn answer(
    alloc: Global,
    o: &Opening,
    now: &mut WorldState,
    attempt: u32,
) -> Result<(), NoMemory>
    requires holds { Holds o.now now.old }
    requires on { IsTrue (enabled (codes_of o.now) (world_of o.now now.old) (Answer attempt)) }
    ensures ok { OnOk result (world_of o.now now.new ≡ effect flags (codes_of o.now) (world_of o.now now.old) (Answer attempt)) }
    ensures err { OnErr result (world_of o.now now.new ≡ world_of o.now now.old) }
    ensures kept { Keeps o.now now.new }
{
    let (inv, message) = message_of(&now.hub.queue, attempt);
    let ir = form_of(o, session_of(&message));
    let instance = Instance {
        ir,
        invocation: &message,
        ticket: attempt,
    };
    match outcome_of(alloc, &o.table, now, instance)? {
        None => Ok(()),
        Some(outcome) => {
            take_answer(&mut now.hub.queue, attempt, outcome);
            put_twin(&o.plan, &now.hub.queue, &mut now.twins, inv);
            Ok(())
        }
    }
}
