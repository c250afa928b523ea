//! The calls that attempts wait for.
ghost use Rattle.std.specs.Prelude.{◌≡◌, ◌↔◌, slice_get, IfOk, IsTrue, Some};
ghost use Rattle.std.specs.Option.{option_map};
ghost use Rattle.world_types.specs.declared.queue.Event.TheVariants.{Answer};
ghost use Rattle.world_model.specs.AnyCode.World.{enabled};
ghost use Rattle.unum_world.specs.Openings.{codes_of};
ghost use Rattle.unum_world.specs.Traces.{world_of};
ghost use Rattle.unum_world.specs.Calls.{awaited_call, function_call};
ghost use Rattle.unum_world.specs.Kept.{Holds};
ghost use Rattle.unum_world.specs.Turns.{asked_by};

use crate::flat::form_of;
use crate::opening::Opening;
use crate::places::message_of;
use crate::steps::next_doing;
use crate::world_state::WorldState;
use fn_table::{Answered, FnKind, Table, copy_kind, same_kind};
use fn_wrapper::Instance;
use std::alloc::Global;
use unum_json::{Json, NoMemory, Text, same};
use world_types::Doing;

/// Whether a call is of the function of that resource, with that input.
fn is_call_of(table: &Table, resource: &Text, input: &Json, done: &Answered) -> bool
    ensures { IsTrue result ↔ (function_call table.now resource.now input.now done.now.ticket ≡ Some done.now) }
{
    match table.find(resource.as_bytes()) {
        Some(kind) => same_kind(kind, done.kind()) && same(input, done.input()),
        None => false,
    }
}

/// The call that an attempt makes: the resource of its function, and the input.
#[derive(Drop)]
struct PendingCall {
    resource: Text,
    input: Json,
}

/// A call of a function.
#[derive(Drop)]
pub struct FunctionCall {
    /// The function.
    pub kind: FnKind,
    /// What it is called with.
    pub input: Json,
}

/// The call that an attempt makes, which waits for one.
fn pending(
    alloc: Global,
    o: &Opening,
    now: &WorldState,
    attempt: u32,
) -> Result<PendingCall, NoMemory>
    requires holds { Holds o.now now.now }
    requires on { IsTrue (enabled (codes_of o.now) (world_of o.now now.now) (Answer attempt)) }
    ensures { IfOk result (λ c. awaited_call (codes_of o.now) (world_of o.now now.now) attempt ≡ function_call o.now.table c.resource c.input attempt) }
{
    let (_inv, message) = message_of(&now.hub.queue, attempt);
    let ir = form_of(o, message.name.place.session);
    let instance = Instance {
        ir,
        invocation: &message,
        ticket: attempt,
    };
    match next_doing(alloc, now, instance)? {
        Doing::Ask { resource, input } => Ok(PendingCall { resource, input }),
        other => {
            drop(other);
            unreachable!()
        }
    }
}

/// Whether the call is the one that its attempt waits for. The attempt waits for one.
pub fn is_awaited(
    alloc: Global,
    o: &Opening,
    now: &WorldState,
    done: &Answered,
) -> Result<bool, NoMemory>
    requires holds { Holds o.now now.now }
    requires on { IsTrue (enabled (codes_of o.now) (world_of o.now now.now) (Answer done.now.ticket)) }
    ensures { IfOk result (λ b. IsTrue b ↔ (awaited_call (codes_of o.now) (world_of o.now now.now) done.now.ticket ≡ Some done.now)) }
{
    let asked = pending(alloc, o, now, done.ticket())?;
    let is = is_call_of(&o.table, &asked.resource, &asked.input, done);
    drop(asked);
    Ok(is)
}

/// The call that an attempt waits for, or `None` exactly where the table has no such function. The attempt waits for one.
pub fn awaited(
    alloc: Global,
    o: &Opening,
    now: &WorldState,
    attempt: u32,
) -> Result<Option<FunctionCall>, NoMemory>
    requires holds { Holds o.now now.now }
    requires on { IsTrue (enabled (codes_of o.now) (world_of o.now now.now) (Answer attempt)) }
    ensures { IfOk result (λ c. option_map (asked_by attempt) c ≡ awaited_call (codes_of o.now) (world_of o.now now.now) attempt) }
{
    let asked = pending(alloc, o, now, attempt)?;
    let Some(kind) = o.table.find(asked.resource.as_bytes()) else {
        drop(asked);
        return Ok(None);
    };
    let Ok(kind) = copy_kind(alloc, kind) else {
        drop(asked);
        return Err(NoMemory);
    };
    Ok(Some(FunctionCall {
        kind,
        input: asked.input,
    }))
}
