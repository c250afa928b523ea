//! Steps: one operation of an attempt.
ghost use Rattle.world_types.specs.declared.queue.Attempt.{Attempt};
ghost use Rattle.std.specs.Prelude.{◌≡◌, ◌≢◌, ◌<◌, ◌≤◌, ◌+◌, ◌++◌, ◌∷◌, [], ◌^◌};
ghost use Rattle.std.specs.Prelude.{ℕ, true, None, length, slice_get, slice_set, IfOk, OnOk, OnErr, IsSome, IsTrue, vec_len};
ghost use Rattle.std.specs.Vec.{vec_capacity};
ghost use Rattle.std.specs.Option.{option_copied};
ghost use Rattle.world_types.specs.declared.queue.Event.TheVariants.{Step};
ghost use Rattle.world_model.specs.AnyCode.Code.{flags};
ghost use Rattle.world_model.specs.AnyCode.Operations.{Ack};
ghost use Rattle.world_model.specs.AnyCode.Program.{Do};
ghost use Rattle.world_model.specs.AnyCode.World.{enabled, effect, lives, objects_after, reply_to};
ghost use Rattle.checkpoint_store.specs.Entries.{objects_of};
ghost use Rattle.continuation_gen.specs.Coded.{code_of_ir};
ghost use Rattle.invoke_queue.specs.Plans.{IsRisingPlan};
ghost use Rattle.invoke_queue.specs.Queue.{with_attempt, attempt_at, attempt_after_move};
ghost use Rattle.unum_hub.specs.Holding.{IsFit};
ghost use Rattle.fn_wrapper.specs.Actions.{IsCountOfActs};
ghost use Rattle.fn_wrapper.specs.Ready.{CopiesData};
ghost use Rattle.unum_world.specs.Openings.{codes_of};
ghost use Rattle.unum_world.specs.Traces.{world_of};
ghost use Rattle.unum_world.specs.OneStep.{is_won, entries_won, phase_acts, stops_with, op_takes_memory, takes_memory};
ghost use Rattle.unum_world.specs.Instances.{CanMove, CanRun, IsGiven, Runs, IsDo, next_at, queue_replied, queue_operated, ReadsAt};
ghost use Rattle.unum_world.specs.Kept.{stop_in, twins_with, Keeps, Holds};

use crate::flat::form_of;
use crate::mishaps::{add, put};
use crate::opening::Opening;
use crate::places::{message_of, session_of};
use crate::prepared::{Prepared, prepare};
use crate::twins::put_twin;
use crate::world_state::WorldState;
use fanin_bitmap::Bitmap;
use fn_wrapper::{Instance, absorb, act_count, next};
use invoke_queue::Queue;
use std::alloc::Global;
use unum_hub::Hub;
use unum_json::NoMemory;
use world_plans::Plan;
use world_types::{Attempt, Doing, Entry, Op, Phase, Reply, Stop};

/// The stop that is kept for an attempt.
fn stop_of(stops: &[Option<Stop<u32>>], attempt: u32) -> Option<&Stop<u32>>
    ensures { option_copied result ≡ stop_in (slice_get stops.now attempt) }
{
    match stops.get(attempt as usize) {
        Some(Some(stop)) => Some(stop),
        _ => None,
    }
}

/// What an attempt does next.
pub fn next_doing(
    alloc: Global,
    now: &WorldState,
    instance: Instance<'_>,
) -> Result<Doing<u32, Bitmap>, NoMemory>
    requires { CanRun instance.ir.now instance.invocation.now now.now instance.ticket }
    ensures next { let it = instance.entry in IfOk result (λ d. d ≡ next_at it.ir.now it.invocation.now now.now.hub.queue it.ticket) }
    ensures memory { OnErr result ((t : Attempt) → slice_get now.now.hub.queue.atts instance.entry.ticket ≡ Some t → CopiesData t.phase) }
{
    let Some(t) = now.hub.queue.attempt(instance.ticket) else {
        unreachable!();
    };
    let stop = stop_of(now.stops.as_slice(), instance.ticket);
    next(alloc, instance.ir, instance.invocation, &t.phase, stop)
}

/// The operation that an attempt does next.
fn operation(
    alloc: Global,
    now: &WorldState,
    instance: Instance<'_>,
) -> Result<Op<u32, Bitmap>, NoMemory>
    requires runs { CanRun instance.ir.now instance.invocation.now now.now instance.ticket }
    requires does { IsDo (next_at instance.ir.now instance.invocation.now now.now.hub.queue instance.ticket) }
    ensures op { let it = instance.entry in IfOk result (λ op. next_at it.ir.now it.invocation.now now.now.hub.queue it.ticket ≡ Do op) }
    ensures memory { OnErr result ((t : Attempt) → slice_get now.now.hub.queue.atts instance.entry.ticket ≡ Some t → CopiesData t.phase) }
{
    match next_doing(alloc, now, instance) {
        Ok(Doing::Do(op)) => Ok(op),
        Ok(Doing::Ask { .. }) => unreachable!(),
        Ok(Doing::Nothing) => unreachable!(),
        Err(error) => Err(error),
    }
}

/// Whether an attempt is there and acts.
fn acts(attempt: Option<&Attempt>) -> bool
    ensures { result ≡ phase_acts (option_copied attempt.entry) }
{
    match attempt {
        Some(t) => matches!(t.phase, Phase::Acting { .. }),
        None => false,
    }
}

/// How many acts an attempt's instance has, while it acts.
fn count_acts(now: &WorldState, instance: Instance<'_>) -> u32
    requires { CanRun instance.ir.now instance.invocation.now now.now instance.ticket }
    ensures { let it = instance.entry in (t : Attempt) → slice_get now.now.hub.queue.atts it.ticket ≡ Some t → IsCountOfActs (code_of_ir it.ir.now) it.invocation.now t.phase result }
{
    if !acts(now.hub.queue.attempt(instance.ticket)) {
        return 0;
    }
    match stop_of(now.stops.as_slice(), instance.ticket) {
        Some(stop) => act_count(instance.ir, instance.invocation, stop),
        None => 0,
    }
}

/// Puts a phase back where it was taken from.
fn restore(queue: &mut Queue, attempt: u32, phase: Phase)
    requires { lives (slice_get queue.old.atts attempt) ≡ true }
    ensures { queue.new ≡ with_attempt queue.old attempt (attempt_at phase) }
{
    match queue.put_phase(attempt, phase) {
        Ok(taken) => drop(taken),
        Err(_) => unreachable!(),
    }
}

/// Counts a step of an attempt, which stands in that phase then.
fn advance(queue: &mut Queue, attempt: u32, phase: Phase)
    requires lives { lives (slice_get queue.old.atts attempt) ≡ true }
    requires steps { (t : Attempt) → slice_get queue.old.atts attempt ≡ Some t → t.live ≡ true → t.steps < 4294967295 }
    ensures { queue.new ≡ with_attempt queue.old attempt (attempt_after_move phase) }
{
    match queue.advance(attempt, phase) {
        Ok(taken) => drop(taken),
        Err(_) => unreachable!(),
    }
}

/// Moves an attempt on by a reply.
fn move_on(
    alloc: Global,
    queue: &mut Queue,
    instance: Instance<'_>,
    reply: Reply<Bitmap>,
    acts: u32,
) -> Result<(), NoMemory>
    requires moves { CanMove instance.ir.now instance.invocation.now queue.old instance.ticket acts }
    requires input { IsGiven instance.ir.now instance.invocation.now (slice_get queue.old.atts instance.ticket) reply }
    ensures ok { let it = instance.entry in OnOk result (queue.new ≡ queue_replied it.ir.now it.invocation.now queue.old it.ticket reply) }
    ensures err { OnErr result (queue.new ≡ queue.old) }
    ensures memory { OnErr result (ReadsAt (slice_get queue.old.atts instance.entry.ticket)) }
{
    let Ok(phase) = queue.put_phase(instance.ticket, Phase::Looking) else {
        drop(reply);
        unreachable!();
    };
    let mut phase = phase;
    match absorb(alloc, instance, &mut phase, reply, acts) {
        Ok(()) => {
            advance(queue, instance.ticket, phase);
            Ok(())
        }
        Err(NoMemory) => {
            restore(queue, instance.ticket, phase);
            Err(NoMemory)
        }
    }
}

/// Whether a Create won.
fn is_won(reply: &Reply<Bitmap>) -> bool
    ensures { result ≡ is_won reply.now }
{
    matches!(reply, Reply::Won)
}

/// Does an operation that is no Ack, and moves the attempt on by the reply. Answers whether it won.
fn operate(
    alloc: Global,
    hub: &mut Hub,
    instance: Instance<'_>,
    op: Op<u32, Bitmap>,
    acts: u32,
) -> Result<bool, NoMemory>
    requires fit { IsFit hub.old.queue instance.ticket op }
    requires moves { CanMove instance.ir.now instance.invocation.now hub.old.queue instance.ticket acts }
    requires input { IsGiven instance.ir.now instance.invocation.now (slice_get hub.old.queue.atts instance.ticket) (reply_to flags (objects_of hub.old.store) op) }
    requires does { next_at instance.ir.now instance.invocation.now hub.old.queue instance.ticket ≡ Do op }
    requires goes_on { op ≢ Ack }
    ensures objects { OnOk result (objects_of hub.new.store ≡ objects_after flags (objects_of hub.old.store) op) }
    ensures queue { let it = instance.entry in OnOk result (hub.new.queue ≡ queue_operated it.ir.now it.invocation.now hub.old it.ticket op) }
    ensures won { IfOk result (λ b. b ≡ is_won (reply_to flags (objects_of hub.old.store) op)) }
    ensures err_objects { OnErr result (objects_of hub.new.store ≡ objects_of hub.old.store) }
    ensures err_queue { OnErr result (hub.new.queue ≡ hub.old.queue) }
    ensures memory { OnErr result (IsTrue (op_takes_memory op)) }
{
    let reply = hub.apply(instance.ticket, op)?;
    let won = is_won(&reply);
    match move_on(alloc, &mut hub.queue, instance, reply, acts) {
        Ok(()) => Ok(won),
        Err(error) => Err(error),
    }
}

/// Keeps where the scope of an attempt stops, while it acts.
fn keep_stop(
    stops: &mut Vec<Option<Stop<u32>>>,
    queue: &Queue,
    attempt: u32,
    stop: Option<Stop<u32>>,
)
    requires { attempt < vec_len stops.old }
    ensures { stops.new.items ≡ stops_with stops.old.items attempt stop (phase_acts (slice_get queue.now.atts attempt)) }
{
    match stop {
        Some(stop) => stops[attempt as usize] = Some(stop),
        None => {
            if !acts(queue.attempt(attempt)) {
                stops[attempt as usize] = None;
            }
        }
    }
}

/// Adds the entry of an operation that won. There is room.
fn add_won(journal: &mut Vec<Entry>, won: bool, entry: Option<Entry>)
    requires { IsSome entry → vec_len journal.old < vec_capacity journal.old }
    ensures { journal.new.items ≡ journal.old.items ++ entries_won won entry }
{
    match entry {
        None => (),
        Some(entry) => {
            if won {
                add(journal, entry);
            } else {
                drop(entry);
            }
        }
    }
}

/// Changes what a step changes beside objects and queue: stops, journal, marks and twins.
fn finish(plan: &Plan, now: &mut WorldState, attempt: u32, prepared: Prepared, won: bool)
    requires plan { IsRisingPlan plan.now }
    requires stops { attempt < vec_len now.old.stops }
    requires entries { IsSome prepared.entry → vec_len now.old.journal < vec_capacity now.old.journal }
    requires marks { now.old.marks + prepared.marks < 2 ^ 64 }
    requires room { prepared.inv < now.old.twins.room }
    ensures hub { now.new.hub ≡ now.old.hub }
    ensures stops { now.new.stops.items ≡ stops_with now.old.stops.items attempt prepared.stop (phase_acts (slice_get now.old.hub.queue.atts attempt)) }
    ensures journal { now.new.journal.items ≡ now.old.journal.items ++ entries_won won prepared.entry }
    ensures marks { now.new.marks ≡ now.old.marks + prepared.marks }
    ensures twins { now.new.twins ≡ twins_with plan.now now.old.hub.queue now.old.twins prepared.inv }
{
    let Prepared {
        stop,
        entry,
        marks,
        inv,
    } = prepared;
    keep_stop(&mut now.stops, &now.hub.queue, attempt, stop);
    add_won(&mut now.journal, won, entry);
    now.marks += marks;
    put_twin(plan, &now.hub.queue, &mut now.twins, inv);
}

/// Acknowledges the invocation of an attempt, which ends.
fn acknowledge(alloc: Global, o: &Opening, now: &mut WorldState, instance: Instance<'_>, inv: u32)
    requires holds { Holds o.now now.old }
    requires runs { Runs o.now now.old instance.ticket inv instance.invocation.now instance.ir.now }
    requires does { next_at instance.ir.now instance.invocation.now now.old.hub.queue instance.ticket ≡ Do Ack }
    ensures world { world_of o.now now.new ≡ effect flags (codes_of o.now) (world_of o.now now.old) (Step instance.entry.ticket) }
    ensures kept { Keeps o.now now.new }
{
    let acts = count_acts(now, instance);
    if move_on(alloc, &mut now.hub.queue, instance, Reply::Finished, acts).is_err() {
        unreachable!();
    }
    if now.hub.queue.ack(instance.ticket).is_err() {
        unreachable!();
    }
    put(&mut now.stops, instance.ticket, None);
    put_twin(&o.plan, &now.hub.queue, &mut now.twins, inv);
}

/// Does an operation of an attempt that is no Ack.
fn carry(
    alloc: Global,
    o: &Opening,
    now: &mut WorldState,
    instance: Instance<'_>,
    inv: u32,
    op: Op<u32, Bitmap>,
) -> Result<(), NoMemory>
    requires holds { Holds o.now now.old }
    requires runs { Runs o.now now.old instance.ticket inv instance.invocation.now instance.ir.now }
    requires does { next_at instance.ir.now instance.invocation.now now.old.hub.queue instance.ticket ≡ Do op }
    requires goes_on { op ≢ Ack }
    ensures ok { OnOk result (world_of o.now now.new ≡ effect flags (codes_of o.now) (world_of o.now now.old) (Step instance.entry.ticket)) }
    ensures err { OnErr result (world_of o.now now.new ≡ world_of o.now now.old) }
    ensures kept { Keeps o.now now.new }
    ensures memory { OnErr result (IsTrue (op_takes_memory op)) }
{
    let acts = count_acts(now, instance);
    let Ok(prepared) = prepare(alloc, now, instance, inv, &op) else {
        drop(op);
        return Err(NoMemory);
    };
    match operate(alloc, &mut now.hub, instance, op, acts) {
        Ok(won) => {
            finish(&o.plan, now, instance.ticket, prepared, won);
            Ok(())
        }
        Err(NoMemory) => {
            drop(prepared);
            Err(NoMemory)
        }
    }
}

/// An attempt does its next operation.
pub fn step(alloc: Global, o: &Opening, now: &mut WorldState, attempt: u32) -> Result<(), NoMemory>
    requires holds { Holds o.now now.old }
    requires on { IsTrue (enabled (codes_of o.now) (world_of o.now now.old) (Step attempt)) }
    ensures ok { OnOk result (world_of o.now now.new ≡ effect flags (codes_of o.now) (world_of o.now now.old) (Step attempt)) }
    ensures err { OnErr result (world_of o.now now.new ≡ world_of o.now now.old) }
    ensures kept { Keeps o.now now.new }
    ensures memory { OnErr result (IsTrue (takes_memory (codes_of o.now) (world_of o.now now.old) (Step attempt))) }
{
    let (inv, message) = message_of(&now.hub.queue, attempt);
    let ir = form_of(o, session_of(&message));
    let instance = Instance {
        ir,
        invocation: &message,
        ticket: attempt,
    };
    match operation(alloc, now, instance)? {
        Op::Ack => {
            acknowledge(alloc, o, now, instance, inv);
            Ok(())
        }
        other => carry(alloc, o, now, instance, inv, other),
    }
}
