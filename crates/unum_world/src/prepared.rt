//! What a step takes memory for, made before anything changes.
ghost use Rattle.std.specs.Prelude.{◌≡◌, ◌<◌, ◌≤◌, ◌⊎◌, ℕ, length, slice_get, IfOk, OnOk, OnErr, IsSome, IsTrue, vec_len};
ghost use Rattle.std.specs.Vec.{vec_capacity};
ghost use Rattle.std.specs.Option.{option_copied};
ghost use Rattle.checkpoint_store.specs.Entries.{condition_in};
ghost use Rattle.unum_world.specs.OneStep.{kept_in, adopted_kept, stop_for, own_of};
ghost use Rattle.unum_world.specs.OneStep.{entry_of, one_mark, messages_after, inv_of_op, op_takes_memory};
ghost use Rattle.unum_world.specs.Instances.{IsPrepared, MayAdopt};
ghost use Rattle.unum_world.specs.Kept.{ChangesRoom};

use crate::twins::grow_twins;
use crate::world_state::WorldState;
use checkpoint_store::{Slot, Store};
use fanin_bitmap::Bitmap;
use fn_wrapper::{Instance, stop_at};
use invoke_queue::Numbers;
use place_name::Obj;
use std::alloc::Global;
use unum_json::{NoMemory, copy_outcome};
use world_types::{Entry, Held, Kept, Op, Phase, Stop};

/// What a step has made before anything changes.
#[derive(Drop)]
pub struct Prepared {
    /// Where the scope stops after the checkpoint that the step adopts, if it adopts one.
    pub stop: Option<Stop<u32>>,
    /// The entry of the journal, if the step may win one.
    pub entry: Option<Entry>,
    /// 1 for a Mark.
    pub marks: u64,
    /// The invocation that the step is of.
    pub inv: u32,
}

/// The checkpoint that an object holds.
fn kept_in(found: Option<&Slot>) -> Option<&Kept>
    ensures { option_copied result ≡ kept_in (condition_in (option_copied found.entry)) }
{
    match found {
        Some(Slot::Live(Held::Kept(kept))) => Some(kept),
        _ => None,
    }
}

/// The checkpoint that an attempt in that phase adopts with its next operation, by what its own Check is.
fn adopted<'a>(phase: &'a Phase, found: Option<&'a Slot>) -> Option<&'a Kept>
    ensures { option_copied result ≡ adopted_kept phase.now (condition_in (option_copied found.entry)) }
{
    match phase {
        Phase::Looking => kept_in(found),
        Phase::Creating(kept) => match found {
            None => Some(kept),
            Some(_) => kept_in(found),
        },
        _ => None,
    }
}

/// Where the scope stops after the checkpoint that an attempt adopts with its next operation, if it adopts one.
fn next_stop(
    alloc: Global,
    store: &Store,
    instance: Instance<'_>,
    phase: &Phase,
) -> Result<Option<Stop<u32>>, NoMemory>
    ensures stop { let it = instance.entry in IfOk result (λ s. s ≡ stop_for it.ir.now it.invocation.now phase.now (own_of it.invocation.now store.now)) }
    ensures memory { let it = instance.entry in OnErr result (IsSome (adopted_kept phase.now (own_of it.invocation.now store.now))) }
{
    let own = Obj::Check(instance.invocation.name);
    match adopted(phase, store.look(&own)) {
        Some(kept) => match stop_at(alloc, instance.ir, instance.invocation, kept) {
            Ok(stop) => Ok(Some(stop)),
            Err(error) => Err(error),
        },
        None => Ok(None),
    }
}

/// The entry of an operation that may win one.
fn entry_of(alloc: Global, op: &Op<u32, Bitmap>, attempt: u32) -> Result<Option<Entry>, NoMemory>
    ensures entry { IfOk result (λ e. e ≡ entry_of op.now attempt) }
    ensures memory { OnErr result (IsTrue (op_takes_memory op.now)) }
{
    match op {
        Op::Create(Obj::Check(name), Held::Kept(kept)) => {
            let answer = copy_outcome(alloc, &kept.answer)?;
            Ok(Some(Entry {
                name: *name,
                answer,
                ticket: attempt,
            }))
        }
        _ => Ok(None),
    }
}

/// Takes room for what an operation adds to journal and messages, where there are so many messages.
fn make_room(
    journal: &mut Vec<Entry>,
    twins: &mut Numbers,
    op: &Op<u32, Bitmap>,
    invocations: usize,
) -> Result<(), NoMemory>
    requires within { invocations < 4294967295 }
    requires room { invocations ≤ twins.old.room }
    ensures journal { journal.new.items ≡ journal.old.items }
    ensures numbers { twins.new.numbers ≡ twins.old.numbers }
    ensures kept { invocations ≤ twins.new.room }
    ensures entries { OnOk result ((a : ℕ) → IsSome (entry_of op.now a) → vec_len journal.new < vec_capacity journal.new) }
    ensures next { OnOk result (messages_after op.now invocations ≤ twins.new.room) }
    ensures memory { OnErr result (IsTrue (op_takes_memory op.now)) }
{
    match op {
        Op::Create(_, _) => {
            journal.reserve(1)?;
            Ok(())
        }
        Op::Invoke(_) => grow_twins(twins, invocations),
        _ => Ok(()),
    }
}

/// 1 for a Mark.
fn one_mark(op: &Op<u32, Bitmap>) -> u64
    ensures { result ≡ one_mark op.now }
{
    match op {
        Op::Mark(_) => 1,
        _ => 0,
    }
}

/// The invocation that an operation is of: an Invoke of the next one, and any other of the attempt's own.
fn inv_of_op(op: &Op<u32, Bitmap>, inv: u32, invocations: u32) -> u32
    ensures { result ≡ inv_of_op invocations inv op.now }
{
    match op {
        Op::Invoke(_) => invocations,
        _ => inv,
    }
}

/// Makes what the step of an attempt of the invocation `inv` takes memory for. Of the world only room in lists changes.
pub fn prepare(
    alloc: Global,
    now: &mut WorldState,
    instance: Instance<'_>,
    inv: u32,
    op: &Op<u32, Bitmap>,
) -> Result<Prepared, NoMemory>
    requires there { IsSome (slice_get now.old.hub.queue.atts instance.ticket) }
    requires within { length now.old.hub.queue.invs < 4294967295 }
    requires room { length now.old.hub.queue.invs ≤ now.old.twins.room }
    ensures same { ChangesRoom now.old now.new }
    ensures made { let it = instance.entry in IfOk result (λ p. IsPrepared it.ir.now it.invocation.now it.ticket inv op.now now.old p) }
    ensures entries { OnOk result ((a : ℕ) → IsSome (entry_of op.now a) → vec_len now.new.journal < vec_capacity now.new.journal) }
    ensures next { OnOk result (messages_after op.now (length now.old.hub.queue.invs) ≤ now.new.twins.room) }
    ensures memory { let it = instance.entry in OnErr result (MayAdopt it.ir.now it.invocation.now it.ticket now.old ⊎ IsTrue (op_takes_memory op.now)) }
{
    let Some(t) = now.hub.queue.attempt(instance.ticket) else {
        unreachable!();
    };
    let stop = next_stop(alloc, &now.hub.store, instance, &t.phase)?;
    let Ok(entry) = entry_of(alloc, op, instance.ticket) else {
        drop(stop);
        return Err(NoMemory);
    };
    let invocations = now.hub.queue.invocations();
    match make_room(&mut now.journal, &mut now.twins, op, invocations) {
        Ok(()) => Ok(Prepared {
            stop,
            entry,
            marks: one_mark(op),
            inv: inv_of_op(op, inv, invocations as u32),
        }),
        Err(NoMemory) => {
            drop(entry);
            drop(stop);
            Err(NoMemory)
        }
    }
}
