//! Each operation, on the part that it is about.

ghost use Rattle.std.specs.Prelude.{◌≡◌, ◌<◌, ◌≤◌, true, length, slice_get, IfOk, OnOk, OnErr};
ghost use Rattle.std.specs.Option.{option_copied};
ghost use Rattle.place_name.specs.declared.obj.Obj.TheVariants as object;
ghost use Rattle.world_model.specs.AnyCode.Code.{flags};
ghost use Rattle.world_model.specs.AnyCode.Operations.{Absent, Invoked, Finished};
ghost use Rattle.world_model.specs.AnyCode.World.{lives, state_after_ack, look_reply, create_reply, set_reply, mark_reply, created_objects, bit_objects, marked_objects};
ghost use Rattle.checkpoint_store.specs.Entries.{objects_of, condition_in, IsOfKind};
ghost use Rattle.invoke_queue.specs.Queue.{with_invocation, with_end};

use crate::copies::copy_held;
use checkpoint_store::{Bit, Slot, Store};
use fanin_bitmap::Bitmap;
use invoke_queue::Queue;
use place_name::{MOST_BRANCHES, Obj, Place, WasMarked};
use std::alloc::Global;
use unum_json::NoMemory;
use world_types::{Held, Invocation, Reply};

/// What a Look answers that finds this.
pub fn look_at(alloc: Global, slot: Option<&Slot>) -> Result<Reply<Bitmap>, NoMemory>
    ensures { IfOk result (λ r. r ≡ look_reply (condition_in (option_copied slot.entry))) }
{
    match slot {
        None => Ok(Reply::WasAbsent),
        Some(Slot::Live(held)) => Ok(Reply::WasLive(copy_held(alloc, held)?)),
        Some(Slot::Tombstone) => Ok(Reply::WasTombstone),
    }
}

/// What a Create answers that finds this.
fn made_at(alloc: Global, slot: Option<&Slot>) -> Result<Reply<Bitmap>, NoMemory>
    ensures { IfOk result (λ r. r ≡ create_reply (condition_in (option_copied slot.entry))) }
{
    match slot {
        None => Ok(Reply::Won),
        Some(Slot::Live(held)) => Ok(Reply::Had(copy_held(alloc, held)?)),
        Some(Slot::Tombstone) => Ok(Reply::HadTombstone),
    }
}

/// Creates an object, if it is absent.
pub fn create_in(
    alloc: Global,
    store: &mut Store,
    object: &Obj,
    held: Held<Bitmap>,
) -> Result<Reply<Bitmap>, NoMemory>
    requires { IsOfKind object.now held }
    ensures ok { OnOk result (objects_of store.new ≡ created_objects (objects_of store.old) object.now held (objects_of store.old object.now)) }
    ensures reply { IfOk result (λ r. r ≡ create_reply (objects_of store.old object.now)) }
    ensures err { OnErr result (store.new ≡ store.old) }
{
    let Ok(reply) = made_at(alloc, store.look(object)) else {
        drop(held);
        return Err(NoMemory);
    };
    match store.create(object, held) {
        Ok(_) => Ok(reply),
        Err(NoMemory) => {
            drop(reply);
            Err(NoMemory)
        }
    }
}

/// Sets the bit of a branch.
pub fn set_in(
    store: &mut Store,
    place: &Place,
    index: u32,
    count: u32,
) -> Result<Reply<Bitmap>, NoMemory>
    requires below { index < count }
    requires within { count ≤ MOST_BRANCHES }
    ensures ok { OnOk result (objects_of store.new ≡ bit_objects flags (objects_of store.old) place.now index count (objects_of store.old (object.Bits place.now count))) }
    ensures reply { IfOk result (λ r. r ≡ set_reply flags index count (objects_of store.old (object.Bits place.now count))) }
    ensures err { OnErr result (store.new ≡ store.old) }
    ensures memory { OnErr result (objects_of store.old (object.Bits place.now count) ≡ Absent) }
{
    match store.set(place, index, count)? {
        Bit::Full => Ok(Reply::BitFull),
        Bit::NotFull => Ok(Reply::BitNotFull),
        Bit::Tombstone => Ok(Reply::BitTombstone),
    }
}

/// Sends a message.
pub fn invoke_in(queue: &mut Queue, invocation: Invocation<u32>) -> Result<Reply<Bitmap>, NoMemory>
    requires { length queue.old.invs < 4294967295 }
    ensures ok { OnOk result (queue.new ≡ with_invocation queue.old invocation) }
    ensures reply { IfOk result (λ r. r ≡ Invoked) }
    ensures err { OnErr result (queue.new ≡ queue.old) }
{
    let _number = queue.invoke(invocation)?;
    Ok(Reply::Invoked)
}

/// Collects an object.
pub fn mark_in(store: &mut Store, object: &Obj) -> Reply<Bitmap>
    ensures objects { objects_of store.new ≡ marked_objects (objects_of store.old) object.now (objects_of store.old object.now) }
    ensures reply { result ≡ mark_reply (objects_of store.old object.now) }
{
    match store.mark(object) {
        WasMarked::Absent => Reply::WasAbsent,
        WasMarked::Done => Reply::Finished,
    }
}

/// Acknowledges the message of a live attempt, which ends.
pub fn ack_in(queue: &mut Queue, attempt: u32) -> Reply<Bitmap>
    requires { lives (slice_get queue.old.atts attempt) ≡ true }
    ensures queue { queue.new ≡ with_end queue.old attempt state_after_ack (slice_get queue.old.atts attempt) }
    ensures reply { result ≡ Finished }
{
    match queue.ack(attempt) {
        Ok(()) => Reply::Finished,
        Err(_) => unreachable!(),
    }
}
