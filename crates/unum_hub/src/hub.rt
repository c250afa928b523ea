//! The hub, which holds what all instances share.

ghost use Rattle.std.specs.Prelude.{◌≡◌, [], IfOk, OnOk, OnErr};
ghost use Rattle.place_name.specs.declared.obj.Obj.{Obj};
ghost use Rattle.world_model.specs.AnyCode.Code.{flags};
ghost use Rattle.world_model.specs.AnyCode.Operations.{Absent};
ghost use Rattle.world_model.specs.AnyCode.World.{objects_after, reply_to};
ghost use Rattle.checkpoint_store.specs.Entries.{objects_of};
ghost use Rattle.unum_hub.specs.Holding.{IsFit, queue_after, MayTakeMemory};

use crate::parts::{ack_in, create_in, invoke_in, look_at, mark_in, set_in};
use checkpoint_store::Store;
use fanin_bitmap::Bitmap;
use invoke_queue::Queue;
use std::alloc::Global;
use unum_json::NoMemory;
use world_types::{Op, Reply};

/// The objects and the queue, which all instances share.
#[derive(Drop)]
pub struct Hub {
    /// Where copies of what is held are made.
    pub alloc: Global,
    /// Checkpoints, outcomes, saved data and bitmaps by their names.
    pub store: Store,
    /// Messages and their attempts.
    pub queue: Queue,
}

impl Hub {
    /// A hub without an object and without a message. It takes no memory.
    pub fn new(alloc: Global) -> Hub
        ensures objects { (object : Obj) → objects_of result.store object ≡ Absent }
        ensures queue { result.queue ≡ record { invs = []; states = []; atts = [] } }
    {
        Hub {
            alloc,
            store: Store::new(alloc),
            queue: Queue::new(alloc),
        }
    }

    /// Does an operation of an attempt, at once or not at all, and answers its reply. Objects and reply are those of the world's
    /// definitions. The only error is want of memory, and nothing has changed then.
    pub fn apply(&mut self, attempt: u32, op: Op<u32, Bitmap>) -> Result<Reply<Bitmap>, NoMemory>
        requires { IsFit self.old.queue attempt op }
        ensures objects { OnOk result (objects_of self.new.store ≡ objects_after flags (objects_of self.old.store) op) }
        ensures queue { OnOk result (self.new.queue ≡ queue_after self.old.queue attempt op) }
        ensures reply { IfOk result (λ r. r ≡ reply_to flags (objects_of self.old.store) op) }
        ensures err { OnErr result (self.new ≡ self.old) }
        ensures memory { OnErr result (MayTakeMemory (objects_of self.old.store) op) }
    {
        match op {
            Op::Look(object) => look_at(self.alloc, self.store.look(&object)),
            Op::Create(object, held) => create_in(self.alloc, &mut self.store, &object, held),
            Op::Set {
                place,
                index,
                count,
            } => set_in(&mut self.store, &place, index, count),
            Op::Invoke(invocation) => invoke_in(&mut self.queue, invocation),
            Op::Mark(object) => Ok(mark_in(&mut self.store, &object)),
            Op::Ack => Ok(ack_in(&mut self.queue, attempt)),
        }
    }
}
