//! Deliveries, crashes, and giving up.
ghost use Rattle.std.specs.Prelude.{◌≡◌, ◌++◌, ◌∷◌, [], ◌<◌, OnOk, OnErr, IsTrue, slice_set, vec_len};
ghost use Rattle.std.specs.Vec.{vec_capacity};
ghost use Rattle.world_types.specs.declared.queue.Event.TheVariants.{Deliver, Crash, GiveUp};
ghost use Rattle.world_model.specs.AnyCode.Code.{flags};
ghost use Rattle.world_model.specs.AnyCode.World.{enabled, effect};
ghost use Rattle.unum_world.specs.Openings.{codes_of};
ghost use Rattle.unum_world.specs.Traces.{world_of};
ghost use Rattle.unum_world.specs.Kept.{Keeps, Holds};

use crate::opening::Opening;
use crate::places::message_of;
use crate::twins::put_twin;
use crate::world_state::WorldState;
use invoke_queue::QueueError;
use unum_json::NoMemory;

/// Adds an item. There is room.
pub fn add<T: Drop>(items: &mut Vec<T>, item: T)
    requires { vec_len items.old < vec_capacity items.old }
    ensures { items.new.items ≡ items.old.items ++ item ∷ [] }
{
    if items.push(item).is_err() {
        unreachable!();
    }
}

/// Puts an item in place of the one with that index.
pub fn put<T: Drop>(items: &mut Vec<T>, at: u32, item: T)
    requires { at < vec_len items.old }
    ensures { items.new.items ≡ slice_set items.old.items at item }
{
    items[at as usize] = item;
}

/// An invocation is delivered: a new attempt of it begins.
pub fn deliver(o: &Opening, now: &mut WorldState, inv: u32) -> Result<(), NoMemory>
    requires holds { Holds o.now now.old }
    requires on { IsTrue (enabled (codes_of o.now) (world_of o.now now.old) (Deliver inv)) }
    ensures ok { OnOk result (world_of o.now now.new ≡ effect flags (codes_of o.now) (world_of o.now now.old) (Deliver inv)) }
    ensures err { OnErr result (world_of o.now now.new ≡ world_of o.now now.old) }
    ensures kept { Keeps o.now now.new }
{
    now.stops.reserve(1)?;
    match now.hub.queue.deliver(inv) {
        Ok(_) => {
            add(&mut now.stops, None);
            put_twin(&o.plan, &now.hub.queue, &mut now.twins, inv);
            Ok(())
        }
        Err(QueueError::NoMemory) => Err(NoMemory),
        Err(QueueError::NotEnabled) => unreachable!(),
    }
}

/// An attempt ends, and its local state is lost.
pub fn crash(o: &Opening, now: &mut WorldState, attempt: u32)
    requires holds { Holds o.now now.old }
    requires on { IsTrue (enabled (codes_of o.now) (world_of o.now now.old) (Crash attempt)) }
    ensures world { world_of o.now now.new ≡ effect flags (codes_of o.now) (world_of o.now now.old) (Crash attempt) }
    ensures kept { Keeps o.now now.new }
{
    let (inv, _message) = message_of(&now.hub.queue, attempt);
    if now.hub.queue.crash(attempt).is_err() {
        unreachable!();
    }
    put(&mut now.stops, attempt, None);
    put_twin(&o.plan, &now.hub.queue, &mut now.twins, inv);
}

/// An invocation is given up.
pub fn give_up(o: &Opening, now: &mut WorldState, inv: u32)
    requires holds { Holds o.now now.old }
    requires on { IsTrue (enabled (codes_of o.now) (world_of o.now now.old) (GiveUp inv)) }
    ensures world { world_of o.now now.new ≡ effect flags (codes_of o.now) (world_of o.now now.old) (GiveUp inv) }
    ensures kept { Keeps o.now now.new }
{
    if now.hub.queue.give_up(inv).is_err() {
        unreachable!();
    }
    put_twin(&o.plan, &now.hub.queue, &mut now.twins, inv);
}
