//! Events: whether one may happen, and that it happens.
ghost use Rattle.std.specs.Prelude.{◌≡◌, OnOk, OnErr, IsTrue};
ghost use Rattle.world_types.specs.declared.queue.Event.TheVariants.{Step, Answer};
ghost use Rattle.world_model.specs.AnyCode.Code.{flags};
ghost use Rattle.world_model.specs.AnyCode.World.{enabled, effect};
ghost use Rattle.unum_world.specs.declared.opening.Opening.{Opening};
ghost use Rattle.unum_world.specs.Openings.{codes_of};
ghost use Rattle.unum_world.specs.Traces.{world_of};
ghost use Rattle.unum_world.specs.OneStep.{takes_memory};
ghost use Rattle.unum_world.specs.Kept.{Keeps, Holds};

use crate::answers::answer;
use crate::mishaps::{crash, deliver, give_up};
use crate::opening::Opening;
use crate::steps::step;
use crate::world_state::WorldState;
use fn_wrapper::is_call;
use std::alloc::Global;
use unum_json::NoMemory;
use world_types::Event;

/// Whether an attempt lives, and has an operation before it.
pub fn may_step(now: &WorldState, attempt: u32) -> bool
    ensures { (o : Opening) → Holds o now.now → result ≡ enabled (codes_of o) (world_of o now.now) (Step attempt) }
{
    match now.hub.queue.attempt(attempt) {
        Some(t) => t.live && !is_call(&t.phase),
        None => false,
    }
}

/// Whether an attempt lives, and has the call of a function before it.
pub fn may_answer(now: &WorldState, attempt: u32) -> bool
    ensures { (o : Opening) → Holds o now.now → result ≡ enabled (codes_of o) (world_of o now.now) (Answer attempt) }
{
    match now.hub.queue.attempt(attempt) {
        Some(t) => t.live && is_call(&t.phase),
        None => false,
    }
}

/// Whether an event is enabled.
#[tactic(auto, unfolding(world_model::specs::AnyCode::World::enabled))]
pub fn may(now: &WorldState, event: Event) -> bool
    ensures { (o : Opening) → Holds o now.now → result ≡ enabled (codes_of o) (world_of o now.now) event }
{
    match event {
        Event::Deliver(inv) => now.hub.queue.can_deliver(inv),
        Event::Crash(attempt) => now.hub.queue.lives(attempt),
        Event::Step(attempt) => may_step(now, attempt),
        Event::Answer(attempt) => may_answer(now, attempt),
        Event::GiveUp(inv) => now.hub.queue.can_give_up(inv),
    }
}

/// Makes an event that is enabled.
pub fn make(alloc: Global, o: &Opening, now: &mut WorldState, event: Event) -> Result<(), NoMemory>
    requires holds { Holds o.now now.old }
    requires on { IsTrue (enabled (codes_of o.now) (world_of o.now now.old) event) }
    ensures ok { OnOk result (world_of o.now now.new ≡ effect flags (codes_of o.now) (world_of o.now now.old) event) }
    ensures err { OnErr result (world_of o.now now.new ≡ world_of o.now now.old) }
    ensures kept { Keeps o.now now.new }
    ensures memory { OnErr result (IsTrue (takes_memory (codes_of o.now) (world_of o.now now.old) event)) }
{
    match event {
        Event::Deliver(inv) => deliver(o, now, inv),
        Event::Crash(attempt) => {
            crash(o, now, attempt);
            Ok(())
        }
        Event::Step(attempt) => step(alloc, o, now, attempt),
        Event::Answer(attempt) => answer(alloc, o, now, attempt),
        Event::GiveUp(inv) => {
            give_up(o, now, inv);
            Ok(())
        }
    }
}
