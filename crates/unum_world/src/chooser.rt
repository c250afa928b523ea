//! The chooser, by three lists: which invocations are to have a twin, which attempts live, and which invocations are open.
ghost use Rattle.std.specs.Prelude.{◌≡◌};
ghost use Rattle.world_plans.specs.Chooser.{chosen_event as taken_event};
ghost use Rattle.world_plans.specs.Three.{move, rest, event_at};
ghost use Rattle.unum_world.specs.Openings.{codes_of};
ghost use Rattle.unum_world.specs.Traces.{world_of};
ghost use Rattle.unum_world.specs.Kept.{Holds};

use crate::events::may_step;
use crate::opening::Opening;
use crate::world_state::WorldState;
use invoke_queue::{is_crash_due, pick};
use world_types::Event;

/// The event of a live attempt: its crash where the plan says so, and else its step or its answer.
pub fn move_of(o: &Opening, now: &WorldState, attempt: u32) -> Event
    requires { Holds o.now now.now }
    ensures { result ≡ move o.now.plan (codes_of o.now) (world_of o.now now.now) attempt }
{
    let Some(t) = now.hub.queue.attempt(attempt) else {
        return Event::Step(attempt);
    };
    if is_crash_due(&o.plan, attempt, t.steps) {
        Event::Crash(attempt)
    } else if may_step(now, attempt) {
        Event::Step(attempt)
    } else {
        Event::Answer(attempt)
    }
}

/// The event of an open invocation: its delivery, and after 8 tries that it is given up.
pub fn rest_of(o: &Opening, now: &WorldState, inv: u32) -> Event
    ensures { result ≡ rest o.now.plan (codes_of o.now) (world_of o.now now.now) inv }
{
    match now.hub.queue.state(inv) {
        Some(s) => {
            if s.tries < 8 {
                Event::Deliver(inv)
            } else {
                Event::GiveUp(inv)
            }
        }
        None => Event::GiveUp(inv),
    }
}

/// The allowed event with that number.
fn event_at(o: &Opening, now: &WorldState, at: usize) -> Option<Event>
    requires { Holds o.now now.now }
    ensures { result ≡ event_at o.now.plan (codes_of o.now) (world_of o.now now.now) at }
{
    let twins = now.twins.len();
    if at < twins {
        return match now.twins.at(at) {
            Some(inv) => Some(Event::Deliver(inv)),
            None => None,
        };
    }
    let live = now.hub.queue.live_len();
    if at - twins < live {
        return match now.hub.queue.live_at(at - twins) {
            Some(attempt) => Some(move_of(o, now, attempt)),
            None => None,
        };
    }
    match now.hub.queue.open_at(at - twins - live) {
        Some(inv) => Some(rest_of(o, now, inv)),
        None => None,
    }
}

/// The event that the chooser takes after so many others: of those that the plan allows, the one that it picks. `None` comes
/// exactly where none is allowed. It takes no memory, and its time does not grow with the world.
pub fn choose_event(o: &Opening, now: &WorldState, len: u64) -> Option<Event>
    requires { Holds o.now now.now }
    ensures { result ≡ taken_event o.now.plan (codes_of o.now) (world_of o.now now.now) len }
{
    let queue = &now.hub.queue;
    let count = now.twins.len() + queue.live_len() + queue.open_len();
    if count == 0 {
        return None;
    }
    let at = pick(&o.plan, len, count as u64);
    event_at(o, now, at as usize)
}
