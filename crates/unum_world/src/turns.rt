//! A worker's turn: the event that is due in it, and that it is made.
ghost use Rattle.std.specs.Prelude.{◌≡◌, ◌↔◌, length, None, IfOk, IsTrue};
ghost use Rattle.std.specs.Option.{option_map};
ghost use Rattle.asl_model.specs.Laws.{In};
ghost use Rattle.world_types.specs.declared.queue.Event.TheVariants.{Answer};
ghost use Rattle.world_plans.specs.Chooser.{allowed_events};
ghost use Rattle.unum_world.specs.Openings.{codes_of};
ghost use Rattle.unum_world.specs.Traces.{Trace, world_of, now, after_event, is_enabled, IsObeying};
ghost use Rattle.unum_world.specs.Calls.{awaited_call};
ghost use Rattle.unum_world.specs.Kept.{Holds};
ghost use Rattle.unum_world.specs.Turns.{due_in, due_event, own_attempt, allowed, asked_by, told_after, Makes, AsksOrMakes, Picks, Hands};

use crate::calls::{FunctionCall, awaited};
use crate::chooser::{move_of, rest_of};
use crate::opening::Opening;
use crate::refusal::ApplyError;
use crate::world::World;
use crate::world_state::WorldState;
use fn_table::Answered;
use unum_json::NoMemory;
use worker_gate::Pick;
use world_types::Event;

/// The first delivery or giving up that the plan allows: of a twin, and else of an open invocation.
fn first_of_none(o: &Opening, now: &WorldState) -> Option<Event>
    requires { Holds o.now now.now }
    ensures { result ≡ due_in o.now.plan (codes_of o.now) (world_of o.now now.now) None }
{
    if let Some(inv) = now.twins.at(0) {
        return Some(Event::Deliver(inv));
    }
    match now.hub.queue.open_at(0) {
        Some(inv) => Some(rest_of(o, now, inv)),
        None => None,
    }
}

/// The event that is due in the turn of a worker with this attempt, or with none.
fn due_event(o: &Opening, now: &WorldState, mine: Option<u32>) -> Option<Event>
    requires { Holds o.now now.now }
    ensures { result ≡ due_in o.now.plan (codes_of o.now) (world_of o.now now.now) mine }
{
    let Some(attempt) = mine else {
        return first_of_none(o, now);
    };
    if now.hub.queue.lives(attempt) {
        Some(move_of(o, now, attempt))
    } else {
        first_of_none(o, now)
    }
}

/// Whether the plan allows the Answer of that attempt.
fn allows_answer(o: &Opening, now: &WorldState, attempt: u32) -> bool
    requires { Holds o.now now.now }
    ensures { IsTrue result ↔ In (Answer attempt) (allowed_events o.now.plan (codes_of o.now) (world_of o.now now.now)) }
{
    if !now.hub.queue.lives(attempt) {
        return false;
    }
    match move_of(o, now, attempt) {
        Event::Answer(_) => true,
        _ => false,
    }
}

impl World {
    /// The event that is due in the turn of a worker with this attempt, or with none: the first that the plan allows of those
    /// that the worker may make. It takes no memory, and its time does not grow with the world.
    fn due(&self, mine: Option<u32>) -> Option<Event>
        ensures event { result ≡ due_event self.now mine }
        ensures none { result ≡ None → own_attempt (now self.now) mine ≡ None }
    {
        due_event(&self.opening, &self.state, mine)
    }

    /// Whether the plan allows the Answer of that attempt.
    fn allows(&self, attempt: u32) -> bool
        ensures { IsTrue result ↔ In (Answer attempt) (allowed self.now) }
    {
        allows_answer(&self.opening, &self.state, attempt)
    }

    /// The call that an attempt waits for, or `None` exactly where the table has no such function.
    fn awaited(&self, attempt: u32) -> Result<Option<FunctionCall>, NoMemory>
        requires { IsTrue (is_enabled self.now (Answer attempt)) }
        ensures { IfOk result (λ c. option_map (asked_by attempt) c ≡ awaited_call (codes_of self.now.opening) (now self.now) attempt) }
    {
        awaited(self.alloc, &self.opening, &self.state, attempt)
    }

    /// How many attempts there are.
    fn attempts(&self) -> u32
        ensures { result ≡ length (now self.now).atts }
    {
        self.state.hub.queue.attempts() as u32
    }
}

/// What a worker is told of an event that was made, before which there were so many attempts.
fn told(world: &World, attempts: u32, event: Event) -> Pick
    ensures { (p : Trace) → world.now ≡ after_event p event → attempts ≡ length (now p).atts → result ≡ told_after p event }
{
    match event {
        Event::Deliver(_) => Pick::Mine(attempts),
        Event::Step(attempt) => {
            if world.hub().queue.lives(attempt) {
                Pick::Mine(attempt)
            } else {
                Pick::Free
            }
        }
        Event::Answer(attempt) => Pick::Mine(attempt),
        Event::Crash(_) | Event::GiveUp(_) => Pick::Free,
    }
}

/// Makes an event that the plan allows. `Spent` comes exactly where the history is full.
fn make(world: &mut World, event: Event) -> Pick
    requires obeying { IsObeying world.old }
    requires allowed { In event (allowed world.old) }
    ensures obeying { IsObeying world.new }
    ensures makes { Makes world.old event result world.new }
{
    world.is_sound();
    let attempts = world.attempts();
    match world.apply(event) {
        Ok(()) => told(world, attempts, event),
        Err(ApplyError::Spent { len: _ }) => Pick::Spent,
        Err(ApplyError::NoMemory) => Pick::NoMemory,
        Err(ApplyError::NotEnabled { event: _ }) => unreachable!(),
    }
}

/// Asks for the function that an attempt calls, whose Answer the plan allows. Where the table has no such function the Answer
/// is made.
fn ask(world: &mut World, attempt: u32) -> Pick
    requires obeying { IsObeying world.old }
    requires allowed { In (Answer attempt) (allowed world.old) }
    ensures obeying { IsObeying world.new }
    ensures asks { AsksOrMakes world.old attempt (awaited_call (codes_of world.old.opening) (now world.old) attempt) result world.new }
{
    match world.awaited(attempt) {
        Ok(Some(call)) => Pick::Call {
            kind: call.kind,
            input: call.input,
            ticket: attempt,
        },
        Ok(None) => make(world, Event::Answer(attempt)),
        Err(NoMemory) => Pick::NoMemory,
    }
}

/// Makes the event that is due in the turn of a worker with this attempt, or with none. Where that is an Answer, no event is
/// made, and the worker is asked to call the function. `Idle` comes exactly where no event is due, and `Spent` exactly where
/// one was to be made and the history is full. After `NoMemory` nothing has changed.
pub fn pick(world: &mut World, mine: Option<u32>) -> Pick
    requires { IsObeying world.old }
    ensures obeying { IsObeying world.new }
    ensures picks { Picks world.old mine result world.new }
{
    match world.due(mine) {
        None => Pick::Idle,
        Some(Event::Answer(attempt)) => ask(world, attempt),
        Some(event) => make(world, event),
    }
}

/// Makes the Answer of a call, and answers `Mine` of its attempt. `Free` comes exactly where the attempt does not wait for that
/// call or the plan does not allow the Answer, and `Spent` exactly where else the history is full. After any of these and after
/// `NoMemory` nothing has changed.
pub fn hand(world: &mut World, done: &Answered) -> Pick
    requires { IsObeying world.old }
    ensures obeying { IsObeying world.new }
    ensures hands { Hands world.old done.now result world.new }
{
    let ticket = done.ticket();
    world.is_sound();
    if !world.allows(ticket) {
        return Pick::Free;
    }
    match world.answer(done) {
        Ok(()) => Pick::Mine(ticket),
        Err(ApplyError::NotEnabled { event: _ }) => Pick::Free,
        Err(ApplyError::Spent { len: _ }) => Pick::Spent,
        Err(ApplyError::NoMemory) => Pick::NoMemory,
    }
}
