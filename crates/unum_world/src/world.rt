//! Worlds.
ghost use Rattle.std.specs.Prelude.{◌≡◌, ℕ, ◌↔◌, ◌≤◌, ◌<◌, None, Some, Ok, Err, [], length, slice_get, IfOk, OnOk, OnErr, IsTrue, IsFalse};
ghost use Rattle.std.specs.Option.{option_copied};
ghost use Rattle.world_types.specs.declared.queue.Event.TheVariants.{Answer};
ghost use Rattle.place_name.specs.declared.limits.TheConstants.{SESSIONS};
ghost use Rattle.world_plans.specs.Sessions.{session_of, totals_of};
ghost use Rattle.checkpoint_store.specs.Entries.{objects_of};
ghost use Rattle.unum_world.specs.Openings.{codes_of, Fits};
ghost use Rattle.unum_world.specs.Traces.{Trace, now, after_event, opening_trace, is_enabled, chosen_event, IsDrained, IsSpent, IsRun, Why};
ghost use Rattle.unum_world.specs.OneStep.{takes_memory};
ghost use Rattle.invoke_queue.specs.Queue.{queue_of};
ghost use Rattle.unum_world.specs.Answers.{IsStanding, IsAwaited, WhyAnswer};
ghost use Rattle.unum_world.specs.Sound.{IsSound};

use crate::calls::is_awaited;
use crate::chooser::choose_event;
use crate::events::{make, may};
use crate::first_state::first_state;
use crate::flat::machines_are_valid;
use crate::opening::Opening;
use crate::refusal::ApplyError;
use crate::session::SessionState;
use crate::status::{standing, totals};
use crate::world_state::WorldState;
use fn_table::Answered;
use std::alloc::Global;
use std::marker::Model;
use unum_hub::Hub;
use unum_json::NoMemory;
use world_plans::Totals;
use world_types::{Entry, Event};

/// A world. Callers see its opening, its limit and its history, and all that it is now is what the run of these makes.
#[derive(Drop)]
pub struct World {
    pub(crate) alloc: Global,
    pub(crate) opening: Opening,
    limit: u64,
    pub(crate) state: WorldState,
    history: Vec<Event>,
}

impl Model for World {
    ghost use Rattle.unum_world.specs.Traces.{Trace};
    ghost use Rattle.unum_world.specs.Kept.{Stands};
    ghost use Rattle.unum_json.specs.contracts.kept.Json as json;
    ghost use Rattle.asl_model.specs.contracts.machine.Machine as machine;
    ghost use Rattle.std.specs.Coded.{codes};
    ghost use Rattle.std.specs.Vec.{vec_capacity};

    ghost Value = { Trace };

    ghost coded = { Prim.hlevel (codes, json.the_row.coded, machine.the_row.coded) };

    ghost view = { λ w. record { opening = w.opening; limit = w.limit; history = w.history.items } };

    ghost invariant = { λ w. Stands w.opening w.limit w.history.items (vec_capacity w.history) w.state };
}

impl World {
    /// A world that begins so, with room for `limit` events. The limit is at most 10,000,000, there are at most 1,000
    /// sessions, each session's machine is there, each of its Tasks has a function in the table, and the plan's lists rise.
    pub fn open(alloc: Global, opening: Opening, limit: u64) -> Result<World, NoMemory>
        requires fits { Fits opening }
        requires limit { limit ≤ 10000000 }
        ensures begins { IfOk result (λ w. w ≡ opening_trace opening limit) }
        ensures sound { IfOk result (λ w. IsSound w) }
    {
        machines_are_valid(&opening.machines);
        let Ok(state) = first_state(alloc, &opening) else {
            drop(opening);
            return Err(NoMemory);
        };
        let Ok(history) = Vec::with_capacity(alloc, limit as usize) else {
            drop(state);
            drop(opening);
            return Err(NoMemory);
        };
        let world = World {
            alloc,
            opening,
            limit,
            state,
            history,
        };
        world.is_sound();
        Ok(world)
    }

    /// How many events the history has.
    pub fn length(&self) -> u64
        ensures { result ≡ length self.now.history }
    {
        self.history.len() as u64
    }

    /// The event with that number; `None` exactly past the end.
    pub fn event(&self, i: u64) -> Option<Event>
        ensures { result ≡ slice_get self.now.history i }
    {
        self.history.get(i as usize).copied()
    }

    /// How many checkpoints won.
    pub fn entries(&self) -> u64
        ensures { result ≡ length (now self.now).journal }
    {
        self.state.journal.len() as u64
    }

    /// The checkpoint that won with that number, in the order of winning; `None` exactly past the end.
    pub fn entry(&self, i: u64) -> Option<&Entry>
        ensures { option_copied result ≡ slice_get (now self.now).journal i }
    {
        self.state.journal.get(i as usize)
    }

    /// How a session stands; `None` exactly where there is no such session.
    pub fn session(&self, s: u32) -> Option<SessionState<'_>>
        ensures { IsStanding result (session_of (now self.now) s) }
    {
        match self.opening.sessions.get(s as usize) {
            Some(_) => Some(standing(&self.state, s)),
            None => None,
        }
    }

    /// What the world counts.
    pub fn totals(&self) -> Totals
        ensures { result ≡ totals_of (now self.now) self.now.history }
    {
        totals(&self.opening, &self.state, self.history.as_slice())
    }

    /// The objects and the queue, as they are now.
    pub fn hub(&self) -> &Hub
        ensures objects { objects_of result.now.store ≡ (now self.now).objects }
        ensures queue { result.now.queue ≡ queue_of (now self.now) }
    {
        &self.state.hub
    }

    /// How the world began.
    pub fn opening(&self) -> &Opening
        ensures opening { result.now ≡ self.now.opening }
        ensures few { length self.now.opening.sessions ≤ SESSIONS }
    {
        &self.opening
    }

    /// Whether the event is enabled now.
    pub fn enabled(&self, event: Event) -> bool
        ensures { result ≡ is_enabled self.now event }
    {
        may(&self.state, event)
    }

    /// What holds of every world: each checkpoint belongs to one central run of its session, in which each visit of a task
    /// answers at most once, with the checkpoint that won; each ended session has that run's outcome; nothing is collected
    /// that is still to be read; fans keep to their limits; a session whose invocations are all acknowledged has ended; a
    /// world in which no event is enabled is at rest; and the queue counts tries, live attempts and steps. Where the plan
    /// has no mishaps and allowed each event, there are at most as many events and marks as the visits of the central runs cost,
    /// and exactly as many where no event is enabled.
    pub fn is_sound(&self)
        ensures { IsSound self.now }
    {
        let _ = &self.limit;
    }

    /// Makes the event. `NotEnabled` comes exactly where it is not enabled, and `Spent` exactly where it is and the
    /// history is full. `NoMemory` comes last, and never for Crash, GiveUp or a Step that is a Mark or an Ack. After any
    /// refusal the world is as it was.
    pub fn apply(&mut self, event: Event) -> Result<(), ApplyError>
        ensures ok { OnOk result (self.new ≡ after_event self.old event) }
        ensures room { OnOk result (length self.old.history < self.old.limit) }
        ensures err { OnErr result (self.new ≡ self.old) }
        ensures refused { (result ≡ Err (ApplyError.NotEnabled event)) ↔ IsFalse (is_enabled self.old event) }
        ensures spent { (result ≡ Err (ApplyError.Spent (length self.old.history))) ↔ IsSpent self.old event }
        ensures why { Why self.old event result }
        ensures memory { (result ≡ Err ApplyError.NoMemory) → IsTrue (takes_memory (codes_of self.old.opening) (now self.old) event) }
        ensures sound { IsSound self.new }
    {
        let answer = self.try_event(event);
        self.is_sound();
        answer
    }

    /// Makes the answer of a function, for the attempt that called it: what `apply` does with Answer of its ticket.
    /// `NotEnabled` comes also exactly where the attempt waits for another function or another input. To find the input that
    /// it waits for may take memory.
    pub fn answer(&mut self, done: &Answered) -> Result<(), ApplyError>
        ensures ok { OnOk result (self.new ≡ after_event self.old (Answer done.now.ticket)) }
        ensures err { OnErr result (self.new ≡ self.old) }
        ensures why { WhyAnswer self.old done.now result }
        ensures sound { IsSound self.new }
    {
        let event = Event::Answer(done.ticket());
        match self.is_due(done) {
            Ok(true) => self.apply(event),
            Ok(false) => {
                self.is_sound();
                Err(ApplyError::NotEnabled { event })
            }
            Err(NoMemory) => {
                self.is_sound();
                Err(ApplyError::NoMemory)
            }
        }
    }

    /// Whether an attempt lives that waits for the call.
    fn is_due(&self, done: &Answered) -> Result<bool, NoMemory>
        ensures { IfOk result (λ b. IsTrue b ↔ IsAwaited self.now done.now) }
    {
        if !self.enabled(Event::Answer(done.ticket())) {
            return Ok(false);
        }
        is_awaited(self.alloc, &self.opening, &self.state, done)
    }

    /// What `apply` does.
    fn try_event(&mut self, event: Event) -> Result<(), ApplyError>
        ensures ok { OnOk result (self.new ≡ after_event self.old event) }
        ensures room { OnOk result (length self.old.history < self.old.limit) }
        ensures err { OnErr result (self.new ≡ self.old) }
        ensures refused { (result ≡ Err (ApplyError.NotEnabled event)) ↔ IsFalse (is_enabled self.old event) }
        ensures spent { (result ≡ Err (ApplyError.Spent (length self.old.history))) ↔ IsSpent self.old event }
        ensures why { Why self.old event result }
        ensures memory { (result ≡ Err ApplyError.NoMemory) → IsTrue (takes_memory (codes_of self.old.opening) (now self.old) event) }
    {
        if !self.enabled(event) {
            return Err(ApplyError::NotEnabled { event });
        }
        let len = self.history.len() as u64;
        if len >= self.limit {
            return Err(ApplyError::Spent { len });
        }
        if make(self.alloc, &self.opening, &mut self.state, event).is_err() {
            return Err(ApplyError::NoMemory);
        }
        if self.history.push(event).is_err() {
            unreachable!();
        }
        Ok(())
    }

    /// The event that the chooser takes next: of those that the plan allows, the one that it picks. `None` comes exactly
    /// where no event is enabled. It takes no memory, and its time does not grow with the world.
    pub fn choose(&self) -> Option<Event>
        ensures event { result ≡ chosen_event self.now }
        ensures drained { result ≡ None → IsDrained self.now }
        ensures happened { IsRun self.now }
    {
        choose_event(&self.opening, &self.state, self.history.len() as u64)
    }
}
