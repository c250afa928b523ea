//! How sessions stand, and the totals.
ghost use Rattle.std.specs.Prelude.{◌≡◌, ◌≤◌, ◌<◌, ◌+◌, ◌||◌, not, nat_eq, length};
ghost use Rattle.std.specs.Option.{option_copied};
ghost use Rattle.place_name.specs.declared.limits.TheConstants.{SESSIONS};
ghost use Rattle.place_name.specs.declared.obj.Obj.TheVariants as object;
ghost use Rattle.world_model.specs.AnyCode.Names.{root};
ghost use Rattle.world_plans.specs.Sessions.{SessionStatus, standing, all_over, is_over, outcome_in};
ghost use Rattle.world_plans.specs.Sessions.{counts_with, count_from, no_counts, crashes_in, totals_of};
ghost use Rattle.checkpoint_store.specs.Entries.{objects_of};
ghost use Rattle.unum_world.specs.Openings.{opening_as};
ghost use Rattle.unum_world.specs.Traces.{world_of};
ghost use Rattle.unum_world.specs.declared.opening.Opening.{Opening};
ghost use Rattle.unum_world.specs.Answers.{IsOne};

use crate::opening::Opening;
use crate::session::SessionState;
use crate::world_state::WorldState;
use checkpoint_store::{Slot, Store};
use invoke_queue::Queue;
use place_name::{Obj, SESSIONS, Scope, Trail};
use unum_json::Outcome;
use world_plans::{Counts, Totals};
use world_types::{Event, Held, InvState, Invocation};

/// An invocation is acknowledged or given up, and none of its attempts lives.
fn is_over(s: &InvState) -> bool
    ensures { result ≡ is_over s.now }
{
    (s.acked || s.dead) && s.live == 0
}

/// An invocation is of another session, or it is over.
fn is_settled(i: &Invocation<u32>, s: &InvState, session: u32) -> bool
    ensures { result ≡ not (nat_eq i.now.name.place.session session) || is_over s.now }
{
    i.name.place.session != session || is_over(s)
}

/// Each invocation of the session is over.
#[tactic(auto, unfolding(world_plans::specs::Sessions::all_over))]
fn all_over(queue: &Queue, session: u32) -> bool
    requires { length queue.now.invs ≤ 4294967295 }
    ensures { result ≡ all_over session queue.now.invs queue.now.states }
{
    for k in 0..queue.invocations() {
        let Some(i) = queue.invocation(k as u32) else {
            unreachable!();
        };
        let Some(s) = queue.state(k as u32) else {
            return true;
        };
        if !is_settled(i, &s, session) {
            return false;
        }
    }
    true
}

/// The outcome of a session, where it has ended.
fn outcome_of(store: &Store, session: u32) -> Option<&Outcome>
    requires { session < SESSIONS }
    ensures { option_copied result ≡ outcome_in (objects_of store.now (object.Out (root session))) }
{
    let scope = Scope {
        session,
        trail: Trail::new(),
    };
    match store.look(&Obj::Out(scope)) {
        Some(Slot::Live(Held::Outcome(outcome))) => Some(outcome),
        _ => None,
    }
}

/// How a session stands.
#[tactic(auto, unfolding(world_plans::specs::Sessions::standing))]
pub fn standing<'a>(now: &'a WorldState, session: u32) -> SessionState<'a>
    requires there { session < SESSIONS }
    requires few { length now.now.hub.queue.invs ≤ 4294967295 }
    ensures { (o : Opening) → IsOne result (standing (world_of o now.now) session) }
{
    match outcome_of(&now.hub.store, session) {
        Some(outcome) => SessionState::Ended(outcome),
        None => {
            if all_over(&now.hub.queue, session) {
                SessionState::Abandoned
            } else {
                SessionState::Open
            }
        }
    }
}

/// Counts one session more.
fn count_one(counts: &mut Counts, state: SessionState<'_>)
    requires { counts.old.ended + counts.old.abandoned + counts.old.still_open < 1000 }
    ensures count { (s : SessionStatus) → IsOne state.entry s → counts.new ≡ counts_with s counts.old }
    ensures sum { counts.new.ended + counts.new.abandoned + counts.new.still_open ≡ counts.old.ended + counts.old.abandoned + counts.old.still_open + 1 }
{
    match state {
        SessionState::Ended(_) => counts.ended += 1,
        SessionState::Abandoned => counts.abandoned += 1,
        SessionState::Open => counts.still_open += 1,
    }
}

/// How many sessions stand in each way.
#[tactic(auto, unfolding(world_plans::specs::Sessions::count_from))]
fn count(o: &Opening, now: &WorldState) -> Counts
    requires sessions { length o.now.sessions ≤ SESSIONS }
    requires few { length now.now.hub.queue.invs ≤ 4294967295 }
    ensures { result ≡ count_from (world_of o.now now.now) 0 (opening_as o.now).sessions no_counts }
{
    let mut counts = Counts {
        ended: 0,
        abandoned: 0,
        still_open: 0,
    };
    for s in 0..o.sessions.len() {
        count_one(&mut counts, standing(now, s as u32));
    }
    counts
}

/// How many of the events are crashes.
#[tactic(auto, unfolding(world_plans::specs::Sessions::crashes_in))]
fn crashes(history: &[Event]) -> u64
    requires { length history.now ≤ 10000000 }
    ensures { result ≡ crashes_in history.now }
{
    let mut count = 0;
    for e in history {
        if matches!(e, Event::Crash(_)) {
            count += 1;
        }
    }
    count
}

/// What a world with that history counts.
pub fn totals(o: &Opening, now: &WorldState, history: &[Event]) -> Totals
    requires sessions { length o.now.sessions ≤ SESSIONS }
    requires few { length now.now.hub.queue.invs ≤ 4294967295 }
    requires history { length history.now ≤ 10000000 }
    ensures { result ≡ totals_of (world_of o.now now.now) history.now }
{
    let counts = count(o, now);
    Totals {
        sessions: o.sessions.len() as u64,
        ended: counts.ended,
        abandoned: counts.abandoned,
        still_open: counts.still_open,
        entries: now.journal.len() as u64,
        events: history.len() as u64,
        invocations: now.hub.queue.invocations() as u64,
        attempts: now.hub.queue.attempts() as u64,
        crashes: crashes(history),
        marks: now.marks,
    }
}
