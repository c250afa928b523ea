//! The worker's loop.
ghost use Rattle.std.specs.Prelude.{◌≡◌, IfErr, IfOk};
ghost use mathlib.Core.List.{IsPrefix};
ghost use Rattle.seat_lock.specs.Locks.{IsOf};
ghost use Rattle.worker_gate.specs.Picks.{OnIdle, OnSpent, IsDone};
ghost use Rattle.worker_gate.specs.Turns.{StepOf, Leaves, RunOf, last_of};

use crate::crew::{Crew, Shift};
use crate::engine::Engine;
use crate::gate::Gate;
use crate::jobs::{Asks, Hands};
use crate::pick::Pick;
use fn_table::{Answered, FnKind, Functions};
use seat_lock::{Seat, SeatLock};
use std::sync::Wait;
use unum_json::{Json, NoMemory};

/// Why a worker stopped.
#[derive(Clone, Copy, PartialEq, Eq, Debug, Drop)]
pub enum WorkEnd {
    /// There was nothing to do.
    Idle,
    /// The log had no room.
    Spent,
    /// Memory ran out, under the lock or in a function.
    NoMemory,
}

/// A worker's seat, when the worker has stopped, and why it did.
#[derive(Drop)]
pub struct Worked<E: Engine> {
    /// The seat.
    pub seat: Seat<E>,
    /// Why the worker stopped.
    pub ended: WorkEnd,
}

/// What the workers of a crew work with.
#[derive(Drop)]
struct Bench<'a, E: Engine, F, G> {
    crew: &'a Crew,
    lock: &'a SeatLock<E>,
    f: &'a F,
    g: &'a G,
}

/// Calls a function, of which the gate is told.
fn call<F: Functions, G: Gate>(
    f: &F,
    g: &G,
    kind: &FnKind,
    input: &Json,
    ticket: u32,
) -> Result<Answered, NoMemory>
    ensures { IfOk result (λ a. a ≡ record { kind = kind.now; input = input.now; ticket = ticket }) }
{
    g.before_call(ticket);
    let answered = f.answer(kind, input, ticket);
    g.after_call(ticket);
    answered
}

/// One turn, and where it asks for a function, the call and the turn in which the answer is handed in. Others may be at
/// the engine while the function is called.
fn step<'a, E: Engine, F: Functions, G: Gate, R: Wait>(
    rt: &R,
    bench: &Bench<'a, E, F, G>,
    seat: &mut Seat<E>,
    mine: Option<u32>,
    shift: Shift<'a>,
) -> (Pick, Shift<'a>)
    requires { IsOf bench.now.lock.now seat.old }
    ensures own { IsOf bench.now.lock.now seat.new × (seat.new.share ≡ seat.old.share) }
    ensures seen { IsPrefix seat.old.seen seat.new.seen }
    ensures done { IsDone result.0 }
    ensures idle { OnIdle result.0 (E.idle bench.now.lock.now.opening seat.new.seen) }
    ensures spent { OnSpent result.0 (E.full bench.now.lock.now.opening seat.new.seen) }
    ensures turns { StepOf (E.picked bench.now.lock.now.opening) (E.handed bench.now.lock.now.opening) mine seat.old.seen result.0 seat.new.seen }
{
    match bench.lock.turn(rt, seat, Asks { mine }) {
        Pick::Call {
            kind,
            input,
            ticket,
        } => {
            let away = bench.crew.leave(shift);
            let answered = call(bench.f, bench.g, &kind, &input, ticket);
            drop(input);
            drop(kind);
            let shift = bench.crew.come_back(rt, away);
            match answered {
                Ok(done) => {
                    let pick = bench.lock.turn(rt, seat, Hands { done: &done });
                    drop(done);
                    (pick, shift)
                }
                Err(NoMemory) => (Pick::NoMemory, shift),
            }
        }
        pick => (pick, shift),
    }
}

/// What follows a step: the attempt and the shift with which the worker goes on, or why it stops.
fn follow<'a, R: Wait>(
    rt: &R,
    crew: &'a Crew,
    pick: Pick,
    shift: Shift<'a>,
) -> Result<(Option<u32>, Shift<'a>), WorkEnd>
    requires { IsDone pick }
    ensures ok { IfOk result (λ next. Leaves pick next.0) }
    ensures err { IfErr result (λ ended. pick ≡ last_of ended) }
{
    match pick {
        Pick::Mine(attempt) => Ok((Some(attempt), crew.go_on(rt, shift))),
        Pick::Free => Ok((None, crew.go_on_free(rt, shift))),
        Pick::Idle => {
            let Some(next) = crew.rest(rt, shift) else {
                return Err(WorkEnd::Idle);
            };
            Ok((None, next))
        }
        Pick::Spent => {
            crew.end(shift);
            Err(WorkEnd::Spent)
        }
        Pick::NoMemory => {
            crew.end(shift);
            Err(WorkEnd::NoMemory)
        }
        Pick::Call { .. } => unreachable!(),
    }
}

/// The work of one of a crew: see [`work`].
pub(crate) fn work_in<E: Engine, F: Functions, G: Gate, R: Wait>(
    rt: &R,
    crew: &Crew,
    lock: &SeatLock<E>,
    mut seat: Seat<E>,
    f: &F,
    g: &G,
) -> Worked<E>
    requires { IsOf lock.now seat }
    ensures own { IsOf lock.now result.seat × (result.seat.share ≡ seat.share) }
    ensures seen { IsPrefix seat.seen result.seat.seen }
    ensures idle { result.ended ≡ WorkEnd.Idle → E.idle lock.now.opening result.seat.seen }
    ensures spent { result.ended ≡ WorkEnd.Spent → E.full lock.now.opening result.seat.seen }
    ensures turns { RunOf (E.picked lock.now.opening) (E.handed lock.now.opening) seat.seen result.ended result.seat.seen }
{
    let bench = Bench { crew, lock, f, g };
    let mut mine = None;
    let mut shift = crew.begin(rt);
    for _ in rt.forever() {
        let (pick, after) = step(rt, &bench, &mut seat, mine, shift);
        match follow(rt, crew, pick, after) {
            Ok((left, next)) => {
                mine = left;
                shift = next;
            }
            Err(ended) => return Worked { seat, ended },
        }
    }
    unreachable!()
}

/// Takes turns with the seat until there is nothing to do, the log has no room, or memory ran out. Between two turns it
/// calls the functions that it is asked to call; the gate is told of each call.
///
/// It may wait, and promises no return. `Idle` and `Spent` are facts of the log that the returned seat has seen.
/// `NoMemory` is the answer where a turn or a function found no memory.
pub fn work<E: Engine, F: Functions, G: Gate, R: Wait>(
    rt: &R,
    lock: &SeatLock<E>,
    seat: Seat<E>,
    f: &F,
    g: &G,
) -> Worked<E>
    requires { IsOf lock.now seat }
    ensures own { IsOf lock.now result.seat × (result.seat.share ≡ seat.share) }
    ensures seen { IsPrefix seat.seen result.seat.seen }
    ensures idle { result.ended ≡ WorkEnd.Idle → E.idle lock.now.opening result.seat.seen }
    ensures spent { result.ended ≡ WorkEnd.Spent → E.full lock.now.opening result.seat.seen }
    ensures turns { RunOf (E.picked lock.now.opening) (E.handed lock.now.opening) seat.seen result.ended result.seat.seen }
{
    work_in(rt, &Crew::new(), lock, seat, f, g)
}
