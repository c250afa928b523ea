//! All workers of a lock.
ghost use Rattle.std.specs.Prelude.{◌≡◌, ◌⊎◌, Bool, true, false};
ghost use mathlib.Core.List.{IsPrefix};
ghost use Rattle.std.specs.Thread.{IsSync};
ghost use Rattle.seat_lock.specs.Locks.{IsOf};
ghost use Rattle.worker_gate.specs.Ends.{Tells, one_of};

use crate::crew::Crew;
use crate::engine::Engine;
use crate::gate::Gate;
use crate::worker::{WorkEnd, Worked, work_in};
use fn_table::Functions;
use seat_lock::{Seat, SeatLock};
use std::sync::Wait;
use std::thread::{Threads, join};

/// One worker for each share of the seat, each in a thread of its own. The seat comes back with every share and with the
/// longest log that one of them has seen. It ended with `NoMemory` where one of the workers did, and else as the one with
/// that log: `Idle` and `Spent` are facts of it.
///
/// A worker with nothing to do waits while another one is at work, and ends when none is.
pub fn work_all<E: Engine + Send, F: Functions + Sync, G: Gate + Sync, R: Threads + Wait + Sync>(
    rt: &R,
    lock: &SeatLock<E>,
    seat: Seat<E>,
    f: &F,
    g: &G,
) -> Worked<E>
    requires { IsOf lock.now seat }
    ensures own { IsOf lock.now result.seat × (result.seat.share ≡ seat.share) }
    ensures seen { IsPrefix seat.seen result.seat.seen }
    ensures idle { result.ended ≡ WorkEnd.Idle → E.idle lock.now.opening result.seat.seen }
    ensures spent { result.ended ≡ WorkEnd.Spent → E.full lock.now.opening result.seat.seen }
{
    work_each(rt, &Crew::new(), lock, seat, f, g)
}

/// One worker of the crew for each share of the seat: see [`work_all`].
fn work_each<E: Engine + Send, F: Functions + Sync, G: Gate + Sync, R: Threads + Wait + Sync>(
    rt: &R,
    crew: &Crew,
    lock: &SeatLock<E>,
    mut seat: Seat<E>,
    f: &F,
    g: &G,
) -> Worked<E>
    requires { IsOf lock.now seat }
    ensures own { IsOf lock.now result.seat × (result.seat.share ≡ seat.share) }
    ensures seen { IsPrefix seat.seen result.seat.seen }
    ensures told { Tells (E.idle lock.now.opening) (E.full lock.now.opening) result.ended result.seat.seen }
{
    if seat.share() < 2 {
        return work_in(rt, crew, lock, seat, f, g);
    }
    let one = lock.split(&mut seat);
    let (mine, others) = join(
        rt,
        || -> Worked<E>
            requires { IsSync R.row × IsOf lock.now one }
            ensures { IsOf lock.entry.now result.seat × (result.seat.share ≡ one.share) × IsPrefix one.seen result.seat.seen × Tells (E.idle lock.entry.now.opening) (E.full lock.entry.now.opening) result.ended result.seat.seen }
        { work_in(rt, crew, lock, one, f, g) },
        || -> Worked<E>
            requires { IsSync R.row × IsOf lock.now seat }
            ensures { IsOf lock.entry.now result.seat × (result.seat.share ≡ seat.share) × IsPrefix seat.seen result.seat.seen × Tells (E.idle lock.entry.now.opening) (E.full lock.entry.now.opening) result.ended result.seat.seen }
        { work_each(rt, crew, lock, seat, f, g) },
    );
    let Worked {
        mut seat,
        ended: first,
    } = mine;
    let Worked {
        seat: rest,
        ended: second,
    } = others;
    let first_saw_more = rest.seen() < seat.seen();
    lock.join(&mut seat, rest);
    let ended = end_of(first, second, first_saw_more);
    Worked { seat, ended }
}

/// How two workers ended: with no memory where one did, and else as the one that saw more.
fn end_of(first: WorkEnd, second: WorkEnd, first_saw_more: bool) -> WorkEnd
    ensures { (result ≡ WorkEnd.NoMemory) ⊎ (result ≡ one_of first second first_saw_more) }
{
    if first == WorkEnd::NoMemory || second == WorkEnd::NoMemory {
        return WorkEnd::NoMemory;
    }
    if first_saw_more { first } else { second }
}
