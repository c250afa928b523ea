//! Threads that append under the lock, and seats that are split and joined.
ghost use Rattle.std.specs.Prelude.{◌≡◌, ◌+◌, ◌≤◌, IfSome};
ghost use mathlib.Core.List.{IsPrefix};
ghost use Rattle.seat_lock.specs.Locks.{IsOf};

use super::*;
use std::alloc::Global;
use std::sync::Wait;
use std::test::*;
use std::thread::{Threads, join};

const ROUNDS: u64 = 250;

/// A row of numbers with a bound, which is its opening.
#[derive(Drop)]
struct Row {
    most: u64,
    items: Vec<u64>,
}

impl Logged for Row {
    type Opening = u64;

    ghost opening = { λ r. r.most };

    ghost log = { λ r. r.items.items };

    fn length(&self) -> u64 {
        self.items.len() as u64
    }
}

/// Adds a number where there is room, and answers whether it did.
#[derive(Drop)]
struct Append {
    number: u64,
}

impl Job<Row> for Append {
    ghost use Rattle.std.specs.Prelude.{◌≡◌, ◌∷◌, ◌++◌, [], MatchBool};

    type Answer = bool;

    ghost needs = { λ job o seen. Unit {0} };

    ghost told = { λ job o before answer after. MatchBool answer (after ≡ before ++ job.number ∷ []) (after ≡ before) };

    fn run(self, w: &mut Row) -> bool {
        w.items.push(self.number).is_ok()
    }
}

/// Reads the number at a place that was seen.
#[derive(Drop)]
struct Read {
    at: usize,
}

impl Job<Row> for Read {
    ghost use Rattle.std.specs.Prelude.{◌≡◌, ◌<◌, length, slice_index};

    type Answer = u64;

    ghost needs = { λ job o seen. job.at < length seen };

    ghost told = { λ job o before answer after. (after ≡ before) × (answer ≡ slice_index before job.at) };

    fn run(self, w: &mut Row) -> u64 {
        w.items[self.at]
    }
}

/// A number that was added is read at its place in each later log, whatever other threads did in between.
fn appends_and_reads<R: Wait>(
    rt: &R,
    lock: &SeatLock<Row>,
    seat: &mut Seat<Row>,
    number: u64,
) -> Option<u64>
    requires { IsOf lock.now seat.old }
    ensures own { IsOf lock.now seat.new × (seat.new.share ≡ seat.old.share) }
    ensures read { IfSome result (λ x. x ≡ number) }
    ensures seen { IsPrefix seat.old.seen seat.new.seen }
{
    if !lock.turn(rt, seat, Append { number }) {
        return None;
    }
    let at = seat.seen() as usize - 1;
    Some(lock.turn(rt, seat, Read { at }))
}

/// Takes its turns, and gives the seat back with whether each entry was found again.
fn appends<R: Wait>(
    rt: &R,
    lock: &SeatLock<Row>,
    mut seat: Seat<Row>,
    number: u64,
) -> (Seat<Row>, bool)
    requires { IsOf lock.now seat }
    ensures { IsOf lock.now result.0 × (result.0.share ≡ seat.share) }
{
    let mut found = true;
    for _ in 0..ROUNDS {
        let read = appends_and_reads(rt, lock, &mut seat, number);
        found = found && read == Some(number);
    }
    (seat, found)
}

/// Two threads take their turns, and their seats come back as one.
fn two_append<R: Threads + Wait + Sync>(
    rt: &R,
    lock: &SeatLock<Row>,
    one: Seat<Row>,
    other: Seat<Row>,
    number: u64,
) -> (Seat<Row>, bool)
    requires { IsOf lock.now one × IsOf lock.now other × (number ≤ 2) }
    ensures { IsOf lock.now result.0 × (result.0.share ≡ one.share + other.share) }
{
    let ((mut seat, found), (rest, more)) = join(
        rt,
        || -> (Seat<Row>, bool)
            requires { IsOf lock.now one }
            ensures { IsOf lock.entry.now result.0 × (result.0.share ≡ one.share) }
        { appends(rt, lock, one, number) },
        || -> (Seat<Row>, bool)
            requires { IsOf lock.now other × (number ≤ 2) }
            ensures { IsOf lock.entry.now result.0 × (result.0.share ≡ other.share) }
        { appends(rt, lock, other, number + 1) },
    );
    lock.join(&mut seat, rest);
    (seat, found && more)
}

/// Four threads take their turns by seats that are split off the one, which then has every share again.
fn four_append<R: Threads + Wait + Sync>(
    rt: &R,
    lock: &SeatLock<Row>,
    mut seat: Seat<Row>,
) -> (Seat<Row>, bool)
    requires { IsOf lock.now seat × (seat.share ≡ 4) }
    ensures { IsOf lock.now result.0 × (result.0.share ≡ 4) }
{
    let second = lock.split(&mut seat);
    let third = lock.split(&mut seat);
    let fourth = lock.split(&mut seat);
    let ((mut all, found), (rest, more)) = join(
        rt,
        || -> (Seat<Row>, bool)
            requires { IsOf lock.now seat × (seat.share ≡ 1) × IsOf lock.now second × (second.share ≡ 1) }
            ensures { IsOf lock.entry.now result.0 × (result.0.share ≡ 2) }
        { two_append(rt, lock, seat, second, 0) },
        || -> (Seat<Row>, bool)
            requires { IsOf lock.now third × (third.share ≡ 1) × IsOf lock.now fourth × (fourth.share ≡ 1) }
            ensures { IsOf lock.entry.now result.0 × (result.0.share ≡ 2) }
        { two_append(rt, lock, third, fourth, 2) },
    );
    lock.join(&mut all, rest);
    (all, found && more)
}

/// Splits the seat until each has one share, lets each take a turn, and joins them again.
fn each_appends<R: Wait>(rt: &R, lock: &SeatLock<Row>, seat: &mut Seat<Row>)
    requires { IsOf lock.now seat.old }
    ensures { IsOf lock.now seat.new × (seat.new.share ≡ seat.old.share) }
{
    let number = u64::from(seat.share());
    if number < 2 {
        lock.turn(rt, seat, Append { number });
        return;
    }
    let mut one = lock.split(seat);
    each_appends(rt, lock, seat);
    lock.turn(rt, &mut one, Append { number });
    lock.join(seat, one);
}

fn new_row(alloc: Global, most: u64, room: usize) -> Result<Row, Fail> {
    Ok(Row {
        most,
        items: Vec::with_capacity(alloc, room)?,
    })
}

#[test]
fn four_threads_append(rt: HostRuntime) -> Result<(), Fail> {
    let row = new_row(rt.alloc(), 7, 1001)?;
    let (lock, seat) = SeatLock::new(rt.alloc(), row, 4).ok().ok_or("memory")?;
    let (mut seat, found) = four_append(&rt, &lock, seat);
    assert_eq!(rt; (found, seat.share(), seat.seen()), (true, 4, 1000));
    assert_eq!(rt; appends_and_reads(&rt, &lock, &mut seat, 9), Some(9));
    let row = lock.close(seat);
    assert_eq!(rt; (row.most, row.items.len()), (7, 1001));
    for who in 0..4 {
        assert_eq!(rt; row.items.iter().filter(|x| **x == who).count(), 250);
    }
    Ok(())
}

#[test]
fn thirty_two_seats(rt: HostRuntime) -> Result<(), Fail> {
    let row = new_row(rt.alloc(), 5, 32)?;
    let (lock, mut seat) = SeatLock::new(rt.alloc(), row, 32).ok().ok_or("memory")?;
    each_appends(&rt, &lock, &mut seat);
    assert_eq!(rt; (seat.share(), seat.seen()), (32, 32));
    let row = lock.close(seat);
    assert_eq!(rt; (row.most, row.items.len()), (5, 32));
    for (i, number) in row.items.iter().enumerate() {
        assert_eq!(rt; *number, i as u64 + 1);
    }
    Ok(())
}
