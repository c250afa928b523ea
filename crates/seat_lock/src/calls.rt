//! What a lock and a seat do.
ghost use Rattle.std.specs.Prelude.{◌≡◌, ◌<◌, ◌≤◌, ◌^◌, ◌+◌, ◌-◌, ◌∷◌, ℕ, List, [], length, Some, IfOk};
ghost use mathlib.Core.List.{IsPrefix};
ghost use Rattle.seat_lock.specs.Logs.{longer, Follows};
ghost use Rattle.seat_lock.specs.Steps.{taken, seeing, HoldsTurn, Rests};
ghost use Rattle.seat_lock.specs.Locks.{IsOf};

use crate::board::{Board, Bound, Count, Cut, Draw, Glue, Grown, Key, Look, PassOn, Token};
use crate::lock::{NoMemory, Seat, SeatLock};
use crate::logged::{Job, Logged};
use atomic_table::{Refused, Table};
use std::alloc::Global;
use std::marker::Brand;
use std::snapshot::Snapshot;
use std::sync::Wait;

/// The word that counts the log.
const LOG: usize = 0;

/// The word with the next ticket.
const NEXT: usize = 1;

/// The word with the ticket that is served.
const SERVED: usize = 2;

impl<W: Logged> Seat<W> {
    /// How many shares of the lock the seat has.
    pub fn share(&self) -> u32
        ensures { result ≡ self.now.share }
    {
        self.share
    }

    /// The length of the log as the seat last saw it.
    pub fn seen(&self) -> u64
        ensures { result ≡ length self.now.seen }
    {
        self.seen
    }
}

impl<W: Logged> SeatLock<W> {
    /// A lock round the value, and its first seat, which has every share: `seats`, from 1 to 64. That seat has seen the
    /// value's log. The only error is want of memory, and then the value is dropped.
    pub fn new(alloc: Global, w: W, seats: u32) -> Result<(SeatLock<W>, Seat<W>), NoMemory>
        requires { (1 ≤ seats) × (seats ≤ 64) }
        ensures lock { IfOk result (λ r. (r.0.opening ≡ W.opening w) × (r.0.seats ≡ seats)) }
        ensures seat { IfOk result (λ r. IsOf r.0 r.1 × (r.1.share ≡ seats) × (r.1.seen ≡ W.log w)) }
    {
        let seen = w.length();
        let key = Key {
            first: Snapshot::of(&w),
            seats: u64::from(seats),
        };
        let mut slots = Vec::new(alloc);
        if slots.push(Some(w)).is_err() {
            return Err(NoMemory);
        }
        match Table::new(alloc, &[seen, 0, 0], slots, &key) {
            Ok((table, token)) => Ok((
                SeatLock { table },
                Seat {
                    token,
                    share: seats,
                    seen,
                },
            )),
            Err(Refused { slots: _ }) => Err(NoMemory),
        }
    }

    /// Waits for the seat's turn and runs the job once on the value. The seat has then seen the log that the job left.
    ///
    /// The value has the opening of the lock, and the log that the job met goes on from what the seat had seen.
    /// It takes no memory. Who waits for a ticket is woken: where the ticket that is now served is also the next to be
    /// drawn, nobody waits, and whoever draws later sees that it is served.
    pub fn turn<J: Job<W>, R: Wait>(&self, rt: &R, seat: &mut Seat<W>, job: J) -> J::Answer
        requires own { IsOf self.now seat.old }
        requires ready { J.needs job self.now.opening seat.old.seen }
        ensures own { IsOf self.now seat.new × (seat.new.share ≡ seat.old.share) }
        ensures seen { IsPrefix seat.old.seen seat.new.seen }
        ensures told { (before : List ℕ) × IsPrefix seat.old.seen before × Follows before seat.new.seen × J.told job self.now.opening before result seat.new.seen }
    {
        let table = &self.table;
        wait(rt, table, &mut seat.token);
        let Some(mut value) = table.shared.exchange(&mut seat.token, 0, None) else {
            unreachable!()
        };
        let before = value.length();
        let answer = job.run(&mut value);
        let after = value.length();
        count::<W, Brand>(table, &mut seat.token, &value, after - before);
        table.shared.exchange(&mut seat.token, 0, Some(value));
        table.shared.fetch_add::<PassOn>(&mut seat.token, SERVED, 1);
        if table.shared.peek(SERVED) != table.shared.peek(NEXT) {
            table.shared.wake_all(SERVED);
        }
        seat.seen = after;
        answer
    }

    /// A new seat with one share of this seat's, which has two at least. It has seen the same log.
    pub fn split(&self, seat: &mut Seat<W>) -> Seat<W>
        requires own { IsOf self.now seat.old }
        requires two { 2 ≤ seat.old.share }
        ensures old { IsOf self.now seat.new × (seat.new.seen ≡ seat.old.seen) × (seat.new.share + 1 ≡ seat.old.share) }
        ensures new { IsOf self.now result × (result.seen ≡ seat.old.seen) × (result.share ≡ 1) }
    {
        let token = self.table.shared.split_seat::<Cut>(&mut seat.token);
        seat.share -= 1;
        Seat {
            token,
            share: 1,
            seen: seat.seen,
        }
    }

    /// Takes another seat of the lock in, with its shares. The longer of the two logs stays, with which the other begins.
    pub fn join(&self, seat: &mut Seat<W>, other: Seat<W>)
        requires { IsOf self.now seat.old × IsOf self.now other }
        ensures own { IsOf self.now seat.new }
        ensures shares { seat.new.share ≡ seat.old.share + other.share }
        ensures seen { seat.new.seen ≡ longer seat.old.seen other.seen }
        ensures keeps { IsPrefix seat.old.seen seat.new.seen × IsPrefix other.seen seat.new.seen }
    {
        let Seat { token, share, seen } = other;
        self.table.shared.join_seat::<Glue>(&mut seat.token, token);
        self.table.shared.load::<Bound>(&mut seat.token, LOG);
        seat.share += share;
        seat.seen = seat.seen.max(seen);
    }

    /// The value, once one seat has every share. Its log goes on from what that seat has seen.
    pub fn close(self, seat: Seat<W>) -> W
        requires own { IsOf self seat }
        requires all { seat.share ≡ self.seats }
        ensures opening { W.opening result ≡ self.opening }
        ensures log { IsPrefix seat.seen (W.log result) }
    {
        let SeatLock { table } = self;
        let Seat { token, .. } = seat;
        let mut closed = table.close_with(token);
        let last = closed.take(0);
        closed.free();
        match last {
            Some(value) => value,
            None => unreachable!(),
        }
    }
}

/// Draws a ticket and waits until it is served. Then the seat has the value in hand.
fn wait<W: Logged, R: Wait>(rt: &R, table: &Board<W>, token: &mut Token<W>)
    requires own { (token.old.table_id ≡ table.now.shared.table_id) × (table.now.shared.table_id.words ≡ 3) }
    requires rests { Rests token.old.me }
    ensures own { (token.new.table_id ≡ token.old.table_id) × (token.new.id ≡ token.old.id) }
    ensures has { (t : ℕ) × (w : W) × (token.old.me.0.opening ≡ Some (W.opening w)) × IsPrefix token.old.me.0.seen (W.log w) × (token.new.me ≡ (taken t (W.log w) token.old.me.0, (0, Some w) ∷ [])) }
{
    let ticket = table.shared.fetch_add::<Draw>(token, NEXT, 1);
    for _ in rt.forever() {
        let served = table.shared.load::<Look>(token, SERVED);
        if served == ticket {
            return;
        }
        table.shared.park(rt, SERVED, (served % (1 << 32)) as u32);
    }
    unreachable!()
}

/// Counts what the seat that has the value out added to its log.
fn count<W: Logged, E: Grown>(table: &Board<W>, token: &mut Token<W>, value: &W, added: u64)
    requires own { (token.old.table_id ≡ table.now.shared.table_id) × (table.now.shared.table_id.words ≡ 3) }
    requires log { W.log value.now ≡ E.log }
    requires small { length (W.log value.now) < 2 ^ 64 }
    requires holds { HoldsTurn token.old.me }
    requires grows { IsPrefix token.old.me.0.seen (W.log value.now) × (length token.old.me.0.seen + added ≡ length (W.log value.now)) }
    ensures { (token.new.table_id ≡ token.old.table_id) × (token.new.id ≡ token.old.id) × (token.new.me ≡ (seeing E.log token.old.me.0, token.old.me.1)) }
{
    table.shared.fetch_add::<Count<E>>(token, LOG, added);
}
