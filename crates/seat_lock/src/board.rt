//! The table under the lock: its rule, and what each step tells.
//! Word 0 is the length of the log, word 1 the next ticket, and word 2 the ticket that is served. The one slot holds the value.
use crate::logged::Logged;
use atomic_table::{Join, Play, Seat as Place, Split, Table, TableRule};
use std::alloc::Global;
use std::collections::LinkedList;
use std::marker::{Brand, PhantomData};
use std::snapshot::Snapshot;

/// Where a seat stands. The number of a ticket has no upper bound here: the words have it modulo 2 to the 64th.
pub enum Stage {
    /// It has no ticket.
    Idle,
    /// It waits with this ticket.
    Waits(u64),
    /// Its ticket is served: it has the value.
    Holds(u64),
}

/// What a seat knows. No value of it is made. A seat that was joined into another has no share and no opening.
pub struct View<O> {
    /// What the value began with.
    pub opening: Option<O>,
    /// The log that it has seen.
    pub seen: LinkedList<u64>,
    /// How many shares of the lock the seat has.
    pub share: u64,
    /// Where it stands.
    pub stage: Stage,
    /// The shorter of the two logs at the last join, where no turn came since.
    pub other: LinkedList<u64>,
}

/// What the table is told when it is made: the first value, and the number of seats.
#[derive(Drop)]
pub struct Key<W> {
    /// The first value.
    pub first: Snapshot<W>,
    /// The number of seats.
    pub seats: u64,
}

/// The rule of the table under the lock.
pub struct Turns;

impl<W: Logged> TableRule<Option<W>, View<W::Opening>, Key<W>> for Turns {
    ghost use Rattle.seat_lock.specs.Rule.{Kept, first_view};

    ghost holds = { λ key. Kept W.opening W.log (W.opening key.first.value) key.seats };

    ghost first = { λ key. first_view (W.opening key.first.value) (W.log key.first.value) key.seats };
}

pub(crate) type Board<W> = Table<Option<W>, View<<W as Logged>::Opening>, Key<W>, Turns, Global>;

pub(crate) type Token<W> = Place<Option<W>, View<<W as Logged>::Opening>>;

/// Draws a ticket.
pub struct Draw;

impl<W, O> Play<Option<W>, View<O>> for Draw {
    ghost use Rattle.seat_lock.specs.Steps.{Drew};

    ghost then = { Drew };
}

/// Looks whether the ticket is served.
pub struct Look;

impl<W: Logged> Play<Option<W>, View<W::Opening>> for Look {
    ghost use Rattle.seat_lock.specs.Steps.{Looked};

    ghost then = { Looked W.opening W.log };
}

/// Names a log.
pub trait Grown {
    ghost use Rattle.std.specs.Prelude.{List, ℕ};

    ghost log: { List ℕ };
}

impl Grown for Brand {
    ghost use Rattle.std.specs.Prelude.{[]};

    ghost log = { [] };
}

/// Counts what was added to the log, which is then E's.
pub struct Count<E> {
    of: PhantomData<E>,
}

impl<W, O, E: Grown> Play<Option<W>, View<O>> for Count<E> {
    ghost use Rattle.seat_lock.specs.Steps.{CountedTo};

    ghost then = { CountedTo E.log };
}

/// Passes the turn on.
pub struct PassOn;

impl<W, O> Play<Option<W>, View<O>> for PassOn {
    ghost use Rattle.seat_lock.specs.Steps.{Passed};

    ghost then = { Passed };
}

/// Tells how many shares a seat has at most, and that what it saw before a join begins what it has seen.
pub struct Bound;

impl<W, O> Play<Option<W>, View<O>> for Bound {
    ghost use Rattle.seat_lock.specs.Steps.{Bounded};

    ghost then = { Bounded };
}

/// Cuts a seat of one share off.
pub struct Cut;

impl<O> Split<View<O>> for Cut {
    ghost use Rattle.seat_lock.specs.Steps.{one_less, one_of};

    ghost left = { one_less };

    ghost right = { one_of };
}

/// Takes another seat in.
pub struct Glue;

impl<O> Join<View<O>> for Glue {
    ghost use Rattle.seat_lock.specs.Steps.{joined};
    ghost use Rattle.seat_lock.specs.Rule.{spent};

    ghost both = { joined };

    ghost spent = { spent };
}
