//! The lock and its seats, as types.
use crate::board::{Board, Token};
use crate::logged::Logged;
use std::marker::Model;

/// Memory ran out.
#[derive(Clone, Copy, PartialEq, Eq, Debug, Drop)]
pub struct NoMemory;

/// A value that seats take in turns.
///
/// Contracts see which lock it is, the opening of the value that it was made with, and how many shares its seats have
/// together. The lock itself is used through `&`, by any number of threads.
#[derive(Drop)]
pub struct SeatLock<W: Logged> {
    pub(crate) table: Board<W>,
}

impl<W: Logged> Model for SeatLock<W> {
    ghost use Rattle.std.specs.Prelude.{◌≡◌};
    ghost use Rattle.seat_lock.specs.Locks.{LockView};

    ghost Value = { LockView W.Opening };

    ghost view = { λ l. record { id = l.table.shared.table_id; opening = W.opening l.table.shared.key.first.value; seats = l.table.shared.key.seats } };

    ghost invariant = { λ l. (l.table.shared.table_id.words ≡ 3) × (l.table.shared.table_id.slots ≡ 1) };
}

/// A place at a lock, with some of the lock's shares, 1 to 64. It remembers the log of the value as it last saw it.
///
/// Contracts see which lock it belongs to and that lock's opening, the log that it has seen, and its share.
#[derive(Drop)]
pub struct Seat<W: Logged> {
    pub(crate) token: Token<W>,
    pub(crate) share: u32,
    pub(crate) seen: u64,
}

impl<W: Logged> Model for Seat<W> {
    ghost use Rattle.std.specs.Prelude.{◌≡◌, length};
    ghost use Rattle.seat_lock.specs.Locks.{SeatView};
    ghost use Rattle.seat_lock.specs.Steps.{Rests};

    ghost Value = { SeatView W.Opening };

    ghost view = { λ s. record { lock = s.token.table_id; opening = s.token.me.0.opening; seen = s.token.me.0.seen; share = s.token.me.0.share } };

    ghost invariant = { λ s. Rests s.token.me × (s.share ≡ s.token.me.0.share) × (s.seen ≡ length s.token.me.0.seen) };
}
