//! What the rule of the lock says.
ghost use Rattle.std.specs.Prelude.{ℕ, Option};
ghost use Rattle.atomic_table.specs.Table.{State};
ghost use Rattle.seat_lock.specs.declared.board.View.{View};
ghost use Rattle.seat_lock.specs.Rule.{Kept};
ghost use Rattle.seat_lock.specs.Facts.{Says};

use crate::logged::Logged;

/// Whatever the table under a lock is at a moment that can be reached, all that `Says` lists is true of it: each step
/// keeps the rule `Kept`, and that says the list. The function does nothing.
pub fn rule_says<W: Logged>()
    ensures { (o : W.Opening) (seats : ℕ) (s : State (Option W) (View W.Opening)) → Kept W.opening W.log o seats s → Says W.opening W.log o seats s }
{}
