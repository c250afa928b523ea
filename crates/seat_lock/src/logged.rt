//! What may lie under the lock, and what may be done to it there.
ghost use Rattle.std.specs.Prelude.{◌≡◌, ℕ, List, length};
ghost use mathlib.Core.List.{IsPrefix};
ghost use Rattle.seat_lock.specs.Logs.{Follows};

/// A value with an opening, which never changes, and a log, which only grows.
pub trait Logged: Drop {
    /// What the value began with, as contracts see it. No value of this type is made.
    type Opening;

    ghost opening: { Self → Self.Opening };

    ghost log: { Self → List ℕ };

    /// The length of the log.
    fn length(&self) -> u64
        ensures { result ≡ length (log self.now) };
}

/// What is done to the value in one turn.
pub trait Job<W: Logged> {
    /// What the turn answers.
    type Answer;

    /// What the job rests on: the opening, and a log that was seen.
    ghost needs: { Self → W.Opening → List ℕ → Type 0 };

    /// What the job tells: of the opening, the log before, the answer and the log after.
    ghost told: { Self → W.Opening → List ℕ → Self.Answer → List ℕ → Type 0 };

    /// Does it: keeps the opening, and adds at most one entry to the log. The job may rest on what it needs of some
    /// beginning of the log.
    fn run(self, w: &mut W) -> Self::Answer
        requires { (seen : List ℕ) × IsPrefix seen (W.log w.old) × needs self (W.opening w.old) seen }
        ensures opening { W.opening w.new ≡ W.opening w.old }
        ensures extends { Follows (W.log w.old) (W.log w.new) }
        ensures told { told self (W.opening w.old) (W.log w.old) result (W.log w.new) };
}
