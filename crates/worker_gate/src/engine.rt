//! What workers drive.
ghost use Rattle.std.specs.Prelude.{◌≡◌, ℕ, List};
ghost use Rattle.seat_lock.specs.Logs.{Follows};
ghost use Rattle.worker_gate.specs.Picks.{OnIdle, OnSpent, IsHanded};

use crate::pick::Pick;
use fn_table::Answered;
use seat_lock::Logged;

/// What lies under the lock, and says in each turn what comes next. Its meanings are facts of its opening and its log.
pub trait Engine: Logged {
    ghost use Rattle.std.specs.Prelude.{Option, ℕ, List};
    ghost use Rattle.fn_table.specs.Answers.{Asked};
    ghost use Rattle.worker_gate.specs.declared.pick.Pick.{Pick};

    /// There is nothing to do.
    ghost idle: { Self.Opening → List ℕ → Type 0 };

    /// The log has no room.
    ghost full: { Self.Opening → List ℕ → Type 0 };

    /// What a pick is: of the opening, the log before, the worker's attempt, the answer and the log after.
    ghost picked: { Self.Opening → List ℕ → Option ℕ → Pick → List ℕ → Type 0 };

    /// What it is that an answer is handed in: of the opening, the log before, the call, the answer and the log after.
    ghost handed: { Self.Opening → List ℕ → Asked → Pick → List ℕ → Type 0 };

    /// What comes next for a worker with this attempt, or with none.
    fn pick(&mut self, mine: Option<u32>) -> Pick
        ensures opening { Self.opening self.new ≡ Self.opening self.old }
        ensures extends { Follows (Self.log self.old) (Self.log self.new) }
        ensures idle { OnIdle result (idle (Self.opening self.old) (Self.log self.old) × (Self.log self.new ≡ Self.log self.old)) }
        ensures spent { OnSpent result (full (Self.opening self.old) (Self.log self.old) × (Self.log self.new ≡ Self.log self.old)) }
        ensures picked { picked (Self.opening self.old) (Self.log self.old) mine result (Self.log self.new) };

    /// Takes the answer of a function that a worker called for its attempt. It answers neither `Idle` nor `Call`.
    fn hand(&mut self, done: &Answered) -> Pick
        ensures opening { Self.opening self.new ≡ Self.opening self.old }
        ensures extends { Follows (Self.log self.old) (Self.log self.new) }
        ensures kind { IsHanded result }
        ensures spent { OnSpent result (full (Self.opening self.old) (Self.log self.old) × (Self.log self.new ≡ Self.log self.old)) }
        ensures handed { handed (Self.opening self.old) (Self.log self.old) done.now result (Self.log self.new) };
}
