//! A worker's two jobs under the lock.
use crate::engine::Engine;
use crate::pick::Pick;
use fn_table::Answered;
use seat_lock::Job;

/// Asks what comes next.
#[derive(Drop)]
pub(crate) struct Asks {
    pub(crate) mine: Option<u32>,
}

impl<E: Engine> Job<E> for Asks {
    ghost use Rattle.worker_gate.specs.Picks.{OnIdle, OnSpent};

    type Answer = Pick;

    ghost needs = { λ job o seen. Unit {0} };

    ghost told = { λ job o before answer after. OnIdle answer (E.idle o after) × OnSpent answer (E.full o after) × E.picked o before job.mine answer after };

    fn run(self, w: &mut E) -> Pick {
        w.pick(self.mine)
    }
}

/// Hands an answer in.
#[derive(Drop)]
pub(crate) struct Hands<'a> {
    pub(crate) done: &'a Answered,
}

impl<'a, E: Engine> Job<E> for Hands<'a> {
    ghost use Rattle.worker_gate.specs.Picks.{OnSpent, IsHanded};

    type Answer = Pick;

    ghost needs = { λ job o seen. Unit {0} };

    ghost told = { λ job o before answer after. IsHanded answer × OnSpent answer (E.full o after) × E.handed o before job.done.now answer after };

    fn run(self, w: &mut E) -> Pick {
        w.hand(self.done)
    }
}
