//! What workers drive under their lock: a world that keeps to its plan.
ghost use Rattle.unum_world.specs.Turns.{EveryLogHasOneTrace};

use crate::opening::Opening;
use crate::planned::Planned;
use crate::turns::{hand, pick};
use fn_table::Answered;
use seat_lock::Logged;
use worker_gate::{Engine, Pick};

/// What a world that keeps to its plan began with, as contracts see it. No value of it is made.
#[derive(Drop)]
pub struct Start {
    /// How it began.
    pub opening: Opening,
    /// How many events it may have.
    pub limit: u64,
}

/// The log has the codes of the events.
impl Logged for Planned {
    ghost use Rattle.unum_world.specs.Turns.{start_of, log_of};

    type Opening = Start;

    ghost opening = { λ p. start_of p };

    ghost log = { λ p. log_of p };

    /// How many events the history has.
    fn length(&self) -> u64 {
        self.world.length()
    }
}

/// A worker's live attempt makes the event that the plan allows it, but where that is an Answer the worker is asked to call the
/// function, and no event is made; where the table has no such function, the Answer is made. A worker without a live attempt
/// makes the first delivery or giving up that the plan allows, and is idle exactly where it allows none. `Spent` comes exactly
/// where an event was to be made and the history is full. An answer that is handed in is made an Answer where its attempt waits
/// for that call and the plan allows it, and else the worker is free.
impl Engine for Planned {
    ghost use Rattle.std.specs.Prelude.{◌≤◌, length};
    ghost use Rattle.unum_world.specs.Turns.{OnTrace, OnTraces, IsIdle, Picks, Hands};

    ghost idle = { λ start log. OnTrace start log (λ p. IsIdle p) };

    ghost full = { λ start log. start.limit ≤ length log };

    ghost picked = { λ start before mine answer after. OnTraces start before after (λ p q. Picks p mine answer q) };

    ghost handed = { λ start before done answer after. OnTraces start before after (λ p q. Hands p done answer q) };

    fn pick(&mut self, mine: Option<u32>) -> Pick {
        pick(&mut self.world, mine)
    }

    fn hand(&mut self, done: &Answered) -> Pick {
        hand(&mut self.world, done)
    }
}

/// A log has one trace at most: an event's code tells the event, since in a world of at most 1,000 sessions and 10,000,000 events
/// all numbers have 32 bits. It does nothing.
#[tactic(auto, using(crate::proofs::OneTrace::every_log_has_one_trace))]
pub fn logs_have_one_trace()
    ensures { EveryLogHasOneTrace }
{}
