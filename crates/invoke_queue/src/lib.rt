//! Messages and their attempts: the queue.
#![tactic(auto)]

ghost use Rattle.std.specs.Prelude.{Bool, List};
ghost use Rattle.asl_model.specs.Machine.{Block};
ghost use Rattle.invoke_queue.specs.Worlds.{FollowsWorlds};

mod attempts;
mod codes;
mod lists;
mod numbers;
mod plan;
mod queue;
mod states;
#[cfg(test)]
mod tests;

pub use codes::{event_code, event_of};
pub use numbers::Numbers;
pub use plan::{crash_step, is_crash_due, pick, twin, wants_twin};
pub use queue::{NotEnabled, Queue, QueueError};

/// The calls of a [`Queue`] do to its lists what events do to those of a world that runs machines' code by functions' numbers.
#[tactic(auto, using(crate::proofs::Following::follows))]
pub fn queues_follow_worlds()
    ensures { FollowsWorlds Block (List Bool) }
{}
