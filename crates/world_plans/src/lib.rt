//! Plans of mishaps, the events that a plan allows, and the chooser that takes one of them.
//!
//! They are defined for worlds of any code. Each function's contract is a law of them, and it does nothing.
#![tactic(auto)]

mod planning;
mod totals;

ghost use Rattle.std.specs.Prelude.{Bool, List, ℕ};
ghost use Rattle.asl_model.specs.Machine.{Block};
ghost use Rattle.world_model.specs.Sites.{Site};
ghost use Rattle.world_plans.specs.Running.{EveryAllowedEventMayHappen, EveryPlanGoesOn, EveryPlanIsInThree, EveryChoiceIsAllowed, EveryChoiceIsOne, EveryMachineWorldRuns, EveryNumberedWorldRuns, EveryFlatWorldRuns, EveryNumberedPlanAllowsAlike, EveryNumberedChoiceIsAlike};
ghost use Rattle.world_plans.specs.Changes.{EveryEventChangesLists};
ghost use Rattle.world_plans.specs.Sessions.{EveryDrainedSessionIsSettled, EverySessionIsCounted, EveryNumberedSessionStandsAlike, EveryAbandonedSessionGaveUp};

pub use planning::{Mishap, Plan};
pub use totals::{Counts, Totals};

/// What a plan allows may happen.
pub fn plans_allow_what_may_happen()
    ensures machines { EveryAllowedEventMayHappen Block Site (List ℕ) }
    ensures numbers { EveryAllowedEventMayHappen Block ℕ (List Bool) }
{}

/// Where the queue's counts are right and each attempt that lives has a step or an answer to take, a plan allows nothing only
/// where nothing may happen.
pub fn plans_go_on()
    ensures machines { EveryPlanGoesOn Block Site (List ℕ) }
    ensures numbers { EveryPlanGoesOn Block ℕ (List Bool) }
{}

/// There the allowed events are one for each invocation that is to have a twin, one for each attempt that lives, and one for
/// each invocation that is open, each list by rising number: so they are counted without being made, and each is found by its
/// number.
pub fn plans_are_in_three()
    ensures machines { EveryPlanIsInThree Block Site (List ℕ) }
    ensures numbers { EveryPlanIsInThree Block ℕ (List Bool) }
{}

/// And whatever happens, each of the three lists stays as it was, but for the one number that the event is of: of an invocation,
/// or of an attempt.
pub fn events_change_lists()
    ensures machines { EveryEventChangesLists Block Site (List ℕ) }
    ensures numbers { EveryEventChangesLists Block ℕ (List Bool) }
{}

/// What the chooser takes is allowed, and there is one list of its choices of each length.
pub fn choices_are_allowed()
    ensures machines { EveryChoiceIsAllowed Block Site (List ℕ) }
    ensures numbers { EveryChoiceIsAllowed Block ℕ (List Bool) }
    ensures machines_one { EveryChoiceIsOne Block Site (List ℕ) }
    ensures numbers_one { EveryChoiceIsOne Block ℕ (List Bool) }
{}

/// Whatever happens, in worlds of machines, and in those that run machines' code by functions' numbers, the queue's counts are
/// right, and each attempt that lives has a step or an answer to take.
pub fn worlds_are_running()
    ensures machines { EveryMachineWorldRuns }
    ensures numbered { EveryNumberedWorldRuns }
    ensures flat { EveryFlatWorldRuns }
{}

/// A world that runs machines' code by functions' numbers has the same allowed events as the world of machines, so the chooser
/// takes the same events in both.
pub fn numbered_plans_allow_alike()
    ensures allowed { EveryNumberedPlanAllowsAlike }
    ensures choices { EveryNumberedChoiceIsAlike }
{}

/// Where the queue's counts are right and nothing may happen, each session has ended or is abandoned. The totals count each
/// session once. An abandoned session of machines had an invocation given up. And sessions and totals are the same in a world
/// that runs machines' code by functions' numbers.
pub fn sessions_stand()
    ensures machines { EveryDrainedSessionIsSettled Block Site (List ℕ) }
    ensures numbers { EveryDrainedSessionIsSettled Block ℕ (List Bool) }
    ensures machines_all { EverySessionIsCounted Block Site (List ℕ) }
    ensures numbers_all { EverySessionIsCounted Block ℕ (List Bool) }
    ensures alike { EveryNumberedSessionStandsAlike }
    ensures gave_up { EveryAbandonedSessionGaveUp }
{}
