//! Worlds without mishaps: each name is invoked once and tried once, and what that costs.
//!
//! The world is that of `world_model`, as it is. Each function's contract is a law of it, and it does nothing.
#![tactic(auto)]

ghost use Rattle.std.specs.Prelude.{Bool, List, ℕ};
ghost use Rattle.asl_model.specs.Machine.{Block};
ghost use Rattle.world_model.specs.Sites.{Site};
ghost use Rattle.calm_worlds.specs.Calm.{EveryCalmWorldIsSingle};
ghost use Rattle.calm_worlds.specs.Cost.{EveryCalmWorldCosts};
ghost use Rattle.calm_worlds.specs.Whole.{EveryCalmEndIsComplete, EveryCalmEndCosts};
ghost use Rattle.calm_worlds.specs.Numbered.{EveryCalmNumberedRunIsSound, EveryCalmFlatRunIsSound, EveryObeyingNumberedRunIsCalm};
ghost use Rattle.calm_worlds.specs.Goes.{EveryCalmWorldGoesOn, EveryAllowedEventIsCalm, EveryObeyingRunIsCalm};
ghost use Rattle.calm_worlds.specs.Worked.{OneTaskCosts, RetriesCost};
ghost use Rattle.calm_worlds.specs.Alone.{EveryCalmEndIsSequential, EveryCalmEndCostsAlike, EveryCalmWorldStaysWithin};

/// Where no attempt crashes and no message is delivered while an attempt of it lives, each name has at most one invocation and
/// at most one attempt, and no invocation is given up.
pub fn calm_names_are_single()
    ensures { EveryCalmWorldIsSingle }
{}

/// There are then at most as many events, and marks among them, as the visits of all sessions' central runs cost.
pub fn calm_worlds_cost()
    ensures { EveryCalmWorldCosts }
{}

/// Where then nothing more may happen, each session has ended and is swept, and each visit has exactly one entry, one
/// invocation and one attempt.
pub fn calm_ends_are_complete()
    ensures { EveryCalmEndIsComplete }
{}

/// There are then exactly as many events, and marks among them, as the visits of all sessions' central runs cost.
pub fn calm_ends_cost()
    ensures { EveryCalmEndCosts }
{}

/// Where no function looks at its ticket, the central runs are then the sequential runs.
pub fn calm_ends_are_sequential()
    ensures { EveryCalmEndIsSequential }
{}

/// And so the events and the marks are what the visits of the sequential runs cost.
pub fn calm_ends_cost_alike()
    ensures { EveryCalmEndCostsAlike }
{}

/// Where then some event may happen, one that is no mishap may.
pub fn calm_worlds_go_on()
    ensures { EveryCalmWorldGoesOn }
{}

/// What a plan of no mishaps allows is no mishap, so the events of a run that obeys it are without one.
pub fn plans_are_calm()
    ensures machines { EveryAllowedEventIsCalm Block Site (List ℕ) }
    ensures numbers { EveryAllowedEventIsCalm Block ℕ (List Bool) }
    ensures runs { EveryObeyingRunIsCalm }
{}

/// And before, there are at most so many events and marks, and fewer events where one may happen.
pub fn calm_worlds_stay_within()
    ensures { EveryCalmWorldStaysWithin }
{}

/// Small machines cost what is worked out by hand: a task, and one with two more tries.
pub fn worked_costs()
    ensures one_task { OneTaskCosts }
    ensures retries { RetriesCost }
{}

/// All that holds of worlds that run machines' code by functions' numbers, too; and also there a plan of no mishaps allows none.
pub fn numbered_worlds_are_calm()
    ensures numbered { EveryCalmNumberedRunIsSound }
    ensures flat { EveryCalmFlatRunIsSound }
    ensures obeying { EveryObeyingNumberedRunIsCalm }
{}
