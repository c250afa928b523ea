//! In worlds that run flat code every number and name stays in its range.
//!
//! The ranges are those of `place_name`: at most 1,000 sessions, trails of at most 7 segments, hops below 2,000, and fans of at
//! most 1,000 branches. Each function's contract is a law, and it does nothing.
#![tactic(auto)]

ghost use Rattle.asl_model.specs.Machine.{Block};
ghost use Rattle.std.specs.Prelude.{ℕ};
ghost use Rattle.world_ranges.specs.Flat.{EveryFormStaysInRange, EveryIrRunIsInRange, EveryOpeningIsInRange, EverySiteIsFunction};
ghost use Rattle.world_ranges.specs.Worlds.{EveryEventKeepsRange, EveryRunIsInRange, EveryStartIsInRange};
ghost use Rattle.world_ranges.specs.Worlds.{EveryInstanceDoesFew, EveryNextIsInRange};

/// Where the code of each session stays in range, whatever happens: each invocation, each live object and each attempt of the world
/// is in range, and so is what each attempt does next; and each instance does few things.
pub fn worlds_stay_in_range()
    ensures start { EveryStartIsInRange Block ℕ }
    ensures event { EveryEventKeepsRange Block ℕ }
    ensures run { EveryRunIsInRange Block ℕ }
    ensures next { EveryNextIsInRange Block ℕ }
    ensures few { EveryInstanceDoesFew ℕ }
{}

/// A well formed flat form stays in range: where it stops next, with how many branches, and how many fans are round each function.
pub fn flat_forms_stay_in_range()
    ensures { EveryFormStaysInRange }
{}

/// So in each world of at most 1,000 sessions that runs the flat forms of valid machines, whatever happens, all of this is in
/// range; and each invocation's site is a function of its session's flat form.
pub fn flat_worlds_are_in_range()
    ensures opening { EveryOpeningIsInRange }
    ensures sites { EverySiteIsFunction }
    ensures run { EveryIrRunIsInRange }
{}
