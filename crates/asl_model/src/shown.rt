//! What the central runs of some small machines are, and what a failure does.

ghost use Rattle.asl_model.specs.Examples.{AnsweredTask, AstrayBreaks, EmptyMap, FanWaits, FirstCatches, LoopEnds, LowestFails, OwnErrorIsCaught, RetriedTask, RetriesFirst, SpentIsCaught, TaskFailedMatches, WaitingTask};
ghost use Rattle.asl_model.specs.Limits.{Attempts, BranchCounts, CareCounts, Concurrency, Depths, ErrorNames, Leads, NameLengths, StateCounts};

/// The definitions compute on small machines.
pub fn examples()
    ensures waiting_task { WaitingTask }
    ensures answered_task { AnsweredTask }
    ensures fan_waits { FanWaits }
    ensures empty_map { EmptyMap }
    ensures retried_task { RetriedTask }
    ensures loop_ends { LoopEnds }
    ensures astray_breaks { AstrayBreaks }
{}

/// What a failure does: retriers come before catchers, and the lowest index decides.
pub fn failures()
    ensures retries_first { RetriesFirst }
    ensures spent_is_caught { SpentIsCaught }
    ensures first_catches { FirstCatches }
    ensures own_error_is_caught { OwnErrorIsCaught }
    ensures task_failed_matches { TaskFailedMatches }
    ensures lowest_fails { LowestFails }
{}

/// What is just within each bound of validity breaks no rule, and what is just past it breaks the rule of that bound.
pub fn limits_of_validity()
    ensures name_lengths { NameLengths }
    ensures state_counts { StateCounts }
    ensures branch_counts { BranchCounts }
    ensures depths { Depths }
    ensures concurrency { Concurrency }
    ensures care_counts { CareCounts }
    ensures attempts { Attempts }
    ensures error_names { ErrorNames }
    ensures leads { Leads }
{}
