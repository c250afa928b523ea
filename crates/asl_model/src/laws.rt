//! What holds of every run of every machine, whatever its answers are: each function's contract is a law, and it does
//! nothing.

ghost use Rattle.asl_model.specs.Sequential.{Bounded, SequentialEnds};
ghost use Rattle.asl_model.specs.Stops.{AfterMeans, StretchMeans, UsedFits};
ghost use Rattle.asl_model.specs.Step.{standard};
ghost use Rattle.asl_model.specs.Valid.{BreaksNothing, NothingBroken};
ghost use Rattle.asl_model.specs.Numbers.{EnterNumber, NumberMeans, EachHasNumber, OneNumber, StateFound, VisitHasNumber, NamesInRange};
ghost use Rattle.asl_model.specs.Lawful.{Lawful, InputAt, OneBody};
ghost use Rattle.asl_model.specs.Laws.{Growth, Standing, Order, Distinct, OneVisit, SameVisit, CentralGrowth, Next, Waiting, BranchEnds, JoinExactly, Ranges, Adding, Answering, OpenPlaces, EndKept, FanKept, JoinReady};

/// With more answers a central run only grows, and what follows an answer stands in the run.
pub fn central_runs()
    ensures growth { CentralGrowth standard }
    ensures next { Next standard }
{}

/// The laws of the run of any scope of any block.
pub fn runs()
    ensures growth { Growth standard }
    ensures standing { Standing standard }
    ensures rising { Order standard }
    ensures distinct { Distinct standard }
    ensures one { OneVisit standard }
    ensures same { SameVisit standard }
    ensures waits { Waiting standard }
    ensures ends { BranchEnds standard }
    ensures join { JoinExactly standard }
    ensures ranges { Ranges standard }
    ensures adding { Adding }
    ensures answering { Answering standard }
    ensures in_order { OpenPlaces standard }
    ensures end_kept { EndKept standard }
    ensures fan_kept { FanKept standard }
    ensures join_ready { JoinReady standard }
{}

/// What a proof about worlds uses of runs.
pub fn lawful()
    ensures laws { Lawful standard }
    ensures input_at { InputAt }
    ensures one_body { OneBody }
{}

/// A machine breaks no rule of validity exactly where it is valid.
pub fn valid()
    ensures nothing_broken { NothingBroken }
    ensures breaks_nothing { BreaksNothing }
{}

/// What the numbers of a machine's functions stand for, and that the names of a run's visits are in range.
pub fn numbers()
    ensures enters { EnterNumber }
    ensures means { NumberMeans }
    ensures each { EachHasNumber }
    ensures one { OneNumber }
    ensures found { StateFound }
    ensures visits { VisitHasNumber }
    ensures names { NamesInRange }
{}

/// A run has no more visits than its block's size, and the sequential run has ended.
pub fn sequential()
    ensures bounded { Bounded }
    ensures ends { SequentialEnds }
{}

/// What the Call or the Fan that a scope stops at stands for, and that lists used have one number for each retrier.
pub fn stops()
    ensures stretch { StretchMeans }
    ensures after { AfterMeans }
    ensures used { UsedFits }
{}
