//! Laws of the flat form. Each function's contract is a law, and it does nothing.

ghost use Rattle.continuation_gen.specs.Examples.{OfOneTask, OfTwoBranches, OfBlocksThreeDeep, OfCareAndLimit, CrossedIsRefused};
ghost use Rattle.continuation_gen.specs.Laws.{SameNodes, SameFunctions, FlatIsStretch, FlatAfterIsAfter, ReadsAlike, FormIsWellFormed, SmallNumbers, IrMaps, EveryIrRunIsSound, EveryRunIsOfIr};

/// The flat forms of small machines.
pub fn examples()
    ensures one_task { OfOneTask }
    ensures two_branches { OfTwoBranches }
    ensures three_deep { OfBlocksThreeDeep }
    ensures care_and_limit { OfCareAndLimit }
    ensures crossed { CrossedIsRefused }
{}

/// The nodes are a machine's states, and the functions are those that it has, by their numbers.
pub fn numbers()
    ensures nodes { SameNodes }
    ensures functions { SameFunctions }
{}

/// On the flat form of a valid machine every walk is the machine's own, and so is what else is read off it.
pub fn walks()
    ensures flat { FlatIsStretch }
    ensures after { FlatAfterIsAfter }
    ensures reads { ReadsAlike }
{}

/// The flat form of a valid machine is well formed, and its tables are short.
pub fn form()
    ensures well { FormIsWellFormed }
    ensures small { SmallNumbers }
{}

/// The flat form of a valid machine is code that does at each number what the machine does at the site that the number stands
/// for.
pub fn stands_for_sites()
    ensures { IrMaps }
{}

/// So what holds of worlds of machines holds of each world that runs the flat forms of valid machines, and the same lists of
/// events may happen in both.
pub fn worlds()
    ensures sound { EveryIrRunIsSound }
    ensures complete { EveryRunIsOfIr }
{}
