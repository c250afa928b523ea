//! That worlds meet what the calls of this crate take as given.
ghost use Rattle.fn_wrapper.specs.Laws.{EveryAttemptIsReady, EveryBranchHasInput};

/// In each world of at most 1,000 sessions that runs the flat forms of valid machines, whatever happens: each attempt has what
/// `next` and `absorb` take as given.
///
/// It does nothing. Its contract is the law.
pub fn attempts_are_ready()
    ensures { EveryAttemptIsReady }
{}

/// In each such world, whatever happens: what a fan saved gives each of its branches its input, which `absorb` takes as given.
///
/// It does nothing. Its contract is the law.
pub fn branches_have_inputs()
    ensures { EveryBranchHasInput }
{}
