//! What a Choice, a Parallel and a Map have inside.

ghost use Rattle.std.specs.Prelude.{◌≡◌, length, map};
ghost use Rattle.asl_model.specs.Machine.{blocks_in};
ghost use Rattle.asl_model.specs.Tree.{block_tree, blocks_from, state_tree};
ghost use Rattle.asl_model.specs.Valid.{has_bad_branches, has_bad_limit, has_inner, lacks_choices};

use asl_model::{Block, State};
use unum_json::Items;

/// Whether a Choice has no rule.
pub fn lacks_choices(state: &State) -> bool
    ensures { result ≡ lacks_choices (state_tree state.now) }
{
    match state {
        State::Choice { rules, .. } => rules.is_empty(),
        _ => false,
    }
}

/// How many branches there are.
fn branch_count(branches: &Items<Block>) -> usize
    ensures { result ≡ length (blocks_in (blocks_from (map block_tree branches.now))) }
{
    branches.len()
}

/// Whether a Parallel has no branch or more than 100.
pub fn has_bad_branches(state: &State) -> bool
    ensures { result ≡ has_bad_branches (state_tree state.now) }
{
    match state {
        State::Parallel { branches, .. } => {
            let count = branch_count(branches);
            count == 0 || count > 100
        }
        _ => false,
    }
}

/// Whether a state has a block inside it.
pub fn has_inner(state: &State) -> bool
    ensures { result ≡ has_inner (state_tree state.now) }
{
    match state {
        State::Parallel { branches, .. } => branch_count(branches) > 0,
        State::Map { .. } => true,
        _ => false,
    }
}

/// Whether the MaxConcurrency of a Map is above 1,000,000.
pub fn has_bad_limit(state: &State) -> bool
    ensures { result ≡ has_bad_limit (state_tree state.now) }
{
    match state {
        State::Map { limit, .. } => *limit > 1_000_000,
        _ => false,
    }
}
