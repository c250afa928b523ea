//! The branches of a fan.

ghost use Rattle.std.specs.Prelude.{◌≡◌, ◌<◌, option_map, slice_get};
ghost use Rattle.std.specs.Option.{option_copied};
ghost use Rattle.asl_model.specs.Machine.{branches_of};
ghost use Rattle.asl_model.specs.Tree.{block_tree, state_tree};

use asl_model::{Block, State};

/// The block of the branch with that index out of so many, if the state has one.
pub fn branch(state: &State, index: usize, count: usize) -> Option<&Block>
    requires { index < count }
    ensures { option_map block_tree (option_copied result) ≡ slice_get (branches_of (state_tree state.now) count) index }
{
    match state {
        State::Parallel { branches, .. } => branches.get(index),
        State::Map { body, .. } => Some(body.get()),
        _ => None,
    }
}
