//! What the Tasks of a machine call.

ghost use Rattle.std.specs.Prelude.{◌≡◌, ◌||◌, map};
ghost use Rattle.std.specs.Map.{keys_of};
ghost use Rattle.unum_json.specs.Keys.{IsRising};
ghost use Rattle.asl_model.specs.Tree.{block_tree, blocks_from, state_tree, tree_of};
ghost use Rattle.bundle_read.specs.Bounds.{calls_another, calls_others};
ghost use Rattle.bundle_read.specs.Called.{any_all, any_block, any_under};

use crate::lookup::knows;
use asl_model::{Block, Machine, State};
use fn_table::FnKind;
use unum_json::{Items, Text};

/// Whether a state calls a function that is not there.
fn calls_another(functions: &[(Text, FnKind)], state: &State) -> bool
    requires { IsRising (keys_of functions.now) }
    ensures { result ≡ calls_another functions.now (state_tree state.now) }
{
    match state {
        State::Task { resource, .. } => !knows(functions, resource.as_bytes()),
        _ => false,
    }
}

#[cycle(calls)]
fn block_calls(functions: &[(Text, FnKind)], block: &Block) -> bool
    requires { IsRising (keys_of functions.now) }
    ensures { result ≡ any_block (calls_another functions.now) (block_tree block.now) }
{
    for row in block.states.as_slice() {
        if calls_another(functions, &row.1) || calls_inside(functions, &row.1) {
            return true;
        }
    }
    false
}

#[cycle(calls)]
fn calls_inside(functions: &[(Text, FnKind)], state: &State) -> bool
    requires { IsRising (keys_of functions.now) }
    ensures { result ≡ any_under (calls_another functions.now) (state_tree state.now) }
{
    match state {
        State::Parallel { branches, .. } => branches_call(functions, branches),
        State::Map { body, .. } => block_calls(functions, body.get()),
        _ => false,
    }
}

#[cycle(calls)]
fn branches_call(functions: &[(Text, FnKind)], branches: &Items<Block>) -> bool
    requires { IsRising (keys_of functions.now) }
    ensures { result ≡ any_all (calls_another functions.now) (blocks_from (map block_tree branches.now)) }
{
    for block in branches.as_slice() {
        if block_calls(functions, block) {
            return true;
        }
    }
    false
}

/// Whether a Task anywhere in the machine calls a function that is not there.
pub fn calls_others(functions: &[(Text, FnKind)], machine: &Machine) -> bool
    requires { IsRising (keys_of functions.now) }
    ensures { result ≡ calls_others functions.now (tree_of machine.now) }
{
    block_calls(functions, &machine.root)
}
