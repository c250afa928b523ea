//! How many scopes and functions a block has.

ghost use Rattle.std.specs.Prelude.{◌≡◌, ◌<◌, ◌≤◌, ◌^◌, map, length};
ghost use Rattle.asl_model.specs.Machine.{states_of};
ghost use Rattle.asl_model.specs.Tree.{block_tree, blocks_from, state_tree};
ghost use Rattle.continuation_gen.specs.Numbering.{size, size_under, size_all, calls, callers};

use asl_model::{Block, State};
use unum_json::Items;

/// The scopes of a block with all inside it.
#[cycle(scopes)]
pub fn scopes_in(block: &Block) -> u32
    requires { (size (block_tree block.now)).scope < 2 ^ 32 }
    ensures { result ≡ (size (block_tree block.now)).scope }
{
    let mut total = 1;
    for row in block.states.as_slice() {
        total += scopes_under(&row.1);
    }
    total
}

/// The scopes inside a state.
#[cycle(scopes)]
pub fn scopes_under(state: &State) -> u32
    requires { (size_under (state_tree state.now)).scope < 2 ^ 32 }
    ensures { result ≡ (size_under (state_tree state.now)).scope }
{
    match state {
        State::Parallel { branches, .. } => scopes_in_all(branches),
        State::Map { body, .. } => scopes_in(body.get()),
        _ => 0,
    }
}

#[cycle(scopes)]
fn scopes_in_all(branches: &Items<Block>) -> u32
    requires { (size_all (blocks_from (map block_tree branches.now))).scope < 2 ^ 32 }
    ensures { result ≡ (size_all (blocks_from (map block_tree branches.now))).scope }
{
    let mut total = 0;
    for block in branches.as_slice() {
        total += scopes_in(block);
    }
    total
}

/// How many functions a state has: a Task and a fan have one.
pub fn functions_at(state: &State) -> u32
    ensures { result ≡ calls (state_tree state.now) }
{
    match state {
        State::Task { .. } => 1,
        State::Parallel { .. } => 1,
        State::Map { .. } => 1,
        _ => 0,
    }
}

/// How many functions the states of a block have.
pub fn functions_in(block: &Block) -> u32
    requires { callers (states_of (block_tree block.now)) < 2 ^ 32 }
    ensures { result ≡ callers (states_of (block_tree block.now)) }
{
    let mut total = 0;
    for row in block.states.as_slice() {
        total += functions_at(&row.1);
    }
    total
}
