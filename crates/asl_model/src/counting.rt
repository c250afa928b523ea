//! How many states a machine has.

ghost use Rattle.std.specs.Prelude.{◌≡◌, ◌-◌, ◌^◌, min, map, length};
ghost use Rattle.asl_model.specs.Blocks.{nodes};
ghost use Rattle.asl_model.specs.Tree.{block_tree, blocks_from, state_tree, states_from, tree_of};
ghost use Rattle.asl_model.specs.Walked.{HasRisingNames, RisesAll, RisesUnder, count_all, count_block, count_under};

use crate::machine::{Block, Machine, State};
use unum_json::Items;

/// How many states a machine has in all its blocks, capped at the greatest `u64`. In each block their names rise.
pub fn count_states(machine: &Machine) -> u64
    ensures count { result ≡ min (length (nodes (tree_of machine.now))) (2 ^ 64 - 1) }
    ensures rising { HasRisingNames (tree_of machine.now) }
{
    count_in(&machine.root)
}

#[cycle(count)]
fn count_in(block: &Block) -> u64
    ensures count { result ≡ min (count_block (block_tree block.now)) (2 ^ 64 - 1) }
    ensures rising { HasRisingNames (block_tree block.now) }
{
    let mut total = 0u64;
    for row in block.states.as_slice() {
        total = total.saturating_add(count_inside(&row.1)).saturating_add(1);
    }
    total
}

#[cycle(count)]
fn count_inside(state: &State) -> u64
    ensures count { result ≡ min (count_under (state_tree state.now)) (2 ^ 64 - 1) }
    ensures rising { RisesUnder (state_tree state.now) }
{
    match state {
        State::Parallel { branches, .. } => count_branches(branches),
        State::Map { body, .. } => count_in(body.get()),
        _ => 0,
    }
}

#[cycle(count)]
fn count_branches(branches: &Items<Block>) -> u64
    ensures count { result ≡ min (count_all (blocks_from (map block_tree branches.now))) (2 ^ 64 - 1) }
    ensures rising { RisesAll (blocks_from (map block_tree branches.now)) }
{
    let mut total = 0u64;
    for block in branches.as_slice() {
        total = total.saturating_add(count_in(block));
    }
    total
}
