//! Finds states by name.

ghost use Rattle.std.specs.Prelude.{◌≡◌, ◌≤◌, map, length};
ghost use Rattle.asl_model.specs.Machine.{states_of};
ghost use Rattle.asl_model.specs.Tree.{block_tree};
ghost use Rattle.continuation_gen.specs.Numbering.{index_of, count};

use asl_model::Block;

/// The index of the state of that name, or how many states there are where there is none.
pub fn index_in(block: &Block, name: &[u8]) -> usize
    ensures index { result ≡ index_of (states_of (block_tree block.now)) name.now }
    ensures within { result ≤ count (states_of (block_tree block.now)) }
{
    let states = &block.states;
    states.index(name).unwrap_or(states.len())
}
