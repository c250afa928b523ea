//! Where blocks and states stand in the flat form.

ghost use Rattle.std.specs.Prelude.{◌+◌, ◌<◌, ◌^◌};
ghost use Rattle.asl_model.specs.Machine.{states_of};
ghost use Rattle.asl_model.specs.Tree.{block_tree};
ghost use Rattle.continuation_gen.specs.Numbering.{plus, size, count, IsSmall};

use crate::at::At;
use crate::naming::index_in;
use asl_model::Block;
use unum_json::Text;

/// A block with its scope, its first node and the first function of its states, and the Join of the fan that holds it.
#[derive(Clone, Copy)]
pub struct Placed<'m> {
    /// Its scope, its first node, and the first function of its states.
    pub at: At,
    /// The Join of the fan that holds it. The root has none.
    pub parent: Option<u32>,
    /// The block.
    pub block: &'m Block,
    ghost small: { IsSmall (plus at (size (block_tree block.now))) },
}

/// Where a state stands.
#[derive(Clone, Copy)]
pub struct Spot<'m> {
    /// Its block.
    pub block: &'m Block,
    /// The first node of the block.
    pub first: u32,
    /// The function of the state, if it has one.
    pub func: u32,
    /// The first scope inside the state, if there is one.
    pub scope: u32,
    ghost small: { first + count (states_of (block_tree block.now)) < 2 ^ 32 },
}

impl Placed<'_> {
    ghost use Rattle.std.specs.Prelude.{◌≡◌, ◌+◌};

    /// Where the first state of the block stands.
    pub fn first_spot(&self) -> Spot<'_>
        ensures block { result.block.now ≡ self.now.block.now }
        ensures first { result.first ≡ self.now.at.node }
    {
        Spot {
            block: self.block,
            first: self.at.node,
            func: self.at.func,
            scope: self.at.scope,
        }
    }
}

impl Spot<'_> {
    ghost use Rattle.std.specs.Prelude.{◌≡◌, map, option_map};
    ghost use Rattle.continuation_gen.specs.Filling.{number_in};

    /// The node of the state of that name. It is past the block's nodes where there is none.
    pub fn number(&self, name: &Text) -> u32
        ensures { result ≡ number_in self.now name.now }
    {
        self.first + index_in(self.block, name.as_bytes()) as u32
    }

    /// The node that follows, if one does.
    pub fn next(&self, name: &Option<Text>) -> Option<u32>
        ensures { result ≡ option_map (number_in self.now) name.now }
    {
        match name {
            Some(name) => Some(self.number(name)),
            None => None,
        }
    }
}
