//! The blocks of a machine in their order: the root, and then for each state by name those inside it.

ghost use Rattle.std.specs.Prelude.{◌≡◌, IfOk, OnOk, map};
ghost use Rattle.asl_model.specs.Blocks.{nested, nested_all, nested_at, nested_under};
ghost use Rattle.asl_model.specs.Tree.{block_tree, blocks_from, state_tree, tree_of};
ghost use Rattle.asl_valid.specs.Levels.{Adds, levels_of, with_room};

use asl_model::{Block, Machine, State};
use std::alloc::Global;
use unum_json::{Items, NoMemory};

/// How deep blocks may nest, where the root is 1 deep.
const DEPTH_LIMIT: u8 = 8;

/// A block, and how much deeper blocks may nest in it.
#[derive(Clone, Copy)]
pub struct Level<'m> {
    /// The block.
    pub block: &'m Block,
    /// How many levels of blocks may stand in it.
    pub room: u8,
}

/// The blocks of a machine.
pub fn levels_of(alloc: Global, machine: &Machine) -> Result<Vec<Level<'_>>, NoMemory>
    ensures { IfOk result (λ levels. levels_of levels.items ≡ map with_room (nested (tree_of machine.now))) }
{
    let mut levels = Vec::new(alloc);
    add_block(&machine.root, DEPTH_LIMIT - 1, &mut levels)?;
    Ok(levels)
}

#[cycle(walk)]
fn add_block<'m>(block: &'m Block, room: u8, levels: &mut Vec<Level<'m>>) -> Result<(), NoMemory>
    ensures { OnOk result (Adds room levels.old.items levels.new.items (λ d. nested_at d (block_tree block.now))) }
{
    levels.push(Level { block, room })?;
    for row in block.states.as_slice() {
        add_inside(&row.1, room.saturating_sub(1), levels)?;
    }
    Ok(())
}

#[cycle(walk)]
fn add_inside<'m>(state: &'m State, room: u8, levels: &mut Vec<Level<'m>>) -> Result<(), NoMemory>
    ensures { OnOk result (Adds room levels.old.items levels.new.items (λ d. nested_under d (state_tree state.now))) }
{
    match state {
        State::Parallel { branches, .. } => add_branches(branches, room, levels),
        State::Map { body, .. } => add_block(body.get(), room, levels),
        _ => Ok(()),
    }
}

#[cycle(walk)]
fn add_branches<'m>(
    branches: &'m Items<Block>,
    room: u8,
    levels: &mut Vec<Level<'m>>,
) -> Result<(), NoMemory>
    ensures { OnOk result (Adds room levels.old.items levels.new.items (λ d. nested_all d (blocks_from (map block_tree branches.now)))) }
{
    for block in branches.as_slice() {
        add_block(block, room, levels)?;
    }
    Ok(())
}
