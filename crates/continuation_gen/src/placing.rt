//! Lists the blocks of a machine with their numbers.

ghost use Rattle.std.specs.Prelude.{◌≡◌, ◌<◌, ◌^◌, ◌+◌, ◌++◌, map, IfOk, OnOk};
ghost use Rattle.asl_model.specs.Machine.{states_of};
ghost use Rattle.asl_model.specs.Tree.{block_tree, blocks_from, state_tree};
ghost use Rattle.continuation_gen.specs.Numbering as n;
ghost use Rattle.continuation_gen.specs.Numbering.{plus, IsSmall};
ghost use Rattle.continuation_gen.specs.Filling.{placed_of};

use crate::at::At;
use crate::counting::{functions_at, functions_in};
use crate::placed::Placed;
use asl_model::{Block, State};
use unum_json::{Items, NoMemory};

/// Lists a block that stands there, and then those inside its states. It answers where the next block would stand.
#[cycle(place)]
pub fn place<'m>(
    block: &'m Block,
    parent: Option<u32>,
    at: At,
    out: &mut Items<Placed<'m>>,
) -> Result<At, NoMemory>
    requires { IsSmall (plus at (n.size (block_tree block.now))) }
    ensures placed { OnOk result (map placed_of out.new ≡ map placed_of out.old ++ n.place parent at (block_tree block.now)) }
    ensures next { IfOk result (λ a. a ≡ plus at (n.size (block_tree block.now))) }
{
    let inner = At {
        scope: at.scope + 1,
        node: at.node + block.states.len() as u32,
        func: at.func + functions_in(block),
    };
    out.push(Placed { at, parent, block })?;
    place_within(block, at.func, inner, out)
}

#[cycle(place)]
fn place_within<'m>(
    block: &'m Block,
    func: u32,
    at: At,
    out: &mut Items<Placed<'m>>,
) -> Result<At, NoMemory>
    requires small { IsSmall (plus at (n.size_within (states_of (block_tree block.now)))) }
    requires funcs { func + n.callers (states_of (block_tree block.now)) < 2 ^ 32 }
    ensures placed { OnOk result (map placed_of out.new ≡ map placed_of out.old ++ n.place_within func at (states_of (block_tree block.now))) }
    ensures next { IfOk result (λ a. a ≡ plus at (n.size_within (states_of (block_tree block.now)))) }
{
    let mut func = func;
    let mut inner = at;
    for row in block.states.as_slice() {
        inner = place_under(&row.1, func, inner, out)?;
        func += functions_at(&row.1);
    }
    Ok(inner)
}

#[cycle(place)]
fn place_under<'m>(
    state: &'m State,
    func: u32,
    at: At,
    out: &mut Items<Placed<'m>>,
) -> Result<At, NoMemory>
    requires { IsSmall (plus at (n.size_under (state_tree state.now))) }
    ensures placed { OnOk result (map placed_of out.new ≡ map placed_of out.old ++ n.place_under func at (state_tree state.now)) }
    ensures next { IfOk result (λ a. a ≡ plus at (n.size_under (state_tree state.now))) }
{
    match state {
        State::Parallel { branches, .. } => place_all(branches, func, at, out),
        State::Map { body, .. } => place(body.get(), Some(func), at, out),
        _ => Ok(at),
    }
}

#[cycle(place)]
fn place_all<'m>(
    branches: &'m Items<Block>,
    func: u32,
    at: At,
    out: &mut Items<Placed<'m>>,
) -> Result<At, NoMemory>
    requires { IsSmall (plus at (n.size_all (blocks_from (map block_tree branches.now)))) }
    ensures placed { OnOk result (map placed_of out.new ≡ map placed_of out.old ++ n.place_all func at (blocks_from (map block_tree branches.now))) }
    ensures next { IfOk result (λ a. a ≡ plus at (n.size_all (blocks_from (map block_tree branches.now)))) }
{
    let mut inner = at;
    for block in branches.as_slice() {
        inner = place(block, Some(func), inner, out)?;
    }
    Ok(inner)
}
