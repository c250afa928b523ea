//! Fills the tables of the flat form.

ghost use Rattle.std.specs.Prelude.{◌≡◌, ◌<◌, ◌^◌, ◌+◌, ◌++◌, map, length, IfOk, OnOk};
ghost use Rattle.asl_model.specs.Tree.{state_tree};
ghost use Rattle.continuation_gen.specs.Numbering as n;
ghost use Rattle.continuation_gen.specs.Filling.{placed_of};

use crate::counting::{functions_at, scopes_under};
use crate::ops::node_of;
use crate::placed::{Placed, Spot};
use asl_model::State;
use std::alloc::Global;
use unum_ir::{Func, Node, Scope};
use unum_json::{Items, NoMemory, copy_text};

/// The nodes of the blocks of that list, with room for so many.
pub fn node_table(
    alloc: Global,
    placed: &[Placed<'_>],
    room: usize,
) -> Result<Items<Node>, NoMemory>
    ensures { IfOk result (λ nodes. nodes ≡ n.all_of n.nodes_of (map placed_of placed.now)) }
{
    let mut nodes = Items::with_room(alloc, room)?;
    for block in placed {
        add_nodes(alloc, block, &mut nodes)?;
    }
    Ok(nodes)
}

fn add_nodes(alloc: Global, p: &Placed<'_>, nodes: &mut Items<Node>) -> Result<(), NoMemory>
    ensures { OnOk result (nodes.new ≡ nodes.old ++ n.nodes_of (placed_of p.now)) }
{
    let mut func = p.at.func;
    let mut scope = p.at.scope + 1;
    for row in p.block.states.as_slice() {
        let spot = Spot {
            block: p.block,
            first: p.at.node,
            func,
            scope,
        };
        nodes.push(node_of(alloc, &spot, p.at.scope, row)?)?;
        func += functions_at(&row.1);
        scope += scopes_under(&row.1);
    }
    Ok(())
}

/// The functions of the blocks of that list: the Enter of each, and then those of their states.
pub fn func_table(
    alloc: Global,
    placed: &[Placed<'_>],
    scopes: u32,
    room: usize,
) -> Result<Items<Func>, NoMemory>
    ensures { IfOk result (λ funcs. funcs ≡ n.enters 0 scopes ++ n.all_of n.funcs_of (map placed_of placed.now)) }
{
    let mut funcs = Items::with_room(alloc, room)?;
    add_enters(scopes, &mut funcs)?;
    for block in placed {
        add_funcs(alloc, block, &mut funcs)?;
    }
    Ok(funcs)
}

fn add_enters(scopes: u32, funcs: &mut Items<Func>) -> Result<(), NoMemory>
    ensures { OnOk result (funcs.new ≡ funcs.old ++ n.enters 0 scopes) }
{
    for scope in 0..scopes {
        funcs.push(Func::Enter { scope })?;
    }
    Ok(())
}

fn add_funcs(alloc: Global, p: &Placed<'_>, funcs: &mut Items<Func>) -> Result<(), NoMemory>
    ensures { OnOk result (funcs.new ≡ funcs.old ++ n.funcs_of (placed_of p.now)) }
{
    let mut node = p.at.node;
    for row in p.block.states.as_slice() {
        add_func(alloc, node, &row.1, funcs)?;
        node += 1;
    }
    Ok(())
}

fn add_func(
    alloc: Global,
    node: u32,
    state: &State,
    funcs: &mut Items<Func>,
) -> Result<(), NoMemory>
    ensures { OnOk result (funcs.new ≡ funcs.old ++ n.func_from node (state_tree state.now)) }
{
    match state {
        State::Task { resource, .. } => {
            let resource = copy_text(alloc, resource)?;
            funcs.push(Func::Task { node, resource })
        }
        State::Parallel { .. } => funcs.push(Func::Join { node }),
        State::Map { .. } => funcs.push(Func::Join { node }),
        _ => Ok(()),
    }
}

/// The scopes of the blocks of that list.
pub fn scope_table(alloc: Global, placed: &[Placed<'_>]) -> Result<Items<Scope>, NoMemory>
    ensures { IfOk result (λ scopes. scopes ≡ map n.scope_of (map placed_of placed.now)) }
{
    let mut scopes = Items::with_room(alloc, placed.len())?;
    for block in placed {
        let parent = block.parent;
        let start = block.first_spot().number(&block.block.start);
        scopes.push(Scope { parent, start })?;
    }
    Ok(scopes)
}
