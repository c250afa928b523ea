//! The compiler.

ghost use Rattle.std.specs.Prelude.{◌≡◌, IfOk};
ghost use Rattle.asl_model.specs.Tree.{tree_of};
ghost use Rattle.asl_model.specs.Valid.{IsValid};
ghost use Rattle.asl_model.specs.Walked.{HasRisingNames};
ghost use Rattle.continuation_gen.specs.Numbering as n;

use crate::at::At;
use crate::compiled::Compiled;
use crate::counting::scopes_in;
use crate::placing::place;
use crate::tables::{func_table, node_table, scope_table};
use asl_model::{Machine, count_states};
use std::alloc::Global;
use unum_ir::Ir;
use unum_json::{Items, NoMemory};

/// The machine with its flat form. The machine is dropped where memory runs out.
pub fn compile(alloc: Global, machine: Machine) -> Result<Compiled, NoMemory>
    requires { IsValid (tree_of machine) }
    ensures { IfOk result (λ c. c ≡ machine) }
{
    let made = flat_form(alloc, &machine);
    let Ok(ir) = made else {
        drop(machine);
        return Err(NoMemory);
    };
    Ok(Compiled::from_parts(machine, ir))
}

/// The flat form of a machine.
fn flat_form(alloc: Global, machine: &Machine) -> Result<Ir, NoMemory>
    requires { IsValid (tree_of machine.now) }
    ensures form { IfOk result (λ ir. ir ≡ n.flat_form (tree_of machine.now)) }
    ensures rising { HasRisingNames (tree_of machine.now) }
{
    let states = count_states(machine) as usize;
    let count = scopes_in(&machine.root);
    let mut placed = Items::with_room(alloc, count as usize)?;
    let first = At {
        scope: 0,
        node: 0,
        func: count,
    };
    place(&machine.root, None, first, &mut placed)?;
    let placed = placed.as_slice();
    let room = states.saturating_add(placed.len());
    let scopes = scope_table(alloc, placed)?;
    let funcs = func_table(alloc, placed, count, room)?;
    let nodes = node_table(alloc, placed, states)?;
    Ok(Ir {
        nodes,
        funcs,
        scopes,
    })
}
