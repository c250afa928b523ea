//! A whole flat form, as it is printed.

ghost use Rattle.std.specs.Prelude.{◌≡◌, ◌++◌, IfOk, map};
ghost use Rattle.unum_json.specs.declared.value.Json as json;
ghost use Rattle.unum_json.specs.Written.{text};
ghost use Rattle.unum_ir.specs.WellFormed.{IsWellFormed};
ghost use Rattle.ir_text.specs.Printed.{func_value, node_value, scope_value, ir_value};

use crate::nodes::{func_value, node_value, scope_value};
use crate::objects::put;
use std::alloc::Global;
use unum_ir::{Func, Ir, Node, Scope};
use unum_json::{Fields, Items, Json, NoMemory, Text, array, object, to_text};

fn funcs_value(alloc: Global, funcs: &Items<Func>) -> Result<Json, NoMemory>
    ensures { IfOk result (λ v. v ≡ json.Arr (map func_value funcs.now)) }
{
    let mut values = Items::with_room(alloc, funcs.len())?;
    for func in funcs.as_slice() {
        values.push(func_value(alloc, func)?)?;
    }
    array(alloc, values)
}

fn nodes_value(alloc: Global, nodes: &Items<Node>) -> Result<Json, NoMemory>
    ensures { IfOk result (λ v. v ≡ json.Arr (map node_value nodes.now)) }
{
    let mut values = Items::with_room(alloc, nodes.len())?;
    for node in nodes.as_slice() {
        values.push(node_value(alloc, node)?)?;
    }
    array(alloc, values)
}

fn scopes_value(alloc: Global, scopes: &Items<Scope>) -> Result<Json, NoMemory>
    ensures { IfOk result (λ v. v ≡ json.Arr (map scope_value scopes.now)) }
{
    let mut values = Items::with_room(alloc, scopes.len())?;
    for scope in scopes.as_slice() {
        values.push(scope_value(alloc, scope)?)?;
    }
    array(alloc, values)
}

/// The value that a flat form is printed as.
pub(crate) fn ir_value(alloc: Global, ir: &Ir) -> Result<Json, NoMemory>
    ensures { IfOk result (λ v. v ≡ ir_value ir.now) }
{
    let mut fields = Fields::new(alloc);
    let value = funcs_value(alloc, &ir.funcs)?;
    put(alloc, &mut fields, "funcs", value)?;
    let value = nodes_value(alloc, &ir.nodes)?;
    put(alloc, &mut fields, "nodes", value)?;
    let value = scopes_value(alloc, &ir.scopes)?;
    put(alloc, &mut fields, "scopes", value)?;
    object(alloc, fields)
}

/// The text of a well formed flat form, which is one line without blanks, with the keys of each object in rising byte order.
pub fn print(alloc: Global, ir: &Ir) -> Result<Text, NoMemory>
    requires { IsWellFormed ir.now }
    ensures { IfOk result (λ t. t ≡ text (ir_value ir.now)) }
{
    let value = ir_value(alloc, ir)?;
    let text = to_text(alloc, &value);
    drop(value);
    text
}
