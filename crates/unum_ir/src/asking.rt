//! What is read off a flat form by the number of a function.

ghost use Rattle.std.specs.Prelude.{◌≡◌, slice_get, length, IsSome, Some, IfOk};
ghost use Rattle.std.specs.Option.{option_copied};
ghost use Rattle.unum_ir.specs.Flat.{head_of, limit_of};
ghost use Rattle.unum_ir.specs.Calls as read;
ghost use Rattle.unum_ir.specs.Views.{begun_of};

use crate::beginning::begin;
use crate::combining::put_together;
use crate::flow::prepare;
use crate::inputs::{map_input, map_input_given, parallel_input};
use crate::ir::{Func, Ir, Node, Op};
use crate::onward::Begun;
use crate::trouble::FlowError;
use crate::walks::{name_in, node_at};
use std::alloc::Global;
use unum_json::{Items, Json, NoMemory, Outcome, Text, copy};

/// The node of that function, where it is no Enter.
fn its_node(ir: &Ir, func: u32) -> Option<&Node>
    ensures { option_copied result ≡ read.its_node ir.now func }
{
    match ir.funcs.get(func as usize) {
        None | Some(Func::Enter { .. }) => None,
        Some(Func::Task { node, .. }) => node_at(ir, *node),
        Some(Func::Join { node }) => node_at(ir, *node),
    }
}

/// What a node gives its function, by its raw data. `None` where it calls none.
fn call_input(alloc: Global, node: &Node, raw: &Json) -> Result<Option<Json>, NoMemory>
    ensures { IfOk result (λ x. x ≡ read.call_in (read.begun (Some node.now) raw.now)) }
{
    match begin(alloc, node, raw)? {
        Begun::Calls { func: _, input } => Ok(Some(input)),
        other => {
            drop(other);
            Ok(None)
        }
    }
}

/// What a Task's function is given, by the raw data with which its node was entered.
///
/// The only error is want of memory.
///
/// Source: Amazon States Language, "Task State".
pub fn effective(alloc: Global, ir: &Ir, func: u32, raw: &Json) -> Result<Json, NoMemory>
    requires { IsSome (read.effective ir.now func raw.now) }
    ensures { IfOk result (λ x. read.effective ir.now func raw.now ≡ Some x) }
{
    let node = its_node(ir, func).unwrap();
    let found = call_input(alloc, node, raw)?;
    Ok(found.unwrap())
}

/// The input of the branch with that index, by the raw data with which the fan of a Join was entered. `None` exactly where
/// the function is no fan's, where these raw data give it no inputs, or past the last of them.
///
/// The only error is want of memory.
///
/// Source: Amazon States Language, "Parallel State" and "Map State".
pub fn input_of(
    alloc: Global,
    ir: &Ir,
    func: u32,
    index: u32,
    raw: &Json,
) -> Result<Option<Json>, NoMemory>
    ensures { IfOk result (λ x. x ≡ read.input_of ir.now func index raw.now) }
{
    let Some(node) = its_node(ir, func) else {
        return Ok(None);
    };
    match &node.op {
        Op::Parallel { shape, scopes, .. } => match prepare(alloc, shape, raw) {
            Ok(prepared) => parallel_input(alloc, scopes.len(), index, &prepared),
            Err(FlowError::Named(_)) => Ok(None),
            Err(FlowError::NoMemory) => Err(NoMemory),
        },
        Op::Map {
            shape,
            items,
            selector,
            ..
        } => match prepare(alloc, shape.shape(), raw) {
            Ok(prepared) => map_input(alloc, items, selector, index, &prepared),
            Err(FlowError::Named(_)) => Ok(None),
            Err(FlowError::NoMemory) => Err(NoMemory),
        },
        _ => Ok(None),
    }
}

/// The same, where there is one. Of a Map's inputs none is made for the other branches.
///
/// The only error is want of memory.
///
/// Source: Amazon States Language, "Parallel State" and "Map State".
pub fn input_given(
    alloc: Global,
    ir: &Ir,
    func: u32,
    index: u32,
    raw: &Json,
) -> Result<Json, NoMemory>
    requires { IsSome (read.input_of ir.now func index raw.now) }
    ensures { IfOk result (λ x. read.input_of ir.now func index raw.now ≡ Some x) }
{
    let node = its_node(ir, func).unwrap();
    match &node.op {
        Op::Map {
            shape,
            items,
            selector,
            ..
        } => match prepare(alloc, shape.shape(), raw) {
            Ok(prepared) => map_input_given(alloc, items, selector, index, &prepared),
            Err(FlowError::Named(_)) => unreachable!(),
            Err(FlowError::NoMemory) => Err(NoMemory),
        },
        _ => Ok(input_of(alloc, ir, func, index, raw)?.unwrap()),
    }
}

/// What the outcomes of a fan's branches come to: the failure of the branch with the lowest index, or else the array of the
/// outputs. An array that is too large is a failure whose cause is the name of the fan's state.
///
/// The only error is want of memory.
///
/// Source: Amazon States Language, "Parallel State" and "Map State".
pub fn combine(
    alloc: Global,
    ir: &Ir,
    func: u32,
    outcomes: Items<Outcome>,
) -> Result<Outcome, NoMemory>
    ensures { IfOk result (λ o. o ≡ read.combined ir.now func outcomes) }
{
    put_together(alloc, name_in(its_node(ir, func)), outcomes)
}

/// How many branches of that function's fan may run at once, 0 for any number.
///
/// Source: Amazon States Language, "Map State", MaxConcurrency.
pub fn width(ir: &Ir, func: u32) -> u32
    ensures { result ≡ read.width ir.now func }
{
    match its_node(ir, func) {
        Some(node) => match &node.op {
            Op::Map { limit, .. } => *limit,
            _ => 0,
        },
        None => 0,
    }
}

/// The resource that a Task calls. `None` exactly where the function is no Task's.
///
/// Source: Amazon States Language, "Task State".
pub fn resource_of(ir: &Ir, func: u32) -> Option<&Text>
    ensures { option_copied result ≡ read.resource_of (slice_get ir.now.funcs func) }
{
    match ir.funcs.get(func as usize) {
        Some(Func::Task { resource, .. }) => Some(resource),
        _ => None,
    }
}

/// The scope of a node, and 0 past the table.
fn scope_of(ir: &Ir, label: u32) -> u32
    ensures { result ≡ read.scope_in (slice_get ir.now.nodes label) }
{
    match node_at(ir, label) {
        Some(node) => node.scope,
        None => 0,
    }
}

/// The Enter of the scope that a function runs in, and 0 past the table.
pub fn enter_of(ir: &Ir, func: u32) -> u32
    ensures { result ≡ read.enter_of ir.now func }
{
    match ir.funcs.get(func as usize) {
        None => 0,
        Some(Func::Enter { scope }) => *scope,
        Some(Func::Task { node, .. }) => scope_of(ir, *node),
        Some(Func::Join { node }) => scope_of(ir, *node),
    }
}

/// The Join of the fan that holds the scope which a function runs in. `None` for the root's.
pub fn parent_of(ir: &Ir, func: u32) -> Option<u32>
    ensures { result ≡ read.parent_of ir.now func }
{
    match ir.scopes.get(enter_of(ir, func) as usize) {
        Some(scope) => scope.parent,
        None => None,
    }
}

/// How many numbers the used list of a function's node has, 0 for an Enter.
///
/// Source: Amazon States Language, "Retrying After Error".
pub fn retriers(ir: &Ir, func: u32) -> usize
    ensures { result ≡ read.retriers ir.now func }
{
    match its_node(ir, func) {
        Some(node) => match &node.op {
            Op::Task { care, .. } | Op::Parallel { care, .. } | Op::Map { care, .. } => {
                care.retry.len()
            }
            _ => 0,
        },
        None => 0,
    }
}
