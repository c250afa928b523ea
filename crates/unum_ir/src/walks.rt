//! Walks over a flat form: from a node to where its scope stops next, and on after an answer.
//!
//! Source: Amazon States Language, "Transitions".

ghost use Rattle.std.specs.Prelude.{◌≡◌, [], length, slice_get, IfOk};
ghost use Rattle.std.specs.Option.{option_copied};
ghost use Rattle.asl_model.specs.Head.{zeros};
ghost use Rattle.asl_model.specs.Data.{failure, no_state_error, repeat};
ghost use Rattle.unum_ir.specs.Flat.{node_at, name_in, func_of, or_zero, branches_of, children, used_by, flat_on, flat_by, start_in, after_enter, after_node, flat, flat_after};
ghost use Rattle.unum_ir.specs.Views.{onward_of, begun_of};
ghost use Rattle.unum_ir.specs.Walk.{Going, StepIs, step_go};

use crate::beginning::begin;
use crate::finishing::finish;
use crate::flow::failure;
use crate::ir::{Func, Ir, Node, Op};
use crate::onward::{Begun, Onward, Used};
use crate::stop::{Child, Stop};
use asl_model::Retrier;
use std::alloc::Global;
use unum_json::{Items, Json, NoMemory, Outcome, copy, copy_outcome};

/// How many nodes a scope enters at most.
const HOP_LIMIT: u32 = 2000;

/// What comes of a node that is entered: another one is entered, or the scope stops.
#[derive(Drop)]
pub enum Step {
    /// Another node is entered, with this data, and at a retry with the used list.
    Goes {
        next: u32,
        data: Json,
        again: Option<Used>,
    },
    /// The scope stops here.
    Stops(Stop),
}

/// The node with a number, or `None` past the table.
pub fn node_at(ir: &Ir, label: u32) -> Option<&Node>
    ensures { option_copied result ≡ node_at ir.now label }
{
    ir.nodes.get(label as usize)
}

/// The name of a node, and no text past the table.
pub fn name_in<'n>(node: Option<&'n Node>) -> &'n str
    ensures { result.now ≡ name_in (option_copied node.entry) }
{
    match node {
        Some(node) => node.name.as_str(),
        None => "",
    }
}

/// A 0 for each retrier.
fn zeros(alloc: Global, retriers: &Items<Retrier>) -> Result<Used, NoMemory>
    ensures { IfOk result (λ used. used ≡ zeros retriers.now) }
{
    let mut used = Items::new(alloc);
    for _retrier in retriers.as_slice() {
        used.push(0)?;
    }
    Ok(used)
}

/// The list of an entry: at a retry the one that is handed on, and else a new one.
fn used_by(alloc: Global, op: &Op, again: Option<Used>) -> Result<Used, NoMemory>
    ensures { IfOk result (λ used. used ≡ used_by op.now again) }
{
    if let Some(used) = again {
        return Ok(used);
    }
    match op {
        Op::Task { care, .. } | Op::Parallel { care, .. } | Op::Map { care, .. } => {
            zeros(alloc, &care.retry)
        }
        _ => Ok(Items::new(alloc)),
    }
}

/// Each input with the Enter of its scope.
fn paired(alloc: Global, scopes: &Items<u32>, inputs: Items<Json>) -> Result<Items<Child>, NoMemory>
    ensures { IfOk result (λ made. made ≡ children scopes.now inputs) }
{
    let mut made: Items<Child> = Items::new(alloc);
    for input in inputs.into_vec() {
        let Some(func) = scopes.get(made.len()) else {
            drop(input);
            return Ok(made);
        };
        made.push(Child { func: *func, input })?;
    }
    Ok(made)
}

/// Each input with the Enter of the same scope.
fn repeated(alloc: Global, scope: u32, inputs: Items<Json>) -> Result<Items<Child>, NoMemory>
    ensures { IfOk result (λ made. made ≡ children (repeat (length inputs) scope) inputs) }
{
    let mut made = Items::new(alloc);
    for input in inputs.into_vec() {
        made.push(Child { func: scope, input })?;
    }
    Ok(made)
}

/// The branches of a fan's node, each with its input.
fn branches(alloc: Global, op: &Op, inputs: Items<Json>) -> Result<Items<Child>, NoMemory>
    ensures { IfOk result (λ made. made ≡ children (branches_of op.now (length inputs)) inputs) }
{
    match op {
        Op::Parallel { scopes, .. } => paired(alloc, scopes, inputs),
        Op::Map { scope, .. } => repeated(alloc, *scope, inputs),
        _ => {
            drop(inputs);
            Ok(Items::new(alloc))
        }
    }
}

/// The function of a Task or a fan, and 0 for any other node.
fn func_of(op: &Op) -> u32
    ensures { result ≡ or_zero (func_of op.now) }
{
    match op {
        Op::Task { func, .. } | Op::Parallel { func, .. } | Op::Map { func, .. } => *func,
        _ => 0,
    }
}

/// A node that goes on leads to another one, or to the end of its scope.
fn step_of(onward: Onward) -> Step
    ensures { (go : Going) → flat_on (onward_of onward) go ≡ step_go result go }
{
    match onward {
        Onward::Goes { next, data, again } => Step::Goes { next, data, again },
        Onward::Ends(outcome) => Step::Stops(Stop::End(outcome)),
    }
}

/// The stop at a fan that was entered with these raw data and this list used.
fn fan_stop(
    alloc: Global,
    op: &Op,
    hop: u32,
    raw: Json,
    used: Used,
    inputs: Items<Json>,
) -> Result<Stop, NoMemory>
    ensures { IfOk result (λ s. s ≡ Stop.Fan (or_zero (func_of op.now)) hop raw used (children (branches_of op.now (length inputs)) inputs)) }
{
    match branches(alloc, op, inputs) {
        Ok(children) => Ok(Stop::Fan {
            func: func_of(op),
            hop,
            raw,
            used,
            children,
        }),
        Err(NoMemory) => {
            drop(used);
            drop(raw);
            Err(NoMemory)
        }
    }
}

/// What comes of a node that was entered with these raw data and this list used, after what it does first.
fn step_at(
    alloc: Global,
    op: &Op,
    hop: u32,
    raw: Json,
    used: Used,
    begun: Begun,
) -> Result<Step, NoMemory>
    ensures { IfOk result (λ s. (go : Going) → flat_by op.now hop raw used (begun_of begun) go ≡ step_go s go) }
{
    match begun {
        Begun::On(onward) => {
            drop(used);
            drop(raw);
            Ok(step_of(onward))
        }
        Begun::Calls { func, input } => {
            drop(input);
            Ok(Step::Stops(Stop::Call {
                func,
                hop,
                raw,
                used,
            }))
        }
        Begun::Fans(inputs) => Ok(Step::Stops(fan_stop(alloc, op, hop, raw, used, inputs)?)),
    }
}

/// The end of a scope that would enter a node past the table. No well formed flat form comes to it.
#[tactic(auto, unfolding(asl_model::specs::Data::no_state_error))]
fn end_astray(alloc: Global) -> Result<Step, NoMemory>
    ensures { IfOk result (λ s. s ≡ Step.Stops (Stop.End (failure no_state_error []))) }
{
    Ok(Step::Stops(Stop::End(failure(alloc, "no such state", "")?)))
}

/// What comes of entering a node.
fn enter(
    alloc: Global,
    ir: &Ir,
    label: u32,
    hop: u32,
    raw: Json,
    again: Option<Used>,
) -> Result<Step, NoMemory>
    ensures { IfOk result (λ s. StepIs ir.now s label hop raw again) }
{
    let Some(node) = node_at(ir, label) else {
        drop(again);
        drop(raw);
        return end_astray(alloc);
    };
    let Ok(used) = used_by(alloc, &node.op, again) else {
        drop(raw);
        return Err(NoMemory);
    };
    match begin(alloc, node, &raw) {
        Ok(begun) => step_at(alloc, &node.op, hop, raw, used, begun),
        Err(NoMemory) => {
            drop(used);
            drop(raw);
            Err(NoMemory)
        }
    }
}

/// Where a scope stops next, from that node on.
#[tactic(auto, unfolding(asl_model::specs::Central::hop_limit, asl_model::specs::Data::hop_limit_error))]
fn first_stop(
    alloc: Global,
    ir: &Ir,
    label: u32,
    hop: u32,
    raw: Json,
    again: Option<Used>,
) -> Result<Stop, NoMemory>
    ensures { IfOk result (λ s. s ≡ flat ir.now label hop raw again) }
{
    let mut label = label;
    let mut raw = raw;
    let mut again = again;
    for at in hop..HOP_LIMIT {
        match enter(alloc, ir, label, at, raw, again)? {
            Step::Stops(stop) => return Ok(stop),
            Step::Goes {
                next,
                data,
                again: used,
            } => {
                label = next;
                raw = data;
                again = used;
            }
        }
    }
    drop(again);
    drop(raw);
    let cause = name_in(node_at(ir, label));
    Ok(Stop::End(failure(alloc, "Unum.HopLimit", cause)?))
}

/// Where a scope stops next, from that node on, which is entered at that hop with that data.
///
/// The only error is want of memory. A node past the table ends the scope; a well formed flat form leads to none.
///
/// Source: Amazon States Language, "Transitions".
pub fn walk(alloc: Global, ir: &Ir, label: u32, hop: u32, value: Json) -> Result<Stop, NoMemory>
    ensures { IfOk result (λ s. s ≡ flat ir.now label hop value None) }
{
    first_stop(alloc, ir, label, hop, value, None)
}

/// The node at which a scope starts, and 0 past the table.
fn start_of(ir: &Ir, scope: u32) -> u32
    ensures { result ≡ start_in (slice_get ir.now.scopes scope) }
{
    match ir.scopes.get(scope as usize) {
        Some(row) => row.start,
        None => 0,
    }
}

/// Where the scope stops that an Enter with this answer opens.
fn after_enter(alloc: Global, ir: &Ir, scope: u32, answer: &Outcome) -> Result<Stop, NoMemory>
    ensures { IfOk result (λ s. s ≡ after_enter ir.now scope answer.now) }
{
    match answer {
        Outcome::Done(value) => {
            let raw = copy(alloc, value)?;
            walk(alloc, ir, start_of(ir, scope), 0, raw)
        }
        Outcome::Failed(_) => Ok(Stop::End(copy_outcome(alloc, answer)?)),
    }
}

/// Where the scope stops after that node had this answer.
fn after_node(
    alloc: Global,
    ir: &Ir,
    label: u32,
    hop: u32,
    raw: &Json,
    used: &Used,
    answer: &Outcome,
) -> Result<Stop, NoMemory>
    ensures { IfOk result (λ s. s ≡ after_node ir.now label (node_at ir.now label) hop raw.now used.now answer.now) }
{
    let Some(node) = node_at(ir, label) else {
        return Ok(Stop::End(copy_outcome(alloc, answer)?));
    };
    match finish(alloc, label, node, raw, used, answer)? {
        Onward::Goes { next, data, again } => {
            first_stop(alloc, ir, next, hop.saturating_add(1), data, again)
        }
        Onward::Ends(outcome) => Ok(Stop::End(outcome)),
    }
}

/// Where a scope stops after the answer of that function at that hop. Its node was entered with these raw data and this list used,
/// of which an Enter has none.
///
/// The only error is want of memory. The answer of a function past the table ends the scope.
///
/// Source: Amazon States Language, "Transitions" and "Errors".
pub fn resume(
    alloc: Global,
    ir: &Ir,
    func: u32,
    hop: u32,
    raw: &Json,
    used: &Used,
    answer: &Outcome,
) -> Result<Stop, NoMemory>
    ensures { IfOk result (λ s. s ≡ flat_after ir.now func hop raw.now used.now answer.now) }
{
    match ir.funcs.get(func as usize) {
        None => Ok(Stop::End(copy_outcome(alloc, answer)?)),
        Some(Func::Enter { scope }) => after_enter(alloc, ir, *scope, answer),
        Some(Func::Task { node, .. }) => after_node(alloc, ir, *node, hop, raw, used, answer),
        Some(Func::Join { node }) => after_node(alloc, ir, *node, hop, raw, used, answer),
    }
}
