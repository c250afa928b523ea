//! What a node does first.
//!
//! Source: Amazon States Language, "State Types".

ghost use Rattle.std.specs.Prelude.{◌≡◌, ℕ, IfOk, Result};
ghost use Rattle.asl_model.specs.Data.{Text as ModelText};
ghost use Rattle.asl_model.specs.Head.{OnwardOf, BegunOf, begins, result_or};
ghost use Rattle.unum_ir.specs.Flat.{care_of, head_of};
ghost use Rattle.unum_ir.specs.Given.{Gives};
ghost use Rattle.unum_ir.specs.Kinds.{IsFan, on_or_failed, begun_or_caught, passes, chooses_with, chooses, succeeds, calls, parallel_fans, map_fans};
ghost use Rattle.unum_ir.specs.Views.{onward_of, begun_of};

use crate::care::catch;
use crate::flow::{failure, hand_on, prepare, put_out};
use crate::inputs::{map_inputs, parallel_inputs};
use crate::ir::{Node, NodeCare, NodeRule, Op};
use crate::onward::{Begun, Onward, leaves};
use crate::rules::choose_next;
use crate::trouble::FlowError;
use asl_model::ItemTemplate;
use asl_paths::Path;
use asl_shape::Shape;
use std::alloc::Global;
use unum_json::{Items, Json, NoMemory, Outcome, Text};

/// An error has the node's name as cause, and ends the scope.
fn or_fail(alloc: Global, name: &Text, made: Result<Onward, FlowError>) -> Result<Begun, NoMemory>
    ensures { (due : Result (OnwardOf ℕ) ModelText) → Gives onward_of made due → IfOk result (λ b. begun_of b ≡ on_or_failed name.now due) }
{
    match made {
        Ok(onward) => Ok(Begun::On(onward)),
        Err(FlowError::Named(error)) => {
            let ended = failure(alloc, error.name(), name.as_str())?;
            Ok(Begun::On(Onward::Ends(ended)))
        }
        Err(FlowError::NoMemory) => Err(NoMemory),
    }
}

/// An error goes to the catchers at once.
fn or_catch(
    alloc: Global,
    name: &Text,
    raw: &Json,
    care: &NodeCare,
    made: Result<Begun, FlowError>,
) -> Result<Begun, NoMemory>
    ensures { (due : Result (BegunOf ℕ ℕ) ModelText) → Gives begun_of made due → IfOk result (λ b. begun_of b ≡ begun_or_caught name.now raw.now (care_of care.now) due) }
{
    match made {
        Ok(begun) => Ok(begun),
        Err(FlowError::Named(error)) => {
            let cause = name.as_str();
            let onward = catch(alloc, name, raw, error.name(), cause, false, &care.catch)?;
            Ok(Begun::On(onward))
        }
        Err(FlowError::NoMemory) => Err(NoMemory),
    }
}

/// The Result of a Pass, or else its prepared data.
fn result_or<'a>(constant: &'a Option<Json>, prepared: &'a Json) -> &'a Json
    ensures { result.now ≡ result_or constant.now prepared.now }
{
    match constant {
        Some(constant) => constant,
        None => prepared,
    }
}

/// What a Pass does.
///
/// Source: Amazon States Language, "Pass State".
fn pass_on(
    alloc: Global,
    shape: &Shape,
    constant: &Option<Json>,
    next: Option<u32>,
    raw: &Json,
) -> Result<Onward, FlowError>
    ensures { Gives onward_of result (passes shape.now constant.now next raw.now) }
{
    let prepared = prepare(alloc, shape, raw)?;
    let value = hand_on(alloc, shape, raw, result_or(constant, &prepared));
    drop(prepared);
    Ok(leaves(next, value?))
}

/// Where a Choice leads with its prepared data.
fn choose_with(
    alloc: Global,
    shape: &Shape,
    rules: &Items<NodeRule>,
    default: Option<u32>,
    prepared: &Json,
) -> Result<Onward, FlowError>
    ensures { Gives onward_of result (chooses_with shape.now rules.now default prepared.now) }
{
    let next = choose_next(rules, default, prepared)?;
    let data = put_out(alloc, shape, prepared)?;
    Ok(Onward::Goes {
        next,
        data,
        again: None,
    })
}

/// What a Choice does.
///
/// Source: Amazon States Language, "Choice State".
fn choose_on(
    alloc: Global,
    shape: &Shape,
    rules: &Items<NodeRule>,
    default: Option<u32>,
    raw: &Json,
) -> Result<Onward, FlowError>
    ensures { Gives onward_of result (chooses shape.now rules.now default raw.now) }
{
    let prepared = prepare(alloc, shape, raw)?;
    let made = choose_with(alloc, shape, rules, default, &prepared);
    drop(prepared);
    made
}

/// What a Succeed does.
///
/// Source: Amazon States Language, "Succeed State".
fn succeed(alloc: Global, shape: &Shape, raw: &Json) -> Result<Onward, FlowError>
    ensures { Gives onward_of result (succeeds shape.now raw.now) }
{
    let prepared = prepare(alloc, shape, raw)?;
    let value = put_out(alloc, shape, &prepared);
    drop(prepared);
    Ok(Onward::Ends(Outcome::Done(value?)))
}

/// What a Task does first.
///
/// Source: Amazon States Language, "Task State".
fn call(alloc: Global, shape: &Shape, func: u32, raw: &Json) -> Result<Begun, FlowError>
    ensures { Gives begun_of result (calls shape.now func raw.now) }
{
    let input = prepare(alloc, shape, raw)?;
    Ok(Begun::Calls { func, input })
}

/// What a Parallel with so many branches does first.
///
/// Source: Amazon States Language, "Parallel State".
fn fan_parallel(alloc: Global, shape: &Shape, count: usize, raw: &Json) -> Result<Begun, FlowError>
    ensures { Gives begun_of result (parallel_fans shape.now count raw.now) }
{
    let prepared = prepare(alloc, shape, raw)?;
    let inputs = parallel_inputs(alloc, count, &prepared);
    drop(prepared);
    Ok(Begun::Fans(inputs?))
}

/// What a Map does first.
///
/// Source: Amazon States Language, "Map State".
fn fan_map(
    alloc: Global,
    shape: &Shape,
    items: &Path,
    selector: &Option<ItemTemplate>,
    raw: &Json,
) -> Result<Begun, FlowError>
    ensures { Gives begun_of result (map_fans shape.now items.now selector.now raw.now) }
{
    let prepared = prepare(alloc, shape, raw)?;
    let inputs = map_inputs(alloc, items, selector, &prepared);
    drop(prepared);
    Ok(Begun::Fans(inputs?))
}

/// What the fan of this name does first with its raw data.
fn begin_fan(alloc: Global, name: &Text, op: &Op, raw: &Json) -> Result<Begun, NoMemory>
    requires { IsFan op.now }
    ensures { IfOk result (λ b. begun_of b ≡ begins name.now (head_of op.now) raw.now) }
{
    match op {
        Op::Parallel {
            shape,
            scopes,
            care,
            ..
        } => {
            let made = fan_parallel(alloc, shape, scopes.len(), raw);
            or_catch(alloc, name, raw, care, made)
        }
        Op::Map {
            shape,
            items,
            selector,
            care,
            ..
        } => {
            let made = fan_map(alloc, shape.shape(), items, selector, raw);
            or_catch(alloc, name, raw, care, made)
        }
        _ => unreachable!(),
    }
}

/// What a node does first with its raw data.
///
/// The only error is want of memory.
///
/// Source: Amazon States Language, "State Types".
pub fn begin(alloc: Global, node: &Node, raw: &Json) -> Result<Begun, NoMemory>
    ensures { IfOk result (λ b. begun_of b ≡ begins node.now.name (head_of node.now.op) raw.now) }
{
    let name = &node.name;
    match &node.op {
        Op::Task {
            shape,
            func,
            care,
            ..
        } => or_catch(alloc, name, raw, care, call(alloc, shape, *func, raw)),
        Op::Pass {
            shape,
            result,
            next,
        } => {
            let made = pass_on(alloc, shape.shape(), result, *next, raw);
            or_fail(alloc, name, made)
        }
        Op::Choice {
            shape,
            rules,
            default,
        } => {
            let made = choose_on(alloc, shape.shape(), rules, *default, raw);
            or_fail(alloc, name, made)
        }
        Op::Succeed { shape } => or_fail(alloc, name, succeed(alloc, shape.shape(), raw)),
        Op::Fail { error, cause } => {
            let ended = failure(alloc, error.as_str(), cause.as_str())?;
            Ok(Begun::On(Onward::Ends(ended)))
        }
        fan => begin_fan(alloc, name, fan, raw),
    }
}
