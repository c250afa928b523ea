//! What a state does first.
//!
//! Source: Amazon States Language, "State Types".

ghost use Rattle.std.specs.Prelude.{◌≡◌, IfOk, Result};
ghost use Rattle.asl_model.specs.Data.{Text};
ghost use Rattle.asl_model.specs.Head.{result_or};
ghost use Rattle.asl_model.specs.Step.{Onward as OnwardSeen, Begun as BegunSeen, standard};
ghost use Rattle.asl_model.specs.Tree.{care_of, state_tree};
ghost use Rattle.unum_ir.specs.Given.{Gives};
ghost use Rattle.central_model.specs.Kinds.{IsFan, on_or_failed, begun_or_caught, passes, next_state, chooses_with, chooses, succeeds, calls, parallel_fans, map_fans};
ghost use Rattle.central_model.specs.Views.{onward_of, begun_of};

use crate::care::catch;
use crate::onward::{Begun, Onward, leaves};
use crate::rules::choose_next;
use asl_model::{After, Care, ItemTemplate, State, TopRule};
use asl_paths::Path;
use asl_shape::Shape;
use std::alloc::Global;
use unum_ir::{FlowError, failure, hand_on, map_inputs, parallel_inputs, prepare, put_out};
use unum_json::{Items, Json, NoMemory, Outcome, Text};

/// An error has the state's name as cause, and ends the scope.
fn or_fail<'m>(
    alloc: Global,
    name: &Text,
    made: Result<Onward<'m>, FlowError>,
) -> Result<Begun<'m>, NoMemory>
    ensures { (due : Result OnwardSeen Text) → Gives onward_of made.entry due → IfOk result (λ b. begun_of b ≡ on_or_failed name.now due) }
{
    match made {
        Ok(onward) => Ok(Begun::On(onward)),
        Err(FlowError::Named(error)) => {
            let ended = failure(alloc, error.name(), name.as_str())?;
            Ok(Begun::On(Onward::Ends(ended)))
        }
        Err(FlowError::NoMemory) => Err(NoMemory),
    }
}

/// An error goes to the catchers at once.
fn or_catch<'m>(
    alloc: Global,
    name: &Text,
    raw: &Json,
    care: &'m Care,
    made: Result<Begun<'m>, FlowError>,
) -> Result<Begun<'m>, NoMemory>
    ensures { (due : Result BegunSeen Text) → Gives begun_of made.entry due → IfOk result (λ b. begun_of b ≡ begun_or_caught name.now raw.now (care_of care.now) due) }
{
    match made {
        Ok(begun) => Ok(begun),
        Err(FlowError::Named(error)) => {
            let cause = name.as_str();
            let onward = catch(alloc, name, raw, error.name(), cause, false, &care.catch)?;
            Ok(Begun::On(onward))
        }
        Err(FlowError::NoMemory) => Err(NoMemory),
    }
}

/// The Result of a Pass, or else its prepared data.
fn result_or<'a>(constant: &'a Option<Json>, prepared: &'a Json) -> &'a Json
    ensures { result.now ≡ result_or constant.now prepared.now }
{
    match constant {
        Some(constant) => constant,
        None => prepared,
    }
}

/// What a Pass does.
///
/// Source: Amazon States Language, "Pass State".
fn pass_on<'m>(
    alloc: Global,
    shape: &Shape,
    constant: &Option<Json>,
    after: &'m After,
    raw: &Json,
) -> Result<Onward<'m>, FlowError>
    ensures { Gives onward_of result (passes shape.now constant.now after.now.next raw.now) }
{
    let prepared = prepare(alloc, shape, raw)?;
    let value = hand_on(alloc, shape, raw, result_or(constant, &prepared));
    drop(prepared);
    Ok(leaves(after, value?))
}

/// Where a Choice leads with its prepared data.
fn choose_with<'m>(
    alloc: Global,
    shape: &Shape,
    rules: &'m Items<TopRule>,
    default: &'m Option<Text>,
    prepared: &Json,
) -> Result<Onward<'m>, FlowError>
    ensures { Gives onward_of result (chooses_with shape.now rules.now default.now prepared.now) }
{
    let next = choose_next(rules, default, prepared)?;
    let data = put_out(alloc, shape, prepared)?;
    Ok(Onward::Goes {
        next,
        data,
        again: None,
    })
}

/// What a Choice does.
///
/// Source: Amazon States Language, "Choice State".
fn choose_on<'m>(
    alloc: Global,
    shape: &Shape,
    rules: &'m Items<TopRule>,
    default: &'m Option<Text>,
    raw: &Json,
) -> Result<Onward<'m>, FlowError>
    ensures { Gives onward_of result (chooses shape.now rules.now default.now raw.now) }
{
    let prepared = prepare(alloc, shape, raw)?;
    let made = choose_with(alloc, shape, rules, default, &prepared);
    drop(prepared);
    made
}

/// What a Succeed does.
///
/// Source: Amazon States Language, "Succeed State".
fn succeed<'m>(alloc: Global, shape: &Shape, raw: &Json) -> Result<Onward<'m>, FlowError>
    ensures { Gives onward_of result (succeeds shape.now raw.now) }
{
    let prepared = prepare(alloc, shape, raw)?;
    let value = put_out(alloc, shape, &prepared);
    drop(prepared);
    Ok(Onward::Ends(Outcome::Done(value?)))
}

/// What a Task does first.
///
/// Source: Amazon States Language, "Task State".
fn call<'m>(
    alloc: Global,
    shape: &Shape,
    resource: &'m Text,
    raw: &Json,
) -> Result<Begun<'m>, FlowError>
    ensures { Gives begun_of result (calls shape.now resource.now raw.now) }
{
    let input = prepare(alloc, shape, raw)?;
    Ok(Begun::Calls { resource, input })
}

/// What a Parallel with so many branches does first.
///
/// Source: Amazon States Language, "Parallel State".
fn fan_parallel<'m>(
    alloc: Global,
    shape: &Shape,
    count: usize,
    raw: &Json,
) -> Result<Begun<'m>, FlowError>
    ensures { Gives begun_of result (parallel_fans shape.now count raw.now) }
{
    let prepared = prepare(alloc, shape, raw)?;
    let inputs = parallel_inputs(alloc, count, &prepared);
    drop(prepared);
    Ok(Begun::Fans(inputs?))
}

/// What a Map does first.
///
/// Source: Amazon States Language, "Map State".
fn fan_map<'m>(
    alloc: Global,
    shape: &Shape,
    items: &Path,
    selector: &Option<ItemTemplate>,
    raw: &Json,
) -> Result<Begun<'m>, FlowError>
    ensures { Gives begun_of result (map_fans shape.now items.now selector.now raw.now) }
{
    let prepared = prepare(alloc, shape, raw)?;
    let inputs = map_inputs(alloc, items, selector, &prepared);
    drop(prepared);
    Ok(Begun::Fans(inputs?))
}

/// What the fan of this name does first with its raw data.
#[tactic(auto, unfolding(asl_model::specs::Step::standard))]
fn begin_fan<'m>(
    alloc: Global,
    name: &'m Text,
    state: &'m State,
    raw: &Json,
) -> Result<Begun<'m>, NoMemory>
    requires { IsFan (state_tree state.now) }
    ensures { IfOk result (λ b. begun_of b ≡ standard.begin name.now (state_tree state.now) raw.now) }
{
    match state {
        State::Parallel {
            shape,
            branches,
            care,
            ..
        } => {
            let made = fan_parallel(alloc, shape, branches.len(), raw);
            or_catch(alloc, name, raw, care, made)
        }
        State::Map {
            shape,
            items,
            selector,
            care,
            ..
        } => {
            let made = fan_map(alloc, shape.shape(), items, selector, raw);
            or_catch(alloc, name, raw, care, made)
        }
        _ => unreachable!(),
    }
}

/// What the state of this name does first with its raw data.
///
/// The only error is want of memory.
///
/// Source: Amazon States Language, "State Types".
#[tactic(auto, unfolding(asl_model::specs::Step::standard))]
pub fn begin<'m>(
    alloc: Global,
    name: &'m Text,
    state: &'m State,
    raw: &Json,
) -> Result<Begun<'m>, NoMemory>
    ensures { IfOk result (λ b. begun_of b ≡ standard.begin name.now (state_tree state.now) raw.now) }
{
    match state {
        State::Task {
            shape,
            resource,
            care,
            ..
        } => or_catch(alloc, name, raw, care, call(alloc, shape, resource, raw)),
        State::Pass {
            shape,
            result,
            after,
        } => {
            let made = pass_on(alloc, shape.shape(), result, after, raw);
            or_fail(alloc, name, made)
        }
        State::Choice {
            shape,
            rules,
            default,
        } => {
            let made = choose_on(alloc, shape.shape(), rules, default, raw);
            or_fail(alloc, name, made)
        }
        State::Succeed { shape } => or_fail(alloc, name, succeed(alloc, shape.shape(), raw)),
        State::Fail { error, cause } => {
            let ended = failure(alloc, error.as_str(), cause.as_str())?;
            Ok(Begun::On(Onward::Ends(ended)))
        }
        fan => begin_fan(alloc, name, fan, raw),
    }
}
