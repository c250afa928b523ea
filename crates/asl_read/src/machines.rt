//! The second walk: the machine that a value spells.

ghost use Rattle.std.specs.Prelude.{◌≡◌, [], ◌∷◌, ◌++◌, IfOk, OnOk, None, Some, codes, option_map, unwrap_or};
ghost use Rattle.std.specs.Map.{keys_of};
ghost use Rattle.unum_json.specs.Keys.{IsRising};
ghost use Rattle.unum_json.specs.Parsed.{view};
ghost use Rattle.serde_json.specs.Find.{get};
ghost use Rattle.asl_read.specs.Objects.{under};
ghost use Rattle.asl_read.specs.Faults.{machine_faults};
ghost use Rattle.asl_read.specs.Parts.{json_of};
ghost use Rattle.asl_read.specs.Machines.{block_of, blocks_of, state_of, states_of, machine_of, state_by, type_of, or_else, no_block};
ghost use Rattle.asl_read.specs.Reads.{Reads};

use crate::checking::{check, type_named};
use crate::fault::{ReadFault, under};
use crate::parts::{after_in, care_in};
use crate::rules::top_rules_in;
use crate::shapes::{
    item_template_in, map_shape_in, pass_shape_in, path_in, path_shape_in, shape_in,
};
use crate::table::{How, Kind, StateType};
use crate::values::{json_of, number_in, text_if, text_in};
use asl_model::{Block, Machine, State};
use sqlite_items::Boxed;
use std::alloc::Global;
use unum_json::{Fields, Items, Json, NoMemory, Text, Value};

fn task(alloc: Global, value: &Value) -> Result<State, NoMemory>
    ensures { IfOk result (λ s. s ≡ state_by StateType.Task (view value.now) None None) }
{
    let shape = shape_in(alloc, value)?;
    let resource = text_in(alloc, value, "Resource")?;
    let after = after_in(alloc, value)?;
    let care = care_in(alloc, value)?;
    Ok(State::Task {
        shape,
        resource,
        after,
        care,
    })
}

fn result_in(alloc: Global, value: &Value) -> Result<Option<Json>, NoMemory>
    ensures { IfOk result (λ v. v ≡ option_map json_of (get (codes "Result") (view value.now))) }
{
    match value.get("Result") {
        Some(found) => Ok(Some(json_of(alloc, found)?)),
        None => Ok(None),
    }
}

fn pass(alloc: Global, value: &Value) -> Result<State, NoMemory>
    ensures { IfOk result (λ s. s ≡ state_by StateType.Pass (view value.now) None None) }
{
    let shape = pass_shape_in(alloc, value)?;
    let result = result_in(alloc, value)?;
    let after = after_in(alloc, value)?;
    Ok(State::Pass {
        shape,
        result,
        after,
    })
}

fn choice(alloc: Global, value: &Value) -> Result<State, NoMemory>
    ensures { IfOk result (λ s. s ≡ state_by StateType.Choice (view value.now) None None) }
{
    let shape = path_shape_in(alloc, value)?;
    let rules = top_rules_in(alloc, value)?;
    let default = text_if(alloc, value, "Default")?;
    Ok(State::Choice {
        shape,
        rules,
        default,
    })
}

fn fail(alloc: Global, value: &Value) -> Result<State, NoMemory>
    ensures { IfOk result (λ s. s ≡ state_by StateType.Fail (view value.now) None None) }
{
    let error = text_in(alloc, value, "Error")?;
    let cause = text_in(alloc, value, "Cause")?;
    Ok(State::Fail { error, cause })
}

/// A Parallel of these branches.
fn parallel(alloc: Global, value: &Value, branches: Items<Block>) -> Result<State, NoMemory>
    ensures { IfOk result (λ s. s ≡ state_by StateType.Parallel (view value.now) (Some branches) None) }
{
    let shape = shape_in(alloc, value)?;
    let after = after_in(alloc, value)?;
    let care = care_in(alloc, value)?;
    Ok(State::Parallel {
        shape,
        branches,
        after,
        care,
    })
}

/// The most iterations of a Map that may be set to run at once.
const MOST_AT_ONCE: u32 = 1_000_000;

/// A Map with this body.
fn map(alloc: Global, value: &Value, body: Block) -> Result<State, NoMemory>
    ensures { IfOk result (λ s. s ≡ state_by StateType.Map (view value.now) None (Some body)) }
{
    let shape = map_shape_in(alloc, value)?;
    let items = path_in(alloc, value, "ItemsPath")?;
    let selector = item_template_in(alloc, value)?;
    let after = after_in(alloc, value)?;
    let care = care_in(alloc, value)?;
    let body = Boxed::new(alloc, body)?;
    Ok(State::Map {
        shape,
        items,
        selector,
        body,
        after,
        care,
        limit: number_in(value, "MaxConcurrency", MOST_AT_ONCE, 0),
    })
}

/// The type of a state.
fn type_of(value: &Value) -> StateType
    ensures { result ≡ type_of (view value.now) }
{
    let name = match value.get("Type") {
        Some(kind) => kind.as_str().unwrap_or(""),
        None => "",
    };
    type_named(name).unwrap_or(StateType::Fail)
}

fn succeed(alloc: Global, value: &Value) -> Result<State, NoMemory>
    ensures { IfOk result (λ s. s ≡ state_by StateType.Succeed (view value.now) None None) }
{
    let shape = path_shape_in(alloc, value)?;
    Ok(State::Succeed { shape })
}

/// The value of a Map's body.
fn body_in(value: &Value) -> Option<&Value>
    ensures { option_map (λ v. view v.now) result ≡ or_else (get (codes "ItemProcessor") (view value.now)) (get (codes "Iterator") (view value.now)) }
{
    match value.get("ItemProcessor") {
        Some(found) => Some(found),
        None => value.get("Iterator"),
    }
}

/// Adds a state, whose name is above the others.
fn push_named(
    alloc: Global,
    states: &mut Fields<State>,
    name: &str,
    state: State,
) -> Result<(), NoMemory>
    requires { IsRising (keys_of (states.old ++ (name.now, state) ∷ [])) }
    ensures { OnOk result (states.new ≡ states.old ++ (name.now, state) ∷ []) }
{
    let name = Text::from_str(alloc, name)?;
    states.push(name, state)
}

/// The branches of a Parallel.
#[cycle(machines)]
fn branches_in(alloc: Global, value: &Value) -> Result<Items<Block>, NoMemory>
    ensures { IfOk result (λ bs. bs ≡ unwrap_or (option_map blocks_of (get (codes "Branches") (view value.now))) []) }
{
    match value.get("Branches") {
        Some(found) => blocks_of(alloc, found),
        None => Ok(Items::new(alloc)),
    }
}

/// The body of a Map.
#[cycle(machines)]
fn body_of(alloc: Global, value: &Value) -> Result<Block, NoMemory>
    ensures { IfOk result (λ b. b ≡ unwrap_or (option_map block_of (or_else (get (codes "ItemProcessor") (view value.now)) (get (codes "Iterator") (view value.now)))) no_block) }
{
    match body_in(value) {
        Some(found) => block_of(alloc, found),
        None => Ok(Block {
            start: Text::new(alloc),
            states: Fields::new(alloc),
        }),
    }
}

/// The blocks that an array's items spell.
#[cycle(machines)]
fn blocks_of(alloc: Global, value: &Value) -> Result<Items<Block>, NoMemory>
    ensures { IfOk result (λ bs. bs ≡ blocks_of (view value.now)) }
{
    let mut blocks = Items::new(alloc);
    let Value::Array(items) = value else {
        return Ok(blocks);
    };
    for item in items.iter() {
        blocks.push(block_of(alloc, item)?)?;
    }
    Ok(blocks)
}

/// The state that a value spells.
#[cycle(machines)]
#[tactic(auto, using(crate::proofs::Inside::state_here))]
fn state_of(alloc: Global, value: &Value) -> Result<State, NoMemory>
    ensures { IfOk result (λ s. s ≡ state_of (view value.now)) }
{
    match type_of(value) {
        StateType::Task => task(alloc, value),
        StateType::Pass => pass(alloc, value),
        StateType::Choice => choice(alloc, value),
        StateType::Succeed => succeed(alloc, value),
        StateType::Fail => fail(alloc, value),
        StateType::Parallel => {
            let branches = branches_in(alloc, value)?;
            parallel(alloc, value, branches)
        }
        StateType::Map => {
            let body = body_of(alloc, value)?;
            map(alloc, value, body)
        }
    }
}

/// The states that an object's members spell.
#[cycle(machines)]
fn states_of(alloc: Global, value: &Value) -> Result<Fields<State>, NoMemory>
    ensures { IfOk result (λ ss. ss ≡ states_of (view value.now)) }
{
    let mut states = Fields::new(alloc);
    let Value::Object(members) = value else {
        return Ok(states);
    };
    for member in members.as_slice() {
        let state = state_of(alloc, &member.1)?;
        push_named(alloc, &mut states, member.0.as_str(), state)?;
    }
    Ok(states)
}

/// The states that stand in a block.
#[cycle(machines)]
fn states_in(alloc: Global, value: &Value) -> Result<Fields<State>, NoMemory>
    ensures { IfOk result (λ ss. ss ≡ unwrap_or (option_map states_of (get (codes "States") (view value.now))) []) }
{
    match value.get("States") {
        Some(found) => states_of(alloc, found),
        None => Ok(Fields::new(alloc)),
    }
}

/// The block that a value spells.
#[cycle(machines)]
#[tactic(auto, using(crate::proofs::Inside::block_here))]
fn block_of(alloc: Global, value: &Value) -> Result<Block, NoMemory>
    ensures { IfOk result (λ b. b ≡ block_of (view value.now)) }
{
    let start = text_in(alloc, value, "StartAt")?;
    let states = states_in(alloc, value)?;
    Ok(Block { start, states })
}

/// The machine that a value spells. Nothing depends on what it is where the value breaks a rule of reading.
pub fn machine_of(alloc: Global, value: &Value) -> Result<Machine, NoMemory>
    ensures { IfOk result (λ m. m ≡ machine_of (view value.now)) }
{
    let root = block_of(alloc, value)?;
    Ok(Machine { root })
}

/// Reads a machine.
///
/// `Refused` comes exactly where the value breaks a rule of reading, with the first one in reading order, and its place has
/// `at` put before it.
pub fn read_machine(alloc: Global, value: &Value, at: &str) -> Result<Machine, ReadFault>
    ensures { Reads result (under at.now (machine_faults (view value.now))) (machine_of (view value.now)) }
{
    let checked = check(alloc, How::Object(Kind::Machine), value);
    under(alloc, at, checked)?;
    Ok(machine_of(alloc, value)?)
}
