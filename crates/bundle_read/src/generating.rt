//! Generated bundles.

ghost use Rattle.std.specs.Prelude.{◌≡◌, ◌≤◌, ◌%◌, map, IfOk, pos};
ghost use Rattle.std.specs.List.{range_with_len};
ghost use Rattle.unum_json.specs.declared.value.Json.TheVariants as json;
ghost use Rattle.bundle_read.specs.Generated.{calm_plan, careless, each, functions as generated_functions, gen, generated, items_of, items_path, one_state, session as generated_session, ship, task, to_end, whole};

use crate::bundle::Bundle;
use asl_model::{After, Block, Care, Machine, MapShape, State};
use asl_paths::{Path, PathError};
use asl_shape::Shape;
use fn_table::{FnKind, Table};
use sqlite_items::Boxed;
use std::alloc::Global;
use unum_json::{Fields, Items, Json, NoMemory, Text, array, object};
use unum_world::Session;
use world_plans::Plan;

/// The data flow that hands on whole values.
fn whole(alloc: Global) -> Shape
    ensures { result ≡ whole }
{
    Shape {
        input: Some(Path::root(alloc)),
        parameters: None,
        selector: None,
        result: Some(Path::root(alloc)),
        output: Some(Path::root(alloc)),
    }
}

fn to_end() -> After
    ensures { result ≡ to_end }
{
    After {
        next: None,
        end: true,
    }
}

fn careless(alloc: Global) -> Care
    ensures { result ≡ careless }
{
    Care {
        retry: Items::new(alloc),
        catch: Items::new(alloc),
    }
}

/// A Task of that resource.
fn task(alloc: Global, resource: &str, after: After) -> Result<State, NoMemory>
    ensures { IfOk result (λ s. s ≡ task resource.now after) }
{
    let Ok(resource) = Text::from_str(alloc, resource) else {
        drop(after);
        return Err(NoMemory);
    };
    Ok(State::Task {
        shape: whole(alloc),
        resource,
        after,
        care: careless(alloc),
    })
}

/// A block of one state.
fn one_state(alloc: Global, name: &str, state: State) -> Result<Block, NoMemory>
    ensures { IfOk result (λ b. b ≡ one_state name.now state) }
{
    let mut states = Fields::new(alloc);
    states.insert(Text::from_str(alloc, name)?, state)?;
    Ok(Block {
        start: Text::from_str(alloc, name)?,
        states,
    })
}

/// The path `$.items`.
fn items_path(alloc: Global) -> Result<Path, NoMemory>
    ensures { IfOk result (λ p. p ≡ items_path) }
{
    match Path::parse(alloc, b"$.items") {
        Ok(path) => Ok(path),
        Err(PathError::Bad { at: _ }) => unreachable!(),
        Err(PathError::NoMemory) => Err(NoMemory),
    }
}

/// A Map that packs each item.
fn each(alloc: Global) -> Result<State, NoMemory>
    ensures { IfOk result (λ s. s ≡ each) }
{
    let items = items_path(alloc)?;
    let pack = task(alloc, "keep", to_end())?;
    let body = one_state(alloc, "Pack", pack)?;
    Ok(State::Map {
        shape: MapShape::from_shape(whole(alloc)),
        items,
        selector: None,
        body: Boxed::new(alloc, body)?,
        after: to_end(),
        care: careless(alloc),
        limit: 0,
    })
}

/// A Parallel that pays, and packs each item.
fn ship(alloc: Global) -> Result<State, NoMemory>
    ensures { IfOk result (λ s. s ≡ ship) }
{
    let mut branches = Items::new(alloc);
    branches.push(one_state(alloc, "Pay", task(alloc, "pay", to_end())?)?)?;
    branches.push(one_state(alloc, "Each", each(alloc)?)?)?;
    Ok(State::Parallel {
        shape: whole(alloc),
        branches,
        after: to_end(),
        care: careless(alloc),
    })
}

/// The machine of generated bundles.
fn machine(alloc: Global) -> Result<Machine, NoMemory>
    ensures { IfOk result (λ m. m ≡ gen) }
{
    let after = After {
        next: Some(Text::from_str(alloc, "Ship")?),
        end: false,
    };
    let mut states = Fields::new(alloc);
    let price = task(alloc, "keep", after)?;
    states.insert(Text::from_str(alloc, "Price")?, price)?;
    states.insert(Text::from_str(alloc, "Ship")?, ship(alloc)?)?;
    Ok(Machine {
        root: Block {
            start: Text::from_str(alloc, "Price")?,
            states,
        },
    })
}

fn machines(alloc: Global) -> Result<Fields<Machine>, NoMemory>
    ensures { IfOk result (λ ms. ms ≡ (generated 0).machines) }
{
    let mut machines = Fields::new(alloc);
    machines.insert(Text::from_str(alloc, "gen")?, machine(alloc)?)?;
    Ok(machines)
}

/// The functions of generated bundles.
fn functions(alloc: Global) -> Result<Table, NoMemory>
    ensures { IfOk result (λ t. t ≡ generated_functions) }
{
    let mut table = Table::new(alloc);
    table.insert(Text::from_str(alloc, "keep")?, FnKind::Echo)?;
    let paid = Json::string(Text::from_str(alloc, "paid")?);
    table.insert(Text::from_str(alloc, "pay")?, FnKind::Const(paid))?;
    Ok(table)
}

/// The numbers below this one.
fn numbers(alloc: Global, count: u32) -> Result<Items<Json>, NoMemory>
    ensures { IfOk result (λ ns. ns ≡ map (λ k. json.Int (pos k)) (range_with_len 0 count)) }
{
    let mut numbers = Items::new(alloc);
    for k in 0..count {
        numbers.push(Json::whole(i64::from(k)))?;
    }
    Ok(numbers)
}

/// An input with so many items.
fn items_of(alloc: Global, count: u32) -> Result<Json, NoMemory>
    ensures { IfOk result (λ v. v ≡ items_of count) }
{
    let items = array(alloc, numbers(alloc, count)?)?;
    let mut fields = Fields::new(alloc);
    fields.insert(Text::from_str(alloc, "items")?, items)?;
    object(alloc, fields)
}

/// So many sessions.
fn sessions(alloc: Global, count: u32) -> Result<Items<Session>, NoMemory>
    ensures { IfOk result (λ ss. ss ≡ map generated_session (range_with_len 0 count)) }
{
    let mut sessions = Items::new(alloc);
    for i in 0..count {
        sessions.push(Session {
            machine: 0,
            input: items_of(alloc, i % 5)?,
        })?;
    }
    Ok(sessions)
}

/// The generated bundle of so many sessions, from 1 to 1,000.
///
/// Its one machine `gen` finds a price, and then pays and packs each item, side by side. Session i has `i mod 5` items. There are no
/// mishaps, and the plan's seed is the number of sessions.
pub fn generate(alloc: Global, n: u32) -> Result<Bundle, NoMemory>
    requires { n ≤ 1000 }
    ensures { IfOk result (λ b. b ≡ generated n) }
{
    let machines = machines(alloc)?;
    let functions = functions(alloc)?;
    let sessions = sessions(alloc, n)?;
    let plan = Plan {
        seed: n,
        crash: 0,
        repeat: 0,
        script: Items::new(alloc),
        twins: Items::new(alloc),
    };
    Ok(Bundle::new(machines, functions, sessions, plan))
}
