//! A machine of four states: `Pick`, a Choice, goes to `Work` where there is `$.go`, and else to `Done`, a Succeed. `Work`, a Task
//! of the function `f`, retries the error `E` twice, catches what its function fails with into `$.error`, and is followed by
//! `Each`, a Map over `$.list`, two items at once, which ends its scope.
ghost use Rattle.asl_model.specs.Shapes.{HasPathsOnly, HasNoParameters};

use crate::fault::Fault;
use asl_model::{After, Block, Care, Catcher, MapShape, PathShape, Retrier, State, TopRule};
use asl_paths::Path;
use asl_shape::Shape;
use choice_rules::{Op, Rule};
use sqlite_items::Boxed;
use std::alloc::Global;
use unum_json::{Fields, Items, Text};

fn path(alloc: Global, text: &[u8]) -> Result<Path, Fault> {
    Path::parse(alloc, text).map_err(|_| Fault::NotRead)
}

fn text(alloc: Global, text: &str) -> Result<Text, Fault> {
    Ok(Text::from_str(alloc, text)?)
}

fn names(alloc: Global, name: &str) -> Result<Items<Text>, Fault> {
    let name = text(alloc, name)?;
    let mut names = Items::new(alloc);
    names.push(name)?;
    Ok(names)
}

/// The data flow of a state that has no field for it.
fn whole(alloc: Global) -> Shape
    ensures { HasPathsOnly result }
{
    Shape {
        input: Some(Path::root(alloc)),
        parameters: None,
        selector: None,
        result: Some(Path::root(alloc)),
        output: Some(Path::root(alloc)),
    }
}

fn done(alloc: Global) -> State {
    State::Succeed {
        shape: PathShape::from_shape(whole(alloc)),
    }
}

fn push_rule(alloc: Global, rules: &mut Items<TopRule>) -> Result<(), Fault> {
    let variable = path(alloc, b"$.go")?;
    let next = text(alloc, "Work")?;
    let rule = Rule::Test {
        variable,
        op: Op::IsPresent(true),
    };
    rules.push(TopRule { rule, next })?;
    Ok(())
}

fn pick(alloc: Global) -> Result<State, Fault> {
    let default = Some(text(alloc, "Done")?);
    let mut rules = Items::new(alloc);
    push_rule(alloc, &mut rules)?;
    Ok(State::Choice {
        shape: PathShape::from_shape(whole(alloc)),
        rules,
        default,
    })
}

fn push_retrier(alloc: Global, retry: &mut Items<Retrier>) -> Result<(), Fault> {
    let errors = names(alloc, "E")?;
    retry.push(Retrier { errors, most: 2 })?;
    Ok(())
}

fn push_catcher(alloc: Global, catch: &mut Items<Catcher>) -> Result<(), Fault> {
    let result = Some(path(alloc, b"$.error")?);
    let next = text(alloc, "Each")?;
    let errors = names(alloc, "States.TaskFailed")?;
    catch.push(Catcher {
        errors,
        result,
        next,
    })?;
    Ok(())
}

fn work(alloc: Global) -> Result<State, Fault> {
    let resource = text(alloc, "f")?;
    let next = text(alloc, "Each")?;
    let mut retry = Items::new(alloc);
    push_retrier(alloc, &mut retry)?;
    let mut catch = Items::new(alloc);
    push_catcher(alloc, &mut catch)?;
    Ok(State::Task {
        shape: whole(alloc),
        resource,
        after: After {
            next: Some(next),
            end: false,
        },
        care: Care { retry, catch },
    })
}

/// The body of the Map, whose one state is a Succeed.
fn leaf(alloc: Global) -> Result<Boxed<Block>, Fault> {
    let start = text(alloc, "Leaf")?;
    let mut states = Fields::new(alloc);
    put(alloc, &mut states, "Leaf", done(alloc))?;
    Ok(Boxed::new(alloc, Block { start, states })?)
}

fn each(alloc: Global) -> Result<State, Fault> {
    let items = path(alloc, b"$.list")?;
    let body = leaf(alloc)?;
    Ok(State::Map {
        shape: MapShape::from_shape(whole(alloc)),
        items,
        selector: None,
        body,
        after: After {
            next: None,
            end: true,
        },
        care: Care {
            retry: Items::new(alloc),
            catch: Items::new(alloc),
        },
        limit: 2,
    })
}

fn put(alloc: Global, states: &mut Fields<State>, name: &str, state: State) -> Result<(), Fault> {
    let Ok(name) = text(alloc, name) else {
        drop(state);
        return Err(Fault::NoMemory);
    };
    states.insert(name, state)?;
    Ok(())
}

fn put_all(alloc: Global, states: &mut Fields<State>) -> Result<(), Fault> {
    put(alloc, states, "Done", done(alloc))?;
    put(alloc, states, "Each", each(alloc)?)?;
    put(alloc, states, "Pick", pick(alloc)?)?;
    put(alloc, states, "Work", work(alloc)?)
}

/// The machine's block.
pub fn block(alloc: Global) -> Result<Block, Fault> {
    let start = text(alloc, "Pick")?;
    let mut states = Fields::new(alloc);
    put_all(alloc, &mut states)?;
    Ok(Block { start, states })
}
