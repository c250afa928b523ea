//! Lists of events: a world is run through one, event by event.

use crate::fault::Fault;
use session_report::report;
use std::alloc::Global;
use std::io;
use std::io::Print;
use unum_cli::{open_bundle, read_bundle};
use unum_world::{ApplyError, World};
use world_types::Event;

/// The most events that a world may be given.
const MOST: u64 = 10_000_000;

/// The event of a word, as `D0`.
fn event(word: &str) -> Option<Event> {
    let (letter, number) = word.split_at_checked(1)?;
    let number = number.parse().ok()?;
    match letter {
        "D" => Some(Event::Deliver(number)),
        "C" => Some(Event::Crash(number)),
        "S" => Some(Event::Step(number)),
        "A" => Some(Event::Answer(number)),
        "G" => Some(Event::GiveUp(number)),
        _ => None,
    }
}

/// The name of an event, and how often it is to be made.
fn times(word: &str) -> Option<(&str, u32)> {
    match word.split_once('*') {
        Some((name, times)) => Some((name, times.parse().ok()?)),
        None => Some((word, 1)),
    }
}

/// Prints what became of an event.
fn print_outcome(rt: &impl Print, name: &str, made: Result<(), ApplyError>) -> io::Result<()> {
    match made {
        Ok(()) => println!(rt; "{name} made"),
        Err(ApplyError::NotEnabled { event: _ }) => println!(rt; "{name} NotEnabled"),
        Err(ApplyError::Spent { len }) => println!(rt; "{name} Spent {len}"),
        Err(ApplyError::NoMemory) => println!(rt; "{name} NoMemory"),
    }
}

/// The lines of a world's report, or its totals alone.
fn print_report(rt: &impl Print, alloc: Global, world: &World, is_whole: bool) -> io::Result<()> {
    let Ok(text) = report(alloc, world) else {
        return println!(rt; "NoMemory");
    };
    for line in text.as_str().lines() {
        if is_whole || line.starts_with("totals") {
            println!(rt; "{line}")?;
        }
    }
    Ok(())
}

/// Makes an event once or several times, and prints what each time comes to.
fn tell_event(rt: &impl Print, alloc: Global, world: &mut World, word: &str) -> io::Result<()> {
    let Some((name, times)) = times(word) else {
        return println!(rt; "no event");
    };
    let Some(event) = event(name) else {
        return println!(rt; "no event");
    };
    for _ in 0..times {
        print_outcome(rt, name, world.apply(event))?;
        print_report(rt, alloc, world, false)?;
    }
    Ok(())
}

/// Makes each event of a list.
fn tell_events(rt: &impl Print, alloc: Global, world: &mut World, list: &str) -> io::Result<()> {
    for word in list.split_whitespace() {
        tell_event(rt, alloc, world, word)?;
    }
    print_report(rt, alloc, world, true)
}

/// Makes an event so often, until it is refused.
fn make(alloc: Global, world: &mut World, event: Event, times: u32) -> Result<(), ApplyError> {
    for _ in 0..times {
        world.apply(event)?;
    }
    Ok(())
}

/// Why a list of events was not made to its end.
#[derive(Clone, Copy)]
enum Stopped<'l> {
    /// A word is no event.
    NoEvent,
    /// The event of that name was refused.
    Refused(&'l str, ApplyError),
}

/// Makes the events of a list until one is refused.
fn make_all<'l>(alloc: Global, world: &mut World, list: &'l str) -> Result<(), Stopped<'l>> {
    for word in list.split_whitespace() {
        let Some((name, times)) = times(word) else {
            return Err(Stopped::NoEvent);
        };
        let Some(event) = event(name) else {
            return Err(Stopped::NoEvent);
        };
        if let Err(refusal) = make(alloc, world, event, times) {
            return Err(Stopped::Refused(name, refusal));
        }
    }
    Ok(())
}

/// Makes the events of a list until one is refused, and prints what the world is then.
fn run(rt: &impl Print, alloc: Global, world: &mut World, list: &str) -> io::Result<()> {
    let made = make_all(alloc, world, list);
    println!(rt; "history {}", world.length())?;
    print_report(rt, alloc, world, true)?;
    println!(rt; "invocations {}", world.totals().invocations)?;
    match made {
        Ok(()) => Ok(()),
        Err(Stopped::NoEvent) => println!(rt; "no event"),
        Err(Stopped::Refused(name, refusal)) => {
            print!(rt; "event {} ", world.length())?;
            print_outcome(rt, name, Err(refusal))
        }
    }
}

/// A new world of a bundle.
fn open(alloc: Global, bundle: &str, limit: u64) -> Result<World, Fault> {
    if limit > MOST {
        return Err(Fault::NoLimit);
    }
    let Ok(bundle) = read_bundle(alloc, bundle.as_bytes()) else {
        return Err(Fault::Refused);
    };
    let opening = open_bundle(alloc, bundle)?;
    Ok(World::open(alloc, opening, limit)?)
}

/// What is done with a list.
#[derive(Clone, Copy)]
pub enum Telling {
    /// Each event is told.
    Events,
    /// The end is told.
    End,
}

/// Runs a list of events in a new world of a bundle.
pub fn run_list(
    rt: &impl Print,
    alloc: Global,
    bundle: &str,
    limit: u64,
    telling: Telling,
    list: &str,
) -> io::Result<()> {
    match open(alloc, bundle, limit) {
        Ok(mut world) => match telling {
            Telling::Events => tell_events(rt, alloc, &mut world, list),
            Telling::End => run(rt, alloc, &mut world, list),
        },
        Err(fault) => println!(rt; "{}", fault.told()),
    }
}
