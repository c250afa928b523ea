//! Cases of worlds.
//!
//! The words of a case are events, each a letter (D, C, S, A or G for Deliver, Crash, Step, Answer and GiveUp) and a number, and
//! where there are several at once `*` and how many. `A1:echo:5` is the answer that an echo gives to the attempt 1 for the
//! input 5, `next` the event that the chooser takes next, and `crash_all` the crash of each attempt that lives. `enabled?D0` asks whether an event is enabled, `session?2` and
//! `entry?2` whether there is one of that number, `event?2` which event it is, and `live?0` how many objects of a session are live. Of an
//! event that is refused the refusal is printed, and at the end the numbers of events and checkpoints, and the report.
ghost use Rattle.std.specs.Prelude.{◌≤◌, IfOk};
ghost use Rattle.unum_world.specs.Openings.{Fits};

use crate::fault::Fault;
use crate::given::{Given, number, parted, split_word, tell, whole};
use fn_table::{BuiltIns, FnKind, Functions};
use session_report::report;
use std::alloc::Global;
use unum_cli::{open_bundle, read_bundle};
use unum_json::Json;
use unum_world::{ApplyError, Opening, Planned, World};
use world_types::Event;

/// How the worlds of a case begin.
pub fn opening(alloc: Global, given: &Given) -> Result<Opening, Fault>
    ensures { IfOk result Fits }
{
    let Ok(bundle) = read_bundle(alloc, given.bytes()) else {
        return Err(Fault::NotRead);
    };
    Ok(open_bundle(alloc, bundle)?)
}

/// The event of a word, as `D0`.
fn event(word: &str) -> Result<Event, Fault> {
    let (letter, digits) = word.split_at_checked(1).ok_or(Fault::NotRead)?;
    let number = number(digits)?;
    match letter {
        "D" => Ok(Event::Deliver(number)),
        "C" => Ok(Event::Crash(number)),
        "S" => Ok(Event::Step(number)),
        "A" => Ok(Event::Answer(number)),
        "G" => Ok(Event::GiveUp(number)),
        _ => Err(Fault::NotRead),
    }
}

fn tell_refusal(out: &mut String, word: &str, made: Result<(), ApplyError>) -> Result<(), Fault> {
    if let Err(refusal) = made {
        tell(out, word, &refusal)?;
    }
    Ok(())
}

/// Makes an event, once or several times.
fn make(out: &mut String, world: &mut World, word: &str) -> Result<(), Fault> {
    let (name, times) = match word.split_once('*') {
        Some((name, times)) => (name, number(times)?),
        None => (word, 1),
    };
    let event = event(name)?;
    for _ in 0..times {
        tell_refusal(out, name, world.apply(event))?;
    }
    Ok(())
}

fn kind(word: &str) -> Result<FnKind, Fault> {
    match word {
        "echo" => Ok(FnKind::Echo),
        "ticket" => Ok(FnKind::Ticket),
        _ => Err(Fault::NotRead),
    }
}

/// Gives an attempt the answer of a function that was called with a number.
fn answer(
    alloc: Global,
    world: &mut World,
    kind: &FnKind,
    input: i64,
    ticket: u32,
) -> Result<(), ApplyError> {
    match BuiltIns::new(alloc).answer(kind, &Json::whole(input), ticket) {
        Ok(done) => world.answer(&done),
        Err(_) => Err(ApplyError::NoMemory),
    }
}

/// Gives the answer of a word, as `A1:echo:5`.
fn give(alloc: Global, out: &mut String, world: &mut World, word: &str) -> Result<(), Fault> {
    let (name, call) = parted(word, ":")?;
    let (function, input) = parted(call, ":")?;
    let Event::Answer(ticket) = event(name)? else {
        return Err(Fault::NotRead);
    };
    let (function, input) = (kind(function)?, whole(input)?);
    tell_refusal(out, word, answer(alloc, world, &function, input, ticket))
}

/// Makes the event that the chooser takes next.
fn make_next(out: &mut String, world: &mut World) -> Result<(), Fault> {
    match world.choose() {
        None => out.push_str("next: none\n")?,
        Some(event) => {
            tell(out, "next", &event)?;
            tell_refusal(out, "next", world.apply(event))?;
        }
    }
    Ok(())
}

/// Whether there is a session, or a checkpoint of that number, which event it is, how many objects are live, or whether an
/// event is enabled.
fn ask(out: &mut String, world: &World, word: &str) -> Result<(), Fault> {
    let (asked, at) = parted(word, "?")?;
    let is = match asked {
        "session" => world.session(number(at)?).is_some(),
        "entry" => world.entry(u64::from(number(at)?)).is_some(),
        "event" => return tell(out, word, &world.event(u64::from(number(at)?))),
        "live" => return tell(out, word, &world.hub().store.live_of(number(at)?)),
        _ => world.enabled(event(at)?),
    };
    tell(out, word, &is)
}

/// Does what a word says.
fn carry_out(alloc: Global, out: &mut String, world: &mut World, word: &str) -> Result<(), Fault> {
    if word == "next" {
        return make_next(out, world);
    }
    if word == "crash_all" {
        return tell(out, word, &world.crash_all());
    }
    if word.contains(':') {
        return give(alloc, out, world, word);
    }
    if word.contains('?') {
        return ask(out, world, word);
    }
    make(out, world, word)
}

/// Does what the words say, and writes what the world is then.
fn act(alloc: Global, out: &mut String, world: &mut World, words: &str) -> Result<(), Fault> {
    for word in words.split_whitespace() {
        carry_out(alloc, out, world, word)?;
    }
    writeln!(
        out,
        "history {}, entries {}",
        world.length(),
        world.entries()
    )?;
    let text = report(alloc, world)?;
    out.push_str(text.as_str())?;
    Ok(())
}

/// The limit that a case begins with, and its words.
pub fn limited(rest: &str) -> Result<(u64, &str), Fault>
    ensures { IfOk result (λ r. r.0 ≤ 10000000) }
{
    let (limit, words) = split_word(rest);
    let limit = u64::from(number(limit)?);
    if limit <= 10_000_000 {
        Ok((limit, words))
    } else {
        Err(Fault::NotRead)
    }
}

/// Acts in a world that has just begun.
pub fn world(alloc: Global, out: &mut String, given: &Given, rest: &str) -> Result<(), Fault> {
    let (limit, words) = limited(rest)?;
    let opening = opening(alloc, given)?;
    let mut world = World::open(alloc, opening, limit)?;
    let acted = act(alloc, out, &mut world, words);
    drop(world);
    acted
}

/// A world that has settled, and how it has.
fn settle(out: &mut String, planned: &mut Planned) -> Result<(), Fault> {
    let how = planned.settle()?;
    tell(out, "settled", &how)
}

/// Acts in a world that has settled.
pub fn settled(alloc: Global, out: &mut String, given: &Given, rest: &str) -> Result<(), Fault> {
    let (limit, words) = limited(rest)?;
    let opening = opening(alloc, given)?;
    let mut planned = Planned::open(alloc, opening, limit)?;
    let told = settle(out, &mut planned);
    let mut world = planned.into_world();
    let acted = act(alloc, out, &mut world, words);
    drop(world);
    told?;
    acted
}
