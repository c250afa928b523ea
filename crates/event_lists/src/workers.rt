//! The call `run_with_workers`, and what is told of it.

use crate::fault::Fault;
use crate::gates::{Notes, Slow, Told};
use place_name::Kind;
use std::alloc::Global;
use std::sync::Wait;
use std::thread::Threads;
use std::time::Clock;
use unum_cli::{Desk, report, run_with_workers};
use unum_io::{MemSink, MemSource};
use unum_json::{Items, Text};
use unum_world::World;
use worker_gate::{Gate, Open};

/// The most bytes that a call may write.
const ROOM: u64 = 1_048_576;

/// What a call answered, wrote and left on the desk.
#[derive(Drop)]
struct Answer {
    code: u8,
    written: MemSink,
    desk: Desk,
}

/// The words of a list, between which there are blanks.
fn words(alloc: Global, list: &str) -> Result<Items<Text>, Fault> {
    let mut words = Items::new(alloc);
    for word in list.split_whitespace() {
        words.push(Text::from_str(alloc, word)?)?;
    }
    Ok(words)
}

/// Makes the call with these words.
fn call<G: Gate + Sync, R: Threads + Wait + AllocGlobal + Sync>(
    rt: &R,
    bytes: &[u8],
    list: &str,
    gate: &G,
) -> Result<Answer, Fault> {
    let words = words(rt.alloc(), list)?;
    let mut source = MemSource::new(rt.alloc(), bytes, &[])?;
    let mut written = MemSink::new(rt.alloc(), ROOM, &[])?;
    let mut desk = Desk::Empty;
    let status = run_with_workers(rt, &words, &mut source, &mut written, &mut desk, gate);
    Ok(Answer {
        code: status.code(),
        written,
        desk,
    })
}

/// What was written.
fn tell_written(out: &mut String, written: &MemSink) -> Result<(), Fault> {
    let text = str::from_utf8(written.held()).unwrap_or("no text\n");
    out.push_str(text)?;
    Ok(())
}

/// What is on the desk.
fn tell_desk(out: &mut String, desk: &Desk) -> Result<(), Fault> {
    match desk {
        Desk::Empty => out.push_str("desk empty\n")?,
        Desk::Open(world) => writeln!(out, "desk open, {} events", world.length())?,
    }
    Ok(())
}

/// The status of these words, what was written, and what is on the desk.
pub fn run<R: Threads + Wait + AllocGlobal + Sync>(
    rt: &R,
    out: &mut String,
    bytes: &[u8],
    list: &str,
) -> Result<(), Fault> {
    let answer = call(rt, bytes, list, &Open)?;
    writeln!(out, "status {}", answer.code)?;
    tell_written(out, &answer.written)?;
    tell_desk(out, &answer.desk)
}

/// How the session of a line of a report ended, if the line is of a session that did.
fn outcome_of(line: &str) -> Option<&str> {
    let rest = line.strip_prefix("session ")?;
    let (_number, ended) = rest.split_once(" ")?;
    ended.strip_prefix("ended ")
}

/// How many sessions of a report ended, whether all ended alike, and how one did.
fn tell_ends(out: &mut String, report: &str) -> Result<(), Fault> {
    let first = report.split('\n').find_map(outcome_of).unwrap_or("");
    let mut count = 0u32;
    let mut alike = true;
    for line in report.split('\n') {
        if let Some(outcome) = outcome_of(line) {
            alike = alike && outcome == first;
            count = count.saturating_add(1);
        }
    }
    writeln!(out, "{count} sessions ended, alike {alike}: {first}")?;
    Ok(())
}

/// How a run's sessions ended.
fn tell_run(alloc: Global, out: &mut String, answer: &Answer) -> Result<(), Fault> {
    match &answer.desk {
        Desk::Empty => writeln!(out, "status {}, desk empty", answer.code)?,
        Desk::Open(world) => {
            writeln!(out, "status {}, {} entries", answer.code, world.entries())?;
            let text = report(alloc, world)?;
            tell_ends(out, text.as_str())?;
        }
    }
    Ok(())
}

/// So many runs with these words, and of each how its sessions ended.
pub fn ends<R: Threads + Wait + AllocGlobal + Sync>(
    rt: &R,
    out: &mut String,
    bytes: &[u8],
    rest: &str,
) -> Result<(), Fault> {
    let (times, list) = rest.split_once(" ").ok_or(Fault::NotRead)?;
    let times: u32 = times.parse().ok().ok_or(Fault::NotRead)?;
    for _ in 0..times {
        let answer = call(rt, bytes, list, &Open)?;
        tell_run(rt.alloc(), out, &answer)?;
    }
    Ok(())
}

/// Whether each Task's checkpoint has a ticket that was told, and how many Tasks' checkpoints there are.
fn tasks_told(world: &World, told: &Told) -> (u64, bool) {
    let mut count = 0u64;
    let mut all = true;
    for i in 0..world.entries() {
        if let Some(entry) = world.entry(i) {
            if entry.name.kind == Kind::Task {
                count = count.saturating_add(1);
                all = all && told.has(entry.ticket);
            }
        }
    }
    (count, all)
}

/// What the gate was told, beside the checkpoints of Tasks.
fn tell_told(out: &mut String, word: &str, world: &World, told: &Told) -> Result<(), Fault> {
    let (tasks, all) = tasks_told(world, told);
    let each = told.calls() == Some(tasks);
    writeln!(
        out,
        "{word}: {tasks} tasks, each told {all}, nothing else told {each}"
    )?;
    Ok(())
}

/// A run with a gate that notes its tickets.
fn watched<R: Threads + Wait + AllocGlobal + Sync>(
    rt: &R,
    out: &mut String,
    bytes: &[u8],
    list: &str,
    gate: &Notes,
) -> Result<(), Fault> {
    let answer = call(rt, bytes, list, gate)?;
    tell_run(rt.alloc(), out, &answer)?;
    if let Desk::Open(world) = &answer.desk {
        tell_told(out, "before", world, &gate.before)?;
        tell_told(out, "after", world, &gate.after)?;
    }
    Ok(())
}

/// A run, and whether the gate was told of each call.
pub fn noted<R: Threads + Wait + AllocGlobal + Sync>(
    rt: &R,
    out: &mut String,
    bytes: &[u8],
    list: &str,
) -> Result<(), Fault> {
    let gate = Notes::new(rt.alloc(), false)?;
    watched(rt, out, bytes, list, &gate)
}

/// A run whose first call is held until another is answered.
pub fn held<R: Threads + Wait + AllocGlobal + Sync>(
    rt: &R,
    out: &mut String,
    bytes: &[u8],
    list: &str,
) -> Result<(), Fault> {
    let gate = Notes::new(rt.alloc(), true)?;
    watched(rt, out, bytes, list, &gate)?;
    writeln!(out, "gave up {}", gate.gave_up())?;
    Ok(())
}

/// How the sessions ended of a run in which each call takes a millisecond longer. It is there to be measured.
pub fn slow<R: Threads + Wait + Clock + AllocGlobal + Sync>(
    rt: &R,
    out: &mut String,
    bytes: &[u8],
    list: &str,
) -> Result<(), Fault> {
    let answer = call(rt, bytes, list, &Slow { clock: rt })?;
    tell_run(rt.alloc(), out, &answer)
}
