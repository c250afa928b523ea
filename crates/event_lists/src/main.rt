//! Runs worlds, event by event, and by workers. Reads cases from standard input, one a line.
//!
//! - `bundle JSON` gives the bundle of the cases after it, and prints nothing;
//! - `case NAME`, and each line that begins with `#`, names what follows, and is printed.
//!
//! Lists of events, each in a new world of the bundle:
//!
//! - `limit N` says how many events the worlds of the lists after it may have: 1,000 where no line says it. It prints nothing;
//! - `events LIST` makes each event of a list, and prints the line, then what each event comes to with the totals after it, and at
//!   the end the report;
//! - `run LIST` makes the events until one is refused, and prints the length of the history, the report, the number of
//!   invocations, and the refusal.
//!
//! In a list there are blanks between the events, each a letter (D for Deliver, C for Crash, S for Step, A for Answer, G for
//! GiveUp) and a number, and where it is to be made several times `*` and how often.
//!
//! Workers, and gates that watch them. The bundle may be any bytes, and the words are those of the command line, as
//! `run --workers 2`. Each line is printed, and after it:
//!
//! - `workers WORDS`: the status of these words, what was written, and what is on the desk;
//! - `ends N WORDS`: N runs with these words, and of each how its sessions ended, whether all ended alike, and how many checkpoints won;
//! - `noted WORDS`: whether the gate was told of each call before and after it, once for each ticket, and whether these tickets are
//!   those of the checkpoints of Tasks;
//! - `held WORDS`: the same with a gate that holds the first call until another is answered;
//! - `slow WORDS`: how the sessions ended of a run in which each call takes a millisecond longer.
#![tactic(auto)]

mod fault;
mod gates;
mod lists;
mod workers;

use fault::Fault;
use lists::{Telling, run_list};
use std::io;
use std::sync::Wait;
use std::thread::Threads;
use std::time::Clock;
use workers::{ends, held, noted, run, slow};

/// How many events a world may have where no line says it.
const LIMIT: u64 = 1_000;

/// The word that a line begins with, and the rest.
fn split_word(line: &str) -> (&str, &str) {
    line.split_once(" ").unwrap_or((line, ""))
}

/// Writes what a case of workers comes to.
fn answer<R: Threads + Wait + Clock + AllocGlobal + Sync>(
    rt: &R,
    out: &mut String,
    bytes: &[u8],
    line: &str,
) -> Result<(), Fault> {
    let (word, rest) = split_word(line);
    match word {
        "workers" => run(rt, out, bytes, rest),
        "ends" => ends(rt, out, bytes, rest),
        "noted" => noted(rt, out, bytes, rest),
        "held" => held(rt, out, bytes, rest),
        "slow" => slow(rt, out, bytes, rest),
        "case" | "#" => Ok(()),
        _ => Err(Fault::NotRead),
    }
}

fn main(rt: HostRuntime) -> io::Result<()> {
    let alloc = rt.alloc();
    let mut bundle = String::new(alloc);
    let mut out = String::new(alloc);
    let mut limit = LIMIT;
    for line in rt.lines(alloc) {
        let line = line?;
        let line = line.as_str();
        let (word, rest) = split_word(line);
        match word {
            "bundle" => {
                bundle.clear();
                bundle.push_str(rest)?;
            }
            "limit" => limit = rest.parse().unwrap_or(LIMIT),
            "events" => {
                println!(rt; "{line}")?;
                run_list(&rt, alloc, bundle.as_str(), limit, Telling::Events, rest)?;
            }
            "run" => run_list(&rt, alloc, bundle.as_str(), limit, Telling::End, rest)?,
            _ => {
                out.clear();
                let answered = answer(&rt, &mut out, bundle.as_bytes(), line);
                print!(rt; "{line}\n{}", out.as_str())?;
                if let Err(fault) = answered {
                    println!(rt; "{}", fault.told())?;
                }
            }
        }
    }
    Ok(())
}
