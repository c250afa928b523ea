//! Runs cases of the program: reads them from standard input, one a line, and prints each with what it comes to.
//!
//! The bytes that cases are given stand in lines of their own:
//!
//! - `bundle TEXT`: that text, in which `\xHH` stands for a byte;
//! - `change OLD | NEW`: the last bundle with NEW in place of the first OLD;
//! - `chain N`: a bundle with a chain of N Tasks;
//! - `blank N`: N blanks.
//!
//! The cases:
//!
//! - `tool WORDS | reads N .. | writes N .. | gives N | takes N`: the top call with these words, where the reads and writes of these
//!   numbers fail, and the source gives or the sink takes N bytes at a time;
//! - `prefixes WORDS`: the same for each proper prefix of the bytes;
//! - `world LIMIT WORDS` and `settled LIMIT WORDS`: a world that has just begun, or has settled, and what `worlds` does in it;
//! - `costs LIMIT` and `made N LIMIT`: how the world of the bundle, or of the generated one of N sessions, settles, and its events and
//!   marks beside what the visits of the sequential runs cost;
//! - `plan step N | twin N | pick LEN OF`: what the plan of the bundle says;
//! - `flat STATE HOP RAW USED ANSWER`: where the flat code of the machine in `machine` stops after that answer (STATE is `-` for the
//!   Enter); `walk NODE HOP VALUE`: where it stops from a node on;
//! - `joined ANSWER | ANSWER ..`: what the branches of its fan come to;
//! - `code RAW`: what its functions are, and the fan's first inputs;
//! - `given RAW ANSWER | ANSWER ..`: its central run on these answers of the states that its own scope enters, from the second on (`-`
//!   for none).
//!
//! An ANSWER is `ok VALUE` or `fail ERROR CAUSE`. Lines that begin with `#` are printed as they are.
#![tactic(auto)]

mod calls;
mod costs;
mod fault;
mod flat;
mod given;
mod machine;
mod parts;
mod plans;
mod runs;
mod worlds;

use calls::{prefixes, tool_case};
use costs::{costs, made_costs};
use fault::Fault;
use flat::code;
use given::{Given, split_word};
use plans::plan;
use runs::given_answers;
use std::alloc::Global;
use std::io;
use worlds::{settled, world};

/// Sets what cases are given, where the line does that.
fn sets(alloc: Global, given: &mut Given, line: &str) -> Result<bool, Fault> {
    let (word, rest) = split_word(line);
    match word {
        "bundle" => given.set_bundle(rest),
        "change" => given.change(rest),
        "chain" => given.chain(alloc, rest),
        "blank" => given.blank(rest),
        _ => Ok(false),
    }
}

/// Writes what a case comes to.
fn run(alloc: Global, given: &Given, out: &mut String, line: &str) -> Result<(), Fault> {
    let (word, rest) = split_word(line);
    match word {
        "tool" => tool_case(alloc, out, given.bytes(), rest),
        "prefixes" => prefixes(alloc, out, given.bytes(), rest),
        "world" => world(alloc, out, given, rest),
        "settled" => settled(alloc, out, given, rest),
        "costs" => costs(alloc, out, given, rest),
        "made" => made_costs(alloc, out, rest),
        "plan" => plan(alloc, out, given.bytes(), rest),
        "flat" | "walk" | "code" | "joined" => code(alloc, out, word, rest),
        "given" => given_answers(alloc, out, rest),
        "#" => Ok(()),
        _ => Err(Fault::NotRead),
    }
}

/// Writes a case with what it comes to.
fn tell(alloc: Global, given: &mut Given, out: &mut String, line: &str) -> Result<(), Fault> {
    if line.is_empty() {
        return Ok(());
    }
    writeln!(out, "{line}")?;
    if sets(alloc, given, line)? {
        return Ok(());
    }
    run(alloc, given, out, line)
}

fn main(rt: HostRuntime) -> io::Result<()> {
    let alloc = rt.alloc();
    let mut given = Given::new(alloc);
    let mut out = String::new(alloc);
    for line in rt.lines(alloc) {
        let line = line?;
        out.clear();
        let told = tell(alloc, &mut given, &mut out, line.as_str());
        print!(rt; "{}", out.as_str())?;
        if let Err(fault) = told {
            println!(rt; "{fault:?}")?;
        }
    }
    Ok(())
}
