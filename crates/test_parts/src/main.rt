//! Tries the crates below the machines on cases: reads them from standard input, one a line, and prints each with what it comes
//! to. What it is to print comes from worked rows and from an independent interpreter of the same rules.
//!
//! A case is a subject, a verb, and cells with commas between them, each a value in JSON. Bytes are a text, or an array of
//! texts and of the numbers of single bytes. The words of each subject are said where they are read. A line that is empty or
//! begins with `#` is printed as it is, and one that is no case with `no case`.
#![tactic(auto)]

mod cells;
mod functions;
mod lists;
mod names;
mod paths;
mod refused;
mod rules;
mod shapes;
mod streams;
mod values;

use cells::{cells_in, word};
use refused::{Refused, Told};
use std::alloc::Global;
use std::io;
use unum_json::Json;

/// What a case with these cells comes to.
fn tried(alloc: Global, subject: &str, verb: &str, cells: &[Json]) -> Told {
    match subject {
        "json" => values::value(alloc, verb, cells),
        "outcome" => values::outcome(alloc, verb, cells),
        "list" => lists::list(alloc, verb, cells),
        "source" => streams::source(alloc, verb, cells),
        "sink" => streams::sink(alloc, verb, cells),
        "name" => names::name(alloc, verb, cells),
        "path" => paths::path(alloc, verb, cells),
        "template" => paths::template(alloc, verb, cells),
        "shape" => shapes::shape(alloc, verb, cells),
        "rule" => rules::rule(alloc, verb, cells),
        "pattern" => rules::pattern(alloc, verb, cells),
        "function" => functions::function(alloc, verb, cells),
        _ => Err(Refused::NoCase),
    }
}

/// What a case comes to.
fn case(alloc: Global, line: &str) -> Told {
    let (subject, rest) = word(line);
    let (verb, cells) = word(rest);
    if subject == "text" {
        return values::compact(alloc, rest.as_bytes());
    }
    let cells = cells_in(alloc, cells)?;
    let told = tried(alloc, subject, verb, cells.as_slice());
    drop(cells);
    told
}

fn print_line(rt: &impl Print, alloc: Global, line: &str) -> io::Result<()> {
    if line.is_empty() || line.starts_with('#') {
        return println!(rt; "{line}");
    }
    match case(alloc, line) {
        Ok(text) => {
            let printed = println!(rt; "{line} => {}", text.as_str());
            drop(text);
            printed
        }
        Err(Refused::Bad(at)) => println!(rt; "{line} => bad at {at}"),
        Err(refused) => println!(rt; "{line} => {}", refused.word()),
    }
}

fn main(rt: HostRuntime) -> io::Result<()> {
    let alloc = rt.alloc();
    for line in rt.lines(alloc) {
        let line = line?;
        let printed = print_line(&rt, alloc, line.as_str());
        drop(line);
        printed?;
    }
    Ok(())
}
