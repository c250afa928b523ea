//! The program unum: its arguments are the words of the top call, which reads standard input and writes standard
//! output. It exits with the code of the call's status, and with 6 where no memory is found for the words.
#![tactic(auto)]

use std::alloc::Global;
use std::io::ErrorKind;
use std::process::ExitCode;
use std::rt::Env;
use std::{env, io};
use unum_cli::{Desk, Status, run_with_workers, tool};
use unum_io::{StdSink, StdSource};
use unum_json::{Items, NoMemory, Text};
use worker_gate::Open;

/// The arguments after the program's name. No word where one of them is no text, which is no command then.
fn words(rt: &(impl Env + AllocGlobal), alloc: Global) -> Result<Items<Text>, NoMemory> {
    let mut words = Items::new(alloc);
    match env::args(rt) {
        Ok(args) => {
            for arg in args.skip(1) {
                words.push(Text::from_string(arg)?)?;
            }
            Ok(words)
        }
        Err(error) => {
            drop(words);
            if error.kind() == ErrorKind::OutOfMemory {
                Err(NoMemory)
            } else {
                Ok(Items::new(alloc))
            }
        }
    }
}

/// Whether the first word is `run`.
fn is_run(words: &Items<Text>) -> bool {
    match words.as_slice() {
        [word, ..] => word.as_bytes() == b"run".as_slice(),
        [] => false,
    }
}

fn main(rt: HostRuntime) -> ExitCode {
    let Ok(words) = words(&rt, rt.alloc()) else {
        return ExitCode::from(Status::NoMemory.code());
    };
    let mut source = StdSource::new(rt.reader());
    let mut out = StdSink::new(io::writer(&rt));
    let mut desk = Desk::Empty;
    let status = if is_run(&words) {
        run_with_workers(&rt, &words, &mut source, &mut out, &mut desk, &Open)
    } else {
        tool(rt.alloc(), &words, &mut source, &mut out, &mut desk)
    };
    ExitCode::from(status.code())
}
