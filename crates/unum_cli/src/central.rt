//! What `central` tells of a bundle.

ghost use Rattle.std.specs.Prelude.{◌≡◌, ◌<◌, ◌≤◌, ◌++◌, None, Some, length, string_bytes, IfOk, IfSome, OnOk};
ghost use Rattle.bundle_read.specs.Accepted.{IsAccepted};
ghost use Rattle.central_model.specs.declared.run.Run.{Run as AnyRun};
ghost use Rattle.unum_cli.specs.Central.{all_fit, central_line, central_lines, central_text, end_line, end_text, left_after, left_by, run_of, IsWithin};

use asl_model::valid;
use bundle_read::Bundle;
use central_model::{CentralError, End, Run, central_all};
use session_report::{push_number, push_outcome};
use std::alloc::Global;
use unum_json::{NoMemory, Text};
use unum_world::Session;

/// What is told of the sessions of a bundle.
#[derive(Drop)]
pub struct Told {
    /// A line for each session.
    pub text: Text,
    /// Whether all of them fit in the limit.
    pub all_fit: bool,
}

/// The run of a session, if it has at most so many visits.
fn run_within(
    alloc: Global,
    bundle: &Bundle,
    number: u32,
    session: &Session,
    limit: u64,
) -> Result<Run, CentralError>
    requires accepted { IsAccepted bundle.now }
    requires number { number < 1000 }
    requires placed { session.now.machine < length bundle.now.machines }
    requires limited { limit ≤ 10000000 }
    ensures { IsWithin limit result (run_of bundle.now number session.now) }
{
    let machines = bundle.machines().as_slice();
    valid();
    central_all(
        alloc,
        &machines[session.machine as usize].1,
        number,
        &session.input,
        bundle.functions(),
        limit,
    )
}

/// Adds the line of a session that does not fit.
fn push_open(out: &mut String, number: u32) -> Result<(), NoMemory>
    ensures { OnOk result ((run : AnyRun) → string_bytes out.new ≡ string_bytes out.old ++ central_line number run None) }
{
    push_number(out, "central ", u64::from(number))?;
    out.push_str(" open\n")?;
    Ok(())
}

/// Adds how a run ends.
fn push_end(alloc: Global, out: &mut String, end: &End) -> Result<(), NoMemory>
    ensures { OnOk result (string_bytes out.new ≡ string_bytes out.old ++ end_text end.now) }
{
    match end {
        End::Ended(outcome) => push_outcome(alloc, out, outcome),
        End::Waits(_) => {
            out.push_str("open")?;
            Ok(())
        }
    }
}

/// Adds the line of a session that ends so.
fn push_ended(alloc: Global, out: &mut String, number: u32, end: &End) -> Result<(), NoMemory>
    ensures { OnOk result (string_bytes out.new ≡ string_bytes out.old ++ end_line number end.now) }
{
    push_number(out, "central ", u64::from(number))?;
    out.push_str(" ")?;
    push_end(alloc, out, end)?;
    out.push_str("\n")?;
    Ok(())
}

/// Adds the line of a session where so much is left of the limit, and answers what is left after it.
fn push_session(
    alloc: Global,
    out: &mut String,
    bundle: &Bundle,
    number: u32,
    session: &Session,
    left: Option<u64>,
) -> Result<Option<u64>, NoMemory>
    requires accepted { IsAccepted bundle.now }
    requires number { number < 1000 }
    requires placed { session.now.machine < length bundle.now.machines }
    requires limited { IfSome left (λ n. n ≤ 10000000) }
    ensures line { OnOk result (string_bytes out.new ≡ string_bytes out.old ++ central_line number (run_of bundle.now number session.now) (left_after (run_of bundle.now number session.now) left)) }
    ensures rest { IfOk result (λ rest. rest ≡ left_after (run_of bundle.now number session.now) left) }
    ensures limited { IfOk result (λ rest. IfSome rest (λ n. n ≤ 10000000)) }
{
    let Some(limit) = left else {
        push_open(out, number)?;
        return Ok(None);
    };
    match run_within(alloc, bundle, number, session, limit) {
        Ok(run) => {
            let rest = limit - run.visits.len() as u64;
            let pushed = push_ended(alloc, out, number, &run.end);
            drop(run);
            pushed?;
            Ok(Some(rest))
        }
        Err(CentralError::TooLong) => {
            push_open(out, number)?;
            Ok(None)
        }
        Err(CentralError::NoMemory) => Err(NoMemory),
    }
}

/// Adds the lines of all sessions, and answers what they leave of the limit.
fn push_sessions(
    alloc: Global,
    out: &mut String,
    bundle: &Bundle,
    limit: u64,
) -> Result<Option<u64>, NoMemory>
    requires { limit ≤ 10000000 }
    ensures lines { OnOk result (string_bytes out.new ≡ string_bytes out.old ++ central_text bundle.now limit) }
    ensures left { IfOk result (λ left. left ≡ left_by bundle.now (Some limit) 0 bundle.now.sessions) }
{
    let mut left = Some(limit);
    let sessions = bundle.sessions().as_slice();
    let count = sessions.len() as u32;
    for k in 0..count {
        left = push_session(alloc, out, bundle, k, &sessions[k as usize], left)?;
    }
    Ok(left)
}

/// How each session ends by the sequential run of its machine: a line for each, and whether all of them fit in the limit. The time
/// grows with the visits.
pub fn central_told(alloc: Global, bundle: &Bundle, limit: u64) -> Result<Told, NoMemory>
    requires { limit ≤ 10000000 }
    ensures text { IfOk result (λ told. told.text ≡ central_text bundle.now limit) }
    ensures fit { IfOk result (λ told. told.all_fit ≡ all_fit bundle.now limit) }
{
    let mut out = String::new(alloc);
    let left = push_sessions(alloc, &mut out, bundle, limit)?;
    let text = Text::from_string(out)?;
    Ok(Told {
        text,
        all_fit: left.is_some(),
    })
}
