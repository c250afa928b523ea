//! The report of a world.

ghost use Rattle.std.specs.Prelude.{◌≡◌, ◌++◌, decimal, slice_get, length, string_bytes, IfOk, OnOk};
ghost use Rattle.unum_world.specs.Answers.{IsOne};
ghost use Rattle.unum_world.specs.Traces.{now};
ghost use Rattle.world_plans.specs.Sessions.{SessionStatus, session_of};
ghost use Rattle.session_report.specs.Report.{outcome_text, state_text, session_text, session_line, entry_text, entry_line, sessions_text, counts_text, tries_text, totals_text, totals_line, lines, report as report_of};

use place_name::spell;
use std::alloc::Global;
use unum_json::{NoMemory, Outcome, Text, outcome_json, to_text};
use unum_world::{SessionState, World};
use world_plans::Totals;
use world_types::Entry;

/// Adds a label and a number in decimal digits.
pub fn push_number(out: &mut String, label: &str, number: u64) -> Result<(), NoMemory>
    ensures { OnOk result (string_bytes out.new ≡ string_bytes out.old ++ label.now ++ decimal number) }
{
    out.push_str(label)?;
    write!(out, "{number}")?;
    Ok(())
}

/// Adds an outcome as compact JSON.
#[tactic(auto, unfolding(crate::specs::Report::outcome_text))]
pub fn push_outcome(alloc: Global, out: &mut String, outcome: &Outcome) -> Result<(), NoMemory>
    ensures { OnOk result (string_bytes out.new ≡ string_bytes out.old ++ outcome_text outcome.now) }
{
    let json = outcome_json(alloc, outcome)?;
    let text = to_text(alloc, &json)?;
    out.push_str(text.as_str())?;
    Ok(())
}

fn push_state(alloc: Global, out: &mut String, state: SessionState<'_>) -> Result<(), NoMemory>
    ensures { (s : SessionStatus) → IsOne state.entry s → OnOk result (string_bytes out.new ≡ string_bytes out.old ++ state_text s) }
{
    match state {
        SessionState::Ended(outcome) => {
            out.push_str("ended ")?;
            push_outcome(alloc, out, outcome)
        }
        SessionState::Abandoned => {
            out.push_str("abandoned")?;
            Ok(())
        }
        SessionState::Open => {
            out.push_str("open")?;
            Ok(())
        }
    }
}

/// The line of a session.
fn push_session(
    alloc: Global,
    out: &mut String,
    world: &World,
    session: u32,
) -> Result<(), NoMemory>
    ensures { OnOk result (string_bytes out.new ≡ string_bytes out.old ++ session_line (now world.now) session) }
{
    match world.session(session) {
        None => Ok(()),
        Some(state) => {
            push_number(out, "session ", u64::from(session))?;
            out.push_str(" ")?;
            push_state(alloc, out, state)?;
            out.push_str("\n")?;
            Ok(())
        }
    }
}

/// The line of a checkpoint.
fn push_entry(alloc: Global, out: &mut String, entry: &Entry) -> Result<(), NoMemory>
    ensures { OnOk result (string_bytes out.new ≡ string_bytes out.old ++ entry_text (Some entry.now)) }
{
    let name = spell(alloc, &entry.name)?;
    out.push_str("entry ")?;
    out.push_str(name.as_str())?;
    push_number(out, " ", u64::from(entry.ticket))?;
    out.push_str(" ")?;
    push_outcome(alloc, out, &entry.answer)?;
    out.push_str("\n")?;
    Ok(())
}

fn push_sessions(alloc: Global, out: &mut String, world: &World) -> Result<(), NoMemory>
    ensures { OnOk result (string_bytes out.new ≡ string_bytes out.old ++ lines (session_line (now world.now)) 0 (length world.now.opening.sessions)) }
{
    let count = world.opening().sessions.len() as u32;
    for k in 0..count {
        push_session(alloc, out, world, k)?;
    }
    Ok(())
}

fn push_entry_at(
    alloc: Global,
    out: &mut String,
    world: &World,
    number: u64,
) -> Result<(), NoMemory>
    ensures { OnOk result (string_bytes out.new ≡ string_bytes out.old ++ entry_line (now world.now) number) }
{
    match world.entry(number) {
        None => Ok(()),
        Some(entry) => push_entry(alloc, out, entry),
    }
}

fn push_entries(alloc: Global, out: &mut String, world: &World) -> Result<(), NoMemory>
    ensures { OnOk result (string_bytes out.new ≡ string_bytes out.old ++ lines (entry_line (now world.now)) 0 (length (now world.now).journal)) }
{
    let count = world.entries();
    for k in 0..count {
        push_entry_at(alloc, out, world, k)?;
    }
    Ok(())
}

#[tactic(auto, unfolding(crate::specs::Report::sessions_text))]
fn push_session_totals(out: &mut String, t: &Totals) -> Result<(), NoMemory>
    ensures { OnOk result (string_bytes out.new ≡ string_bytes out.old ++ sessions_text t.now) }
{
    push_number(out, "totals sessions ", t.sessions)?;
    push_number(out, " ended ", t.ended)?;
    push_number(out, " abandoned ", t.abandoned)?;
    push_number(out, " open ", t.still_open)
}

#[tactic(auto, unfolding(crate::specs::Report::counts_text))]
fn push_counts(out: &mut String, t: &Totals) -> Result<(), NoMemory>
    ensures { OnOk result (string_bytes out.new ≡ string_bytes out.old ++ counts_text t.now) }
{
    push_number(out, " entries ", t.entries)?;
    push_number(out, " events ", t.events)?;
    push_number(out, " invocations ", t.invocations)
}

#[tactic(auto, unfolding(crate::specs::Report::tries_text))]
fn push_tries(out: &mut String, t: &Totals) -> Result<(), NoMemory>
    ensures { OnOk result (string_bytes out.new ≡ string_bytes out.old ++ tries_text t.now) }
{
    push_number(out, " attempts ", t.attempts)?;
    push_number(out, " crashes ", t.crashes)?;
    push_number(out, " marks ", t.marks)?;
    out.push_str("\n")?;
    Ok(())
}

#[tactic(auto, unfolding(crate::specs::Report::totals_text))]
fn push_all(out: &mut String, t: &Totals) -> Result<(), NoMemory>
    ensures { OnOk result (string_bytes out.new ≡ string_bytes out.old ++ totals_text t.now) }
{
    push_session_totals(out, t)?;
    push_counts(out, t)?;
    push_tries(out, t)?;
    Ok(())
}

/// Adds the line of what a world counts.
fn push_totals(out: &mut String, world: &World) -> Result<(), NoMemory>
    ensures { OnOk result (string_bytes out.new ≡ string_bytes out.old ++ totals_line world.now) }
{
    push_all(out, &world.totals())
}

/// The report of a world: a line for each session, one for each checkpoint in the order of winning, and the totals.
#[tactic(auto, unfolding(crate::specs::Report::report))]
pub fn report(alloc: Global, world: &World) -> Result<Text, NoMemory>
    ensures { IfOk result (λ t. t ≡ report_of world.now) }
{
    let mut out = String::from_str(alloc, "unum report 1\n")?;
    push_sessions(alloc, &mut out, world)?;
    push_entries(alloc, &mut out, world)?;
    push_totals(&mut out, world)?;
    Ok(Text::from_string(out)?)
}

/// The line of what a world counts.
pub fn totals_line(alloc: Global, world: &World) -> Result<Text, NoMemory>
    ensures { IfOk result (λ t. t ≡ totals_line world.now) }
{
    let mut out = String::new(alloc);
    push_totals(&mut out, world)?;
    Ok(Text::from_string(out)?)
}
