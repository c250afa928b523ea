//! Cases of the machine's central run on given answers.

use crate::fault::Fault;
use crate::given::parted;
use crate::machine::block;
use crate::parts::{json, push_outcomes, push_over};
use asl_model::{Machine, valid};
use asl_valid::check;
use central_model::{Answers, CentralError, End, Run, central};
use place_name::{Place, Trail};
use std::alloc::Global;
use unum_json::Outcome;

/// Adds the answer of the Task that the session's own scope enters after so many others.
fn push_answer(answers: &mut Answers, index: usize, outcome: Outcome) -> Result<(), Fault> {
    if index >= 1_000 {
        drop(outcome);
        return Err(Fault::NotRead);
    }
    let place = Place {
        session: 0,
        trail: Trail::new(),
        hop: index as u32 + 1,
    };
    if !answers.is_behind(&place) {
        drop(outcome);
        return Err(Fault::NotRead);
    }
    answers.push(place, outcome)?;
    Ok(())
}

/// The answers of a list, or none for `-`.
fn answers(alloc: Global, list: &str) -> Result<Answers, Fault> {
    let mut outcomes: Vec<Outcome> = Vec::new(alloc);
    if list != "-" {
        push_outcomes(alloc, &mut outcomes, list)?;
    }
    let mut answers = Answers::new(alloc);
    for (index, outcome) in outcomes.into_iter().enumerate() {
        push_answer(&mut answers, index, outcome)?;
    }
    Ok(answers)
}

fn tell_run(alloc: Global, out: &mut String, run: &Run) -> Result<(), Fault> {
    write!(out, "{} visits, ", run.visits.len())?;
    match &run.end {
        End::Ended(outcome) => push_over(alloc, out, outcome),
        End::Waits(places) => {
            write!(out, "{} waiting", places.len())?;
            Ok(())
        }
    }
}

/// How many visits the machine's run has on given answers, and how it ends.
pub fn given_answers(alloc: Global, out: &mut String, words: &str) -> Result<(), Fault> {
    let (raw, list) = parted(words, " ")?;
    let machine = Machine {
        root: block(alloc)?,
    };
    if let Err(error) = check(alloc, &machine) {
        drop(error);
        drop(machine);
        return Err(Fault::NotRead);
    }
    valid();
    let raw = json(alloc, raw)?;
    let answers = answers(alloc, list)?;
    let made = central(alloc, &machine, 0, &raw, &answers, 1_000);
    drop(answers);
    drop(raw);
    drop(machine);
    let told = match made {
        Ok(run) => {
            let told = tell_run(alloc, out, &run);
            drop(run);
            told
        }
        Err(CentralError::TooLong) => Err(Fault::NotRead),
        Err(CentralError::NoMemory) => Err(Fault::NoMemory),
    };
    out.push_str("\n")?;
    told
}
