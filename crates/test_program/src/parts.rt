//! The parts of cases: values, outcomes, and what a visit had.

use crate::fault::Fault;
use crate::given::{number, parted};
use std::alloc::Global;
use unum_ir::Used;
use unum_json::{
    Fault as Failure, Items, Json, Outcome, Text, outcome_json, read, to_json, to_text,
};

/// The value that a text spells. `NotRead` where it spells none.
pub fn json(alloc: Global, text: &str) -> Result<Json, Fault> {
    let value = read(alloc, text.as_bytes()).map_err(|_| Fault::NotRead)?;
    to_json(alloc, &value).map_err(|_| Fault::NotRead)
}

fn push_used(used: &mut Used, list: &str) -> Result<(), Fault> {
    for word in list.split(',') {
        used.push(number(word)?)?;
    }
    Ok(())
}

/// How often each retrier was taken: numbers with commas between them, or `-` for none.
fn used(alloc: Global, list: &str) -> Result<Used, Fault> {
    let mut used = Items::new(alloc);
    if list != "-" {
        push_used(&mut used, list)?;
    }
    Ok(used)
}

/// The outcome of the words `ok VALUE` or `fail ERROR CAUSE`.
fn outcome(alloc: Global, words: &str) -> Result<Outcome, Fault> {
    let (word, rest) = parted(words, " ")?;
    if word == "ok" {
        return Ok(Outcome::Done(json(alloc, rest)?));
    }
    let (error, cause) = parted(rest, " ")?;
    let error = Text::from_str(alloc, error)?;
    let cause = Text::from_str(alloc, cause)?;
    Ok(Outcome::Failed(Failure { error, cause }))
}

/// Adds the text of a value.
pub fn push_json(alloc: Global, out: &mut String, value: &Json) -> Result<(), Fault> {
    let text = to_text(alloc, value)?;
    out.push_str(text.as_str())?;
    Ok(())
}

/// Adds `over`, and the outcome with which a scope ends.
pub fn push_over(alloc: Global, out: &mut String, outcome: &Outcome) -> Result<(), Fault> {
    let value = outcome_json(alloc, outcome)?;
    out.push_str("over ")?;
    let pushed = push_json(alloc, out, &value);
    drop(value);
    pushed
}

fn tell_used(out: &mut String, used: &Used) -> Result<(), Fault> {
    write!(out, ", used {:?}", used.as_slice())?;
    Ok(())
}

/// Adds a stop at a state.
pub fn push_stop(
    alloc: Global,
    out: &mut String,
    name: &str,
    hop: u32,
    raw: &Json,
    used: &Used,
) -> Result<(), Fault> {
    out.push_str(name)?;
    write!(out, " at {hop}, raw ")?;
    push_json(alloc, out, raw)?;
    tell_used(out, used)
}

/// What the visit of a state had.
#[derive(Drop)]
pub struct Had {
    /// Its raw data.
    pub raw: Json,
    /// How often each of its retriers was taken.
    pub used: Used,
    /// What was answered to it.
    pub answer: Outcome,
}

/// The same, from the words `RAW USED ANSWER`.
pub fn read_had(alloc: Global, words: &str) -> Result<Had, Fault> {
    let (raw, words) = parted(words, " ")?;
    let (list, words) = parted(words, " ")?;
    let used = used(alloc, list)?;
    let answer = outcome(alloc, words)?;
    let raw = json(alloc, raw)?;
    Ok(Had { raw, used, answer })
}

/// Adds the outcomes of a list that has `|` between them.
pub fn push_outcomes(alloc: Global, outcomes: &mut Vec<Outcome>, list: &str) -> Result<(), Fault> {
    for words in list.split('|') {
        outcomes.push(outcome(alloc, words.trim())?)?;
    }
    Ok(())
}
