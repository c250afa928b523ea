//! What the queue knows of invocations and attempts, the entries of the journal, and events.
use crate::phase::Phase;
use place_name::Name;
use unum_json::Outcome;

/// An entry of the journal: a checkpoint that was won.
#[derive(Drop)]
pub struct Entry {
    /// The visit that it is of.
    pub name: Name,
    /// Its answer.
    pub answer: Outcome,
    /// The number of the attempt that won it.
    pub ticket: u32,
}

/// What the queue knows of an invocation.
#[derive(Clone, Copy)]
pub struct InvState {
    /// How often it was delivered.
    pub tries: u32,
    /// How many of its attempts live.
    pub live: u32,
    /// Whether an attempt acknowledged it.
    pub acked: bool,
    /// Whether it was given up.
    pub dead: bool,
}

/// An attempt: one delivery of a message.
#[derive(Drop)]
pub struct Attempt {
    /// The number of its invocation.
    pub inv: u32,
    /// Whether it has neither crashed nor acknowledged.
    pub live: bool,
    /// How many steps and answers it had.
    pub steps: u32,
    /// Where it stands in the program.
    pub phase: Phase,
}

/// What may happen in a world.
#[derive(Clone, Copy, Debug, PartialEq, Eq)]
pub enum Event {
    /// The message of that invocation is delivered.
    Deliver(u32),
    /// That attempt crashes.
    Crash(u32),
    /// That attempt does its next operation.
    Step(u32),
    /// That attempt gets its function's answer.
    Answer(u32),
    /// That invocation is given up.
    GiveUp(u32),
}
