//! What is told of a run.

use place_name::{Name, Place};
use unum_json::{Items, Json, Outcome, Text};

/// A visit of a run.
#[derive(Drop)]
pub struct Visit {
    /// Its place, and what is visited there.
    pub name: Name,
    /// The resource of a Task. Nothing else has one.
    pub resource: Option<Text>,
    /// What it was given: a Task its effective input, an Enter the input of its scope, and a Join the raw input of its fan.
    pub given: Json,
    /// What it answered. Only a Task may be without an answer.
    pub answer: Option<Outcome>,
}

/// How a run ends.
#[derive(Drop)]
pub enum End {
    /// With this outcome.
    Ended(Outcome),
    /// At these places, in the order of places: their Tasks have no answer. There is one.
    Waits(Items<Place>),
}

/// A run: its visits, in the order of their names, and how it ends.
#[derive(Drop)]
pub struct Run {
    /// The visits, in the order of their names.
    pub visits: Items<Visit>,
    /// How it ends.
    pub end: End,
}
