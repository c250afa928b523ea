//! The answers that a run is on.

ghost use Rattle.std.specs.Prelude.{◌≡◌, ◌↔◌, [], ◌∷◌, ◌++◌, IsTrue, OnOk, OnErr};
ghost use Rattle.std.specs.Option.{option_copied};
ghost use Rattle.asl_model.specs.Names.{answers_of};
ghost use Rattle.central_model.specs.Places.{place_order, AreRising, IsBehind};

use place_name::{Kind, Name, Place, order};
use std::alloc::Global;
use std::cmp::Ordering;
use std::marker::Model;
use unum_json::{Items, NoMemory, Outcome};

/// The answers of Tasks by their places, which rise. So there is no place twice.
#[derive(Drop)]
pub struct Answers {
    items: Items<(Place, Outcome)>,
}

impl Model for Answers {
    ghost use Rattle.std.specs.Prelude.{List};
    ghost use Rattle.std.specs.Coded.{codes};
    ghost use Rattle.place_name.specs.Names.{Place};
    ghost use Rattle.unum_json.specs.declared.outcome.Outcome.{Outcome};
    ghost use Rattle.unum_json.specs.contracts.kept.Json as json;
    ghost use Rattle.central_model.specs.Places.{AreRising};

    ghost Value = { List (Place × Outcome) };

    ghost coded = { Prim.hlevel (codes, json.the_row.coded) };

    ghost view = { λ a. a.items };

    ghost invariant = { λ a. AreRising a.items };
}

/// Which of two places comes first.
fn order_places(a: Place, b: Place) -> Ordering
    ensures { result ≡ place_order a b }
{
    let a = Name {
        place: a,
        kind: Kind::Task,
    };
    let b = Name {
        place: b,
        kind: Kind::Task,
    };
    order(&a, &b)
}

/// The answer at a place, if there is one. It halves the answers each time.
fn find_in<'a>(answers: &'a [(Place, Outcome)], place: &Place) -> Option<&'a Outcome>
    requires { AreRising answers.now }
    ensures { option_copied result ≡ answers_of answers.now place.now }
{
    let mut low = 0;
    let mut high = answers.len();
    while low < high {
        let middle = low + (high - low) / 2;
        match order_places(*place, answers[middle].0) {
            Ordering::Less => high = middle,
            Ordering::Equal => return Some(&answers[middle].1),
            Ordering::Greater => low = middle + 1,
        }
    }
    None
}

impl Answers {
    /// No answers, which take no memory.
    pub fn new(alloc: Global) -> Answers
        ensures { result ≡ [] }
    {
        Answers {
            items: Items::new(alloc),
        }
    }

    /// Whether a place comes behind those of all answers.
    pub fn is_behind(&self, place: &Place) -> bool
        ensures { IsTrue result ↔ IsBehind self.now place.now }
    {
        let answers = self.items.as_slice();
        let count = answers.len();
        if count == 0 {
            return true;
        }
        matches!(order_places(answers[count - 1].0, *place), Ordering::Less)
    }

    /// Adds an answer at a place that comes behind all others. Where memory ran out, nothing changed.
    pub fn push(&mut self, place: Place, answer: Outcome) -> Result<(), NoMemory>
        requires { IsBehind self.old place }
        ensures ok { OnOk result (self.new ≡ self.old ++ (place, answer) ∷ []) }
        ensures err { OnErr result (self.new ≡ self.old) }
    {
        self.items.push((place, answer))
    }

    /// The answer at a place, or `None` exactly where there is none.
    pub fn find(&self, place: &Place) -> Option<&Outcome>
        ensures { option_copied result ≡ answers_of self.now place.now }
    {
        find_in(self.items.as_slice(), place)
    }
}
