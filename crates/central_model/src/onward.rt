//! How a state goes on, and what it does first.

ghost use Rattle.std.specs.Prelude.{◌≡◌};
ghost use Rattle.asl_model.specs.Head.{leaves};
ghost use Rattle.central_model.specs.Views.{onward_of};

use asl_model::After;
use place_name::Place;
use unum_json::{Items, Json, Outcome, Text};

/// How often each retrier of a state was taken.
pub type Used = Items<u32>;

/// How a state goes on.
///
/// Source: Amazon States Language, "Transitions".
#[derive(Drop)]
pub enum Onward<'m> {
    /// To a state with its raw data and, where it is retried, the list used.
    Goes {
        next: &'m Text,
        data: Json,
        again: Option<Used>,
    },
    /// To the end of its scope.
    Ends(Outcome),
}

/// What a state does first.
///
/// Source: Amazon States Language, "State Types".
#[derive(Drop)]
pub enum Begun<'m> {
    /// It goes on.
    On(Onward<'m>),
    /// It calls a function with its prepared data.
    Calls { resource: &'m Text, input: Json },
    /// It fans out, with one input for each branch.
    Fans(Items<Json>),
}

/// How a state that a scope entered goes on: as the state says, or the scope waits at these places.
#[derive(Drop)]
pub enum Then<'m> {
    /// As the state says.
    On(Onward<'m>),
    /// The scope waits at these places.
    Stays(Items<Place>),
}

/// After a state, the next one is entered, or the scope ends.
pub fn leaves<'m>(after: &'m After, value: Json) -> Onward<'m>
    ensures { onward_of result ≡ leaves after.now.next value }
{
    match &after.next {
        Some(next) => Onward::Goes {
            next,
            data: value,
            again: None,
        },
        None => Onward::Ends(Outcome::Done(value)),
    }
}
