//! How a node goes on, and what it does first.

ghost use Rattle.std.specs.Prelude.{◌≡◌};
ghost use Rattle.asl_model.specs.Head.{leaves};
ghost use Rattle.unum_ir.specs.Views.{onward_of};

use unum_json::{Items, Json, Outcome};

/// How often each retrier of a state was taken.
pub type Used = Items<u32>;

/// How a node goes on.
///
/// Source: Amazon States Language, "Transitions".
#[derive(Drop)]
pub enum Onward {
    /// To a node with its raw data and, where it is retried, the list used.
    Goes {
        next: u32,
        data: Json,
        again: Option<Used>,
    },
    /// To the end of its scope.
    Ends(Outcome),
}

/// What a node does first.
///
/// Source: Amazon States Language, "State Types".
#[derive(Drop)]
pub enum Begun {
    /// It goes on.
    On(Onward),
    /// It calls the function with this number with its prepared data.
    Calls { func: u32, input: Json },
    /// It fans out, with one input for each branch.
    Fans(Items<Json>),
}

/// After a node, the next one is entered, or the scope ends.
pub fn leaves(next: Option<u32>, value: Json) -> Onward
    ensures { onward_of result ≡ leaves next value }
{
    match next {
        Some(next) => Onward::Goes {
            next,
            data: value,
            again: None,
        },
        None => Onward::Ends(Outcome::Done(value)),
    }
}
