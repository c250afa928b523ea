//! Calls of functions that were answered, and who answers them.

ghost use Rattle.std.specs.Prelude.{◌≡◌, IfOk};
ghost use Rattle.fn_table.specs.Answers.{answer};

use crate::kind::FnKind;
use std::marker::Model;
use unum_json::{Json, NoMemory, Outcome};

/// A call of a function that was answered. Contracts see it as the call, which determines the answer.
#[derive(Drop)]
pub struct Answered {
    kind: FnKind,
    input: Json,
    ticket: u32,
    outcome: Outcome,
}

impl Model for Answered {
    ghost use Rattle.std.specs.Prelude.{◌≡◌};
    ghost use Rattle.fn_table.specs.Answers.{Asked, answer};
    ghost use Rattle.std.specs.Coded.{codes};
    ghost use Rattle.unum_json.specs.contracts.value.Json as json;

    ghost Value = { Asked };

    ghost coded = { Prim.hlevel (codes, json.the_row.coded) };

    ghost view = { λ a. record { kind = a.kind; input = a.input; ticket = a.ticket } };

    ghost invariant = { λ a. a.outcome ≡ answer a.kind a.input a.ticket };
}

impl Answered {
    /// The call with its answer.
    pub fn new(kind: FnKind, input: Json, ticket: u32, outcome: Outcome) -> Answered
        requires { outcome ≡ answer kind input ticket }
        ensures { result ≡ record { kind = kind; input = input; ticket = ticket } }
    {
        Answered {
            kind,
            input,
            ticket,
            outcome,
        }
    }

    /// The function that was called.
    pub fn kind(&self) -> &FnKind
        ensures { result.now ≡ self.now.kind }
    {
        &self.kind
    }

    /// What it was called with.
    pub fn input(&self) -> &Json
        ensures { result.now ≡ self.now.input }
    {
        &self.input
    }

    /// The number of the attempt that called it.
    pub fn ticket(&self) -> u32
        ensures { result ≡ self.now.ticket }
    {
        self.ticket
    }

    /// What it answered.
    pub fn outcome(&self) -> &Outcome
        ensures { result.now ≡ answer self.now.kind self.now.input self.now.ticket }
    {
        &self.outcome
    }
}

/// Who calls functions.
pub trait Functions {
    /// Calls this function with this input, for the attempt with the number `ticket`. The only error is want of memory.
    fn answer(&self, kind: &FnKind, input: &Json, ticket: u32) -> Result<Answered, NoMemory>
        ensures { IfOk result (λ a. a ≡ record { kind = kind.now; input = input.now; ticket = ticket }) };
}
