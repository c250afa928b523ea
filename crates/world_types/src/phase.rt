//! Where an attempt stands in the program, and what it does next there.
use crate::held::{Kept, Used};
use crate::operation::Op;
use unum_json::{Items, Json, Outcome, Text};

/// Where an attempt stands in the program, with what it keeps there.
#[derive(Drop)]
pub enum Phase {
    /// It looks whether its own checkpoint is there.
    Looking,
    /// A Join reads what its fan saved.
    Saving,
    /// A Join has read the outcomes of some of its branches, and reads the next one.
    Gathering {
        count: u32,
        raw: Json,
        used: Used,
        outcomes: Items<Outcome>,
    },
    /// An Enter or a Task reads its data.
    Reading,
    /// A Task waits for the answer of its function.
    Calling {
        raw: Json,
        used: Used,
    },
    /// It creates its checkpoint.
    Creating(Kept),
    /// It does what follows the checkpoint that won: so many acts are done.
    Acting {
        kept: Kept,
        done: u32,
    },
    /// Its branch was the last to end, and it invokes the Join.
    Joining(Kept),
    /// It marks what nobody reads any more: so many objects are marked.
    Marking {
        kept: Kept,
        done: u32,
    },
    /// It acknowledges its invocation. Whether it came through its own acts and marks is kept.
    Acking {
        finished: bool,
    },
    /// It is over.
    Over {
        finished: bool,
    },
}

/// What an attempt does next.
#[derive(Drop)]
pub enum Doing<S: Drop, B: Drop> {
    /// An operation.
    Do(Op<S, B>),
    /// The call of the function of a resource. Source: Amazon States Language, Task State.
    Ask { resource: Text, input: Json },
    /// Nothing.
    Nothing,
}
