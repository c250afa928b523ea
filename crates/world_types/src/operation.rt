//! Messages, the operations on objects and queue, and their replies.
use crate::held::Held;
use place_name::{Name, Obj, Place};

/// A message of the queue: a name, and the site of code that its instance runs.
#[derive(Drop)]
pub struct Invocation<S: Drop> {
    /// What is visited.
    pub name: Name,
    /// What its instance runs.
    pub site: S,
}

/// An operation: it is done at once or not at all.
#[derive(Drop)]
pub enum Op<S: Drop, B: Drop> {
    /// Reads an object.
    Look(Obj),
    /// Creates an object, if it is absent.
    Create(Obj, Held<B>),
    /// Sets the bit of a branch in the bitmap of the fan at that place, which has so many branches.
    Set {
        place: Place,
        index: u32,
        count: u32,
    },
    /// Sends a message.
    Invoke(Invocation<S>),
    /// Collects an object: where it is live, a tombstone stays of it.
    Mark(Obj),
    /// Acknowledges the attempt's invocation.
    Ack,
}

/// What an operation answers.
#[derive(Drop)]
pub enum Reply<B: Drop> {
    /// To Look and Mark: there is no such object.
    WasAbsent,
    /// To Look: what the object holds.
    WasLive(Held<B>),
    /// To Look: the object was collected.
    WasTombstone,
    /// To Create: the object was absent, and holds this now.
    Won,
    /// To Create: another was there first, and holds that.
    Had(Held<B>),
    /// To Create: the object was collected.
    HadTombstone,
    /// To Set: with this bit all are set.
    BitFull,
    /// To Set: some bit is not set.
    BitNotFull,
    /// To Set: the bitmap was collected.
    BitTombstone,
    /// To Invoke: the message is sent.
    Invoked,
    /// To Mark and Ack: it is done.
    Finished,
}
