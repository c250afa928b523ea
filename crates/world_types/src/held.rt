//! What the objects of a world hold: checkpoints, outcomes of scopes, what fans saved, bitmaps and data of messages.
use unum_json::{Items, Json, Outcome};

/// How often each retrier of a state was taken, in their order.
pub type Used = Items<u32>;

/// What a checkpoint keeps of a visit. Source: Amazon States Language, Retrying After Error (the counts of retriers).
#[derive(Drop)]
pub struct Kept {
    /// What the state was entered with.
    pub raw: Json,
    /// How often its retriers were taken before.
    pub used: Used,
    /// The answer of the visit.
    pub answer: Outcome,
    /// The number of the attempt that gave it.
    pub ticket: u32,
    /// For a Join its number of branches, else 0.
    pub count: u32,
}

/// What an object holds. Bitmaps are of type `B`.
#[derive(Drop)]
pub enum Held<B: Drop> {
    /// A Check: the checkpoint of a visit.
    Kept(Kept),
    /// An Out: how a scope ended.
    Outcome(Outcome),
    /// A Saved: how many branches a fan has, and what its state was entered with.
    Saved { count: u32, raw: Json, used: Used },
    /// A bitmap: which branches of a fan have ended.
    Bits(B),
    /// An Arg: what a session or a Task was entered with.
    Arg { raw: Json, used: Used },
}

/// An object is absent, live with what it holds, or collected, of which a tombstone stays.
#[derive(Drop)]
pub enum Condition<B: Drop> {
    /// It was never created.
    Absent,
    /// It is there.
    Live(Held<B>),
    /// It was there and was marked: nothing brings it back.
    Tombstone,
}
