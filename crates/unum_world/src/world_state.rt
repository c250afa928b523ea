//! A world as it is now.
use invoke_queue::Numbers;
use unum_hub::Hub;
use world_types::{Entry, Stop};

/// A world as it is now: objects and queue, the journal, and how many steps were a Mark. Beside these it keeps what would
/// cost much to find again.
#[derive(Drop)]
pub struct WorldState {
    /// Objects and queue.
    pub hub: Hub,
    /// The checkpoints that won, in the order of winning.
    pub journal: Vec<Entry>,
    /// How many steps were a Mark.
    pub marks: u64,
    /// By attempt, where the scope stops after the answer that it adopted, while it acts.
    pub stops: Vec<Option<Stop<u32>>>,
    /// The invocations that are to be delivered beside their one live attempt.
    pub twins: Numbers,
}
