//! What a store has of an object that is not absent.
use fanin_bitmap::Bitmap;
use world_types::Held;

/// What stands for an object that is not absent.
#[derive(Drop)]
pub enum Slot {
    /// It is live, and holds this.
    Live(Held<Bitmap>),
    /// It was collected: nothing brings it back.
    Tombstone,
}
