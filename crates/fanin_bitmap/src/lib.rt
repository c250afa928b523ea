//! Bitmaps of fans: which of a fan's branches have ended, and whether all have.
#![tactic(auto)]

mod bitmap;

pub use bitmap::Bitmap;
