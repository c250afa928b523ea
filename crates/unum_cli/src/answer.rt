//! How a call ends, and where it leaves its world.
use bundle_read::Refusal;
use unum_world::World;

/// How a call ended.
#[derive(Debug, Drop)]
pub enum Status {
    /// All is done and written.
    Written,
    /// The bytes are refused.
    Refused(Refusal),
    /// The words are none of the commands.
    Usage,
    /// A read failed.
    ReadFault,
    /// A write failed.
    WriteFault,
    /// The limit came before the end, and what was reached is written.
    Spent,
    /// Memory ran out.
    NoMemory,
}

/// Where a call leaves its world.
#[derive(Drop)]
pub enum Desk {
    /// There is no world.
    Empty,
    /// The world of the bundle, as far as it got.
    Open(World),
}
