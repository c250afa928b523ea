//! Sources and sinks of bytes that count their faults.
//!
//! Contracts see of a source what is left, and of a sink what was taken, where that is told (it is over memory), and of
//! each a count of faults. The count never falls, a call fails only where it rose, and a call that does not fail leaves it
//! as it was. A count that has reached the greatest `u64` stays there, and then counts as risen.
#![tactic(auto)]

mod all;
mod memory;
mod sink;
mod source;

pub use all::{Bytes, ReadAll, read_all, write_all};
pub use memory::{MemSink, MemSource};
pub use sink::{Sink, StdSink};
pub use source::{Failed, Source, StdSource};
