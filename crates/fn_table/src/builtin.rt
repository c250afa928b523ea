//! The built-in functions, called in this process.

use crate::answered::{Answered, Functions};
use crate::calls::call;
use crate::kind::{FnKind, copy_kind};
use std::alloc::Global;
use unum_json::{Json, NoMemory, copy};

/// Calls the built-in functions in this process.
#[derive(Drop)]
pub struct BuiltIns {
    alloc: Global,
}

impl BuiltIns {
    /// `alloc` gives the memory of the answers.
    pub fn new(alloc: Global) -> BuiltIns {
        BuiltIns { alloc }
    }
}

impl Functions for BuiltIns {
    fn answer(&self, kind: &FnKind, input: &Json, ticket: u32) -> Result<Answered, NoMemory> {
        let outcome = call(self.alloc, kind, input, ticket)?;
        let kind = copy_kind(self.alloc, kind)?;
        let input = copy(self.alloc, input)?;
        Ok(Answered::new(kind, input, ticket, outcome))
    }
}
