//! Why a case has no answer.

use std::alloc::{AllocError, AllocFailed};
use unum_json::NoMemory;

/// Why a case has no answer.
#[derive(Clone, Copy, Debug)]
pub enum Fault {
    /// Its line is not one that is read here, or its bytes are no bundle.
    NotRead,
    /// Memory ran out.
    NoMemory,
}

impl From<NoMemory> for Fault {
    fn from(_refused: NoMemory) -> Fault {
        Fault::NoMemory
    }
}

impl From<AllocError> for Fault {
    fn from(_refused: AllocError) -> Fault {
        Fault::NoMemory
    }
}

impl<T: Drop> From<AllocFailed<T>> for Fault {
    fn from(_refused: AllocFailed<T>) -> Fault {
        Fault::NoMemory
    }
}
