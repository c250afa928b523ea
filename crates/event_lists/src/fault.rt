//! Why a case has no answer.

use std::alloc::{AllocError, AllocFailed};
use unum_json::NoMemory;

#[derive(Clone, Copy)]
pub enum Fault {
    /// Its line is not one that is read here.
    NotRead,
    /// A world may not have so many events.
    NoLimit,
    /// Its bytes are no bundle.
    Refused,
    NoMemory,
}

impl Fault {
    /// What is printed of it.
    pub fn told(self) -> &'static str {
        match self {
            Fault::NotRead => "NotRead",
            Fault::NoLimit => "no limit",
            Fault::Refused => "refused",
            Fault::NoMemory => "NoMemory",
        }
    }
}

impl From<NoMemory> for Fault {
    fn from(_refused: NoMemory) -> Fault {
        Fault::NoMemory
    }
}

impl From<AllocError> for Fault {
    fn from(_refused: AllocError) -> Fault {
        Fault::NoMemory
    }
}

impl<T: Drop> From<AllocFailed<T>> for Fault {
    fn from(_refused: AllocFailed<T>) -> Fault {
        Fault::NoMemory
    }
}
