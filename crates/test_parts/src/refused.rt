//! What a case comes to.

use asl_paths::{FillError, PathError, PutError, TemplateError};
use choice_rules::{PathFailure, PatternError};
use place_name::BadName;
use std::alloc::{AllocError, AllocFailed};
use unum_io::{Failed, ReadAll};
use unum_json::{JsonError, NoMemory, Text, WholeError};

/// A call was refused, or the line is no case.
#[derive(Clone, Copy)]
pub enum Refused {
    /// The line is no case.
    NoCase,
    /// Memory ran out.
    NoMemory,
    /// The bytes are no JSON text.
    NotJson,
    /// The source gave more bytes than were asked for.
    TooLong,
    /// A read or a write failed.
    Fault,
    /// A path leads to no place in the value.
    NoPlace,
    /// A path of a template finds nothing.
    Missing,
    /// What a template makes is too large.
    TooLarge,
    /// A path of a rule found nothing.
    PathFailure,
    /// A pattern ends in a backslash that makes nothing literal.
    LoneBackslash,
    /// Nothing was found.
    Nothing,
    /// What was found is not what was wanted.
    Other,
    /// The longest front of the text that is right has this length.
    Bad(u64),
}

impl Refused {
    /// The word that is printed for it.
    pub fn word(self) -> &'static str {
        match self {
            Refused::NoCase => "no case",
            Refused::NoMemory => "NoMemory",
            Refused::NotJson => "NotJson",
            Refused::TooLong => "TooLong",
            Refused::Fault => "Fault",
            Refused::NoPlace => "NoPlace",
            Refused::Missing => "Missing",
            Refused::TooLarge => "TooLarge",
            Refused::PathFailure => "PathFailure",
            Refused::LoneBackslash => "LoneBackslash",
            Refused::Nothing => "nothing",
            Refused::Other => "another",
            Refused::Bad(_) => "bad",
        }
    }
}

/// What a case comes to, in words.
pub type Told = Result<Text, Refused>;

impl From<NoMemory> for Refused {
    fn from(_refused: NoMemory) -> Refused {
        Refused::NoMemory
    }
}

impl From<AllocError> for Refused {
    fn from(_refused: AllocError) -> Refused {
        Refused::NoMemory
    }
}

impl<T: Drop> From<AllocFailed<T>> for Refused {
    fn from(_refused: AllocFailed<T>) -> Refused {
        Refused::NoMemory
    }
}

impl From<JsonError> for Refused {
    fn from(error: JsonError) -> Refused {
        match error {
            JsonError::NotJson => Refused::NotJson,
            JsonError::NoMemory => Refused::NoMemory,
        }
    }
}

impl From<WholeError> for Refused {
    fn from(error: WholeError) -> Refused {
        match error {
            WholeError::NotWhole { at: _ } => Refused::NoCase,
            WholeError::NoMemory => Refused::NoMemory,
        }
    }
}

impl From<ReadAll> for Refused {
    fn from(error: ReadAll) -> Refused {
        match error {
            ReadAll::TooLong => Refused::TooLong,
            ReadAll::Fault => Refused::Fault,
            ReadAll::NoMemory => Refused::NoMemory,
        }
    }
}

impl From<BadName> for Refused {
    fn from(error: BadName) -> Refused {
        Refused::Bad(error.at)
    }
}

impl From<PathError> for Refused {
    fn from(error: PathError) -> Refused {
        match error {
            PathError::Bad { at } => Refused::Bad(at),
            PathError::NoMemory => Refused::NoMemory,
        }
    }
}

impl From<PutError> for Refused {
    fn from(error: PutError) -> Refused {
        match error {
            PutError::NoPlace => Refused::NoPlace,
            PutError::NoMemory => Refused::NoMemory,
        }
    }
}

impl From<TemplateError> for Refused {
    fn from(error: TemplateError) -> Refused {
        match error {
            TemplateError::BadTemplate { at: _ } => Refused::NoCase,
            TemplateError::NoMemory => Refused::NoMemory,
        }
    }
}

impl From<FillError> for Refused {
    fn from(error: FillError) -> Refused {
        match error {
            FillError::Missing => Refused::Missing,
            FillError::TooLarge => Refused::TooLarge,
            FillError::NoMemory => Refused::NoMemory,
        }
    }
}

impl From<PathFailure> for Refused {
    fn from(_failure: PathFailure) -> Refused {
        Refused::PathFailure
    }
}

impl From<PatternError> for Refused {
    fn from(error: PatternError) -> Refused {
        match error {
            PatternError::LoneBackslash => Refused::LoneBackslash,
            PatternError::NoMemory => Refused::NoMemory,
        }
    }
}
