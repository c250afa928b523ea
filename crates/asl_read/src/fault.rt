//! The rules of reading, and what is told of the first that is broken.

ghost use Rattle.std.specs.Prelude.{◌≡◌, [], ◌∷◌, ◌++◌, List, ℕ, IfOk};
ghost use Rattle.unum_json.specs.Whole.{index_step, key_step};
ghost use Rattle.asl_read.specs.Objects.{Broken, under};
ghost use Rattle.asl_read.specs.Checks.{Checks, rule_name};

use std::alloc::{AllocError, Global};
use unum_json::{NoMemory, Text};

/// A rule of reading, by the code that is printed.
#[derive(Clone, Copy, Debug, PartialEq, Eq)]
pub enum LRule {
    /// The source gives at most 4,194,304 bytes.
    L0,
    /// The bytes are JSON.
    L1,
    /// A value has the JSON type of its field.
    L2,
    /// A required field is there.
    L3,
    /// A field, a state type and a function kind is a known one, and no field stands beside its alternative.
    L4,
    /// No field, state type, operator or value is left out by name.
    L5,
    /// A path and a template is well formed.
    L6,
    /// A choice rule is well formed.
    L7,
    /// A number in data, and a number of a field, is whole and fits an `i64`.
    L8,
}

impl LRule {
    /// The code, as it is printed.
    pub fn as_str(self) -> &'static str
        ensures { result.now ≡ rule_name self }
    {
        match self {
            LRule::L0 => "L0",
            LRule::L1 => "L1",
            LRule::L2 => "L2",
            LRule::L3 => "L3",
            LRule::L4 => "L4",
            LRule::L5 => "L5",
            LRule::L6 => "L6",
            LRule::L7 => "L7",
            LRule::L8 => "L8",
        }
    }
}

/// Why a value was not read.
#[derive(Debug, Drop)]
pub enum ReadFault {
    /// It breaks this rule, which is the first that it breaks in the order of reading. The place is a sequence of keys and
    /// indices, each with `/` before it, keys unescaped.
    Refused { rule: LRule, at: Text },
    /// Memory ran out.
    NoMemory,
}

impl From<NoMemory> for ReadFault {
    ghost use Rattle.std.specs.Prelude.{◌≡◌};
    ghost use Rattle.asl_read.specs.declared.fault.ReadFault.TheVariants as fault;

    ghost from_gives = { λ _ e. e ≡ fault.NoMemory };

    fn from(_refused: NoMemory) -> ReadFault {
        ReadFault::NoMemory
    }
}

impl From<AllocError> for ReadFault {
    ghost use Rattle.std.specs.Prelude.{◌≡◌};
    ghost use Rattle.asl_read.specs.declared.fault.ReadFault.TheVariants as fault;

    ghost from_gives = { λ _ e. e ≡ fault.NoMemory };

    fn from(_refused: AllocError) -> ReadFault {
        ReadFault::NoMemory
    }
}

/// The refusal of the value itself.
pub fn refused(alloc: Global, rule: LRule) -> Result<(), ReadFault>
    ensures { Checks result (record { rule = rule; at = [] } ∷ []) }
{
    Err(ReadFault::Refused {
        rule,
        at: Text::new(alloc),
    })
}

/// The refusal of the value at a key.
pub fn refused_at(alloc: Global, rule: LRule, key: &str) -> Result<(), ReadFault>
    ensures { Checks result (record { rule = rule; at = key_step key.now } ∷ []) }
{
    Err(ReadFault::Refused {
        rule,
        at: joined(alloc, "/", key, "")?,
    })
}

fn joined(alloc: Global, sign: &str, step: &str, place: &str) -> Result<Text, AllocError>
    ensures { IfOk result (λ t. t ≡ sign.now ++ step.now ++ place.now) }
{
    let mut out = String::from_str(alloc, sign)?;
    out.push_str(step)?;
    out.push_str(place)?;
    Ok(Text::from_string(out)?)
}

/// The same fault, as seen from the object that has the value at a key.
pub fn under_key(alloc: Global, key: &str, made: Result<(), ReadFault>) -> Result<(), ReadFault>
    ensures { (due : List Broken) → Checks made due → Checks result (under (key_step key.now) due) }
{
    match made {
        Ok(()) => Ok(()),
        Err(ReadFault::Refused { rule, at }) => Err(ReadFault::Refused {
            rule,
            at: joined(alloc, "/", key, at.as_str())?,
        }),
        Err(ReadFault::NoMemory) => Err(ReadFault::NoMemory),
    }
}

/// The same fault, as seen from the array that has the value at an index.
pub fn under_index(
    alloc: Global,
    index: usize,
    made: Result<(), ReadFault>,
) -> Result<(), ReadFault>
    ensures { (due : List Broken) → Checks made due → Checks result (under (index_step index) due) }
{
    match made {
        Ok(()) => Ok(()),
        Err(ReadFault::Refused { rule, at }) => {
            let step = index.to_string(alloc)?;
            Err(ReadFault::Refused {
                rule,
                at: joined(alloc, "/", step.as_str(), at.as_str())?,
            })
        }
        Err(ReadFault::NoMemory) => Err(ReadFault::NoMemory),
    }
}

/// The same fault, with a place before its own.
pub(crate) fn under(
    alloc: Global,
    place: &str,
    made: Result<(), ReadFault>,
) -> Result<(), ReadFault>
    ensures { (due : List Broken) → Checks made due → Checks result (under place.now due) }
{
    match made {
        Ok(()) => Ok(()),
        Err(ReadFault::Refused { rule, at }) => Err(ReadFault::Refused {
            rule,
            at: joined(alloc, place, at.as_str(), "")?,
        }),
        Err(ReadFault::NoMemory) => Err(ReadFault::NoMemory),
    }
}
