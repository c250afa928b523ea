//! The broken rules of flat code's text, as errors.

ghost use Rattle.std.specs.Prelude.{◌≡◌};
ghost use Rattle.ir_text.specs.Reads.{rule_name, Tells};

use asl_read::ReadFault;
use unum_json::{NoMemory, Text};

/// A rule of the text of flat code, by the code that is printed.
#[derive(Clone, Copy, Debug, PartialEq, Eq)]
pub enum IRule {
    /// Each field is known, is there and has its type, numbers are whole, and paths, templates and rules are well formed.
    I1,
    /// Each text and field is in its canonical form.
    I2,
    /// Each number is in its range.
    I3,
    /// The flat form is well formed.
    I4,
}

impl IRule {
    /// The code, as it is printed.
    pub fn as_str(self) -> &'static str
        ensures { result.now ≡ rule_name self }
    {
        match self {
            IRule::I1 => "I1",
            IRule::I2 => "I2",
            IRule::I3 => "I3",
            IRule::I4 => "I4",
        }
    }
}

/// Why a value is no flat form's text.
#[derive(Debug, Drop)]
pub enum IrError {
    /// It breaks this rule, and none before it, first at this place. The place is a sequence of keys and indices, each with `/`
    /// before it, keys unescaped. That of I4 is empty.
    BadIr { rule: IRule, at: Text },
    /// Memory ran out.
    NoMemory,
}

impl From<NoMemory> for IrError {
    ghost use Rattle.std.specs.Prelude.{◌≡◌};
    ghost use Rattle.ir_text.specs.declared.fault.IrError.TheVariants as error;

    ghost from_gives = { λ _ e. e ≡ error.NoMemory };

    fn from(_refused: NoMemory) -> IrError {
        IrError::NoMemory
    }
}

/// What was found by one of the walks, as a broken rule.
pub(crate) fn broken(rule: IRule, fault: ReadFault) -> IrError
    ensures { Tells rule result fault }
{
    match fault {
        ReadFault::Refused { rule: _, at } => IrError::BadIr { rule, at },
        ReadFault::NoMemory => IrError::NoMemory,
    }
}
