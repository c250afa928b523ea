//! Reading a flat form from the value that it is printed as.

ghost use Rattle.std.specs.Prelude.{◌≡◌, ◌↔◌, IfOk, IsTrue, Ok};
ghost use Rattle.unum_json.specs.Parsed.{view};
ghost use Rattle.unum_json.specs.Whole.{of_data};
ghost use Rattle.ir_text.specs.Printed.{ir_value};
ghost use Rattle.ir_text.specs.Reads.{Blames, IsPrinted, Passes, Reads, malformed, out_of_range};
ghost use Rattle.ir_text.specs.Spelled.{ir_of};
ghost use Rattle.asl_read.specs.Checks.{Checks};

use crate::fault::{IRule, IrError, broken};
use crate::kinds::{Object, Part};
use crate::printing::ir_value;
use crate::ranges::sizes_of;
use crate::spelling::ir_of;
use crate::texts::check_printed;
use crate::walk::{Walk, check_part};
use asl_read::ReadFault;
use std::alloc::Global;
use unum_ir::{Ir, is_well_formed};
use unum_json::{Json, NoMemory, Text, Value, WholeError, same, to_json};

/// Whether a value is this JSON value.
fn is_value(alloc: Global, value: &Value, json: &Json) -> Result<bool, NoMemory>
    ensures { IfOk result (λ b. IsTrue b ↔ (of_data (view value.now) ≡ Ok json.now)) }
{
    match to_json(alloc, value) {
        Ok(whole) => {
            let equal = same(&whole, json);
            drop(whole);
            Ok(equal)
        }
        Err(WholeError::NotWhole { at }) => {
            drop(at);
            Ok(false)
        }
        Err(WholeError::NoMemory) => Err(NoMemory),
    }
}

/// Checks the form of each part.
fn check_forms(alloc: Global, value: &Value) -> Result<(), ReadFault>
    ensures { Checks result (malformed (view value.now)) }
{
    check_part(alloc, Walk::Forms, Part::Object(Object::Ir), value)
}

/// Checks the range of each number.
fn check_ranges(alloc: Global, value: &Value) -> Result<(), ReadFault>
    ensures { Checks result (out_of_range (view value.now)) }
{
    check_part(
        alloc,
        Walk::Ranges(sizes_of(value)),
        Part::Object(Object::Ir),
        value,
    )
}

/// Whether a value is what a well formed flat form is printed as.
fn is_printed(alloc: Global, value: &Value, ir: &Ir, printed: &Json) -> Result<bool, NoMemory>
    requires { printed.now ≡ ir_value ir.now }
    ensures { IfOk result (λ b. IsTrue b ↔ IsPrinted ir.now (view value.now)) }
{
    if is_value(alloc, value, printed)? {
        Ok(is_well_formed(ir))
    } else {
        Ok(false)
    }
}

/// The first broken rule of a value that is not the printed form of what it spells.
fn blamed(alloc: Global, value: &Value, printed: &Json) -> IrError
    requires spelled { printed.now ≡ ir_value (ir_of (view value.now)) }
    requires unlike { ¬ IsPrinted (ir_of (view value.now)) (view value.now) }
    ensures { Blames result (view value.now) }
{
    if let Err(fault) = check_forms(alloc, value) {
        return broken(IRule::I1, fault);
    }
    if let Err(fault) = check_printed(alloc, value, Some(printed)) {
        return broken(IRule::I2, fault);
    }
    if let Err(fault) = check_ranges(alloc, value) {
        return broken(IRule::I3, fault);
    }
    IrError::BadIr {
        rule: IRule::I4,
        at: Text::new(alloc),
    }
}

/// Checks a value against what the flat form that it spells is printed as.
fn check_against(alloc: Global, value: &Value, ir: &Ir, printed: &Json) -> Result<(), IrError>
    requires spelled { ir.now ≡ ir_of (view value.now) }
    requires printed { printed.now ≡ ir_value ir.now }
    ensures { Passes result (view value.now) }
{
    if is_printed(alloc, value, ir, printed)? {
        Ok(())
    } else {
        Err(blamed(alloc, value, printed))
    }
}

/// Checks a value by the flat form that it spells.
fn check_spelled(alloc: Global, value: &Value, ir: &Ir) -> Result<(), IrError>
    requires { ir.now ≡ ir_of (view value.now) }
    ensures { Passes result (view value.now) }
{
    let printed = ir_value(alloc, ir)?;
    let made = check_against(alloc, value, ir, &printed);
    drop(printed);
    made
}

/// The flat form that a value is the printed form of.
///
/// Unless memory runs out, `Ok` comes exactly where the value is what the flat form that it spells is printed as and this is well
/// formed, and `BadIr` with the first rule that is broken and the first place where it is. The rules are tried one after the other
/// over the whole value.
///
/// Source: Amazon States Language, "States" and "State Types", for the fields that a state has.
pub fn read(alloc: Global, value: &Value) -> Result<Ir, IrError>
    ensures { Reads result (view value.now) }
{
    let ir = ir_of(alloc, value)?;
    match check_spelled(alloc, value, &ir) {
        Ok(()) => Ok(ir),
        Err(error) => {
            drop(ir);
            Err(error)
        }
    }
}
