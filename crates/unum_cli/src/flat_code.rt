//! Flat code: what `compile` prints of a bundle, and what `ir` tells of a text.

ghost use Rattle.std.specs.Prelude.{◌≡◌, ◌≢◌, ◌≤◌, ◌++◌, [], Some, Err, flat_map, length, string_bytes, IfOk, OnOk};
ghost use Rattle.unum_json.specs.Parsed.{view};
ghost use Rattle.unum_ir.specs.WellFormed.{IsWellFormed};
ghost use Rattle.unum_cli.specs.FlatCode.{compiled_line, compiled_text, flat_text, JudgesFlat, JudgesParsed, JudgesOnce};
ghost use Rattle.unum_cli.specs.Tool.{TakesFlat};

use crate::refusals::push_quoted;
use crate::taking::TakeError;
use asl_read::LRule;
use bundle_read::{Bundle, Refusal, RuleCode, open_bundle};
use continuation_gen::Compiled;
use ir_text::{IrError, print, read as read_ir};
use session_report::push_number;
use std::alloc::Global;
use unum_ir::Ir;
use unum_json::{JsonError, NoMemory, Text, Value, read};

/// Adds the line of a machine.
fn push_machine(alloc: Global, out: &mut String, row: &(Text, Compiled)) -> Result<(), NoMemory>
    ensures { OnOk result (string_bytes out.new ≡ string_bytes out.old ++ compiled_line row.now) }
{
    let text = print(alloc, row.1.ir())?;
    out.push_str("ir")?;
    push_quoted(alloc, out, &row.0)?;
    out.push_str(" ")?;
    out.push_str(text.as_str())?;
    out.push_str("\n")?;
    Ok(())
}

/// Adds the lines of machines.
fn push_machines(
    alloc: Global,
    out: &mut String,
    machines: &[(Text, Compiled)],
) -> Result<(), NoMemory>
    ensures { OnOk result (string_bytes out.new ≡ string_bytes out.old ++ flat_map compiled_line machines.now) }
{
    for row in machines {
        push_machine(alloc, out, row)?;
    }
    Ok(())
}

/// The text of `compile`: the flat code of each machine of a bundle.
pub fn compiled_text(alloc: Global, bundle: Bundle) -> Result<Text, NoMemory>
    ensures { IfOk result (λ t. t ≡ compiled_text bundle) }
{
    let opening = open_bundle(alloc, bundle)?;
    let mut out = String::new(alloc);
    push_machines(alloc, &mut out, opening.machines.as_slice())?;
    drop(opening);
    Ok(Text::from_string(out)?)
}

/// The line of `ir`: how much is in a flat form.
#[tactic(auto, unfolding(crate::specs::FlatCode::flat_text))]
pub fn flat_text(alloc: Global, ir: &Ir) -> Result<Text, NoMemory>
    ensures { IfOk result (λ t. t ≡ flat_text ir.now) }
{
    let mut out = String::new(alloc);
    push_number(&mut out, "ir ok nodes ", ir.nodes.len() as u64)?;
    push_number(&mut out, " funcs ", ir.funcs.len() as u64)?;
    push_number(&mut out, " scopes ", ir.scopes.len() as u64)?;
    out.push_str("\n")?;
    Ok(Text::from_string(out)?)
}

/// The flat form that is printed as that value.
fn ir_of(alloc: Global, value: &Value) -> Result<Ir, TakeError>
    ensures value { TakesFlat result (λ made. JudgesParsed made (Some (view value.now))) }
    ensures well { IfOk result IsWellFormed }
    ensures no_fault { result ≢ Err TakeError.Fault }
{
    match read_ir(alloc, value) {
        Ok(ir) => Ok(ir),
        Err(IrError::BadIr { rule, at }) => Err(TakeError::Refused(Refusal::One {
            rule: RuleCode::Flat(rule),
            at,
        })),
        Err(IrError::NoMemory) => Err(TakeError::NoMemory),
    }
}

/// The flat form whose text some bytes are. They are refused by L1 where they are no JSON, and else by the first of I1 to I4 that
/// they break.
#[tactic(auto, unfolding(crate::specs::FlatCode::JudgesFlat))]
pub fn read_flat(alloc: Global, bytes: &[u8]) -> Result<Ir, TakeError>
    requires { length bytes.now ≤ 4194304 }
    ensures judged { TakesFlat result (λ made. JudgesFlat made bytes.now) }
    ensures well { IfOk result IsWellFormed }
    ensures no_fault { result ≢ Err TakeError.Fault }
{
    match read(alloc, bytes) {
        Ok(value) => ir_of(alloc, &value),
        Err(JsonError::NotJson) => Err(TakeError::Refused(Refusal::One {
            rule: RuleCode::Reading(LRule::L1),
            at: Text::new(alloc),
        })),
        Err(JsonError::NoMemory) => Err(TakeError::NoMemory),
    }
}

/// Bytes are judged in one way.
pub fn flat_code_is_judged_once()
    ensures { JudgesOnce }
{}
