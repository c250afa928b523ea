//! The rules of what was read: names lead to something, and sizes and numbers are in their ranges.

ghost use Rattle.std.specs.Prelude.{◌≡◌, ◌++◌, IfOk, codes, decimal, flat_map, string_bytes};
ghost use Rattle.std.specs.Map.{keys_of};
ghost use Rattle.unum_json.specs.Keys.{IsRising};
ghost use Rattle.bundle_read.specs.Bounds.{in_items, lost_session, lost_sessions, lost_machine, lost_machines, is_large, large_value, large_input, crowd, is_wild, wild_function};
ghost use Rattle.bundle_read.specs.Checked.{Checks};
ghost use Rattle.bundle_read.specs.declared.refusal.RuleCode.TheVariants as code;

use crate::calls::calls_others;
use crate::draft::DraftSession;
use crate::lookup::knows;
use crate::refusal::{BRule, BundleError, Refusal, RuleCode};
use asl_model::Machine;
use fn_table::FnKind;
use std::alloc::{AllocError, Global};
use unum_json::{Text, is_small};

/// The refusal by a rule at a place.
pub fn broken(rule: BRule, at: String) -> Result<BundleError, AllocError>
    ensures { IfOk result (λ e. e ≡ BundleError.Refused (Refusal.One (code.Bundle rule) (string_bytes at))) }
{
    let at = Text::from_string(at)?;
    Ok(BundleError::Refused(Refusal::One {
        rule: RuleCode::Bundle(rule),
        at,
    }))
}

fn check_session(
    alloc: Global,
    machines: &[(Text, Machine)],
    number: usize,
    session: &DraftSession,
) -> Result<(), BundleError>
    requires { IsRising (keys_of machines.now) }
    ensures { Checks result (lost_session machines.now number session.now) }
{
    if knows(machines, session.machine.as_bytes()) {
        return Ok(());
    }
    Err(broken(BRule::B1, format!(in alloc; "/sessions/{number}/machine")?)?)
}

/// Refuses the first session whose machine is not there.
pub fn check_sessions(
    alloc: Global,
    machines: &[(Text, Machine)],
    sessions: &[DraftSession],
) -> Result<(), BundleError>
    requires { IsRising (keys_of machines.now) }
    ensures { Checks result (lost_sessions machines.now sessions.now) }
{
    for (i, session) in sessions.iter().enumerate() {
        check_session(alloc, machines, i, session)?;
    }
    Ok(())
}

fn check_calls(
    alloc: Global,
    functions: &[(Text, FnKind)],
    machine: &(Text, Machine),
) -> Result<(), BundleError>
    requires { IsRising (keys_of functions.now) }
    ensures { Checks result (lost_machine functions.now machine.now) }
{
    if !calls_others(functions, &machine.1) {
        return Ok(());
    }
    let name = machine.0.as_str();
    Err(broken(BRule::B2, format!(in alloc; "/machines/{name}")?)?)
}

/// Refuses the first machine a Task of which calls a function that is not there.
pub fn check_all_calls(
    alloc: Global,
    functions: &[(Text, FnKind)],
    machines: &[(Text, Machine)],
) -> Result<(), BundleError>
    requires { IsRising (keys_of functions.now) }
    ensures { Checks result (lost_machines functions.now machines.now) }
{
    for machine in machines {
        check_calls(alloc, functions, machine)?;
    }
    Ok(())
}

fn check_value(alloc: Global, function: &(Text, FnKind)) -> Result<(), BundleError>
    ensures { Checks result (large_value function.now) }
{
    match &function.1 {
        FnKind::Const(value) if !is_small(value) => {
            let name = function.0.as_str();
            Err(broken(BRule::B3, format!(in alloc; "/functions/{name}/value")?)?)
        }
        _ => Ok(()),
    }
}

/// Refuses the first const whose value is too large.
pub fn check_values(alloc: Global, functions: &[(Text, FnKind)]) -> Result<(), BundleError>
    ensures { Checks result (flat_map large_value functions.now) }
{
    for function in functions {
        check_value(alloc, function)?;
    }
    Ok(())
}

fn check_input(alloc: Global, number: usize, session: &DraftSession) -> Result<(), BundleError>
    ensures { Checks result (large_input number session.now) }
{
    if is_small(&session.input) {
        return Ok(());
    }
    Err(broken(BRule::B3, format!(in alloc; "/sessions/{number}/input")?)?)
}

/// Refuses the first session whose input is too large.
pub fn check_inputs(alloc: Global, sessions: &[DraftSession]) -> Result<(), BundleError>
    ensures { Checks result (in_items large_input 0 sessions.now) }
{
    for (i, session) in sessions.iter().enumerate() {
        check_input(alloc, i, session)?;
    }
    Ok(())
}

/// Refuses more than 1,000 sessions.
pub fn check_count(alloc: Global, sessions: &[DraftSession]) -> Result<(), BundleError>
    ensures { Checks result (crowd sessions.now) }
{
    if sessions.len() <= 1000 {
        return Ok(());
    }
    Err(broken(BRule::B4, String::from_str(alloc, "/sessions")?)?)
}

fn check_every(alloc: Global, function: &(Text, FnKind)) -> Result<(), BundleError>
    ensures { Checks result (wild_function function.now) }
{
    match &function.1 {
        FnKind::Flaky(every) if !(2 <= *every && *every <= 1000) => {
            let name = function.0.as_str();
            Err(broken(BRule::B5, format!(in alloc; "/functions/{name}/every")?)?)
        }
        _ => Ok(()),
    }
}

/// Refuses the first function whose `every` is out of range.
pub fn check_functions(alloc: Global, functions: &[(Text, FnKind)]) -> Result<(), BundleError>
    ensures { Checks result (flat_map wild_function functions.now) }
{
    for function in functions {
        check_every(alloc, function)?;
    }
    Ok(())
}
