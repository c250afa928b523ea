//! The second walk over a bundle's value: what it says.

ghost use Rattle.std.specs.Prelude.{◌≡◌, IfOk, codes, map};
ghost use Rattle.unum_json.specs.Parsed.{view, items_view, members_view};
ghost use Rattle.asl_read.specs.Machines.{machine_of};
ghost use Rattle.asl_read.specs.Parts.{json_of, items_in, items_of};
ghost use Rattle.bundle_read.specs.Drafts.{at, draft_of, each_member, function_by, function_of, kind_of, members_of, number_of, numbers_of, plan_of, session_of};

use crate::draft::{Draft, DraftPlan, DraftSession};
use crate::kinds::FunctionKind;
use crate::parts::kind_named;
use asl_model::Machine;
use asl_read::{json_of, machine_of, text_in, whole_of};
use fn_table::FnKind;
use std::alloc::Global;
use unum_json::{Fault, Fields, Items, Json, NoMemory, Value, copy_text};

/// The number, or the greatest `u32` where it is none.
fn number_of(value: &Value) -> u32
    ensures { result ≡ number_of (view value.now) }
{
    match u32::try_from(whole_of(value)) {
        Ok(number) => number,
        Err(_) => u32::MAX,
    }
}

/// The number of a key, 0 where it is missing.
fn number_in(value: &Value, key: &str) -> u32
    ensures { result ≡ number_of (at key.now (view value.now)) }
{
    match value.get(key) {
        Some(found) => number_of(found),
        None => 0,
    }
}

/// The data at a key.
fn json_in(alloc: Global, value: &Value, key: &str) -> Result<Json, NoMemory>
    ensures { IfOk result (λ v. v ≡ json_of (at key.now (view value.now))) }
{
    match value.get(key) {
        Some(found) => json_of(alloc, found),
        None => Ok(Json::null()),
    }
}

fn items_in_array(items: &Vec<Value>) -> &[Value]
    ensures { map view result.now ≡ items_in (items_view items.now.items) }
{
    items.as_slice()
}

/// The items of an array.
fn items_of(value: &Value) -> &[Value]
    ensures { map view result.now ≡ items_of (view value.now) }
{
    match value {
        Value::Array(items) => items_in_array(items),
        _ => &[],
    }
}

/// The items of a key's array.
fn items_in<'a>(value: &'a Value, key: &str) -> &'a [Value]
    ensures { map view result.now ≡ items_of (at key.now (view value.now)) }
{
    match value.get(key) {
        Some(found) => items_of(found),
        None => &[],
    }
}

fn numbers_of(alloc: Global, items: &[Value]) -> Result<Items<u32>, NoMemory>
    ensures { IfOk result (λ ns. ns ≡ map number_of (map view items.now)) }
{
    let mut numbers = Items::new(alloc);
    for item in items {
        numbers.push(number_of(item))?;
    }
    Ok(numbers)
}

fn script_of(alloc: Global, items: &[Value]) -> Result<Items<Items<u32>>, NoMemory>
    ensures { IfOk result (λ s. s ≡ map numbers_of (map view items.now)) }
{
    let mut script = Items::new(alloc);
    for item in items {
        script.push(numbers_of(alloc, items_of(item))?)?;
    }
    Ok(script)
}

/// The numbers of a plan.
fn plan_of(alloc: Global, value: &Value) -> Result<DraftPlan, NoMemory>
    ensures { IfOk result (λ p. p ≡ plan_of (view value.now)) }
{
    let script = script_of(alloc, items_in(value, "script"))?;
    let twins = numbers_of(alloc, items_in(value, "twins"))?;
    Ok(DraftPlan {
        crash: number_in(value, "crash"),
        repeat: number_in(value, "repeat"),
        script,
        seed: number_in(value, "seed"),
        twins,
    })
}

/// The plan of a bundle, in which all is 0 or empty where it is missing.
fn plan_in(alloc: Global, value: &Value) -> Result<DraftPlan, NoMemory>
    ensures { IfOk result (λ p. p ≡ plan_of (at (codes "plan") (view value.now))) }
{
    match value.get("plan") {
        Some(found) => plan_of(alloc, found),
        None => Ok(DraftPlan {
            crash: 0,
            repeat: 0,
            script: Items::new(alloc),
            seed: 0,
            twins: Items::new(alloc),
        }),
    }
}

fn session_of(alloc: Global, value: &Value) -> Result<DraftSession, NoMemory>
    ensures { IfOk result (λ s. s ≡ session_of (view value.now)) }
{
    let machine = text_in(alloc, value, "machine")?;
    let input = json_in(alloc, value, "input")?;
    Ok(DraftSession { machine, input })
}

fn sessions_of(alloc: Global, items: &[Value]) -> Result<Items<DraftSession>, NoMemory>
    ensures { IfOk result (λ s. s ≡ map session_of (map view items.now)) }
{
    let mut sessions = Items::new(alloc);
    for item in items {
        sessions.push(session_of(alloc, item)?)?;
    }
    Ok(sessions)
}

/// The kind of a function.
fn kind_of(value: &Value) -> FunctionKind
    ensures { result ≡ kind_of (view value.now) }
{
    match value.get("kind") {
        Some(Value::String(name)) => kind_named(name.as_str()).unwrap_or(FunctionKind::Echo),
        _ => FunctionKind::Echo,
    }
}

fn fail_of(alloc: Global, value: &Value) -> Result<FnKind, NoMemory>
    ensures { IfOk result (λ f. f ≡ function_by FunctionKind.Fail (view value.now)) }
{
    let error = text_in(alloc, value, "error")?;
    let cause = text_in(alloc, value, "cause")?;
    Ok(FnKind::Fail(Fault { error, cause }))
}

fn function_of(alloc: Global, value: &Value) -> Result<FnKind, NoMemory>
    ensures { IfOk result (λ f. f ≡ function_of (view value.now)) }
{
    match kind_of(value) {
        FunctionKind::Echo => Ok(FnKind::Echo),
        FunctionKind::Const => Ok(FnKind::Const(json_in(alloc, value, "value")?)),
        FunctionKind::Sum => Ok(FnKind::Sum),
        FunctionKind::Ticket => Ok(FnKind::Ticket),
        FunctionKind::Flaky => Ok(FnKind::Flaky(number_in(value, "every"))),
        FunctionKind::Fail => fail_of(alloc, value),
    }
}

/// The functions by name.
fn functions_of(alloc: Global, members: &Fields<Value>) -> Result<Fields<FnKind>, NoMemory>
    ensures { IfOk result (λ fs. fs ≡ each_member function_of (members_view members.now)) }
{
    let mut found = Fields::new(alloc);
    for member in members.as_slice() {
        let name = copy_text(alloc, &member.0)?;
        let function = function_of(alloc, &member.1)?;
        found.push(name, function)?;
    }
    Ok(found)
}

/// The machines by name.
fn machines_of(alloc: Global, members: &Fields<Value>) -> Result<Fields<Machine>, NoMemory>
    ensures { IfOk result (λ ms. ms ≡ each_member machine_of (members_view members.now)) }
{
    let mut found = Fields::new(alloc);
    for member in members.as_slice() {
        let name = copy_text(alloc, &member.0)?;
        let machine = machine_of(alloc, &member.1)?;
        found.push(name, machine)?;
    }
    Ok(found)
}

fn functions_at(alloc: Global, value: &Value) -> Result<Fields<FnKind>, NoMemory>
    ensures { IfOk result (λ fs. fs ≡ members_of function_of (view value.now)) }
{
    match value {
        Value::Object(members) => functions_of(alloc, members),
        _ => Ok(Fields::new(alloc)),
    }
}

fn functions_in(alloc: Global, value: &Value) -> Result<Fields<FnKind>, NoMemory>
    ensures { IfOk result (λ fs. fs ≡ members_of function_of (at (codes "functions") (view value.now))) }
{
    match value.get("functions") {
        Some(found) => functions_at(alloc, found),
        None => Ok(Fields::new(alloc)),
    }
}

fn machines_at(alloc: Global, value: &Value) -> Result<Fields<Machine>, NoMemory>
    ensures { IfOk result (λ ms. ms ≡ members_of machine_of (view value.now)) }
{
    match value {
        Value::Object(members) => machines_of(alloc, members),
        _ => Ok(Fields::new(alloc)),
    }
}

fn machines_in(alloc: Global, value: &Value) -> Result<Fields<Machine>, NoMemory>
    ensures { IfOk result (λ ms. ms ≡ members_of machine_of (at (codes "machines") (view value.now))) }
{
    match value.get("machines") {
        Some(found) => machines_at(alloc, found),
        None => Ok(Fields::new(alloc)),
    }
}

/// The parts of a bundle.
pub fn draft_of(alloc: Global, value: &Value) -> Result<Draft, NoMemory>
    ensures { IfOk result (λ d. d ≡ draft_of (view value.now)) }
{
    let functions = functions_in(alloc, value)?;
    let machines = machines_in(alloc, value)?;
    let plan = plan_in(alloc, value)?;
    let sessions = sessions_of(alloc, items_in(value, "sessions"))?;
    Ok(Draft {
        functions,
        machines,
        plan,
        sessions,
    })
}
