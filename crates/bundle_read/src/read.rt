//! Bytes that are bundles.

ghost use Rattle.std.specs.Prelude.{◌≡◌, [], IfOk, Some, map};
ghost use Rattle.std.specs.Map.{keys_of};
ghost use Rattle.unum_json.specs.Keys.{IsRising};
ghost use Rattle.unum_json.specs.Parsed.{view};
ghost use Rattle.bundle_read.specs.Accepted.{accepted_of, session_of, IsAccepted};
ghost use Rattle.bundle_read.specs.Bounds.{broken_names, broken_numbers, broken_parts, broken_rules, broken_sizes};
ghost use Rattle.bundle_read.specs.Checked.{Checks};
ghost use Rattle.bundle_read.specs.Drafts.{draft_of};
ghost use Rattle.bundle_read.specs.Judged.{judged, judged_draft, judged_data, misread, Judges};

use crate::bounds::{
    check_all_calls, check_count, check_functions, check_inputs, check_sessions, check_values,
};
use crate::bundle::Bundle;
use crate::draft::{Draft, DraftPlan, DraftSession};
use crate::drafts::draft_of;
use crate::kinds::{Object, Part};
use crate::lookup::number_of;
use crate::plans::{check_plan, plan_of};
use crate::reading::check_part;
use crate::refusal::{BundleError, Refusal, RuleCode};
use crate::validity::check_machines;
use asl_model::Machine;
use asl_read::{LRule, ReadFault};
use fn_table::{FnKind, Table};
use std::alloc::Global;
use unum_json::{Fields, Items, JsonError, NoMemory, Text, Value, read};
use unum_world::Session;

/// The most bytes of a bundle.
const MAX_BYTES: u64 = 4_194_304;

/// The refusal of the whole by a rule of reading.
fn refused(alloc: Global, rule: LRule) -> BundleError
    ensures { result ≡ BundleError.Refused (Refusal.One (RuleCode.Reading rule) []) }
{
    BundleError::Refused(Refusal::One {
        rule: RuleCode::Reading(rule),
        at: Text::new(alloc),
    })
}

/// Checks a bundle's value by the rules of reading.
fn check_value(alloc: Global, value: &Value) -> Result<(), BundleError>
    ensures { Checks result (misread (view value.now)) }
{
    match check_part(alloc, Part::Object(Object::Bundle), value) {
        Ok(()) => Ok(()),
        Err(ReadFault::Refused { rule, at }) => Err(BundleError::Refused(Refusal::One {
            rule: RuleCode::Reading(rule),
            at,
        })),
        Err(ReadFault::NoMemory) => Err(BundleError::NoMemory),
    }
}

/// Checks that names lead to something.
fn check_names(
    alloc: Global,
    functions: &[(Text, FnKind)],
    machines: &[(Text, Machine)],
    sessions: &[DraftSession],
) -> Result<(), BundleError>
    requires functions_rise { IsRising (keys_of functions.now) }
    requires machines_rise { IsRising (keys_of machines.now) }
    ensures { Checks result (broken_names functions.now machines.now sessions.now) }
{
    check_sessions(alloc, machines, sessions)?;
    check_all_calls(alloc, functions, machines)
}

fn check_sizes(
    alloc: Global,
    functions: &[(Text, FnKind)],
    sessions: &[DraftSession],
) -> Result<(), BundleError>
    ensures { Checks result (broken_sizes functions.now sessions.now) }
{
    check_values(alloc, functions)?;
    check_inputs(alloc, sessions)?;
    check_count(alloc, sessions)
}

fn check_numbers(
    alloc: Global,
    functions: &[(Text, FnKind)],
    plan: &DraftPlan,
) -> Result<(), BundleError>
    ensures { Checks result (broken_numbers functions.now plan.now) }
{
    check_functions(alloc, functions)?;
    check_plan(alloc, plan)
}

/// Checks the parts of a draft.
fn check_parts(
    alloc: Global,
    functions: &[(Text, FnKind)],
    machines: &[(Text, Machine)],
    sessions: &[DraftSession],
    plan: &DraftPlan,
) -> Result<(), BundleError>
    requires functions_rise { IsRising (keys_of functions.now) }
    requires machines_rise { IsRising (keys_of machines.now) }
    ensures { Checks result (broken_parts functions.now machines.now sessions.now plan.now) }
{
    check_machines(alloc, machines)?;
    check_names(alloc, functions, machines, sessions)?;
    check_sizes(alloc, functions, sessions)?;
    check_numbers(alloc, functions, plan)
}

/// Checks what was read: machines for validity, and then names, sizes and numbers.
fn check_draft(alloc: Global, draft: &Draft) -> Result<(), BundleError>
    ensures { Checks result (broken_rules draft.now) }
{
    let functions = draft.functions.as_slice();
    let machines = draft.machines.as_slice();
    let sessions = draft.sessions.as_slice();
    check_parts(alloc, functions, machines, sessions, &draft.plan)
}

/// A session with the number of its machine.
fn session_of(machines: &Fields<Machine>, session: DraftSession) -> Result<Session, NoMemory>
    ensures { IfOk result (λ s. s ≡ session_of machines.now session) }
{
    let DraftSession { machine, input } = session;
    match u32::try_from(number_of(machines.as_slice(), machine.as_bytes())) {
        Ok(machine) => Ok(Session { machine, input }),
        // So many machines fit into no memory.
        Err(_) => Err(NoMemory),
    }
}

fn sessions_of(
    alloc: Global,
    machines: &Fields<Machine>,
    sessions: Items<DraftSession>,
) -> Result<Items<Session>, NoMemory>
    ensures { IfOk result (λ ss. ss ≡ map (session_of machines.now) sessions) }
{
    let mut found = Items::new(alloc);
    for session in sessions.into_vec() {
        found.push(session_of(machines, session)?)?;
    }
    Ok(found)
}

/// The bundle of a draft that breaks nothing.
fn bundle_of(alloc: Global, draft: Draft) -> Result<Bundle, NoMemory>
    requires { broken_rules draft ≡ [] }
    ensures value { IfOk result (λ b. b ≡ accepted_of draft) }
    ensures accepted { IfOk result IsAccepted }
{
    let Draft {
        functions,
        machines,
        plan,
        sessions,
    } = draft;
    let plan = plan_of(alloc, plan)?;
    let sessions = sessions_of(alloc, &machines, sessions)?;
    Ok(Bundle::new(machines, Table::from_fields(functions), sessions, plan))
}

/// Judges what was read.
fn judge(alloc: Global, draft: Draft) -> Result<Bundle, BundleError>
    ensures judged { Judges result (judged_draft draft) }
    ensures accepted { IfOk result IsAccepted }
{
    match check_draft(alloc, &draft) {
        Ok(()) => Ok(bundle_of(alloc, draft)?),
        Err(error) => {
            drop(draft);
            Err(error)
        }
    }
}

/// Judges a value.
fn judge_value(alloc: Global, value: &Value) -> Result<Bundle, BundleError>
    ensures judged { Judges result (judged_data (Some (view value.now))) }
    ensures accepted { IfOk result IsAccepted }
{
    check_value(alloc, value)?;
    let draft = draft_of(alloc, value)?;
    judge(alloc, draft)
}

/// Reads a bundle.
///
/// Bytes are refused exactly where they break a rule: by L0 where there are more than 4,194,304, by L1 where they are no
/// JSON, and else by the first rule of reading that they break, then by all that the first machine by name breaks that is not
/// valid, and then by the first of B1 to B5, by number and then by place.
#[tactic(auto, unfolding(crate::specs::Judged::judged))]
pub fn read_bundle(alloc: Global, bytes: &[u8]) -> Result<Bundle, BundleError>
    ensures judged { Judges result (judged bytes.now) }
    ensures accepted { IfOk result IsAccepted }
{
    if bytes.len() as u64 > MAX_BYTES {
        return Err(refused(alloc, LRule::L0));
    }
    match read(alloc, bytes) {
        Ok(value) => judge_value(alloc, &value),
        Err(JsonError::NotJson) => Err(refused(alloc, LRule::L1)),
        Err(JsonError::NoMemory) => Err(BundleError::NoMemory),
    }
}
