//! The acts of an instance at its stop, each found by its number.
ghost use Rattle.std.specs.Prelude.{◌≡◌, ℕ, suc, ◌+◌, ◌<◌, ◌≤◌, Bool, List, length, slice_get, IfOk, IfSome, OnErr, Some, [], ◌∷◌};
ghost use Rattle.place_name.specs.Names.{Place, IsScope};
ghost use Rattle.place_name.specs.declared.obj.Obj.TheVariants.{Out, Saved, Arg};
ghost use Rattle.place_name.specs.declared.kind.Kind.TheVariants as kind;
ghost use Rattle.world_model.specs.AnyCode.Names.{at_hop, child, name_at, parent_of};
ghost use Rattle.world_model.specs.AnyCode.Code.{Code};
ghost use Rattle.world_model.specs.AnyCode.Operations.{Op, Create, Invoke, OutcomeIs, SavedAs, ArgIs};
ghost use Rattle.world_model.specs.AnyCode.Acts.{task_at, enter_at, at_once, fan_ops, pace_ops, set_ops, width_around as limit_around};
ghost use Rattle.world_model.specs.AnyCode.Acts.{acts_of, join_at};
ghost use Rattle.unum_ir.specs.Calls.{width, enter_of};
ghost use Rattle.continuation_gen.specs.Coded.{code_of_ir};
ghost use Rattle.fn_wrapper.specs.Actions.{acts_at, end_acts, next_enter};
ghost use Rattle.fn_wrapper.specs.Ready.{FirstIsNamed, NamesAt};

use crate::copies::copy_used;
use crate::names::{enter_at, join_at, parent_of, place_at, task_at};
use fanin_bitmap::Bitmap;
use place_name::{HOPS, Kind, MOST_BRANCHES, MOST_SEGS, Name, Obj, Parent, Scope};
use std::alloc::Global;
use unum_ir::{Ir, enter_of, parent_of as join_around, width};
use unum_json::{Items, Json, NoMemory, Outcome, copy, copy_outcome};
use world_types::{Held, Invocation, Op, Stop, Used};

/// The limit of the innermost fan round a function's scope, 0 for none.
fn width_around(ir: &Ir, site: u32) -> u32
    ensures { result ≡ limit_around (code_of_ir ir.now) ((code_of_ir ir.now).join_around site) }
{
    match join_around(ir, site) {
        Some(join) => width(ir, join),
        None => 0,
    }
}

/// The branch that begins when this one ends: the one that is the limit further on, if there is one.
fn later_branch(parent: &Parent, limit: u32) -> Option<u32>
    ensures act { (enter : ℕ) → pace_ops enter parent.now limit ≡ next_enter enter parent.now result }
    ensures below { IfSome result (λ k. k < parent.now.count) }
{
    let count = parent.count;
    let left = count.saturating_sub(parent.index);
    if limit == 0 || limit >= left {
        return None;
    }
    Some(parent.index + limit)
}

/// The branch with that index, where its fan invokes it itself.
fn first_branch(limit: u32, enters: &Items<u32>, index: u32) -> Option<u32>
    ensures { result ≡ slice_get (at_once limit enters.now) index }
{
    if limit > 0 && index >= limit {
        return None;
    }
    enters.get(index as usize).copied()
}

/// How many branches a fan invokes itself.
fn first_count(limit: u32, enters: &Items<u32>) -> u32
    requires { length (at_once limit enters.now) ≤ MOST_BRANCHES }
    ensures { result ≡ length (at_once limit enters.now) }
{
    let all = enters.len();
    if limit == 0 || all <= limit as usize {
        return all as u32;
    }
    limit
}

/// The Enter of a branch of the fan at that hop of the scope.
fn branch_enter(func: u32, scope: &Scope, hop: u32, index: u32, count: u32) -> Invocation<u32>
    requires { IsScope (child (at_hop scope.now hop) index count) }
    ensures { result ≡ enter_at func (at_hop scope.now hop) index count }
{
    enter_at(func, &place_at(scope, hop), index, count)
}

/// The act of a call with that number, its Create not counted: it invokes the Task.
fn call_act(task: u32, scope: &Scope, hop: u32, index: u32) -> Option<Op<u32, Bitmap>>
    requires { index ≡ 0 → hop < HOPS }
    ensures { result ≡ slice_get (Invoke (task_at task scope.now hop) ∷ []) index }
{
    match index {
        0 => Some(Op::Invoke(task_at(task, scope, hop))),
        _ => None,
    }
}

/// The act of a fan with no branch with that number, its Create not counted: it invokes the Join.
fn lone_act(join: u32, scope: &Scope, hop: u32, index: u32) -> Option<Op<u32, Bitmap>>
    requires { index ≡ 0 → hop < HOPS }
    ensures { result ≡ slice_get (Invoke (join_at join (at_hop scope.now hop)) ∷ []) index }
{
    match index {
        0 => Some(Op::Invoke(join_at(join, &place_at(scope, hop)))),
        _ => None,
    }
}

/// The act of a fan with that number, its Create not counted: it invokes the branch with that index, if it invokes it itself.
///
/// Source: Amazon States Language, Parallel State and Map State (MaxConcurrency).
fn fan_act(
    ir: &Ir,
    join: u32,
    scope: &Scope,
    hop: u32,
    enters: &Items<u32>,
    index: u32,
) -> Option<Op<u32, Bitmap>>
    requires { NamesAt (fan_ops (width ir.now join) (at_hop scope.now hop) join enters.now) index }
    ensures { result ≡ slice_get (fan_ops (width ir.now join) (at_hop scope.now hop) join enters.now) index }
{
    if enters.is_empty() {
        return lone_act(join, scope, hop, index);
    }
    let enter = first_branch(width(ir, join), enters, index)?;
    let count = enters.len() as u32;
    Some(Op::Invoke(branch_enter(enter, scope, hop, index, count)))
}

/// The act of the end of a branch with that number, its Create not counted: it invokes the branch that begins now, if there is one,
/// and then sets its bit.
fn branch_act(enter: u32, parent: &Parent, limit: u32, index: u32) -> Option<Op<u32, Bitmap>>
    requires { length parent.now.place.trail < MOST_SEGS }
    ensures { result ≡ slice_get (set_ops enter limit (Some parent.now)) index }
{
    match (index, later_branch(parent, limit)) {
        (0, Some(later)) => {
            let next = enter_at(enter, &parent.place, later, parent.count);
            Some(Op::Invoke(next))
        }
        (0, None) | (1, Some(_)) => Some(Op::Set {
            place: parent.place,
            index: parent.index,
            count: parent.count,
        }),
        _ => None,
    }
}

/// The act of the end of a scope with that number, its Create not counted: a session's own scope has none.
fn end_act(ir: &Ir, site: u32, scope: &Scope, index: u32) -> Option<Op<u32, Bitmap>>
    ensures { result ≡ slice_get (end_acts ir.now site scope.now) index }
{
    let parent = parent_of(scope)?;
    let limit = width_around(ir, site);
    branch_act(enter_of(ir, site), &parent, limit, index)
}

/// The act with that number behind the Create.
fn later_act(
    ir: &Ir,
    site: u32,
    scope: &Scope,
    stop: &Stop<u32>,
    index: u32,
) -> Option<Op<u32, Bitmap>>
    requires { NamesAt (acts_of (code_of_ir ir.now) site scope.now stop.now) (suc index) }
    ensures { result ≡ slice_get (acts_of (code_of_ir ir.now) site scope.now stop.now) (suc index) }
{
    match stop {
        Stop::Call { task, hop, .. } => call_act(*task, scope, *hop, index),
        Stop::Fan {
            join,
            hop,
            enters,
            ..
        } => fan_act(ir, *join, scope, *hop, enters, index),
        Stop::Over(_) => end_act(ir, site, scope, index),
    }
}

/// What saves the data of a Task.
fn save_call(
    alloc: Global,
    scope: &Scope,
    hop: u32,
    raw: &Json,
    used: &Used,
) -> Result<Op<u32, Bitmap>, NoMemory>
    requires { hop < HOPS }
    ensures { IfOk result (λ op. op ≡ Create (Arg (name_at scope.now hop kind.Task)) (ArgIs raw.now used.now)) }
{
    let used = copy_used(alloc, used)?;
    let raw = match copy(alloc, raw) {
        Ok(raw) => raw,
        Err(NoMemory) => {
            drop(used);
            return Err(NoMemory);
        }
    };
    let place = place_at(scope, hop);
    let name = Name {
        place,
        kind: Kind::Task,
    };
    Ok(Op::Create(Obj::Arg(name), Held::Arg { raw, used }))
}

/// What saves the data of a fan.
fn save_fan(
    alloc: Global,
    scope: &Scope,
    hop: u32,
    raw: &Json,
    used: &Used,
    count: u32,
) -> Result<Op<u32, Bitmap>, NoMemory>
    requires { hop < HOPS }
    ensures { IfOk result (λ op. op ≡ Create (Saved (at_hop scope.now hop)) (SavedAs count raw.now used.now)) }
{
    let used = copy_used(alloc, used)?;
    let raw = match copy(alloc, raw) {
        Ok(raw) => raw,
        Err(NoMemory) => {
            drop(used);
            return Err(NoMemory);
        }
    };
    let place = place_at(scope, hop);
    Ok(Op::Create(Obj::Saved(place), Held::Saved { count, raw, used }))
}

/// What saves the outcome of a scope.
fn save_end(alloc: Global, scope: &Scope, outcome: &Outcome) -> Result<Op<u32, Bitmap>, NoMemory>
    ensures { IfOk result (λ op. op ≡ Create (Out scope.now) (OutcomeIs outcome.now)) }
{
    let outcome = copy_outcome(alloc, outcome)?;
    Ok(Op::Create(Obj::Out(*scope), Held::Outcome(outcome)))
}

/// The first act: what a call, a fan or an end saves before anything follows it.
fn first_act(alloc: Global, scope: &Scope, stop: &Stop<u32>) -> Result<Op<u32, Bitmap>, NoMemory>
    requires { FirstIsNamed scope.now stop.now }
    ensures { IfOk result (λ op. (code : Code ℕ) (site : ℕ) → slice_get (acts_of code site scope.now stop.now) 0 ≡ Some op) }
{
    match stop {
        Stop::Call { hop, raw, used, .. } => save_call(alloc, scope, *hop, raw, used),
        Stop::Fan {
            hop,
            raw,
            used,
            enters,
            ..
        } => {
            let count = enters.len() as u32;
            save_fan(alloc, scope, *hop, raw, used, count)
        }
        Stop::Over(outcome) => save_end(alloc, scope, outcome),
    }
}

/// The act of an instance with that number, where its scope stops there: `None` exactly past the last one. It is found without
/// the others.
///
/// The only error is want of memory, at the first act alone.
pub fn act_at(
    alloc: Global,
    ir: &Ir,
    invocation: &Invocation<u32>,
    stop: &Stop<u32>,
    index: u32,
) -> Result<Option<Op<u32, Bitmap>>, NoMemory>
    requires { NamesAt (acts_at ir.now invocation.now stop.now) index }
    ensures act { IfOk result (λ op. op ≡ slice_get (acts_at ir.now invocation.now stop.now) index) }
    ensures memory { OnErr result (index ≡ 0) }
{
    let scope = invocation.name.place.scope();
    if index == 0 {
        return Ok(Some(first_act(alloc, &scope, stop)?));
    }
    Ok(later_act(ir, invocation.site, &scope, stop, index - 1))
}

/// How many acts a fan has, its Create not counted.
fn fan_count(limit: u32, enters: &Items<u32>) -> u32
    requires { length (at_once limit enters.now) ≤ MOST_BRANCHES }
    ensures { (p : Place) (join : ℕ) → result ≡ length (fan_ops {B = List Bool} limit p join enters.now) }
{
    if enters.is_empty() {
        return 1;
    }
    first_count(limit, enters)
}

/// How many acts the end of a scope has, its Create not counted.
fn end_count(ir: &Ir, site: u32, scope: &Scope) -> u32
    ensures count { result ≡ length (end_acts ir.now site scope.now) }
    ensures few { result ≤ 2 }
{
    let Some(parent) = parent_of(scope) else {
        return 0;
    };
    match later_branch(&parent, width_around(ir, site)) {
        Some(_) => 2,
        None => 1,
    }
}

/// How many acts an instance has, where its scope stops there.
pub fn act_count(ir: &Ir, invocation: &Invocation<u32>, stop: &Stop<u32>) -> u32
    requires { length (acts_at ir.now invocation.now stop.now) ≤ MOST_BRANCHES + 1 }
    ensures { result ≡ length (acts_at ir.now invocation.now stop.now) }
{
    match stop {
        Stop::Call { .. } => 2,
        Stop::Fan { join, enters, .. } => fan_count(width(ir, *join), enters) + 1,
        Stop::Over(_) => {
            let scope = invocation.name.place.scope();
            end_count(ir, invocation.site, &scope) + 1
        }
    }
}
