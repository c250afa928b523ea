//! What an attempt of an invocation does next.
ghost use Rattle.std.specs.Prelude.{◌≡◌, ◌<◌, ◌≤◌, ◌↔◌, ℕ, length, slice_get, IfOk, OnErr, IsSome, IsTrue, Some};
ghost use Rattle.std.specs.Option.{option_copied};
ghost use Rattle.place_name.specs.Names.{IsScope, scope_of};
ghost use Rattle.place_name.specs.declared.kind.Kind.TheVariants as kind;
ghost use Rattle.place_name.specs.declared.obj.Obj.TheVariants.{Check, Out};
ghost use Rattle.world_model.specs.AnyCode.Names.{child, parent_of};
ghost use Rattle.world_model.specs.AnyCode.Code.{Code};
ghost use Rattle.world_model.specs.AnyCode.Operations.{Invocation, Look, Create, KeptAs};
ghost use Rattle.world_model.specs.AnyCode.Acts.{due_objects};
ghost use Rattle.world_model.specs.AnyCode.Program.{Do, asking, doing, marking, joining, source, next_of};
ghost use Rattle.unum_ir.specs.Calls.{parent_of as join_around};
ghost use Rattle.continuation_gen.specs.Coded.{call_by, code_of_ir};
ghost use Rattle.fn_wrapper.specs.Actions.{acts_at};
ghost use Rattle.fn_wrapper.specs.Ready.{NamesAt, IsReady, IsStopOf, IsAsk, CopiesData};

use crate::acts::act_at;
use crate::copies::copy_kept;
use crate::names::{join_at, parent_of};
use fanin_bitmap::Bitmap;
use intermediate_gc::due;
use place_name::{Kind, MOST_BRANCHES, MOST_SEGS, Name, Obj, Place, child};
use std::alloc::Global;
use unum_ir::{Ir, effective, parent_of as join_around, resource_of};
use unum_json::{Json, NoMemory, copy_text};
use world_types::{Doing, Held, Invocation, Kept, Op, Phase, Stop};

/// Where an Enter or a Task reads its data: a branch's Enter where its fan saved it, any other its own Arg.
fn source(name: &Name) -> Obj
    ensures { result ≡ source name.now }
{
    match name.kind {
        Kind::Enter => match parent_of(&name.place.scope()) {
            Some(parent) => Obj::Saved(parent.place),
            None => Obj::Arg(*name),
        },
        Kind::Task => Obj::Arg(*name),
        Kind::Join => Obj::Arg(*name),
    }
}

/// The look at the outcome of the next branch, where a Join at that place has so many.
fn gathering(place: &Place, count: u32, have: usize) -> Doing<u32, Bitmap>
    requires { IsScope (child place.now have count) }
    ensures { result ≡ Do (Look (Out (child place.now have count))) }
{
    let branch = child(place, have as u32, count);
    Doing::Do(Op::Look(Obj::Out(branch.scope())))
}

/// The call of the function of a Task.
///
/// Source: Amazon States Language, Task State.
fn calling(alloc: Global, ir: &Ir, site: u32, raw: &Json) -> Result<Doing<u32, Bitmap>, NoMemory>
    requires { IsSome (call_by ir.now site raw.now) }
    ensures { IfOk result (λ d. d ≡ asking (call_by ir.now site raw.now)) }
{
    let Some(resource) = resource_of(ir, site) else {
        return Ok(Doing::Nothing);
    };
    let input = effective(alloc, ir, site, raw)?;
    match copy_text(alloc, resource) {
        Ok(resource) => Ok(Doing::Ask { resource, input }),
        Err(NoMemory) => {
            drop(input);
            Err(NoMemory)
        }
    }
}

/// The Create of the own checkpoint.
fn creating(alloc: Global, name: &Name, kept: &Kept) -> Result<Doing<u32, Bitmap>, NoMemory>
    ensures { IfOk result (λ d. d ≡ Do (Create (Check name.now) (KeptAs kept.now))) }
{
    let kept = copy_kept(alloc, kept)?;
    Ok(Doing::Do(Op::Create(Obj::Check(*name), Held::Kept(kept))))
}

/// The act with that number.
fn acting(
    alloc: Global,
    ir: &Ir,
    invocation: &Invocation<u32>,
    stop: &Stop<u32>,
    done: u32,
) -> Result<Doing<u32, Bitmap>, NoMemory>
    requires { NamesAt (acts_at ir.now invocation.now stop.now) done }
    ensures act { IfOk result (λ d. d ≡ doing (slice_get (acts_at ir.now invocation.now stop.now) done)) }
    ensures memory { OnErr result (done ≡ 0) }
{
    match act_at(alloc, ir, invocation, stop, done)? {
        Some(op) => Ok(Doing::Do(op)),
        None => Ok(Doing::Nothing),
    }
}

/// The Invoke of the Join of the fan whose branch the scope is.
fn joining(ir: &Ir, invocation: &Invocation<u32>) -> Doing<u32, Bitmap>
    ensures { result ≡ joining (parent_of (scope_of invocation.now.name.place)) (join_around ir.now invocation.now.site) }
{
    let Some(parent) = parent_of(&invocation.name.place.scope()) else {
        return Doing::Nothing;
    };
    match join_around(ir, invocation.site) {
        Some(join) => Doing::Do(Op::Invoke(join_at(join, &parent.place))),
        None => Doing::Nothing,
    }
}

/// The Mark of the object with that number among those that are due.
fn marking(name: &Name, count: u32, done: u32) -> Doing<u32, Bitmap>
    requires room { name.now.kind ≡ kind.Join → length name.now.place.trail < MOST_SEGS }
    requires within { name.now.kind ≡ kind.Join → count ≤ MOST_BRANCHES }
    ensures { result ≡ marking (slice_get (due_objects name.now count) done) }
{
    match due(name, count, done) {
        Some(object) => Doing::Do(Op::Mark(object)),
        None => Doing::Nothing,
    }
}

/// What an attempt of an invocation does next in that phase. While it acts, `stop` is where its scope stops after the adopted
/// answer.
///
/// The only error is want of memory, where data is copied: for a call, the checkpoint and the first act.
#[tactic(auto, unfolding(world_model::specs::AnyCode::Program::next_of))]
pub fn next(
    alloc: Global,
    ir: &Ir,
    invocation: &Invocation<u32>,
    phase: &Phase,
    stop: Option<&Stop<u32>>,
) -> Result<Doing<u32, Bitmap>, NoMemory>
    requires ready { IsReady (code_of_ir ir.now) invocation.now phase.now }
    requires stop { IsStopOf (code_of_ir ir.now) invocation.now phase.now (option_copied stop) }
    ensures next { IfOk result (λ d. d ≡ next_of (code_of_ir ir.now) invocation.now phase.now) }
    ensures memory { OnErr result (CopiesData phase.now) }
{
    let name = &invocation.name;
    match phase {
        Phase::Looking => Ok(Doing::Do(Op::Look(Obj::Check(*name)))),
        Phase::Saving => Ok(Doing::Do(Op::Look(Obj::Saved(name.place)))),
        Phase::Gathering {
            count,
            outcomes,
            ..
        } => Ok(gathering(&name.place, *count, outcomes.len())),
        Phase::Reading => Ok(Doing::Do(Op::Look(source(name)))),
        Phase::Calling { raw, .. } => calling(alloc, ir, invocation.site, raw),
        Phase::Creating(kept) => creating(alloc, name, kept),
        Phase::Acting { done, .. } => acting(alloc, ir, invocation, stop.unwrap(), *done),
        Phase::Joining(_) => Ok(joining(ir, invocation)),
        Phase::Marking { kept, done } => Ok(marking(name, kept.count, *done)),
        Phase::Acking { .. } => Ok(Doing::Do(Op::Ack)),
        Phase::Over { .. } => Ok(Doing::Nothing),
    }
}

/// Whether what an attempt in that phase does next is the call of a function. It takes no memory.
pub fn is_call(phase: &Phase) -> bool
    ensures { (code : Code ℕ) (i : Invocation ℕ) → IsReady code i phase.now → IsTrue result ↔ IsAsk (next_of code i phase.now) }
{
    matches!(phase, Phase::Calling { .. })
}
