//! Where an attempt stands after a reply, and after its function's answer.
ghost use Rattle.std.specs.Prelude.{◌≡◌, ◌+◌, ◌<◌, ◌≤◌, ◌++◌, ◌∷◌, [], suc, cond, nat_lt, true, length, Some, IsSome, IfOk, IfErr, OnOk, OnErr};
ghost use Rattle.place_name.specs.declared.kind.Kind.TheVariants as kind;
ghost use Rattle.place_name.specs.Names.{Parent, scope_of};
ghost use Rattle.world_model.specs.AnyCode.Names.{parent_of};
ghost use Rattle.world_model.specs.AnyCode.Operations.{Kept, WasLive};
ghost use Rattle.world_model.specs.AnyCode.Acts.{due_objects};
ghost use Rattle.world_model.specs.AnyCode.Program.{Phase, Reading, Gathering, Creating, Acting, Marking, Acking, adopted_phase, after_saved};
ghost use Rattle.world_model.specs.AnyCode.Program.{entered_phase, after_read, after_look, after_create, after_act, absorb, called_phase};
ghost use Rattle.unum_ir.specs.Calls.{combined};
ghost use Rattle.continuation_gen.specs.Coded.{code_of_ir as code_of};
ghost use Rattle.fn_wrapper.specs.Actions.{IsCountOfActs, with_one, gathering_of, gathered_of, heard_of, kept_with, read_of};
ghost use Rattle.fn_wrapper.specs.Ready.{IsReady, ReadsData, HasInput, input_by};

use crate::copies::copy_outcomes;
use crate::names::parent_of;
use fanin_bitmap::Bitmap;
use intermediate_gc::due;
use place_name::{Kind, MOST_BRANCHES, MOST_SEGS, Name};
use std::alloc::Global;
use std::mem;
use unum_ir::{Ir, combine, input_given, parent_of as join_around};
use unum_json::{Items, Json, NoMemory, Outcome};
use world_types::{Held, Invocation, Kept, Phase, Reply, Used};

/// An attempt's instance: the flat form that it runs, its invocation, and the attempt's number.
#[derive(Clone, Copy)]
pub struct Instance<'a> {
    /// The flat form of its session's machine.
    pub ir: &'a Ir,
    /// Its message.
    pub invocation: &'a Invocation<u32>,
    /// The number of the attempt.
    pub ticket: u32,
}

/// The branches of a Join: how many there are, what their fan saved, and the outcomes of the first ones.
#[derive(Drop)]
struct Branches {
    count: u32,
    raw: Json,
    used: Used,
    outcomes: Items<Outcome>,
}

/// The phase after the own checkpoint was found.
fn adopted(found: Held<Bitmap>) -> Phase
    ensures { result ≡ adopted_phase found }
{
    match found {
        Held::Kept(kept) => Phase::Acting { kept, done: 0 },
        other => {
            drop(other);
            Phase::Acking { finished: false }
        }
    }
}

/// The phase after the look at the own checkpoint.
fn looked(kind: Kind, reply: Reply<Bitmap>) -> Phase
    ensures { result ≡ after_look kind reply }
{
    match reply {
        Reply::WasAbsent => match kind {
            Kind::Enter => Phase::Reading,
            Kind::Task => Phase::Reading,
            Kind::Join => Phase::Saving,
        },
        Reply::WasLive(found) => adopted(found),
        other => {
            drop(other);
            Phase::Acking { finished: false }
        }
    }
}

/// The phase of a Join with these outcomes of its branches.
///
/// Source: Amazon States Language, Parallel State and Map State.
fn gathered(
    alloc: Global,
    ir: &Ir,
    site: u32,
    ticket: u32,
    branches: Branches,
) -> Result<Phase, NoMemory>
    ensures { IfOk result (λ p. p ≡ gathered_of ir.now site ticket branches) }
{
    let Branches {
        count,
        raw,
        used,
        outcomes,
    } = branches;
    if outcomes.len() < count as usize {
        return Ok(Phase::Gathering {
            count,
            raw,
            used,
            outcomes,
        });
    }
    match combine(alloc, ir, site, outcomes) {
        Ok(answer) => Ok(Phase::Creating(Kept {
            raw,
            used,
            answer,
            ticket,
            count,
        })),
        Err(NoMemory) => {
            drop(used);
            drop(raw);
            Err(NoMemory)
        }
    }
}

/// The phase of a Join after the look at what its fan saved.
fn saved(
    alloc: Global,
    ir: &Ir,
    site: u32,
    ticket: u32,
    reply: Reply<Bitmap>,
) -> Result<Phase, NoMemory>
    ensures { IfOk result (λ p. p ≡ after_saved (combined ir.now site) ticket reply) }
{
    match reply {
        Reply::WasLive(Held::Saved { count, raw, used }) => {
            let branches = Branches {
                count,
                raw,
                used,
                outcomes: Items::new(alloc),
            };
            gathered(alloc, ir, site, ticket, branches)
        }
        other => {
            drop(other);
            Ok(Phase::Looking)
        }
    }
}

/// What the outcomes of a fan's branches come to, with that of the last one.
fn combined_with(
    alloc: Global,
    ir: &Ir,
    site: u32,
    outcomes: &[Outcome],
    last: Outcome,
) -> Result<Outcome, NoMemory>
    ensures { IfOk result (λ o. o ≡ combined ir.now site (outcomes.now ++ last ∷ [])) }
{
    match copy_outcomes(alloc, outcomes) {
        Ok(mut all) => {
            all.push(last)?;
            combine(alloc, ir, site, all)
        }
        Err(NoMemory) => {
            drop(last);
            Err(NoMemory)
        }
    }
}

/// The phase of a Join with the outcome of its last branch. Without memory the branches come back.
fn with_last(
    alloc: Global,
    ir: &Ir,
    site: u32,
    ticket: u32,
    branches: Branches,
    last: Outcome,
) -> Result<Phase, Branches>
    ensures ok { IfOk result (λ p. p ≡ Creating (kept_with ticket branches (combined ir.now site (with_one branches last).outcomes))) }
    ensures err { IfErr result (λ b. b ≡ branches) }
{
    let Ok(answer) = combined_with(alloc, ir, site, branches.outcomes.as_slice(), last) else {
        return Err(branches);
    };
    let Branches {
        count,
        raw,
        used,
        outcomes,
    } = branches;
    drop(outcomes);
    Ok(Phase::Creating(Kept {
        raw,
        used,
        answer,
        ticket,
        count,
    }))
}

/// The phase of a Join with one outcome more, which is not the last. Without memory the branches come back.
fn with_more(branches: Branches, outcome: Outcome) -> Result<Phase, Branches>
    ensures ok { IfOk result (λ p. p ≡ gathering_of (with_one branches outcome)) }
    ensures err { IfErr result (λ b. b ≡ branches) }
{
    let Branches {
        count,
        raw,
        used,
        mut outcomes,
    } = branches;
    match outcomes.push(outcome) {
        Ok(()) => Ok(Phase::Gathering {
            count,
            raw,
            used,
            outcomes,
        }),
        Err(NoMemory) => Err(Branches {
            count,
            raw,
            used,
            outcomes,
        }),
    }
}

/// The phase of a Join with one outcome more. Without memory the branches come back.
fn one_more(
    alloc: Global,
    ir: &Ir,
    site: u32,
    ticket: u32,
    branches: Branches,
    outcome: Outcome,
) -> Result<Phase, Branches>
    ensures ok { IfOk result (λ p. p ≡ gathered_of ir.now site ticket (with_one branches outcome)) }
    ensures err { IfErr result (λ b. b ≡ branches) }
{
    let before_last = (branches.count as usize).saturating_sub(1);
    if branches.outcomes.len() < before_last {
        return with_more(branches, outcome);
    }
    with_last(alloc, ir, site, ticket, branches, outcome)
}

/// The phase of a Join after the look at the outcome of its next branch. Without memory the branches come back.
fn heard(
    alloc: Global,
    ir: &Ir,
    site: u32,
    ticket: u32,
    branches: Branches,
    reply: Reply<Bitmap>,
) -> Result<Phase, Branches>
    ensures ok { IfOk result (λ p. p ≡ heard_of ir.now site ticket branches reply) }
    ensures err { IfErr result (λ b. b ≡ branches) }
{
    match reply {
        Reply::WasLive(Held::Outcome(outcome)) => {
            one_more(alloc, ir, site, ticket, branches, outcome)
        }
        other => {
            drop(other);
            drop(branches);
            Ok(Phase::Looking)
        }
    }
}

/// The phase of a Join that gathers, after a reply. Without memory its phase comes back.
fn gathering(
    alloc: Global,
    ir: &Ir,
    site: u32,
    ticket: u32,
    branches: Branches,
    reply: Reply<Bitmap>,
) -> Result<Phase, Phase>
    ensures ok { IfOk result (λ p. p ≡ heard_of ir.now site ticket branches reply) }
    ensures err { IfErr result (λ p. p ≡ gathering_of branches) }
{
    match heard(alloc, ir, site, ticket, branches, reply) {
        Ok(phase) => Ok(phase),
        Err(
            Branches {
                count,
                raw,
                used,
                outcomes,
            },
        ) => Err(Phase::Gathering {
            count,
            raw,
            used,
            outcomes,
        }),
    }
}

/// The phase of an Enter with its input.
fn entered(alloc: Global, ticket: u32, input: Option<Json>) -> Phase
    ensures { result ≡ entered_phase ticket input }
{
    match input {
        Some(input) => Phase::Creating(Kept {
            raw: Json::null(),
            used: Items::new(alloc),
            answer: Outcome::Done(input),
            ticket,
            count: 0,
        }),
        None => Phase::Looking,
    }
}

/// The input of a branch, by what its fan saved.
///
/// Source: Amazon States Language, Parallel State and Map State.
fn input_at(
    alloc: Global,
    ir: &Ir,
    invocation: &Invocation<u32>,
    raw: &Json,
) -> Result<Option<Json>, NoMemory>
    requires { (q : Parent) → parent_of (scope_of invocation.now.name.place) ≡ Some q → IsSome (input_by (code_of ir.now) invocation.now raw.now) }
    ensures { IfOk result (λ x. x ≡ input_by (code_of ir.now) invocation.now raw.now) }
{
    let parent = parent_of(&invocation.name.place.scope());
    let (Some(join), Some(parent)) = (join_around(ir, invocation.site), parent) else {
        return Ok(None);
    };
    let input = input_given(alloc, ir, join, parent.index, raw)?;
    Ok(Some(input))
}

/// The phase of an Enter or a Task with its data.
fn read_as(alloc: Global, instance: Instance<'_>, found: Held<Bitmap>) -> Result<Phase, NoMemory>
    requires { HasInput (code_of instance.ir.now) instance.invocation.now Reading (WasLive found) }
    ensures { let it = instance.entry in IfOk result (λ p. p ≡ read_of (code_of it.ir.now) it.invocation.now it.ticket found) }
{
    let Instance {
        ir,
        invocation,
        ticket,
    } = instance;
    match (invocation.name.kind, found) {
        (Kind::Enter, Held::Arg { raw, used }) => {
            drop(used);
            Ok(entered(alloc, ticket, Some(raw)))
        }
        (Kind::Enter, Held::Saved { raw, used, .. }) => {
            drop(used);
            let input = input_at(alloc, ir, invocation, &raw);
            drop(raw);
            Ok(entered(alloc, ticket, input?))
        }
        (Kind::Task, Held::Arg { raw, used }) => Ok(Phase::Calling { raw, used }),
        (_, other) => {
            drop(other);
            Ok(Phase::Looking)
        }
    }
}

/// The phase of an Enter or a Task after the look at its data.
fn read(alloc: Global, instance: Instance<'_>, reply: Reply<Bitmap>) -> Result<Phase, NoMemory>
    requires { HasInput (code_of instance.ir.now) instance.invocation.now Reading reply }
    ensures { let it = instance.entry in IfOk result (λ p. p ≡ after_read (code_of it.ir.now) it.invocation.now it.ticket reply) }
{
    match reply {
        Reply::WasLive(found) => read_as(alloc, instance, found),
        other => {
            drop(other);
            Ok(Phase::Looking)
        }
    }
}

/// The phase of whoever lost the race for a checkpoint: it goes on with the winner's answer.
fn lost(own: Kept, winner: Held<Bitmap>) -> Phase
    ensures { result ≡ adopted_phase winner }
{
    drop(own);
    adopted(winner)
}

/// The phase after the Create of the own checkpoint.
fn created(kept: Kept, reply: Reply<Bitmap>) -> Phase
    ensures { result ≡ after_create kept reply }
{
    match reply {
        Reply::Won => Phase::Acting { kept, done: 0 },
        Reply::Had(winner) => lost(kept, winner),
        other => {
            drop(other);
            drop(kept);
            Phase::Acking { finished: false }
        }
    }
}

/// The phase after an act that sets no bit, where there are so many in all.
fn next_act(kept: Kept, done: u32, acts: u32) -> Phase
    ensures { result ≡ cond (nat_lt (suc done) acts) (Acting kept (suc done)) (Marking kept 0) }
{
    if u64::from(done) + 1 < u64::from(acts) {
        return Phase::Acting {
            kept,
            done: done + 1,
        };
    }
    Phase::Marking { kept, done: 0 }
}

/// The phase after an act, where there are so many in all. The setting of a bit is the last one: where the bitmap is full, the Join is
/// invoked.
fn acted(kept: Kept, done: u32, acts: u32, reply: Reply<Bitmap>) -> Phase
    ensures { result ≡ after_act kept done acts reply }
{
    match reply {
        Reply::BitFull => Phase::Joining(kept),
        Reply::BitNotFull => Phase::Marking { kept, done: 0 },
        Reply::BitTombstone => Phase::Marking { kept, done: 0 },
        other => {
            drop(other);
            next_act(kept, done, acts)
        }
    }
}

/// Whether there is an object with that number among those that are due.
fn is_due(name: &Name, count: u32, index: u32) -> bool
    requires room { name.now.kind ≡ kind.Join → length name.now.place.trail < MOST_SEGS }
    requires within { name.now.kind ≡ kind.Join → count ≤ MOST_BRANCHES }
    ensures { result ≡ nat_lt index (length (due_objects name.now count)) }
{
    due(name, count, index).is_some()
}

/// The phase after a mark.
fn marked(name: &Name, kept: Kept, done: u32) -> Phase
    requires room { name.now.kind ≡ kind.Join → length name.now.place.trail < MOST_SEGS }
    requires within { name.now.kind ≡ kind.Join → kept.count ≤ MOST_BRANCHES }
    requires fits { done ≤ 2000 }
    ensures { result ≡ cond (nat_lt (suc done) (length (due_objects name.now kept.count))) (Marking kept (suc done)) (Acking true) }
{
    if is_due(name, kept.count, done + 1) {
        return Phase::Marking {
            kept,
            done: done + 1,
        };
    }
    drop(kept);
    Phase::Acking { finished: true }
}

/// A phase, or the one before where there was no memory.
fn or_before(phase: Result<Phase, NoMemory>, before: Phase) -> Result<Phase, Phase>
    ensures ok { (due : Phase) → IfOk phase (λ p. p ≡ due) → IfOk result (λ p. p ≡ due) }
    ensures err { IfErr result (λ p. p ≡ before) }
{
    match phase {
        Ok(phase) => {
            drop(before);
            Ok(phase)
        }
        Err(NoMemory) => Err(before),
    }
}

/// The phase of an attempt after a reply, from a phase that reads no data.
#[tactic(auto, unfolding(world_model::specs::AnyCode::Program::absorb))]
fn moved(instance: Instance<'_>, phase: Phase, reply: Reply<Bitmap>, acts: u32) -> Phase
    requires ready { IsReady (code_of instance.ir.now) instance.invocation.now phase }
    requires acts { IsCountOfActs (code_of instance.ir.now) instance.invocation.now phase acts }
    requires no_data { ReadsData phase → ⊥ }
    ensures { let it = instance.entry in result ≡ absorb (code_of it.ir.now) it.invocation.now it.ticket phase reply }
{
    let name = &instance.invocation.name;
    match phase {
        Phase::Looking => looked(name.kind, reply),
        Phase::Creating(kept) => created(kept, reply),
        Phase::Acting { kept, done } => acted(kept, done, acts, reply),
        Phase::Joining(kept) => {
            drop(reply);
            Phase::Marking { kept, done: 0 }
        }
        Phase::Marking { kept, done } => {
            drop(reply);
            marked(name, kept, done)
        }
        Phase::Acking { finished } => {
            drop(reply);
            Phase::Over { finished }
        }
        other => {
            drop(reply);
            other
        }
    }
}

/// The phase of an attempt after a reply. Without memory its phase comes back.
#[tactic(auto, unfolding(world_model::specs::AnyCode::Program::absorb))]
fn absorbed(
    alloc: Global,
    instance: Instance<'_>,
    phase: Phase,
    reply: Reply<Bitmap>,
    acts: u32,
) -> Result<Phase, Phase>
    requires ready { IsReady (code_of instance.ir.now) instance.invocation.now phase }
    requires acts { IsCountOfActs (code_of instance.ir.now) instance.invocation.now phase acts }
    requires input { HasInput (code_of instance.ir.now) instance.invocation.now phase reply }
    ensures ok { let it = instance.entry in IfOk result (λ p. p ≡ absorb (code_of it.ir.now) it.invocation.now it.ticket phase reply) }
    ensures err { IfErr result (λ p. p ≡ phase) }
    ensures memory { OnErr result (ReadsData phase) }
{
    let Instance {
        ir,
        invocation,
        ticket,
    } = instance;
    let site = invocation.site;
    match phase {
        Phase::Saving => or_before(saved(alloc, ir, site, ticket, reply), Phase::Saving),
        Phase::Gathering {
            count,
            raw,
            used,
            outcomes,
        } => {
            let branches = Branches {
                count,
                raw,
                used,
                outcomes,
            };
            gathering(alloc, ir, site, ticket, branches, reply)
        }
        Phase::Reading => or_before(read(alloc, instance, reply), Phase::Reading),
        other => Ok(moved(instance, other, reply, acts)),
    }
}

/// The phase of an attempt after the answer of its function.
fn after_call(ticket: u32, phase: Phase, outcome: Outcome) -> Phase
    ensures { result ≡ called_phase ticket phase outcome }
{
    match phase {
        Phase::Calling { raw, used } => Phase::Creating(Kept {
            raw,
            used,
            answer: outcome,
            ticket,
            count: 0,
        }),
        other => {
            drop(outcome);
            other
        }
    }
}

/// Takes the reply to what an attempt does next, and moves the attempt to the phase that follows. What is not there although it was
/// expected sends it back to its first look. While it acts, `acts` is how many acts its instance has. Of what its fan saved a branch
/// makes its own input alone.
///
/// The only error is want of memory, at the reading of data alone; the phase then stays.
pub fn absorb(
    alloc: Global,
    instance: Instance<'_>,
    phase: &mut Phase,
    reply: Reply<Bitmap>,
    acts: u32,
) -> Result<(), NoMemory>
    requires ready { IsReady (code_of instance.ir.now) instance.invocation.now phase.old }
    requires acts { IsCountOfActs (code_of instance.ir.now) instance.invocation.now phase.old acts }
    requires input { HasInput (code_of instance.ir.now) instance.invocation.now phase.old reply }
    ensures ok { let x = instance.entry in OnOk result (phase.new ≡ absorb (code_of x.ir.now) x.invocation.now x.ticket phase.old reply) }
    ensures err { OnErr result (phase.new ≡ phase.old) }
    ensures memory { OnErr result (ReadsData phase.old) }
{
    let before = mem::replace(phase, Phase::Looking);
    match absorbed(alloc, instance, before, reply, acts) {
        Ok(after) => {
            *phase = after;
            Ok(())
        }
        Err(before) => {
            *phase = before;
            Err(NoMemory)
        }
    }
}

/// Takes the answer of an attempt's function; `ticket` is the attempt's number. An attempt that waits for none stays where it is.
pub fn called(ticket: u32, phase: &mut Phase, outcome: Outcome)
    ensures { phase.new ≡ called_phase ticket phase.old outcome }
{
    let before = mem::replace(phase, Phase::Looking);
    *phase = after_call(ticket, before, outcome);
}
