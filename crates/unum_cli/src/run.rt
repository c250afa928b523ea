//! The command `run`: workers share the world of a bundle under a lock.

ghost use Rattle.std.specs.Prelude.{◌≡◌, ◌≢◌, ◌≤◌, None, Some, Ok, IfOk, IfSome};
ghost use Rattle.unum_io.specs.Causes.{Rose};
ghost use Rattle.bundle_read.specs.Judged.{judged};
ghost use Rattle.session_report.specs.Report.{report};
ghost use Rattle.unum_world.specs.Openings.{Fits};
ghost use Rattle.unum_cli.specs.Words.{run_command as run_words, IsLimitedRun};
ghost use Rattle.unum_cli.specs.Completeness.{Completes, RunSpendsByCost};
ghost use Rattle.unum_cli.specs.Run.{due_run, due_run_judged, ShowsRun};
ghost use Rattle.unum_cli.specs.Tool.{By_workers, Answers, AnswersUsage, AnswersWorld, EndsRead, HoldsSound, IsOfBundle};

use crate::answer::{Desk, Status};
use crate::commands::RunOptions;
use crate::taking::take_bundle;
use crate::words::run_command;
use crate::worlds::{Telling, lay, settle_on};
use crate::writing::{tell_untaken, tell_usage};
use bundle_read::{Bundle, open_bundle};
use fn_table::BuiltIns;
use seat_lock::SeatLock;
use std::sync::Wait;
use std::thread::Threads;
use unum_io::{Sink, Source};
use unum_json::{Items, NoMemory, Text};
use unum_world::Planned;
use worker_gate::{Gate, WorkEnd, Worked, work_all};

/// A world that workers have run, and how they ended.
#[derive(Drop)]
struct Run {
    planned: Planned,
    ended: WorkEnd,
}

/// Lets so many workers run a world, each in a thread of its own. The only error is want of memory for the lock.
fn run_world<G: Gate + Sync, R: Threads + Wait + AllocGlobal + Sync>(
    rt: &R,
    planned: Planned,
    workers: u32,
    gate: &G,
) -> Result<Run, NoMemory>
    requires { (1 ≤ workers) × (workers ≤ 32) }
    ensures opening { IfOk result (λ r. r.planned.opening ≡ planned.opening) }
    ensures limit { IfOk result (λ r. r.planned.limit ≡ planned.limit) }
{
    let Ok((lock, seat)) = SeatLock::new(rt.alloc(), planned, workers) else {
        return Err(NoMemory);
    };
    let functions = BuiltIns::new(rt.alloc());
    let Worked { seat, ended } = work_all(rt, &lock, seat, &functions, gate);
    let planned = lock.close(seat);
    Ok(Run { planned, ended })
}

/// Lets workers run a world, settles it and writes its report. The world is left on the desk, also where memory ran out.
#[tactic(auto, using(crate::proofs::Due::empty_sound))]
fn run_on<K: Sink, G: Gate + Sync, R: Threads + Wait + AllocGlobal + Sync>(
    rt: &R,
    planned: Planned,
    workers: u32,
    out: &mut K,
    desk: &mut Desk,
    gate: &G,
) -> Status
    requires empty { desk.old ≡ Desk.Empty }
    requires limited { (1 ≤ workers) × (workers ≤ 32) }
    ensures told { AnswersWorld report By_workers planned.opening planned.limit result desk.new (K.taken out.old) (K.taken out.new) }
    ensures only { IsOfBundle result }
    ensures sound { HoldsSound desk.new }
    ensures later { K.faults out.old ≤ K.faults out.new }
    ensures cause { result ≡ Status.WriteFault → Rose (K.faults out.old) (K.faults out.new) }
{
    let Ok(ran) = run_world(rt, planned, workers, gate) else {
        return Status::NoMemory;
    };
    let Run { planned, ended } = ran;
    planned.is_obeying();
    if ended == WorkEnd::NoMemory {
        lay(desk, planned.into_world());
        return Status::NoMemory;
    }
    settle_on(rt.alloc(), planned, Telling::Report, out, desk)
}

/// Lets workers run the world of a bundle.
#[tactic(auto, using(crate::proofs::Due::empty_sound))]
fn run_bundle<K: Sink, G: Gate + Sync, R: Threads + Wait + AllocGlobal + Sync>(
    rt: &R,
    bundle: Bundle,
    options: RunOptions,
    out: &mut K,
    desk: &mut Desk,
    gate: &G,
) -> Status
    requires empty { desk.old ≡ Desk.Empty }
    requires limited { IsLimitedRun options }
    ensures told { Answers (due_run_judged options.limit (Ok bundle)) result desk.new (K.taken out.old) (K.taken out.new) }
    ensures only { IsOfBundle result }
    ensures sound { HoldsSound desk.new }
    ensures later { K.faults out.old ≤ K.faults out.new }
    ensures cause { result ≡ Status.WriteFault → Rose (K.faults out.old) (K.faults out.new) }
{
    let Ok(opening) = open_bundle(rt.alloc(), bundle) else {
        return Status::NoMemory;
    };
    match Planned::open(rt.alloc(), opening, options.limit) {
        Ok(planned) => run_on(rt, planned, options.workers, out, desk, gate),
        Err(_) => Status::NoMemory,
    }
}

/// Reads a bundle, and lets workers run its world.
#[tactic(auto, using(crate::proofs::Due::empty_sound, crate::proofs::Due::run_shows, crate::proofs::Due::ends_read))]
fn run_read<S: Source, K: Sink, G: Gate + Sync, R: Threads + Wait + AllocGlobal + Sync>(
    rt: &R,
    options: RunOptions,
    source: &mut S,
    out: &mut K,
    desk: &mut Desk,
    gate: &G,
) -> Status
    requires empty { desk.old ≡ Desk.Empty }
    requires limited { IsLimitedRun options }
    ensures read_fault { result ≡ Status.ReadFault → Rose (S.faults source.old) (S.faults source.new) }
    ensures write_fault { result ≡ Status.WriteFault → Rose (K.faults out.old) (K.faults out.new) }
    ensures no_usage { result ≢ Status.Usage }
    ensures told { IfSome (S.left source.old) (λ bytes. Answers (due_run_judged options.limit (judged bytes)) result desk.new (K.taken out.old) (K.taken out.new)) }
    ensures sound { HoldsSound desk.new }
    ensures shown { ShowsRun (Some options) result desk.new (K.taken out.old) (K.taken out.new) }
    ensures read { EndsRead result (S.left source.new) }
{
    match take_bundle(rt.alloc(), source) {
        Ok(bundle) => run_bundle(rt, bundle, options, out, desk, gate),
        Err(error) => tell_untaken(rt.alloc(), out, error),
    }
}

/// Carries out the words `run --workers W`, with W from 1 to 32, or `--workers=W`, and in any order with these, if it is wanted, a
/// limit from 1 to 10,000,000 as `--limit N` or `--limit=N`.
///
/// The bytes of the source are read to their end, and refused, or else W workers run the world of the bundle, each in a thread of
/// its own. They share one lock with the world in it, and take one event a turn, which the plan allows; the functions are called
/// while the lock is free, and the gate is told of each call. Then the world is settled by the plan's chooser, and its report written.
/// It may wait, and promises no return.
///
/// The desk is empty before, and afterwards it holds the world, unless the answer is Usage, Refused or ReadFault, or memory ran out
/// before there was one.
#[tactic(auto, using(crate::proofs::Due::empty_sound, crate::proofs::Due::usage_shows_run, crate::proofs::Completing::told_completes, crate::proofs::Completing::shown_run_spends))]
pub fn run_with_workers<S: Source, K: Sink, G: Gate + Sync, R: Threads + Wait + AllocGlobal + Sync>(
    rt: &R,
    words: &Items<Text>,
    source: &mut S,
    out: &mut K,
    desk: &mut Desk,
    gate: &G,
) -> Status
    requires { desk.old ≡ Desk.Empty }

    // Each fault has its cause.
    ensures read_fault { result ≡ Status.ReadFault → Rose (S.faults source.old) (S.faults source.new) }
    ensures write_fault { result ≡ Status.WriteFault → Rose (K.faults out.old) (K.faults out.new) }

    // Words that are not those of `run` are told so, and nothing else is.
    ensures usage { result ≡ Status.Usage → run_words words.now ≡ None }
    ensures no_command { run_words words.now ≡ None → AnswersUsage result desk.new (K.taken out.old) (K.taken out.new) }

    // Where the source tells its bytes, the status, the text and the desk are what is due for them: with accepted bytes the world on
    // the desk is that of the bundle, each of its events was allowed by the plan, and no event is enabled, or one is and the limit is
    // spent.
    ensures told { IfSome (S.left source.old) (λ bytes. Answers (due_run words.now bytes) result desk.new (K.taken out.old) (K.taken out.new)) }

    // Whatever the bytes were, whatever happened and in whatever order the workers took their turns: each checkpoint of the world on
    // the desk belongs to one central run of its session in which each task visit answers at most once, with the checkpoint that won;
    // each ended session's outcome is that run's; nothing is collected that an unfinished instance still reads; and a session whose
    // invocations are all acknowledged has ended.
    ensures sound { HoldsSound desk.new }

    // Where the plan has no mishaps, the limit is spent only where what the visits of the world's central runs cost so far reaches it;
    // and where no function looks at its ticket, exactly where what the visits of the sequential runs cost is above it.
    ensures complete { IfSome (S.left source.old) (λ bytes. Completes (due_run words.now bytes) result desk.new) }
    ensures spent { RunSpendsByCost (run_words words.now) result desk.new }

    // Whatever the bytes were, the text is that of the answer, and the source was read to its end.
    ensures shown { ShowsRun (run_words words.now) result desk.new (K.taken out.old) (K.taken out.new) }
    ensures read { EndsRead result (S.left source.new) }
{
    let Some(options) = run_command(words) else {
        return tell_usage(out);
    };
    run_read(rt, options, source, out, desk, gate)
}
