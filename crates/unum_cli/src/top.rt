//! The top call.

ghost use Rattle.std.specs.Prelude.{◌≡◌, ◌≢◌, ◌≤◌, None, Some, IfSome};
ghost use Rattle.unum_io.specs.Causes.{Rose};
ghost use Rattle.bundle_read.specs.Judged.{judged};
ghost use Rattle.unum_cli.specs.Completeness.{Completes, SpendsByCost};
ghost use Rattle.unum_cli.specs.Words.{command as command_of, IsLimited};
ghost use Rattle.unum_cli.specs.Tool.{due, due_bundle, due_judged, Answers, AnswersFlat, AnswersUsage, IsOfBundle, Shows, HoldsSound, EndsRead, ReadsAll, ReadsNothing};

use crate::answer::{Desk, Status};
use crate::commands::{BundleCommand, Command};
use crate::taking::{take_bundle, take_flat};
use crate::texts::{central, compile, tell_flat, validate};
use crate::words::command;
use crate::worlds::{make, simulate_bundle};
use crate::writing::{tell_untaken, tell_usage};
use bundle_read::Bundle;
use std::alloc::Global;
use unum_io::{Sink, Source};
use unum_json::{Items, Text};

/// Carries out a command with a bundle.
#[tactic(auto, using(crate::proofs::Due::empty_sound))]
fn carry_out<K: Sink>(
    alloc: Global,
    command: BundleCommand,
    bundle: Bundle,
    out: &mut K,
    desk: &mut Desk,
) -> Status
    requires empty { desk.old ≡ Desk.Empty }
    requires limited { IsLimited (Command.Bundle command) }
    ensures told { Answers (due_bundle command bundle) result desk.new (K.taken out.old) (K.taken out.new) }
    ensures only { IsOfBundle result }
    ensures sound { HoldsSound desk.new }
    ensures later { K.faults out.old ≤ K.faults out.new }
    ensures cause { result ≡ Status.WriteFault → Rose (K.faults out.old) (K.faults out.new) }
{
    match command {
        BundleCommand::Validate => validate(alloc, &bundle, out),
        BundleCommand::Compile => compile(alloc, bundle, out),
        BundleCommand::Central { limit } => central(alloc, &bundle, limit, out),
        BundleCommand::Simulate { limit } => simulate_bundle(alloc, bundle, limit, out, desk),
    }
}

/// Reads a bundle, and carries out a command with it.
#[tactic(auto, using(crate::proofs::Due::empty_sound, crate::proofs::Due::bundle_shows, crate::proofs::Due::ends_read))]
fn with_bundle<S: Source, K: Sink>(
    alloc: Global,
    command: BundleCommand,
    source: &mut S,
    out: &mut K,
    desk: &mut Desk,
) -> Status
    requires empty { desk.old ≡ Desk.Empty }
    requires limited { IsLimited (Command.Bundle command) }
    ensures read_fault { result ≡ Status.ReadFault → Rose (S.faults source.old) (S.faults source.new) }
    ensures write_fault { result ≡ Status.WriteFault → Rose (K.faults out.old) (K.faults out.new) }
    ensures no_usage { result ≢ Status.Usage }
    ensures told { IfSome (S.left source.old) (λ bytes. Answers (due_judged command (judged bytes)) result desk.new (K.taken out.old) (K.taken out.new)) }
    ensures sound { HoldsSound desk.new }
    ensures shown { Shows (Some (Command.Bundle command)) result desk.new (K.taken out.old) (K.taken out.new) }
    ensures read { EndsRead result (S.left source.new) }
{
    match take_bundle(alloc, source) {
        Ok(bundle) => carry_out(alloc, command, bundle, out, desk),
        Err(error) => tell_untaken(alloc, out, error),
    }
}

/// Reads the text of flat code, and tells how much is in it.
#[tactic(auto, using(crate::proofs::Due::empty_sound, crate::proofs::Due::flat_shows, crate::proofs::Due::ends_read))]
fn with_flat<S: Source, K: Sink>(alloc: Global, source: &mut S, out: &mut K) -> Status
    ensures read_fault { result ≡ Status.ReadFault → Rose (S.faults source.old) (S.faults source.new) }
    ensures write_fault { result ≡ Status.WriteFault → Rose (K.faults out.old) (K.faults out.new) }
    ensures no_usage { result ≢ Status.Usage }
    ensures told { IfSome (S.left source.old) (λ bytes. AnswersFlat bytes result Desk.Empty (K.taken out.old) (K.taken out.new)) }
    ensures shown { Shows (Some Command.Ir) result Desk.Empty (K.taken out.old) (K.taken out.new) }
    ensures read { EndsRead result (S.left source.new) }
{
    match take_flat(alloc, source) {
        Ok(ir) => tell_flat(alloc, &ir, out),
        Err(error) => tell_untaken(alloc, out, error),
    }
}

/// Carries out the words: `validate`, `compile`, `ir`, `central` or `simulate`, these two with a limit from 1 to 10,000,000 as
/// `--limit N` or `--limit=N`, or `make N` with N from 1 to 1,000.
///
/// The bytes of the source are read to their end, and refused, or else the command is carried out with what they are. With a
/// bundle, `validate` writes how much is in it, `compile` the flat code of each of its machines, `central` how each session ends by
/// the sequential run of its machine, with the limit in visits, and `simulate` settles its world by the plan's chooser and writes the
/// report. With the text of flat code `ir` writes how much is in it. `make` reads nothing: it settles the world of a generated bundle
/// of N sessions, and writes what it counts.
///
/// The desk is empty before, and afterwards it holds the world of `simulate` or `make`, unless the answer is Usage, Refused or
/// ReadFault, or memory ran out before there was one.
#[tactic(auto, using(crate::proofs::Due::empty_sound, crate::proofs::Due::usage_shows, crate::proofs::Due::made_shows, crate::proofs::Due::made_due, crate::proofs::Completing::told_completes, crate::proofs::Completing::shown_spends, crate::proofs::Completing::made_completes, crate::proofs::Completing::made_leaves))]
pub fn tool<S: Source, K: Sink>(
    alloc: Global,
    words: &Items<Text>,
    source: &mut S,
    out: &mut K,
    desk: &mut Desk,
) -> Status
    requires { desk.old ≡ Desk.Empty }

    // Each fault has its cause.
    ensures read_fault { result ≡ Status.ReadFault → Rose (S.faults source.old) (S.faults source.new) }
    ensures write_fault { result ≡ Status.WriteFault → Rose (K.faults out.old) (K.faults out.new) }

    // Words outside the table are told so, and nothing else is.
    ensures usage { result ≡ Status.Usage → command_of words.now ≡ None }
    ensures no_command { command_of words.now ≡ None → AnswersUsage result desk.new (K.taken out.old) (K.taken out.new) }

    // Where the source tells its bytes, the status, the text and the desk are what is due for them.
    ensures told { IfSome (S.left source.old) (λ bytes. Answers (due words.now bytes) result desk.new (K.taken out.old) (K.taken out.new)) }

    // Whatever the bytes were and whatever happened: each checkpoint of the world on the desk belongs to one central run of
    // its session in which each task visit answers at most once, with the checkpoint that won; each ended session's outcome
    // is that run's; nothing is collected that an unfinished instance still reads; and a session whose invocations are all
    // acknowledged has ended.
    ensures sound { HoldsSound desk.new }

    // Where the plan has no mishaps, the limit is spent only where what the visits of the world's central runs cost so far reaches it;
    // and where no function looks at its ticket, exactly where what the visits of the sequential runs cost is above it. So of accepted
    // bytes, and, whatever the bytes were, of the world that `simulate` leaves on the desk and of that of `make`.
    ensures complete { IfSome (S.left source.old) (λ bytes. Completes (due words.now bytes) result desk.new) }
    ensures spent { SpendsByCost (command_of words.now) result desk.new }

    // Whatever the bytes were, the text is that of the answer, and the source was read to its end, or `make` reads nothing.
    ensures shown { Shows (command_of words.now) result desk.new (K.taken out.old) (K.taken out.new) }
    ensures read { ReadsAll (command_of words.now) result (S.left source.new) }
    ensures untouched { ReadsNothing (command_of words.now) → (source.new ≡ source.old) × (result ≢ Status.ReadFault) }
{
    let Some(command) = command(words) else {
        return tell_usage(out);
    };
    match command {
        Command::Bundle(command) => with_bundle(alloc, command, source, out, desk),
        Command::Ir => with_flat(alloc, source, out),
        Command::Make { sessions } => make(alloc, sessions, out, desk),
    }
}
