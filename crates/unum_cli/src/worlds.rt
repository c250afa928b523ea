//! Commands that leave a world on the desk.

ghost use Rattle.std.specs.Prelude.{◌≡◌, ◌≤◌, IfOk};
ghost use Rattle.unum_io.specs.Causes.{Rose};
ghost use Rattle.unum_world.specs.Openings.{Fits};
ghost use Rattle.unum_cli.specs.Telling.{told_by};
ghost use Rattle.unum_world.specs.Traces.{IsChosen};
ghost use Rattle.unum_cli.specs.Tool.{Maker, By_chooser, due_bundle, made_opening, made_text, Answers, AnswersWorld, HoldsSound, IsMadeBy, IsOfBundle, IsWorldOf, OnDesk};

use crate::answer::{Desk, Status};
use crate::commands::BundleCommand;
use crate::writing::finish;
use bundle_read::{Bundle, generate, open_bundle};
use session_report::{push_number, report, totals_line};
use std::alloc::Global;
use unum_io::Sink;
use unum_json::{NoMemory, Text};
use unum_world::{Opening, Planned, Settled, World};

/// The limit of a world that is made.
const LIMIT: u64 = 1_000_000;

/// What is told of a world that has settled.
#[derive(Clone, Copy)]
pub enum Telling {
    /// Its report.
    Report,
    /// How many sessions were made, and what it counts.
    Made(u32),
}

/// What a world of so many sessions counts, after a line with their number.
fn made_text(alloc: Global, sessions: u32, world: &World) -> Result<Text, NoMemory>
    ensures { IfOk result (λ t. t ≡ made_text sessions world.now) }
{
    let totals = totals_line(alloc, world)?;
    let mut out = String::new(alloc);
    push_number(&mut out, "made ", u64::from(sessions))?;
    out.push_str("\n")?;
    out.push_str(totals.as_str())?;
    Ok(Text::from_string(out)?)
}

/// The text of a world that has settled.
fn text_of(alloc: Global, telling: Telling, world: &World) -> Result<Text, NoMemory>
    ensures { IfOk result (λ t. t ≡ told_by telling world.now) }
{
    match telling {
        Telling::Report => report(alloc, world),
        Telling::Made(sessions) => made_text(alloc, sessions, world),
    }
}

/// Leaves a world on the desk.
#[tactic(auto, unfolding(crate::specs::Tool::HoldsSound))]
pub fn lay(desk: &mut Desk, world: World)
    ensures laid { desk.new ≡ Desk.Open world }
    ensures sound { HoldsSound desk.new }
{
    world.is_sound();
    *desk = Desk::Open(world);
}

/// Settles a world and writes what is told of it. The world is left on the desk, also where memory ran out on the way.
pub fn settle_on<K: Sink>(
    alloc: Global,
    mut planned: Planned,
    telling: Telling,
    out: &mut K,
    desk: &mut Desk,
) -> Status
    ensures told { (maker : Maker) → IsMadeBy maker planned → AnswersWorld (told_by telling) maker planned.opening planned.limit result desk.new (K.taken out.old) (K.taken out.new) }
    ensures laid { (maker : Maker) → IsMadeBy maker planned → OnDesk desk.new (IsWorldOf maker planned.opening planned.limit) }
    ensures only { IsOfBundle result }
    ensures sound { HoldsSound desk.new }
    ensures later { K.faults out.old ≤ K.faults out.new }
    ensures cause { result ≡ Status.WriteFault → Rose (K.faults out.old) (K.faults out.new) }
{
    let settled = planned.settle();
    let world = planned.into_world();
    let Ok(settled) = settled else {
        lay(desk, world);
        return Status::NoMemory;
    };
    let Ok(text) = text_of(alloc, telling, &world) else {
        lay(desk, world);
        return Status::NoMemory;
    };
    lay(desk, world);
    match settled {
        Settled::Drained => finish(out, text.as_str(), Status::Written),
        Settled::Spent => finish(out, text.as_str(), Status::Spent),
    }
}

/// Simulates an opening, and leaves its world on the desk.
#[tactic(auto, using(crate::proofs::Due::empty_sound))]
fn simulate<K: Sink>(
    alloc: Global,
    opening: Opening,
    limit: u64,
    telling: Telling,
    out: &mut K,
    desk: &mut Desk,
) -> Status
    requires empty { desk.old ≡ Desk.Empty }
    requires fits { Fits opening }
    requires limited { limit ≤ 10000000 }
    ensures told { AnswersWorld (told_by telling) By_chooser opening limit result desk.new (K.taken out.old) (K.taken out.new) }
    ensures only { IsOfBundle result }
    ensures sound { HoldsSound desk.new }
    ensures later { K.faults out.old ≤ K.faults out.new }
    ensures cause { result ≡ Status.WriteFault → Rose (K.faults out.old) (K.faults out.new) }
{
    match Planned::open(alloc, opening, limit) {
        Ok(planned) => settle_on(alloc, planned, telling, out, desk),
        Err(_) => Status::NoMemory,
    }
}

/// Simulates the world of a bundle.
#[tactic(auto, using(crate::proofs::Due::empty_sound))]
pub fn simulate_bundle<K: Sink>(
    alloc: Global,
    bundle: Bundle,
    limit: u64,
    out: &mut K,
    desk: &mut Desk,
) -> Status
    requires empty { desk.old ≡ Desk.Empty }
    requires limited { limit ≤ 10000000 }
    ensures told { Answers (due_bundle (BundleCommand.Simulate limit) bundle) result desk.new (K.taken out.old) (K.taken out.new) }
    ensures only { IsOfBundle result }
    ensures sound { HoldsSound desk.new }
    ensures later { K.faults out.old ≤ K.faults out.new }
    ensures cause { result ≡ Status.WriteFault → Rose (K.faults out.old) (K.faults out.new) }
{
    match open_bundle(alloc, bundle) {
        Ok(opening) => simulate(alloc, opening, limit, Telling::Report, out, desk),
        Err(_) => Status::NoMemory,
    }
}

/// Simulates the world of a generated bundle.
#[tactic(auto, using(crate::proofs::Due::empty_sound))]
pub fn make<K: Sink>(alloc: Global, sessions: u32, out: &mut K, desk: &mut Desk) -> Status
    requires empty { desk.old ≡ Desk.Empty }
    requires few { sessions ≤ 1000 }
    ensures told { AnswersWorld (made_text sessions) By_chooser (made_opening sessions) 1000000 result desk.new (K.taken out.old) (K.taken out.new) }
    ensures only { IsOfBundle result }
    ensures sound { HoldsSound desk.new }
    ensures later { K.faults out.old ≤ K.faults out.new }
    ensures cause { result ≡ Status.WriteFault → Rose (K.faults out.old) (K.faults out.new) }
{
    let Ok(bundle) = generate(alloc, sessions) else {
        return Status::NoMemory;
    };
    match open_bundle(alloc, bundle) {
        Ok(opening) => simulate(alloc, opening, LIMIT, Telling::Made(sessions), out, desk),
        Err(_) => Status::NoMemory,
    }
}
