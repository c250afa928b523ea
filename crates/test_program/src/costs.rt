//! Cases of what worlds cost.
//!
//! Beside the events and the marks of a world that has settled stands what the visits of its sequential runs cost, summed here by their
//! kinds: a session 8 events and 2 marks, a Task 10 and 2, a branch 9 and 1, and the Join of c branches 9 + 2 c events and c + 2 marks,
//! and one more of each where c is not 0. What a Join costs for its branches is counted with these, and the one more with the first.
ghost use Rattle.std.specs.Prelude.{◌≤◌, ◌<◌, IfOk};
ghost use Rattle.place_name.specs.declared.limits.TheConstants.{SESSIONS};
ghost use Rattle.unum_world.specs.Openings.{Fits};

use crate::fault::Fault;
use crate::given::{Given, number, parted};
use crate::worlds::{limited, opening};
use central_model::{CentralError, Run, central_all};
use place_name::{Kind, Name, Seg};
use std::alloc::Global;
use unum_cli::{generate, open_bundle};
use unum_world::{Opening, Planned, Session, Settled, World};

/// The most visits of a run.
const VISITS: u64 = 1_000_000;

/// Events and marks.
#[derive(Clone, Copy)]
struct Cost {
    events: u64,
    marks: u64,
}

impl Cost {
    fn new(events: u64, marks: u64) -> Cost {
        Cost { events, marks }
    }

    fn with(self, other: Cost) -> Cost {
        Cost {
            events: self.events.saturating_add(other.events),
            marks: self.marks.saturating_add(other.marks),
        }
    }
}

/// What a scope costs: that of a session, or a branch, with what its Join does for it.
fn of_scope(around: Option<&Seg>) -> Cost {
    match around {
        None => Cost::new(8, 2),
        Some(branch) => {
            if branch.index == 0 {
                Cost::new(12, 3)
            } else {
                Cost::new(11, 2)
            }
        }
    }
}

fn of_visit(name: &Name) -> Cost {
    match name.kind {
        Kind::Enter => of_scope(name.place.trail.as_slice().last()),
        Kind::Task => Cost::new(10, 2),
        Kind::Join => Cost::new(9, 2),
    }
}

fn of_run(run: &Run) -> Cost {
    let mut cost = Cost::new(0, 0);
    for visit in run.visits.as_slice() {
        cost = cost.with(of_visit(&visit.name));
    }
    cost
}

/// What the sequential run of a session costs.
fn of_session(
    alloc: Global,
    opening: &Opening,
    number: u32,
    session: &Session,
) -> Result<Cost, Fault>
    requires { number < SESSIONS }
{
    let Some(row) = opening.machines.as_slice().get(session.machine as usize) else {
        return Err(Fault::NotRead);
    };
    match central_all(
        alloc,
        row.1.machine(),
        number,
        &session.input,
        &opening.table,
        VISITS,
    ) {
        Ok(run) => {
            let cost = of_run(&run);
            drop(run);
            Ok(cost)
        }
        Err(CentralError::TooLong) => Err(Fault::NotRead),
        Err(CentralError::NoMemory) => Err(Fault::NoMemory),
    }
}

/// What the sequential runs of all sessions cost.
fn of_sessions(alloc: Global, world: &World) -> Result<Cost, Fault> {
    let opening = world.opening();
    let mut cost = Cost::new(0, 0);
    for (number, session) in opening.sessions.as_slice().iter().enumerate() {
        cost = cost.with(of_session(alloc, opening, number as u32, session)?);
    }
    Ok(cost)
}

/// How a world has settled, and its events and marks beside what the sequential runs cost.
fn tell(alloc: Global, out: &mut String, how: Settled, world: &World) -> Result<(), Fault> {
    let cost = of_sessions(alloc, world)?;
    let totals = world.totals();
    writeln!(
        out,
        "{how:?}: events {} of {}, marks {} of {}",
        totals.events, cost.events, totals.marks, cost.marks
    )?;
    Ok(())
}

/// Settles the world of an opening, and tells what it cost.
fn settled(alloc: Global, out: &mut String, opening: Opening, limit: u64) -> Result<(), Fault>
    requires fits { Fits opening }
    requires limit { limit ≤ 10000000 }
{
    let mut planned = Planned::open(alloc, opening, limit)?;
    let how = planned.settle();
    let world = planned.into_world();
    let told = match how {
        Ok(how) => tell(alloc, out, how, &world),
        Err(_) => Err(Fault::NoMemory),
    };
    drop(world);
    told
}

/// How the world of a generated bundle begins.
fn generated(alloc: Global, sessions: u32) -> Result<Opening, Fault>
    ensures { IfOk result Fits }
{
    if sessions > 1_000 {
        return Err(Fault::NotRead);
    }
    let bundle = generate(alloc, sessions)?;
    Ok(open_bundle(alloc, bundle)?)
}

/// The world of the bundle, for that limit of events.
pub fn costs(alloc: Global, out: &mut String, given: &Given, rest: &str) -> Result<(), Fault> {
    let (limit, _) = limited(rest)?;
    let opening = opening(alloc, given)?;
    settled(alloc, out, opening, limit)
}

/// The world of a generated bundle of so many sessions, for that limit of events.
pub fn made_costs(alloc: Global, out: &mut String, rest: &str) -> Result<(), Fault> {
    let (sessions, limit) = parted(rest, " ")?;
    let (limit, _) = limited(limit)?;
    let opening = generated(alloc, number(sessions)?)?;
    settled(alloc, out, opening, limit)
}
