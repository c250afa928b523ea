//! Worlds each of whose events the plan allowed.
ghost use Rattle.std.specs.Prelude.{◌≡◌, ◌≤◌, IfOk};
ghost use mathlib.Core.List.{IsPrefix};
ghost use Rattle.unum_world.specs.Openings.{Fits};
ghost use Rattle.unum_world.specs.Traces.{opening_trace, IsChosen, IsObeying};
ghost use Rattle.unum_world.specs.Answers.{Settles};

use crate::opening::Opening;
use crate::refusal::ApplyError;
use crate::settled::Settled;
use crate::world::World;
use std::alloc::Global;
use std::marker::Model;
use unum_json::NoMemory;

/// A world each of whose events the plan allowed when it was made. Callers see what they see of a world.
#[derive(Drop)]
pub struct Planned {
    pub(crate) world: World,
}

impl Model for Planned {
    ghost use Rattle.unum_world.specs.Traces.{Trace, IsObeying};
    ghost use Rattle.unum_json.specs.contracts.kept.Json as json;
    ghost use Rattle.asl_model.specs.contracts.machine.Machine as machine;
    ghost use Rattle.std.specs.Coded.{codes};

    ghost Value = { Trace };

    ghost coded = { Prim.hlevel (codes, json.the_row.coded, machine.the_row.coded) };

    ghost view = { λ p. p.world };

    ghost invariant = { λ p. IsObeying p.world };
}

impl Planned {
    /// A world that begins so, with room for `limit` events; as [`World::open`].
    pub fn open(alloc: Global, opening: Opening, limit: u64) -> Result<Planned, NoMemory>
        requires fits { Fits opening }
        requires limit { limit ≤ 10000000 }
        ensures { IfOk result (λ p. p ≡ opening_trace opening limit) }
    {
        let world = World::open(alloc, opening, limit)?;
        Ok(Planned { world })
    }

    /// Makes the chooser's events until no event is enabled or the history is full. Where memory ran out, the events
    /// made so far stand. Where all events before were the chooser's, all are.
    pub fn settle(&mut self) -> Result<Settled, NoMemory>
        ensures opening { self.new.opening ≡ self.old.opening }
        ensures limit { self.new.limit ≡ self.old.limit }
        ensures grown { IsPrefix self.old.history self.new.history }
        ensures chosen { IsChosen self.old → IsChosen self.new }
        ensures obeying { IsObeying self.new }
        ensures settled { Settles result self.new }
    {
        settle(&mut self.world)
    }

    /// Each event of the history was allowed by the plan in its turn. It does nothing.
    pub fn is_obeying(&self)
        ensures { IsObeying self.now }
    {
        let _ = &self.world;
    }

    /// The world inside.
    pub fn into_world(self) -> World
        ensures world { result ≡ self }
        ensures obeying { IsObeying result }
    {
        self.world
    }
}

/// Makes the chooser's events until no event is enabled or the history is full.
fn settle(world: &mut World) -> Result<Settled, NoMemory>
    requires { IsObeying world.old }
    ensures opening { world.new.opening ≡ world.old.opening }
    ensures limit { world.new.limit ≡ world.old.limit }
    ensures grown { IsPrefix world.old.history world.new.history }
    ensures chosen { IsChosen world.old → IsChosen world.new }
    ensures obeying { IsObeying world.new }
    ensures settled { Settles result world.new }
{
    while let Some(event) = world.choose() {
        match world.apply(event) {
            Ok(()) => (),
            Err(ApplyError::Spent { len: _ }) => return Ok(Settled::Spent),
            Err(ApplyError::NoMemory) => return Err(NoMemory),
            Err(ApplyError::NotEnabled { event: _ }) => unreachable!(),
        }
    }
    Ok(Settled::Drained)
}
