//! The world as it opens: each session's input is saved, and its first instance is invoked.
ghost use Rattle.std.specs.Prelude.{◌≡◌, ◌≤◌, ◌<◌, [], map, length, IfOk, OnOk};
ghost use Rattle.place_name.specs.declared.limits.TheConstants.{SESSIONS};
ghost use Rattle.place_name.specs.declared.obj.Obj.TheVariants.{Arg};
ghost use Rattle.world_model.specs.AnyCode.Operations.{Absent, Live, ArgIs};
ghost use Rattle.world_model.specs.AnyCode.World.{root_name, root_invs, root_states, objects_with, start_objects};
ghost use Rattle.world_model.specs.Numbered.{first_number};
ghost use Rattle.checkpoint_store.specs.Entries.{objects_of};
ghost use Rattle.unum_world.specs.Openings.{Machines, session_as, Fits};
ghost use Rattle.unum_world.specs.Traces.{world_of, opened_world};
ghost use Rattle.unum_world.specs.Kept.{Keeps};

use crate::opening::{Opening, Session};
use crate::world_state::WorldState;
use checkpoint_store::Store;
use invoke_queue::{Numbers, Queue};
use place_name::{Kind, Name, Obj, Place, SESSIONS, Trail};
use std::alloc::Global;
use unum_hub::Hub;
use unum_json::{Items, Json, NoMemory, copy};
use world_types::{Held, Invocation};

/// The name of a session's first instance.
fn root_name(session: u32) -> Name
    requires { session < SESSIONS }
    ensures { result ≡ root_name session }
{
    Name {
        place: Place {
            session,
            trail: Trail::new(),
            hop: 0,
        },
        kind: Kind::Enter,
    }
}

/// Saves the input of a session for its first instance.
fn save_input(alloc: Global, store: &mut Store, session: u32, input: &Json) -> Result<(), NoMemory>
    requires there { session < SESSIONS }
    requires absent { objects_of store.old (Arg (root_name session)) ≡ Absent }
    ensures { OnOk result (objects_of store.new ≡ objects_with (Arg (root_name session)) (Live (ArgIs input.now [])) (objects_of store.old)) }
{
    let raw = copy(alloc, input)?;
    let used = Items::new(alloc);
    let _made = store.create(&Obj::Arg(root_name(session)), Held::Arg { raw, used })?;
    Ok(())
}

/// The objects at opening: the input of each session, saved from the last session on.
#[tactic(auto, unfolding(world_model::specs::AnyCode::World::start_objects))]
fn first_store(alloc: Global, sessions: &[Session]) -> Result<Store, NoMemory>
    requires { length sessions.now ≤ SESSIONS }
    ensures { IfOk result (λ s. (machines : Machines) → objects_of s ≡ start_objects 0 (map (session_as machines) sessions.now)) }
{
    let mut store = Store::new(alloc);
    for s in (0..sessions.len()).rev() {
        save_input(alloc, &mut store, s as u32, &sessions[s].input)?;
    }
    Ok(store)
}

/// The queue at opening: the first instance of each session.
#[tactic(auto, unfolding(world_model::specs::AnyCode::World::root_invs, world_model::specs::AnyCode::World::root_states))]
fn first_queue(alloc: Global, sessions: &[Session]) -> Result<Queue, NoMemory>
    requires { length sessions.now ≤ SESSIONS }
    ensures invs { IfOk result (λ q. (machines : Machines) → q.invs ≡ root_invs first_number 0 (map (session_as machines) sessions.now)) }
    ensures states { IfOk result (λ q. (machines : Machines) → q.states ≡ root_states (map (session_as machines) sessions.now)) }
    ensures atts { IfOk result (λ q. q.atts ≡ []) }
{
    let mut queue = Queue::new(alloc);
    for (s, _session) in sessions.iter().enumerate() {
        let name = root_name(s as u32);
        let _number = queue.invoke(Invocation { name, site: 0 })?;
    }
    Ok(queue)
}

/// No twins, and room for those of so many invocations.
fn first_twins(alloc: Global, invocations: usize) -> Result<Numbers, NoMemory>
    requires { invocations ≤ SESSIONS }
    ensures { IfOk result (λ t. t ≡ record { numbers = []; room = invocations }) }
{
    let mut twins = Numbers::new(alloc);
    for _made in 0..invocations {
        twins.grow()?;
    }
    Ok(twins)
}

/// Objects and queue at opening.
fn first_hub(alloc: Global, sessions: &[Session]) -> Result<Hub, NoMemory>
    requires { length sessions.now ≤ SESSIONS }
    ensures objects { IfOk result (λ h. (machines : Machines) → objects_of h.store ≡ start_objects 0 (map (session_as machines) sessions.now)) }
    ensures invs { IfOk result (λ h. (machines : Machines) → h.queue.invs ≡ root_invs first_number 0 (map (session_as machines) sessions.now)) }
    ensures states { IfOk result (λ h. (machines : Machines) → h.queue.states ≡ root_states (map (session_as machines) sessions.now)) }
    ensures atts { IfOk result (λ h. h.queue.atts ≡ []) }
{
    let queue = first_queue(alloc, sessions)?;
    let Ok(store) = first_store(alloc, sessions) else {
        drop(queue);
        return Err(NoMemory);
    };
    Ok(Hub {
        alloc,
        store,
        queue,
    })
}

/// The world as it opens.
pub fn first_state(alloc: Global, o: &Opening) -> Result<WorldState, NoMemory>
    requires { Fits o.now }
    ensures world { IfOk result (λ m. world_of o.now m ≡ opened_world o.now) }
    ensures kept { IfOk result (λ m. Keeps o.now m) }
{
    let twins = first_twins(alloc, o.sessions.len())?;
    let Ok(hub) = first_hub(alloc, o.sessions.as_slice()) else {
        drop(twins);
        return Err(NoMemory);
    };
    Ok(WorldState {
        hub,
        journal: Vec::new(alloc),
        marks: 0,
        stops: Vec::new(alloc),
        twins,
    })
}
