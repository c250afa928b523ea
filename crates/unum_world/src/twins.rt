//! The invocations that are to have a twin.
ghost use Rattle.std.specs.Prelude.{◌≡◌, ◌<◌, ◌≤◌, OnOk};
ghost use Rattle.invoke_queue.specs.Plans.{IsRisingPlan};
ghost use Rattle.unum_world.specs.Kept.{twins_with};

use invoke_queue::{Numbers, Queue, wants_twin};
use unum_json::NoMemory;
use world_plans::Plan;

/// Puts an invocation in or out, by whether it is to have a twin now.
pub fn put_twin(plan: &Plan, queue: &Queue, twins: &mut Numbers, inv: u32)
    requires plan { IsRisingPlan plan.now }
    requires room { inv < twins.old.room }
    ensures { twins.new ≡ twins_with plan.now queue.now twins.old inv }
{
    let wants = wants_twin(plan, queue, inv);
    twins.put(inv, wants);
}

/// Makes room for one invocation more than there are, if there is none.
pub fn grow_twins(twins: &mut Numbers, invocations: usize) -> Result<(), NoMemory>
    requires within { invocations < 4294967295 }
    requires room { invocations ≤ twins.old.room }
    ensures numbers { twins.new.numbers ≡ twins.old.numbers }
    ensures kept { invocations ≤ twins.new.room }
    ensures room { OnOk result (invocations < twins.new.room) }
{
    if twins.room() == invocations {
        twins.grow()?;
    }
    Ok(())
}
