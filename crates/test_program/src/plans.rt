//! Cases of plans.

ghost use Rattle.invoke_queue.specs.Plans.{IsRisingPlan};

use crate::fault::Fault;
use crate::given::{number, parted, tell};
use invoke_queue::{crash_step, pick, twin};
use std::alloc::Global;
use unum_cli::read_bundle;
use world_plans::Plan;

fn tell_pick(out: &mut String, plan: &Plan, part: &str, rest: &str) -> Result<(), Fault>
    requires { IsRisingPlan plan.now }
{
    let (length, of) = parted(rest, " ")?;
    let (length, of) = (number(length)?, number(of)?);
    if of == 0 {
        return Err(Fault::NotRead);
    }
    tell(out, part, &pick(plan, u64::from(length), u64::from(of)))
}

fn tell_part(out: &mut String, plan: &Plan, part: &str) -> Result<(), Fault>
    requires { IsRisingPlan plan.now }
{
    let (word, rest) = parted(part, " ")?;
    match word {
        "step" => tell(out, part, &crash_step(plan, number(rest)?)),
        "twin" => tell(out, part, &twin(plan, number(rest)?)),
        "pick" => tell_pick(out, plan, part, rest),
        _ => Err(Fault::NotRead),
    }
}

fn tell_all(out: &mut String, plan: &Plan, parts: &str) -> Result<(), Fault>
    requires { IsRisingPlan plan.now }
{
    for part in parts.split('|') {
        tell_part(out, plan, part.trim())?;
    }
    Ok(())
}

/// What the plan of a bundle says.
pub fn plan(alloc: Global, out: &mut String, bytes: &[u8], rest: &str) -> Result<(), Fault> {
    let Ok(bundle) = read_bundle(alloc, bytes) else {
        return Err(Fault::NotRead);
    };
    let told = tell_all(out, bundle.plan(), rest);
    drop(bundle);
    told
}
