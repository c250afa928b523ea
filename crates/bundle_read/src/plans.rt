//! The numbers of a plan.

ghost use Rattle.std.specs.Prelude.{◌≡◌, ◌+◌, ◌++◌, codes, map, IfOk};
ghost use Rattle.bundle_read.specs.Accepted.{mishap_of, plan_of};
ghost use Rattle.bundle_read.specs.Bounds.{next_low, wild_if, wild_item, wild_plan, wild_script, wild_twin, wild_twins};
ghost use Rattle.bundle_read.specs.Checked.{Checks, Makes};

use crate::bounds::broken;
use crate::draft::DraftPlan;
use crate::refusal::{BRule, BundleError};
use std::alloc::Global;
use unum_json::{Items, NoMemory};
use world_plans::{Mishap, Plan};

/// Attempts are below this number.
const ATTEMPTS: u32 = 10_000_000;

/// Refuses a number under a key of the plan that is above the highest.
fn check_number(alloc: Global, key: &str, high: u32, number: u32) -> Result<(), BundleError>
    ensures { Checks result (wild_if 0 high number (codes "/plan/" ++ key.now)) }
{
    if number <= high {
        return Ok(());
    }
    Err(broken(BRule::B5, format!(in alloc; "/plan/{key}")?)?)
}

/// Refuses an item of the script, or tells the lowest attempt after it.
fn check_item(alloc: Global, low: u32, number: usize, item: &[u32]) -> Result<u32, BundleError>
    ensures { Makes result (wild_item low number item.now) (next_low low item.now) }
{
    let [attempt, step] = item else {
        return Err(broken(BRule::B5, format!(in alloc; "/plan/script/{number}")?)?);
    };
    if !(low <= *attempt && *attempt < ATTEMPTS) {
        return Err(broken(BRule::B5, format!(in alloc; "/plan/script/{number}/0")?)?);
    }
    if *step >= 100_000 {
        return Err(broken(BRule::B5, format!(in alloc; "/plan/script/{number}/1")?)?);
    }
    Ok(*attempt + 1)
}

/// Refuses the first crash that is out of range, or whose attempt is not above the one before it.
fn check_script(alloc: Global, script: &[Items<u32>]) -> Result<(), BundleError>
    ensures { Checks result (wild_script 0 0 script.now) }
{
    let mut low = 0;
    for (i, item) in script.iter().enumerate() {
        low = check_item(alloc, low, i, item.as_slice())?;
    }
    Ok(())
}

/// Refuses an attempt of the list of twins, or tells the lowest attempt after it.
fn check_twin(alloc: Global, low: u32, number: usize, attempt: u32) -> Result<u32, BundleError>
    ensures { Makes result (wild_twin low number attempt) (attempt + 1) }
{
    if low <= attempt && attempt < ATTEMPTS {
        return Ok(attempt + 1);
    }
    Err(broken(BRule::B5, format!(in alloc; "/plan/twins/{number}")?)?)
}

/// Refuses the first attempt that is out of range or not above the one before it.
fn check_twins(alloc: Global, twins: &[u32]) -> Result<(), BundleError>
    ensures { Checks result (wild_twins 0 0 twins.now) }
{
    let mut low = 0;
    for (i, attempt) in twins.iter().enumerate() {
        low = check_twin(alloc, low, i, *attempt)?;
    }
    Ok(())
}

/// Refuses the first number of a plan that is out of range.
pub fn check_plan(alloc: Global, plan: &DraftPlan) -> Result<(), BundleError>
    ensures { Checks result (wild_plan plan.now) }
{
    check_number(alloc, "crash", 1000, plan.crash)?;
    check_number(alloc, "repeat", 1000, plan.repeat)?;
    check_script(alloc, plan.script.as_slice())?;
    check_number(alloc, "seed", 65_535, plan.seed)?;
    check_twins(alloc, plan.twins.as_slice())
}

/// A crash of the script.
fn mishap_of(item: &[u32]) -> Mishap
    ensures { result ≡ mishap_of item.now }
{
    match item {
        [attempt, step] => Mishap {
            attempt: *attempt,
            step: *step,
        },
        _ => Mishap {
            attempt: 0,
            step: 0,
        },
    }
}

fn mishaps_of(alloc: Global, script: &[Items<u32>]) -> Result<Items<Mishap>, NoMemory>
    ensures { IfOk result (λ ms. ms ≡ map mishap_of script.now) }
{
    let mut mishaps = Items::new(alloc);
    for item in script {
        mishaps.push(mishap_of(item.as_slice()))?;
    }
    Ok(mishaps)
}

/// The plan that the numbers are.
pub fn plan_of(alloc: Global, plan: DraftPlan) -> Result<Plan, NoMemory>
    ensures { IfOk result (λ p. p ≡ plan_of plan) }
{
    let DraftPlan {
        crash,
        repeat,
        script,
        seed,
        twins,
    } = plan;
    let script = mishaps_of(alloc, script.as_slice())?;
    Ok(Plan {
        seed,
        crash,
        repeat,
        script,
        twins,
    })
}
