//! What a plan of mishaps says of an attempt, and which event it takes.
ghost use Rattle.std.specs.Prelude.{◌≡◌, ◌<◌, ◌≤◌, ◌*◌, ◌+◌, ◌%◌, nat_lt, true, false, slice_get};
ghost use Rattle.std.specs.List.Sorted.{IsPartitionPoint};
ghost use Rattle.world_plans.specs.declared.planning.Mishap.{Mishap};
ghost use Rattle.world_plans.specs.Plans.{draw, script_step, has_number, crash_step, twin, pick};
ghost use Rattle.world_plans.specs.Chooser.{is_step, twin_of, wants_twin};
ghost use Rattle.world_model.specs.AnyCode.World.{state_lets};
ghost use Rattle.invoke_queue.specs.Plans.{IsRisingBy, IsRisingPlan};

use crate::queue::Queue;
use crate::states::is_deliverable;
use world_plans::{Mishap, Plan};

/// A number below 65,521 that looks random.
#[tactic(auto, unfolding(world_plans::specs::Plans::draw))]
fn draw(seed: u32, n: u64, k: u32) -> u64
    ensures value { result ≡ draw seed n k }
    ensures small { result < 65521 }
{
    let sum = u128::from(seed) * 40503 + u128::from(n) * 9973 + u128::from(k) * 30011 + 1;
    let x = (sum % 65521) as u64;
    (x * x * x + x) % 65521
}

/// How many mishaps are of attempts before that one.
fn mishaps_before(script: &[Mishap], attempt: u32) -> usize
    requires { IsRisingBy (λ (m : Mishap). m.attempt) script.now }
    ensures { IsPartitionPoint (λ (m : Mishap). nat_lt m.attempt attempt ≡ true) (λ m. nat_lt m.attempt attempt ≡ false) script.now result }
{
    script.partition_point(
        |m: &Mishap| -> bool
            ensures { result ≡ nat_lt m.now.attempt attempt }
        { m.attempt < attempt },
    )
}

/// The step that a script gives for an attempt.
fn scripted(script: &[Mishap], attempt: u32) -> Option<u32>
    requires { IsRisingBy (λ (m : Mishap). m.attempt) script.now }
    ensures { result ≡ script_step attempt script.now }
{
    match script.get(mishaps_before(script, attempt)) {
        Some(mishap) => {
            if mishap.attempt == attempt {
                Some(mishap.step)
            } else {
                None
            }
        }
        None => None,
    }
}

/// Whether a rising list has a number.
fn is_listed(numbers: &[u32], number: u32) -> bool
    requires { IsRisingBy (λ n. n) numbers.now }
    ensures { result ≡ has_number number numbers.now }
{
    numbers.binary_search(&number).is_ok()
}

/// After how many steps an attempt is to crash: by the script, and else by the rate of crashes.
pub fn crash_step(plan: &Plan, attempt: u32) -> Option<u32>
    requires { IsRisingPlan plan.now }
    ensures { result ≡ crash_step plan.now attempt }
{
    if let Some(step) = scripted(plan.script.as_slice(), attempt) {
        return Some(step);
    }
    if draw(plan.seed, u64::from(attempt), 1) % 1000 < u64::from(plan.crash) {
        Some((draw(plan.seed, u64::from(attempt), 2) % 12) as u32)
    } else {
        None
    }
}

/// Whether the invocation of an attempt is to be delivered again while that attempt lives.
pub fn twin(plan: &Plan, attempt: u32) -> bool
    requires { IsRisingPlan plan.now }
    ensures { result ≡ twin plan.now attempt }
{
    is_listed(plan.twins.as_slice(), attempt)
        || draw(plan.seed, u64::from(attempt), 3) % 1000 < u64::from(plan.repeat)
}

/// Whether an attempt that made so many steps is to crash now.
pub fn is_crash_due(plan: &Plan, attempt: u32, steps: u32) -> bool
    requires { IsRisingPlan plan.now }
    ensures { result ≡ is_step (crash_step plan.now attempt) steps }
{
    match crash_step(plan, attempt) {
        Some(step) => step == steps,
        None => false,
    }
}

/// Whether an attempt lives and is to have a twin.
fn has_twin(plan: &Plan, queue: &Queue, attempt: Option<u32>) -> bool
    requires { IsRisingPlan plan.now }
    ensures { result ≡ twin_of plan.now queue.now.atts attempt }
{
    match attempt {
        Some(number) => queue.lives(number) && twin(plan, number),
        None => false,
    }
}

/// Whether an invocation is to be delivered beside its one live attempt: that one is its latest, and is to have a twin.
pub fn wants_twin(plan: &Plan, queue: &Queue, inv: u32) -> bool
    requires { IsRisingPlan plan.now }
    ensures { result ≡ state_lets (wants_twin plan.now queue.now.atts inv) (slice_get queue.now.states inv) }
{
    match queue.state(inv) {
        Some(s) => {
            is_deliverable(&s) && s.live == 1 && has_twin(plan, queue, queue.latest_of(inv))
        }
        None => false,
    }
}

/// Which of `of` events is taken, where the history has the length `len`.
pub fn pick(plan: &Plan, len: u64, of: u64) -> u64
    requires { 1 ≤ of }
    ensures pick { result ≡ pick plan.now len of }
    ensures within { result < of }
{
    if plan.seed == 0 {
        0
    } else {
        draw(plan.seed, len, 0) % of
    }
}
