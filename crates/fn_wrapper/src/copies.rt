//! Equal copies of what objects hold.
ghost use Rattle.std.specs.Prelude.{◌≡◌, IfOk};

use std::alloc::Global;
use unum_json::{Items, NoMemory, Outcome, copy, copy_outcome};
use world_types::{Kept, Used};

/// An equal used list.
pub fn copy_used(alloc: Global, used: &Used) -> Result<Used, NoMemory>
    ensures { IfOk result (λ u. u ≡ used.now) }
{
    Items::from_slice(alloc, used.as_slice())
}

/// An equal checkpoint.
pub fn copy_kept(alloc: Global, kept: &Kept) -> Result<Kept, NoMemory>
    ensures { IfOk result (λ k. k ≡ kept.now) }
{
    let raw = copy(alloc, &kept.raw)?;
    let used = copy_used(alloc, &kept.used)?;
    let answer = copy_outcome(alloc, &kept.answer)?;
    Ok(Kept {
        raw,
        used,
        answer,
        ticket: kept.ticket,
        count: kept.count,
    })
}

/// Equal outcomes.
pub fn copy_outcomes(alloc: Global, outcomes: &[Outcome]) -> Result<Items<Outcome>, NoMemory>
    ensures { IfOk result (λ copies. copies ≡ outcomes.now) }
{
    let mut copies = Items::new(alloc);
    for outcome in outcomes {
        copies.push(copy_outcome(alloc, outcome)?)?;
    }
    Ok(copies)
}
