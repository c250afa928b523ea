//! What an object holds, once more. Lists and objects of data are shared, so that these take next to no memory.

ghost use Rattle.std.specs.Prelude.{◌≡◌, IfOk};

use fanin_bitmap::Bitmap;
use std::alloc::Global;
use unum_json::{Items, Json, NoMemory, copy, copy_outcome};
use world_types::{Held, Kept, Used};

/// Data that a state was entered with, and how often each of its retriers was taken.
fn copy_data(alloc: Global, raw: &Json, used: &Used) -> Result<(Json, Used), NoMemory>
    ensures { IfOk result (λ made. made ≡ (raw.now, used.now)) }
{
    let used = Items::from_slice(alloc, used.as_slice())?;
    match copy(alloc, raw) {
        Ok(raw) => Ok((raw, used)),
        Err(NoMemory) => {
            drop(used);
            Err(NoMemory)
        }
    }
}

/// An equal checkpoint.
pub fn copy_kept(alloc: Global, kept: &Kept) -> Result<Kept, NoMemory>
    ensures { IfOk result (λ made. made ≡ kept.now) }
{
    let answer = copy_outcome(alloc, &kept.answer)?;
    match copy_data(alloc, &kept.raw, &kept.used) {
        Ok((raw, used)) => Ok(Kept {
            raw,
            used,
            answer,
            ticket: kept.ticket,
            count: kept.count,
        }),
        Err(NoMemory) => {
            drop(answer);
            Err(NoMemory)
        }
    }
}

/// An equal content of an object.
pub fn copy_held(alloc: Global, held: &Held<Bitmap>) -> Result<Held<Bitmap>, NoMemory>
    ensures { IfOk result (λ made. made ≡ held.now) }
{
    match held {
        Held::Saved { count, raw, used } => {
            let (raw, used) = copy_data(alloc, raw, used)?;
            Ok(Held::Saved {
                count: *count,
                raw,
                used,
            })
        }
        Held::Arg { raw, used } => {
            let (raw, used) = copy_data(alloc, raw, used)?;
            Ok(Held::Arg { raw, used })
        }
        Held::Kept(kept) => Ok(Held::Kept(copy_kept(alloc, kept)?)),
        Held::Outcome(outcome) => Ok(Held::Outcome(copy_outcome(alloc, outcome)?)),
        Held::Bits(bits) => Ok(Held::Bits(bits.copy())),
    }
}
