//! Where the scope of an instance stops after its answer.
ghost use Rattle.std.specs.Prelude.{◌≡◌, IfOk, map};
ghost use Rattle.world_model.specs.AnyCode.Acts.{stop_of};
ghost use Rattle.continuation_gen.specs.Tables.{Child};
ghost use Rattle.continuation_gen.specs.Coded.{bare_stop, code_of_ir};

use std::alloc::Global;
use unum_ir::{Child, Ir, Stop as FlatStop, resume};
use unum_json::{Items, NoMemory};
use world_types::{Invocation, Kept, Stop};

/// The Enters of a fan's branches.
fn enters_of(alloc: Global, children: &[Child]) -> Result<Items<u32>, NoMemory>
    ensures { IfOk result (λ enters. enters ≡ map (λ (c : Child). c.func) children.now) }
{
    let mut enters = Items::new(alloc);
    for child in children {
        enters.push(child.func)?;
    }
    Ok(enters)
}

/// The same stop by functions alone: a branch's input is found again by its fan's raw data.
fn bare(alloc: Global, stop: FlatStop) -> Result<Stop<u32>, NoMemory>
    ensures { IfOk result (λ s. s ≡ bare_stop stop) }
{
    match stop {
        FlatStop::Call {
            func,
            hop,
            raw,
            used,
        } => Ok(Stop::Call {
            task: func,
            hop,
            raw,
            used,
        }),
        FlatStop::Fan {
            func,
            hop,
            raw,
            used,
            children,
        } => {
            let made = enters_of(alloc, children.as_slice());
            drop(children);
            let Ok(enters) = made else {
                drop(used);
                drop(raw);
                return Err(NoMemory);
            };
            Ok(Stop::Fan {
                join: func,
                hop,
                raw,
                used,
                enters,
            })
        }
        FlatStop::End(outcome) => Ok(Stop::Over(outcome)),
    }
}

/// Where the scope of an instance stops after the answer of its adopted checkpoint. It is found once for each answer, and all acts are
/// found by it.
///
/// The only error is want of memory.
///
/// Source: Amazon States Language, "Transitions" and "Errors".
pub fn stop_at(
    alloc: Global,
    ir: &Ir,
    invocation: &Invocation<u32>,
    kept: &Kept,
) -> Result<Stop<u32>, NoMemory>
    ensures { IfOk result (λ s. s ≡ stop_of (code_of_ir ir.now) invocation.now kept.now) }
{
    let hop = invocation.name.place.hop;
    let stop = resume(
        alloc,
        ir,
        invocation.site,
        hop,
        &kept.raw,
        &kept.used,
        &kept.answer,
    )?;
    bare(alloc, stop)
}
