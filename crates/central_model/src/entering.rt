//! A state that a scope enters.

ghost use Rattle.std.specs.Prelude.{◌≡◌, ◌<◌, None, IfOk, MatchOption};
ghost use Rattle.place_name.specs.declared.limits.TheConstants.{HOPS as MOST_HOPS};
ghost use Rattle.asl_model.specs.Central.{used_by};
ghost use Rattle.asl_model.specs.Data.{failure, no_state_error};
ghost use Rattle.asl_model.specs.Head.{zeros};
ghost use Rattle.asl_model.specs.Machine.{state_of};
ghost use Rattle.asl_model.specs.Step.{Ends, standard};
ghost use Rattle.asl_model.specs.Tree.{block_tree, state_tree};
ghost use Rattle.central_model.specs.Views.{onward_of};
ghost use Rattle.central_model.specs.Walked.{IsEntry};

use crate::finishing::parts_of;
use crate::onward::{Onward, Used};
use asl_model::{Block, Retrier, State};
use place_name::{Place, Scope};
use std::alloc::Global;
use unum_ir::failure;
use unum_json::{Items, Json, NoMemory, Text};

/// A state that a scope entered, with its raw data and its list used.
#[derive(Drop)]
pub struct Entry<'m> {
    /// The name of the state.
    pub name: &'m Text,
    /// The state.
    pub state: &'m State,
    /// Where it is entered.
    pub place: Place,
    /// Its raw data.
    pub raw: Json,
    /// How often each of its retriers was taken so far.
    pub used: Used,
}

/// A 0 for each retrier.
fn zeros(alloc: Global, retriers: &Items<Retrier>) -> Result<Used, NoMemory>
    ensures { IfOk result (λ used. used ≡ zeros retriers.now) }
{
    let mut used = Items::new(alloc);
    for _retrier in retriers.as_slice() {
        used.push(0)?;
    }
    Ok(used)
}

/// The list of a state's entry: at a retry the one that is handed on, and else a new one.
fn used_by(alloc: Global, state: &State, again: Option<Used>) -> Result<Used, NoMemory>
    ensures { IfOk result (λ used. used ≡ used_by standard (state_tree state.now) again) }
{
    if let Some(used) = again {
        return Ok(used);
    }
    match parts_of(state) {
        None => Ok(Items::new(alloc)),
        Some(parts) => zeros(alloc, &parts.care.retry),
    }
}

/// The end of a scope that would enter a state which its block does not have. No valid machine comes to it.
#[tactic(auto, unfolding(asl_model::specs::Data::no_state_error))]
pub fn astray<'m>(alloc: Global, name: &Text) -> Result<Onward<'m>, NoMemory>
    ensures { IfOk result (λ o. onward_of o ≡ Ends (failure no_state_error name.now)) }
{
    Ok(Onward::Ends(failure(alloc, "no such state", name.as_str())?))
}

/// The state of that name, entered at that hop of a scope. `None` comes exactly where the block has none.
pub fn entered<'m>(
    alloc: Global,
    block: &'m Block,
    at: &Scope,
    name: &'m Text,
    hop: u32,
    raw: Json,
    again: Option<Used>,
) -> Result<Option<Entry<'m>>, NoMemory>
    requires { hop < MOST_HOPS }
    ensures { IfOk result (λ found. MatchOption found (state_of (block_tree block.now) name.now ≡ None) (IsEntry (block_tree block.now) at.now name.now hop raw again)) }
{
    let Some(state) = block.state(name.as_bytes()) else {
        drop(again);
        drop(raw);
        return Ok(None);
    };
    let Ok(used) = used_by(alloc, state, again) else {
        drop(raw);
        return Err(NoMemory);
    };
    let place = Place {
        session: at.session,
        trail: at.trail,
        hop,
    };
    Ok(Some(Entry {
        name,
        state,
        place,
        raw,
        used,
    }))
}
