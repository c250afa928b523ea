//! The check of a machine.

ghost use Rattle.std.specs.Prelude.{◌≡◌, [], IfErr, IfOk, OnOk, map};
ghost use Rattle.asl_model.specs.Blocks.{nested};
ghost use Rattle.asl_model.specs.Tree.{tree_of};
ghost use Rattle.asl_model.specs.Valid.{broken};
ghost use Rattle.asl_valid.specs.Checked.{Tells};
ghost use Rattle.asl_valid.specs.Levels.{levels_of, with_room};

use crate::levels::{Level, levels_of};
use crate::noting::{note_count, note_rules, note_shared, note_starts};
use asl_model::{BrokenRule, Machine, VRule};
use std::alloc::Global;
use unum_json::{Items, NoMemory};

/// Why a machine was not found valid.
#[derive(Debug, Drop)]
pub enum CheckError {
    /// All broken rules with the states that break them, of which there is one at least: by rule, then by block, then by
    /// the names' bytes.
    Broken(Items<BrokenRule>),
    /// Memory ran out.
    NoMemory,
}

/// Adds all pairs of rule and state that a machine breaks. The levels are its blocks.
fn note_all(
    alloc: Global,
    machine: &Machine,
    levels: &[Level<'_>],
    found: &mut Items<BrokenRule>,
) -> Result<(), NoMemory>
    requires levels { levels_of levels.now ≡ map with_room (nested (tree_of machine.now)) }
    requires none_yet { found.old ≡ [] }
    ensures { OnOk result (found.new ≡ broken (tree_of machine.now)) }
{
    note_starts(alloc, levels, found)?;
    note_rules(alloc, &[VRule::V2], levels, found)?;
    note_shared(alloc, levels, found)?;
    note_rules(
        alloc,
        &[VRule::V4, VRule::V5, VRule::V6, VRule::V7, VRule::V8],
        levels,
        found,
    )?;
    note_count(alloc, machine, found)?;
    note_rules(alloc, &[VRule::V10, VRule::V11], levels, found)
}

/// All pairs of rule and state that a machine breaks.
fn broken_rules(alloc: Global, machine: &Machine) -> Result<Items<BrokenRule>, NoMemory>
    ensures { IfOk result (λ found. found ≡ broken (tree_of machine.now)) }
{
    let levels = levels_of(alloc, machine)?;
    let mut found = Items::new(alloc);
    note_all(alloc, machine, levels.as_slice(), &mut found)?;
    Ok(found)
}

/// Whether a machine is valid: `Ok` exactly where it breaks no rule, and else all rules that it breaks, or want of memory.
///
/// Source: Amazon States Language, "Structure of a State Machine", "States", "Transitions" and "Errors".
pub fn check(alloc: Global, machine: &Machine) -> Result<(), CheckError>
    ensures ok { OnOk result (broken (tree_of machine.now) ≡ []) }
    ensures err { IfErr result (Tells (tree_of machine.now)) }
{
    match broken_rules(alloc, machine) {
        Err(_) => Err(CheckError::NoMemory),
        Ok(found) if found.is_empty() => Ok(()),
        Ok(found) => Err(CheckError::Broken(found)),
    }
}
