//! The pairs of rule and state that a machine breaks, rule by rule.

ghost use Rattle.std.specs.Prelude.{◌≡◌, ◌++◌, ◌∷◌, [], None, OnOk, flat_map, length, nat_lt};
ghost use Rattle.asl_model.specs.Blocks.{nodes};
ghost use Rattle.asl_model.specs.Machine.{start_of};
ghost use Rattle.asl_model.specs.Tree.{state_tree, tree_of};
ghost use Rattle.asl_model.specs.Valid.{broken_if, broken_in, names_rule};
ghost use Rattle.asl_model.specs.declared.validity.VRule.TheVariants.{V1, V3, V9};
ghost use Rattle.asl_valid.specs.Homes.{home_in, homes_among, is_shared, shared_among};
ghost use Rattle.asl_valid.specs.Levels.{level_of, levels_of};
ghost use Rattle.asl_valid.specs.Rules.{bad_start, breaks, pairs_in, pairs_of};

use crate::care::has_bad_care;
use crate::homes::{Home, homes_of, is_shared};
use crate::leading::{is_lost, is_unknown, lacks_after};
use crate::levels::Level;
use crate::naming::is_misnamed;
use crate::parts::{has_bad_branches, has_bad_limit, has_inner, lacks_choices};
use asl_model::{BrokenRule, Machine, State, VRule, count_states};
use std::alloc::Global;
use std::collections::BTreeMap;
use unum_json::{Items, NoMemory, Text, copy_text};

/// Whether a state breaks a rule. V1, V3 and V9 are not rules of one state.
fn breaks(rule: VRule, level: &Level<'_>, name: &Text, state: &State) -> bool
    ensures { result ≡ breaks rule (level_of level.now) (name.now, state_tree state.now) }
{
    match rule {
        VRule::V2 => is_lost(level.block, state),
        VRule::V4 => is_misnamed(name),
        VRule::V5 => lacks_after(state),
        VRule::V6 => lacks_choices(state),
        VRule::V7 => has_bad_branches(state),
        VRule::V8 => has_inner(state) && level.room == 0,
        VRule::V10 => has_bad_care(state),
        VRule::V11 => has_bad_limit(state),
        VRule::V1 | VRule::V3 | VRule::V9 => false,
    }
}

/// Adds one pair.
fn note(
    alloc: Global,
    rule: VRule,
    name: &Text,
    found: &mut Items<BrokenRule>,
) -> Result<(), NoMemory>
    ensures { OnOk result (found.new ≡ found.old ++ names_rule rule name.now ∷ []) }
{
    let state = copy_text(alloc, name)?;
    found.push(BrokenRule { rule, state })
}

/// Adds the pairs of a rule in one block.
fn note_block(
    alloc: Global,
    rule: VRule,
    level: &Level<'_>,
    found: &mut Items<BrokenRule>,
) -> Result<(), NoMemory>
    ensures { OnOk result (found.new ≡ found.old ++ pairs_in rule (level_of level.now)) }
{
    for row in level.block.states.as_slice() {
        if breaks(rule, level, &row.0, &row.1) {
            note(alloc, rule, &row.0, found)?;
        }
    }
    Ok(())
}

/// Adds the pairs of a rule.
fn note_rule(
    alloc: Global,
    rule: VRule,
    levels: &[Level<'_>],
    found: &mut Items<BrokenRule>,
) -> Result<(), NoMemory>
    ensures { OnOk result (found.new ≡ found.old ++ pairs_of (levels_of levels.now) rule) }
{
    for level in levels {
        note_block(alloc, rule, level, found)?;
    }
    Ok(())
}

/// Adds the pairs of some rules of one state.
pub fn note_rules(
    alloc: Global,
    rules: &[VRule],
    levels: &[Level<'_>],
    found: &mut Items<BrokenRule>,
) -> Result<(), NoMemory>
    ensures { OnOk result (found.new ≡ found.old ++ flat_map (pairs_of (levels_of levels.now)) rules.now) }
{
    for rule in rules {
        note_rule(alloc, *rule, levels, found)?;
    }
    Ok(())
}

/// Adds each StartAt that is no state of its block.
pub fn note_starts(
    alloc: Global,
    levels: &[Level<'_>],
    found: &mut Items<BrokenRule>,
) -> Result<(), NoMemory>
    ensures { OnOk result (found.new ≡ found.old ++ flat_map bad_start (levels_of levels.now)) }
{
    for level in levels {
        let start = &level.block.start;
        if is_unknown(level.block, start) {
            note(alloc, VRule::V1, start, found)?;
        }
    }
    Ok(())
}

/// Adds the names of the block with this index that stand first in it, and again in a later one.
fn note_shared_in<'m>(
    alloc: Global,
    homes: &BTreeMap<&'m str, Home>,
    level: &Level<'m>,
    at: usize,
    found: &mut Items<BrokenRule>,
) -> Result<(), NoMemory>
    ensures { OnOk result (found.new ≡ found.old ++ broken_in V3 (λ r. is_shared (home_in homes.now r.0) at) (level_of level.now).0) }
{
    for row in level.block.states.as_slice() {
        if is_shared(homes, &row.0, at) {
            note(alloc, VRule::V3, &row.0, found)?;
        }
    }
    Ok(())
}

/// Adds each name that stands in two blocks, at the first of them.
pub fn note_shared<'m>(
    alloc: Global,
    levels: &[Level<'m>],
    found: &mut Items<BrokenRule>,
) -> Result<(), NoMemory>
    ensures { OnOk result (found.new ≡ found.old ++ shared_among (λ q. homes_among q 0 None (levels_of levels.now)) 0 (levels_of levels.now)) }
{
    let homes = homes_of(alloc, levels)?;
    for (at, level) in levels.iter().enumerate() {
        note_shared_in(alloc, &homes, level, at, found)?;
    }
    Ok(())
}

/// Adds the root's StartAt if there are too many states.
pub fn note_count(
    alloc: Global,
    machine: &Machine,
    found: &mut Items<BrokenRule>,
) -> Result<(), NoMemory>
    ensures { OnOk result (found.new ≡ found.old ++ broken_if (nat_lt 1000 (length (nodes (tree_of machine.now)))) V9 (start_of (tree_of machine.now))) }
{
    if count_states(machine) > 1000 {
        note(alloc, VRule::V9, &machine.root.start, found)?;
    }
    Ok(())
}
