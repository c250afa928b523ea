//! The blocks that names stand in.

ghost use Rattle.std.specs.Prelude.{◌≡◌, ℕ, IfOk, List, OnOk, None, Some, map, cond};
ghost use Rattle.std.specs.Str.{bytes_eq};
ghost use Rattle.asl_model.specs.Tree.{block_tree};
ghost use Rattle.asl_model.specs.Valid.{has_state};
ghost use Rattle.asl_valid.specs.Homes.{home_in, homes_among, is_shared, moved};
ghost use Rattle.asl_valid.specs.Levels.{levels_of};

use crate::levels::Level;
use asl_model::Block;
use std::alloc::Global;
use std::collections::BTreeMap;
use unum_json::{NoMemory, Text};

/// The first and the last block that a name stands in.
#[derive(Clone, Copy)]
pub struct Home {
    /// The index of the first block, in the order of blocks.
    pub first: usize,
    /// The index of the last block.
    pub last: usize,
}

/// The first block that a name stands in, where it stands in the one with this index.
fn first_of<'m>(homes: &BTreeMap<&'m str, Home>, name: &'m str, at: usize) -> usize
    ensures { result ≡ (moved (home_in homes.now name.now) at).first }
{
    match homes.get(name) {
        Some(home) => home.first,
        None => at,
    }
}

/// Notes that a name stands in the block with this index.
fn note_name<'m>(
    homes: &mut BTreeMap<&'m str, Home>,
    name: &'m Text,
    at: usize,
) -> Result<(), NoMemory>
    ensures { OnOk result ((q : List ℕ) → home_in homes.new q ≡ cond (bytes_eq name.now q) (Some (moved (home_in homes.old q) at)) (home_in homes.old q)) }
{
    let name = name.as_str();
    let first = first_of(homes, name, at);
    homes.insert(name, Home { first, last: at })?;
    Ok(())
}

/// Notes the names of the block with this index.
fn note_names<'m>(
    homes: &mut BTreeMap<&'m str, Home>,
    block: &'m Block,
    at: usize,
) -> Result<(), NoMemory>
    ensures { OnOk result ((q : List ℕ) → home_in homes.new q ≡ cond (has_state (block_tree block.now) q) (Some (moved (home_in homes.old q) at)) (home_in homes.old q)) }
{
    for row in block.states.as_slice() {
        note_name(homes, &row.0, at)?;
    }
    Ok(())
}

/// Where the names of these blocks stand.
pub fn homes_of<'m>(
    alloc: Global,
    levels: &[Level<'m>],
) -> Result<BTreeMap<&'m str, Home>, NoMemory>
    ensures { IfOk result (λ homes. (q : List ℕ) → home_in homes q ≡ homes_among q 0 None (levels_of levels.now)) }
{
    let mut homes = BTreeMap::new(alloc);
    for (at, level) in levels.iter().enumerate() {
        note_names(&mut homes, level.block, at)?;
    }
    Ok(homes)
}

/// Whether a name stands first in the block with this index, and again in a later one.
pub fn is_shared<'m>(homes: &BTreeMap<&'m str, Home>, name: &'m Text, at: usize) -> bool
    ensures { result ≡ is_shared (home_in homes.now name.now) at }
{
    match homes.get(name.as_str()) {
        Some(home) => home.first == at && at < home.last,
        None => false,
    }
}
