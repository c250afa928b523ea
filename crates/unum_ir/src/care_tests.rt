//! What the operation of a node in a well formed flat form has: its parts, its retriers and catchers, its limit.
//!
//! Source: Amazon States Language, "Choice State", "Parallel State", "Map State" and "Errors".

ghost use Rattle.std.specs.Prelude.{◌≡◌, not, map};
ghost use Rattle.std.specs.List.{list_all};
ghost use Rattle.asl_model.specs.Valid.{has_bad_errors};
ghost use Rattle.unum_ir.specs.Flat.{catcher_of, care_of};
ghost use Rattle.unum_ir.specs.WellFormed.{has_parts, is_bad_care, is_well_made, ops_fit};
ghost use Rattle.unum_ir.specs.Forming.{catcher_errors};

use crate::ir::{Ir, NodeCare, NodeCatcher, Op};
use asl_valid::{has_bad_attempts, has_bad_retry, is_bad_list};
use unum_json::Items;

/// The most iterations of a Map that run at once.
const MOST_AT_ONCE: u32 = 1_000_000;

/// Whether the error names of catchers are not as they should be.
fn has_bad_catch(catchers: &Items<NodeCatcher>) -> bool
    ensures { result ≡ has_bad_errors (catcher_errors catchers.now) }
{
    for (i, catcher) in catchers.as_slice().iter().enumerate() {
        if is_bad_list(&catcher.errors, i + 1 < catchers.len()) {
            return true;
        }
    }
    false
}

/// Whether retriers and catchers break the rule of theirs.
fn is_bad_care(care: &NodeCare) -> bool
    ensures { result ≡ is_bad_care (care_of care.now) }
{
    has_bad_retry(&care.retry)
        || has_bad_catch(&care.catch)
        || has_bad_attempts(&care.retry)
        || care.retry.len() > 16
        || care.catch.len() > 16
}

/// Whether a choice has a rule, and a parallel 1 to 100 scopes.
fn has_parts(op: &Op) -> bool
    ensures { result ≡ has_parts op.now }
{
    match op {
        Op::Choice { rules, .. } => !rules.is_empty(),
        Op::Parallel { scopes, .. } => !scopes.is_empty() && scopes.len() <= 100,
        _ => true,
    }
}

/// Whether an operation has its parts, care as it may be, and no greater limit than a million.
fn is_well_made(op: &Op) -> bool
    ensures { result ≡ is_well_made op.now }
{
    match op {
        Op::Task { care, .. } => !is_bad_care(care),
        Op::Parallel { care, .. } => has_parts(op) && !is_bad_care(care),
        Op::Map { care, limit, .. } => !is_bad_care(care) && *limit <= MOST_AT_ONCE,
        _ => has_parts(op),
    }
}

/// Whether each node's operation is well made.
pub fn ops_fit(ir: &Ir) -> bool
    ensures { result ≡ ops_fit ir.now }
{
    ir.nodes
        .as_slice()
        .iter()
        .all(|node| is_well_made(&node.op))
}
