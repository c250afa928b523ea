//! How the scopes of a well formed flat form stand: their order, their depth, and the fans that hold them.
//!
//! Source: Amazon States Language, "Parallel State" and "Map State".

ghost use Rattle.std.specs.Prelude.{◌≡◌, slice_get, Some};
ghost use Rattle.std.specs.Option.{option_copied};
ghost use Rattle.std.specs.List.{list_all};
ghost use Rattle.unum_ir.specs.Flat.{Node as NodeSeen, func_of};
ghost use Rattle.unum_ir.specs.WellFormed.{has_parent, scopes_of, each, scopes_below, scopes_follow, parents_fit};
ghost use Rattle.unum_ir.specs.Forming.{counted_up};

use crate::ir::{Ir, Node, Op, Scope};

/// How deep a scope may stand.
const MOST_DEEP: u32 = 8;

/// Whether there is a scope, and this is its parent.
fn has_parent(parent: Option<u32>, scope: Option<&Scope>) -> bool
    ensures { result ≡ has_parent parent (option_copied scope.entry) }
{
    let Some(scope) = scope else {
        return false;
    };
    match (scope.parent, parent) {
        (None, None) => true,
        (Some(held), Some(parent)) => held == parent,
        _ => false,
    }
}

/// Whether there is a scope with that number, and a fan's function is its parent.
fn is_held(ir: &Ir, func: u32, scope: u32) -> bool
    ensures { result ≡ has_parent (Some func) (slice_get ir.now.scopes scope) }
{
    has_parent(Some(func), ir.scopes.get(scope as usize))
}

/// Whether the scopes that a node holds have its function as parent.
fn holds_own(ir: &Ir, node: &Node) -> bool
    ensures { result ≡ list_all (λ k. has_parent (func_of node.now.op) (slice_get ir.now.scopes k)) (scopes_of node.now.op) }
{
    match &node.op {
        Op::Parallel { func, scopes, .. } => scopes
            .as_slice()
            .iter()
            .all(|scope| is_held(ir, *func, *scope)),
        Op::Map { func, scope, .. } => is_held(ir, *func, *scope),
        _ => true,
    }
}

/// Whether each scope that a fan holds has the fan's function as parent.
fn are_held(ir: &Ir) -> bool
    ensures { result ≡ list_all (λ (n : NodeSeen). list_all (λ k. has_parent (func_of n.op) (slice_get ir.now.scopes k)) (scopes_of n.op)) ir.now.nodes }
{
    ir.nodes.as_slice().iter().all(|node| holds_own(ir, node))
}

/// Whether the first scope has no parent, and each other one the function of the fan that holds it.
pub fn parents_fit(ir: &Ir) -> bool
    ensures { result ≡ parents_fit ir.now }
{
    has_parent(None, ir.scopes.get(0)) && are_held(ir)
}

/// Counts a scope, and then those that it holds, each followed by its own, down to that depth. The result is the number after
/// them, and `None` where they do not count up from `at` on.
#[cycle(scopes)]
fn count_scope(nodes: &[Node], depth: u32, scope: u32, at: usize, bound: usize) -> Option<usize>
    ensures { result ≡ counted_up bound at (scopes_below depth nodes.now scope) }
{
    if depth == 0 {
        return Some(at);
    }
    if scope as usize != at || at >= bound {
        return None;
    }
    let mut next = at + 1;
    for node in nodes {
        if node.scope == scope {
            next = count_held(nodes, depth - 1, &node.op, next, bound)?;
        }
    }
    Some(next)
}

/// The same of the scopes that a node holds.
#[cycle(scopes)]
fn count_held(nodes: &[Node], depth: u32, op: &Op, at: usize, bound: usize) -> Option<usize>
    ensures { result ≡ counted_up bound at (each (scopes_below depth nodes.now) (scopes_of op.now)) }
{
    match op {
        Op::Parallel { scopes, .. } => count_each(nodes, depth, scopes.as_slice(), at, bound),
        Op::Map { scope, .. } => count_scope(nodes, depth, *scope, at, bound),
        _ => Some(at),
    }
}

/// The same of these scopes.
#[cycle(scopes)]
fn count_each(nodes: &[Node], depth: u32, scopes: &[u32], at: usize, bound: usize) -> Option<usize>
    ensures { result ≡ counted_up bound at (each (scopes_below depth nodes.now) scopes.now) }
{
    let mut next = at;
    for scope in scopes {
        next = count_scope(nodes, depth, *scope, next, bound)?;
    }
    Some(next)
}

/// Whether scopes are met in their order: each but the first is held, once, and none is deeper than 8.
pub fn scopes_follow(ir: &Ir) -> bool
    ensures { result ≡ scopes_follow ir.now }
{
    let bound = ir.scopes.len();
    match count_scope(ir.nodes.as_slice(), MOST_DEEP, 0, 0, bound) {
        Some(end) => end == bound,
        None => false,
    }
}
