//! How the nodes of a well formed flat form stand: their order, their names, and where they lead.
//!
//! Source: Amazon States Language, "Transitions".

ghost use Rattle.std.specs.Prelude.{◌≡◌, ◌++◌, not, nat_lt, map};
ghost use Rattle.std.specs.List.{list_all, list_any};
ghost use Rattle.asl_model.specs.Data.{same_text};
ghost use Rattle.asl_model.specs.Valid.{labels, catch_labels, one_or_none, is_misnamed};
ghost use Rattle.unum_ir.specs.Flat.{Node as NodeSeen, NodeRule as RuleSeen, NodeCatcher as CatcherSeen, care_of, head_of, node_at};
ghost use Rattle.unum_ir.specs.WellFormed.{is_node_in, is_before, are_in_order, nodes_follow, nexts_fit, starts_fit, are_apart, names_fit, name_of};

use crate::ir::{Ir, Node, NodeCare, NodeCatcher, NodeRule, Op};
use crate::walks::node_at;
use asl_valid::is_misnamed;
use std::cmp::Ordering;
use unum_json::{Items, Text};

/// Whether there is a node with that number, in that scope.
fn is_node_in(ir: &Ir, scope: usize, label: u32) -> bool
    ensures { result ≡ is_node_in scope (node_at ir.now label) }
{
    match node_at(ir, label) {
        Some(node) => node.scope as usize == scope,
        None => false,
    }
}

/// Whether each scope starts at a node of its own.
pub fn starts_fit(ir: &Ir) -> bool
    ensures { result ≡ starts_fit ir.now }
{
    for (i, scope) in ir.scopes.as_slice().iter().enumerate() {
        if !is_node_in(ir, i, scope.start) {
            return false;
        }
    }
    true
}

/// Whether a node stands before another: by scopes, and by names inside a scope.
fn is_before(first: &Node, second: &Node) -> bool
    ensures { result ≡ is_before first.now second.now }
{
    if first.scope != second.scope {
        return first.scope < second.scope;
    }
    match first.name.as_bytes().cmp(second.name.as_bytes()) {
        Ordering::Less => true,
        _ => false,
    }
}

/// Whether each node stands before the next.
fn are_in_order(nodes: &[Node]) -> bool
    ensures { result ≡ are_in_order nodes.now }
{
    for (i, node) in nodes.iter().enumerate() {
        if i + 1 < nodes.len() && !is_before(node, &nodes[i + 1]) {
            return false;
        }
    }
    true
}

/// Whether the scope of each node is there.
fn have_scopes(nodes: &[Node], scopes: usize) -> bool
    ensures { result ≡ list_all (λ (n : NodeSeen). nat_lt n.scope scopes) nodes.now }
{
    nodes.iter().all(|node| (node.scope as usize) < scopes)
}

/// Whether nodes stand scope by scope, by names inside a scope, and each scope is there.
pub fn nodes_follow(ir: &Ir) -> bool
    ensures { result ≡ nodes_follow ir.now }
{
    let nodes = ir.nodes.as_slice();
    are_in_order(nodes) && have_scopes(nodes, ir.scopes.len())
}

/// Whether one of these nodes has that name.
#[tactic(auto, unfolding(asl_model::specs::Data::same_text))]
fn is_taken(name: &Text, nodes: &[Node]) -> bool
    ensures { result ≡ list_any (same_text name.now) (map name_of nodes.now) }
{
    let wanted = name.as_bytes();
    for node in nodes {
        if wanted == node.name.as_bytes() {
            return true;
        }
    }
    false
}

/// Whether the names of nodes differ pairwise.
fn are_apart(nodes: &[Node]) -> bool
    ensures { result ≡ are_apart (map name_of nodes.now) }
{
    for (i, node) in nodes.iter().enumerate() {
        if is_taken(&node.name, &nodes[i + 1..]) {
            return false;
        }
    }
    true
}

/// Whether names have 1 to 80 characters.
fn are_named(nodes: &[Node]) -> bool
    ensures { result ≡ list_all (λ (n : NodeSeen). not (is_misnamed n.name)) nodes.now }
{
    nodes.iter().all(|node| !is_misnamed(&node.name))
}

/// Whether names differ pairwise, and have 1 to 80 characters.
pub fn names_fit(ir: &Ir) -> bool
    ensures { result ≡ names_fit ir.now }
{
    let nodes = ir.nodes.as_slice();
    are_apart(nodes) && are_named(nodes)
}

/// Whether a next is a node of that scope, or the end.
fn next_fits(ir: &Ir, scope: u32, next: Option<u32>) -> bool
    ensures { result ≡ list_all (λ l. is_node_in scope (node_at ir.now l)) (one_or_none next) }
{
    match next {
        Some(next) => is_node_in(ir, scope as usize, next),
        None => true,
    }
}

/// Whether each rule leads to a node of that scope.
fn rules_fit(ir: &Ir, scope: u32, rules: &Items<NodeRule>) -> bool
    ensures { result ≡ list_all (λ (r : RuleSeen). is_node_in scope (node_at ir.now r.next)) rules.now }
{
    rules
        .as_slice()
        .iter()
        .all(|rule| is_node_in(ir, scope as usize, rule.next))
}

/// Whether each catcher leads to a node of that scope.
fn catchers_fit(ir: &Ir, scope: u32, catchers: &Items<NodeCatcher>) -> bool
    ensures { result ≡ list_all (λ (c : CatcherSeen). is_node_in scope (node_at ir.now c.next)) catchers.now }
{
    catchers
        .as_slice()
        .iter()
        .all(|catcher| is_node_in(ir, scope as usize, catcher.next))
}

/// Whether the next and the catchers of a node lead to nodes of that scope alone.
fn cared_fits(ir: &Ir, scope: u32, next: Option<u32>, care: &NodeCare) -> bool
    ensures { result ≡ list_all (λ l. is_node_in scope (node_at ir.now l)) (one_or_none next ++ catch_labels (care_of care.now)) }
{
    next_fits(ir, scope, next) && catchers_fit(ir, scope, &care.catch)
}

/// Whether the rules and the default of a choice lead to nodes of that scope alone.
fn choice_fits(ir: &Ir, scope: u32, rules: &Items<NodeRule>, default: Option<u32>) -> bool
    ensures { result ≡ list_all (λ l. is_node_in scope (node_at ir.now l)) (map (λ (r : RuleSeen). r.next) rules.now ++ one_or_none default) }
{
    rules_fit(ir, scope, rules) && next_fits(ir, scope, default)
}

/// Whether a node leads to nodes of its scope alone.
fn node_fits(ir: &Ir, node: &Node) -> bool
    ensures { result ≡ list_all (λ l. is_node_in node.now.scope (node_at ir.now l)) (labels (head_of node.now.op)) }
{
    match &node.op {
        Op::Task { next, care, .. }
        | Op::Parallel { next, care, .. }
        | Op::Map { next, care, .. } => cared_fits(ir, node.scope, *next, care),
        Op::Pass { next, .. } => next_fits(ir, node.scope, *next),
        Op::Choice { rules, default, .. } => choice_fits(ir, node.scope, rules, *default),
        Op::Succeed { .. } | Op::Fail { .. } => true,
    }
}

/// Whether each node leads to nodes of its scope alone.
pub fn nexts_fit(ir: &Ir) -> bool
    ensures { result ≡ nexts_fit ir.now }
{
    ir.nodes.as_slice().iter().all(|node| node_fits(ir, node))
}
