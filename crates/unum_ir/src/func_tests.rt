//! How the functions of a well formed flat form are numbered.

ghost use Rattle.std.specs.Prelude.{◌≡◌, ◌+◌, ◌<◌, ◌&&◌, ◌++◌, ◌∷◌, IsTrue, List, map, drop, length, option_map};
ghost use Rattle.asl_model.specs.Valid.{one_or_none};
ghost use Rattle.unum_ir.specs.Flat.{func_of};
ghost use Rattle.unum_ir.specs.Forming.{tag_view};
ghost use Rattle.unum_ir.specs.WellFormed.{Tag as TagSeen, tag_of, op_tag, same_tag, same_tags, same_numbers, enter_tags, tags_from, func_numbers, range, funcs_fit};

use crate::ir::{Func, Ir, Node, Op};

/// A function without its resource.
#[derive(Clone, Copy)]
pub enum Tag {
    /// The Enter of a scope.
    Enters { scope: usize },
    /// The Task of a node.
    Calls { node: usize },
    /// The Join of a fan's node.
    Joins { node: usize },
}

/// Whether this is the tag of a function.
fn fits(func: &Func, tag: Tag) -> bool
    ensures { result ≡ same_tag (tag_of func.now) (tag_view tag) }
{
    match (func, tag) {
        (Func::Enter { scope }, Tag::Enters { scope: wanted }) => *scope as usize == wanted,
        (Func::Task { node, .. }, Tag::Calls { node: wanted }) => *node as usize == wanted,
        (Func::Join { node }, Tag::Joins { node: wanted }) => *node as usize == wanted,
        _ => false,
    }
}

/// Whether a function with that tag stands at that number.
fn stands_at(funcs: &[Func], at: usize, tag: Tag) -> bool
    ensures tags { (later : List TagSeen) → same_tags (map tag_of (drop at funcs.now)) (tag_view tag ∷ later) ≡ (result && same_tags (map tag_of (drop (at + 1) funcs.now)) later) }
    ensures within { IsTrue result → at < length funcs.now }
{
    at < funcs.len() && fits(&funcs[at], tag)
}

/// Whether the first so many functions are the Enters of the scopes.
fn enters_fit(funcs: &[Func], count: usize) -> bool
    ensures { (later : List TagSeen) → same_tags (map tag_of funcs.now) (enter_tags 0 count ++ later) ≡ (result && same_tags (map tag_of (drop count funcs.now)) later) }
{
    for scope in 0..count {
        if !stands_at(funcs, scope, Tag::Enters { scope }) {
            return false;
        }
    }
    true
}

/// The tag of the function of a Task's or a fan's node with that number.
fn tag_for(node: usize, op: &Op) -> Option<Tag>
    ensures { op_tag node op.now ≡ one_or_none (option_map tag_view result) }
{
    match op {
        Op::Task { .. } => Some(Tag::Calls { node }),
        Op::Parallel { .. } | Op::Map { .. } => Some(Tag::Joins { node }),
        _ => None,
    }
}

/// Whether the functions from that number on are those of the Tasks and the fans, in the order of nodes.
fn tags_fit(funcs: &[Func], from: usize, nodes: &[Node]) -> bool
    ensures { result ≡ same_tags (map tag_of (drop from funcs.now)) (tags_from 0 nodes.now) }
{
    let mut at = from;
    for (i, node) in nodes.iter().enumerate() {
        if let Some(tag) = tag_for(i, &node.op) {
            if !stands_at(funcs, at, tag) {
                return false;
            }
            at += 1;
        }
    }
    at >= funcs.len()
}

/// The function of a Task's or a fan's node.
fn func_of(op: &Op) -> Option<u32>
    ensures { result ≡ func_of op.now }
{
    match op {
        Op::Task { func, .. } | Op::Parallel { func, .. } | Op::Map { func, .. } => Some(*func),
        _ => None,
    }
}

/// Whether the Tasks and the fans have the numbers from that one on.
#[tactic(auto, unfolding(crate::specs::WellFormed::same_numbers))]
fn numbers_fit(from: usize, nodes: &[Node]) -> bool
    ensures { result ≡ same_numbers (func_numbers nodes.now) (range from (length (func_numbers nodes.now))) }
{
    let mut at = from;
    for node in nodes {
        if let Some(func) = func_of(&node.op) {
            if func as usize != at {
                return false;
            }
            at += 1;
        }
    }
    true
}

/// Whether there is an Enter for each scope, then one function for each Task and each fan in the order of nodes, and each
/// node has the number of its own.
pub fn funcs_fit(ir: &Ir) -> bool
    ensures { result ≡ funcs_fit ir.now }
{
    let funcs = ir.funcs.as_slice();
    let nodes = ir.nodes.as_slice();
    let scopes = ir.scopes.len();
    enters_fit(funcs, scopes) && tags_fit(funcs, scopes, nodes) && numbers_fit(scopes, nodes)
}
