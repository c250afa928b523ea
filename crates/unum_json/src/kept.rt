//! JSON values that know their sizes.
ghost use Rattle.std.specs.Prelude.{◌≡◌, ◌^◌, ◌-◌, min, IfOk};
ghost use Rattle.unum_json.specs.declared.value.Json as json;
ghost use Rattle.unum_json.specs.declared.value.Json.{out-Json};
ghost use Rattle.unum_json.specs.Seen.{shape_of, shown};
ghost use Rattle.unum_json.specs.Tree.{nodes as node_count, depth as nesting};

use crate::fields::Fields;
use crate::items::Items;
use crate::memory::NoMemory;
use crate::shared::Shared;
use crate::sizes::{
    depth_of_fields, depth_of_items, nodes_of_fields, nodes_of_items, nodes_of_text,
};
use crate::text::{Text, copy_text};
use std::alloc::Global;
use std::marker::Model;

/// A JSON value (RFC 8259, section 3) whose numbers are whole and fit an `i64`. It knows its nodes and its depth, and a
/// copy of it is a count.
#[cycle(kept)]
#[derive(Drop)]
pub struct Json {
    node: Node,
}

/// A value, beside each list its nodes and its depth.
#[cycle(kept)]
#[derive(Drop)]
enum Node {
    Null,
    Bool(bool),
    Int(i64),
    Str(Text),
    Arr(Shared<Items<Json>>, u64, u32),
    Obj(Shared<Fields<Json>>, u64, u32),
}

impl Model for Json {
    ghost use Rattle.std.specs.Coded.{codes};
    ghost use Rattle.unum_json.specs.declared.value.Json.{Json as Tree};
    ghost use Rattle.unum_json.specs.contracts.value.Json as tree;

    ghost Value = { Tree };

    ghost coded = { Prim.hlevel (codes, tree.the_row.coded) };

    ghost use Rattle.unum_json.specs.Kept.{tree_of, IsKept};
    ghost use Rattle.unum_json.specs.Tree.{nodes};

    ghost view = { λ v. tree_of v.node };

    ghost invariant = { λ v. IsKept v.node };

    ghost size = { nodes };

    ghost use Rattle.unum_json.specs.Falls.{falls};

    ghost size_decreases = { λ a h. falls a.node };
}

/// What a value is, with its parts.
#[derive(Clone, Copy)]
pub enum Seen<'a> {
    /// The literal `null`.
    Null,
    /// The literal `true` or `false`.
    Bool(bool),
    /// A whole number.
    Int(i64),
    /// A string.
    Str(&'a Text),
    /// An array.
    Arr(&'a Items<Json>),
    /// An object, with each key once and the keys in rising byte order.
    Obj(&'a Fields<Json>),
}

impl Json {
    /// The literal `null`.
    pub fn null() -> Json
        ensures { result ≡ json.Null }
    {
        Json { node: Node::Null }
    }

    /// The literal `true` or `false`.
    pub fn truth(truth: bool) -> Json
        ensures { result ≡ json.Bool truth }
    {
        Json {
            node: Node::Bool(truth),
        }
    }

    /// A whole number.
    pub fn whole(number: i64) -> Json
        ensures { result ≡ json.Int number }
    {
        Json {
            node: Node::Int(number),
        }
    }

    /// A string.
    pub fn string(text: Text) -> Json
        ensures { result ≡ json.Str text }
    {
        Json {
            node: Node::Str(text),
        }
    }

    /// The variant of the value, with its parts.
    pub fn seen(&self) -> Seen<'_>
        ensures tree { self.now ≡ shown result }
        ensures shape { out-Json self.now ≡ shape_of result }
    {
        match &self.node {
            Node::Null => Seen::Null,
            Node::Bool(truth) => Seen::Bool(*truth),
            Node::Int(number) => Seen::Int(*number),
            Node::Str(text) => Seen::Str(text),
            Node::Arr(items, _, _) => Seen::Arr(items.held()),
            Node::Obj(fields, _, _) => Seen::Obj(fields.held()),
        }
    }
}

/// The array of these items, which are taken over.
pub fn array(alloc: Global, items: Items<Json>) -> Result<Json, NoMemory>
    ensures { IfOk result (λ v. v ≡ json.Arr items) }
{
    let nodes = nodes_of_items(&items).saturating_add(1);
    let depth = depth_of_items(&items).saturating_add(1);
    let items = Shared::new(alloc, items)?;
    Ok(Json {
        node: Node::Arr(items, nodes, depth),
    })
}

/// The object with these members, which are taken over.
pub fn object(alloc: Global, fields: Fields<Json>) -> Result<Json, NoMemory>
    ensures { IfOk result (λ v. v ≡ json.Obj fields) }
{
    let nodes = nodes_of_fields(&fields).saturating_add(1);
    let depth = depth_of_fields(&fields).saturating_add(1);
    let fields = Shared::new(alloc, fields)?;
    Ok(Json {
        node: Node::Obj(fields, nodes, depth),
    })
}

/// An equal value, which shares the lists of an array or object.
pub fn copy(_alloc: Global, value: &Json) -> Result<Json, NoMemory>
    ensures { IfOk result (λ v. v ≡ value.now) }
{
    let node = match &value.node {
        Node::Null => Node::Null,
        Node::Bool(truth) => Node::Bool(*truth),
        Node::Int(number) => Node::Int(*number),
        Node::Str(text) => Node::Str(copy_text(_alloc, text)?),
        Node::Arr(items, nodes, depth) => Node::Arr(items.share()?, *nodes, *depth),
        Node::Obj(fields, nodes, depth) => Node::Obj(fields.share()?, *nodes, *depth),
    };
    Ok(Json { node })
}

/// How many nodes a value has, capped at the greatest `u64`. It takes constant time.
///
/// A null, truth value or number counts 1. A text counts 1 and one more for every full 32 bytes. An array counts 1 and
/// its items. An object counts 1, its values, and for each key one for every full 32 bytes.
pub fn nodes(value: &Json) -> u64
    ensures { result ≡ min (node_count value.now) (2 ^ 64 - 1) }
{
    match &value.node {
        Node::Null => 1,
        Node::Bool(_) => 1,
        Node::Int(_) => 1,
        Node::Str(text) => nodes_of_text(text).saturating_add(1),
        Node::Arr(_, nodes, _) | Node::Obj(_, nodes, _) => *nodes,
    }
}

/// How deep arrays and objects nest, capped at the greatest `u32`. It takes constant time.
///
/// An array or object counts 1 more than its deepest part, or 1 if empty. Anything else counts 0.
pub fn depth(value: &Json) -> u32
    ensures { result ≡ min (nesting value.now) (2 ^ 32 - 1) }
{
    match &value.node {
        Node::Null => 0,
        Node::Bool(_) => 0,
        Node::Int(_) => 0,
        Node::Str(_) => 0,
        Node::Arr(_, _, depth) | Node::Obj(_, _, depth) => *depth,
    }
}
