//! The types of a flat form.

use asl_model::{ItemTemplate, MapShape, PassShape, PathShape, Retrier};
use asl_paths::Path;
use asl_shape::Shape;
use choice_rules::Rule;
use unum_json::{Items, Json, Text};

/// A rule of a Choice, and the node that it leads to.
#[derive(Drop)]
pub struct NodeRule {
    /// When it leads there.
    pub rule: Rule,
    /// The node that follows.
    pub next: u32,
}

/// Errors that lead to another node.
#[derive(Drop)]
pub struct NodeCatcher {
    /// The error names that it matches.
    pub errors: Items<Text>,
    /// Where the error is put into the state's raw input. `None` is the null of a machine: nowhere.
    pub result: Option<Path>,
    /// The node that follows.
    pub next: u32,
}

/// What a state does about errors: its retriers and its catchers, in their order.
#[derive(Drop)]
pub struct NodeCare {
    /// Which errors are tried again, and how often.
    pub retry: Items<Retrier>,
    /// Which errors lead to another node.
    pub catch: Items<NodeCatcher>,
}

/// What a state is. Of nodes and scopes it has the numbers, and a Task, a Parallel and a Map have the number of their function.
///
/// A missing `next` is the end of the scope.
#[derive(Drop)]
pub enum Op {
    /// It hands on what it is given, or its result.
    Pass {
        shape: PassShape,
        result: Option<Json>,
        next: Option<u32>,
    },
    /// It goes on as the first of its rules says that matches, and else to its default.
    Choice {
        shape: PathShape,
        rules: Items<NodeRule>,
        default: Option<u32>,
    },
    /// It ends its scope with a value.
    Succeed {
        shape: PathShape,
    },
    /// It ends its scope with a fault.
    Fail {
        error: Text,
        cause: Text,
    },
    /// It calls a function.
    Task {
        shape: Shape,
        func: u32,
        next: Option<u32>,
        care: NodeCare,
    },
    /// It runs each of its branches.
    Parallel {
        shape: Shape,
        func: u32,
        next: Option<u32>,
        care: NodeCare,
        /// The scope of each branch.
        scopes: Items<u32>,
    },
    /// It runs its body for each item of an array.
    Map {
        shape: MapShape,
        func: u32,
        next: Option<u32>,
        care: NodeCare,
        /// The scope of its body.
        scope: u32,
        items: Path,
        selector: Option<ItemTemplate>,
        /// How many iterations run at once, 0 where there is no limit.
        limit: u32,
    },
}

/// A state: its name, the scope that it stands in, and what it is.
#[derive(Drop)]
pub struct Node {
    /// The name of the state.
    pub name: Text,
    /// The scope that it stands in.
    pub scope: u32,
    /// What it is.
    pub op: Op,
}

/// What an instance runs: the Enter of a scope, the Task of a node with its resource, or the Join of a fan's node.
#[derive(Drop)]
pub enum Func {
    /// The Enter of a scope.
    Enter { scope: u32 },
    /// The Task of a node, with its resource.
    Task { node: u32, resource: Text },
    /// The Join of a fan's node.
    Join { node: u32 },
}

/// A block: the Join of the fan that holds it (none for the root), and the node that is entered first.
#[derive(Clone, Copy)]
pub struct Scope {
    /// The Join of the fan that holds it. The root has none.
    pub parent: Option<u32>,
    /// The node that is entered first.
    pub start: u32,
}

/// The flat form of a machine. Scopes, nodes and functions are named by their index.
///
/// Function `s` is the Enter of scope `s`. After these, each Task and each fan has one, in the order of nodes.
#[derive(Drop)]
pub struct Ir {
    /// The nodes, by their numbers.
    pub nodes: Items<Node>,
    /// The functions, by their numbers.
    pub funcs: Items<Func>,
    /// The scopes, by their numbers.
    pub scopes: Items<Scope>,
}
