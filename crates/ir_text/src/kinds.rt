//! The kinds of objects in a flat form, and how their parts are read.

use asl_read::How;

/// What a number counts, and so what it is below.
#[derive(Clone, Copy)]
pub enum Number {
    /// Nodes.
    Node,
    /// Functions.
    Func,
    /// Scopes.
    Scope,
    /// How often a retrier may be taken.
    Most,
    /// How many iterations of a map run at once.
    Limit,
}

/// What a node is.
#[derive(Clone, Copy)]
pub enum NodeKind {
    /// A Pass.
    Pass,
    /// A Choice.
    Choice,
    /// A Succeed.
    Succeed,
    /// A Fail.
    Fail,
    /// A Task.
    Task,
    /// A Parallel.
    Parallel,
    /// A Map.
    Map,
}

/// What a function is.
#[derive(Clone, Copy)]
pub enum FuncKind {
    /// The Enter of a scope.
    Enter,
    /// The Task of a node.
    Task,
    /// The Join of a fan's node.
    Join,
}

/// A kind of object, which has a table of fields.
#[derive(Clone, Copy)]
pub enum Object {
    /// The whole flat form.
    Ir,
    /// A scope.
    Scope,
    /// A function of this kind.
    Func(FuncKind),
    /// A node of this kind.
    Node(NodeKind),
    /// A retrier of a node.
    Retrier,
    /// A catcher of a node.
    Catcher,
}

/// How a part of a flat form is read.
#[derive(Clone, Copy)]
pub enum Part {
    /// As a part of a machine is.
    Field(How),
    /// A number that counts this.
    Number(Number),
    /// Such a number, or null.
    NumberOrNull(Number),
    /// An array of numbers.
    Numbers(Number),
    /// A rule of a choice, with the number of a node.
    Rule,
    /// An array of rules.
    Rules,
    /// An object of this kind.
    Object(Object),
    /// An array of objects of this kind.
    Each(Object),
    /// A node, which is an object of the kind that its `op` names.
    Node,
    /// An array of nodes.
    Nodes,
    /// A function, which is an object of the kind that its `kind` names.
    Func,
    /// An array of functions.
    Funcs,
}
