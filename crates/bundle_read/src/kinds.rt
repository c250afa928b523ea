//! The kinds of objects in a bundle.

use asl_read::How;

/// The kind of a function.
#[derive(Clone, Copy)]
pub enum FunctionKind {
    /// It answers its input.
    Echo,
    /// It answers a value of its own.
    Const,
    /// It answers the sum of an array of whole numbers.
    Sum,
    /// It answers the number of the attempt that calls it.
    Ticket,
    /// It fails at some attempts, and answers its input at the others.
    Flaky,
    /// It fails.
    Fail,
}

/// A kind of object, which has a table of fields.
#[derive(Clone, Copy)]
pub enum Object {
    /// The whole bundle.
    Bundle,
    /// A function of this kind.
    Function(FunctionKind),
    /// The plan of mishaps.
    Plan,
    /// A session.
    Session,
}

/// How a part of a bundle is read.
#[derive(Clone, Copy)]
pub enum Part {
    /// As a part of a machine is.
    Field(How),
    /// An object of this kind.
    Object(Object),
    /// A function, which is an object of the kind that its `kind` names.
    Function,
    /// An object that has a function at each key.
    Functions,
    /// An object that has a machine at each key.
    Machines,
    /// An array of whole numbers.
    Numbers,
    /// An array of such arrays.
    Script,
    /// An array of sessions.
    Sessions,
}
