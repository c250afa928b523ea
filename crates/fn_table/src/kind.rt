//! The kinds of built-in functions.

ghost use Rattle.std.specs.Prelude.{◌≡◌, ◌↔◌, IfOk, IsTrue};

use std::alloc::Global;
use unum_json::{Fault, Json, NoMemory, copy, copy_fault, same, same_fault};

/// A built-in function.
#[derive(Drop)]
pub enum FnKind {
    /// Answers its input.
    Echo,
    /// Answers this value.
    Const(Json),
    /// Answers the sum of an array of whole numbers.
    Sum,
    /// Answers the number of the attempt that calls it.
    Ticket,
    /// Fails at each attempt whose number is a multiple of this one, and answers its input at every other.
    Flaky(u32),
    /// Fails with this fault.
    Fail(Fault),
}

/// An equal function.
pub fn copy_kind(alloc: Global, kind: &FnKind) -> Result<FnKind, NoMemory>
    ensures { IfOk result (λ k. k ≡ kind.now) }
{
    match kind {
        FnKind::Echo => Ok(FnKind::Echo),
        FnKind::Const(value) => Ok(FnKind::Const(copy(alloc, value)?)),
        FnKind::Sum => Ok(FnKind::Sum),
        FnKind::Ticket => Ok(FnKind::Ticket),
        FnKind::Flaky(every) => Ok(FnKind::Flaky(*every)),
        FnKind::Fail(fault) => Ok(FnKind::Fail(copy_fault(alloc, fault)?)),
    }
}

/// Whether two functions are equal.
pub fn same_kind(a: &FnKind, b: &FnKind) -> bool
    ensures { IsTrue result ↔ (a.now ≡ b.now) }
{
    match (a, b) {
        (FnKind::Echo, FnKind::Echo) => true,
        (FnKind::Const(a), FnKind::Const(b)) => same(a, b),
        (FnKind::Sum, FnKind::Sum) => true,
        (FnKind::Ticket, FnKind::Ticket) => true,
        (FnKind::Flaky(a), FnKind::Flaky(b)) => *a == *b,
        (FnKind::Fail(a), FnKind::Fail(b)) => same_fault(a, b),
        _ => false,
    }
}
