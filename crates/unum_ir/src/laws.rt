//! Laws of flat forms. Each function's contract is a law, and it does nothing.

ghost use Rattle.unum_ir.specs.Laws.{NextsThere, StartsThere, FuncsThere, ScopesThere};

/// In a well formed flat form every number that a walk meets is in its table.
pub fn tables()
    ensures nexts { NextsThere }
    ensures starts { StartsThere }
    ensures funcs { FuncsThere }
    ensures scopes { ScopesThere }
{}
