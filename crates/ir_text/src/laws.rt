//! Laws of texts of flat code. Each function's contract is a law, and it does nothing.

ghost use Rattle.ir_text.specs.Laws.{PrintedIsSpelled, PrintedIsAccepted};

/// The value that a flat form is printed as spells it, and is accepted where it is well formed.
pub fn flat_forms_read_back()
    ensures spelled { PrintedIsSpelled }
    ensures accepted { PrintedIsAccepted }
{}
