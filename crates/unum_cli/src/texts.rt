//! Commands that leave nothing on the desk.

ghost use Rattle.std.specs.Prelude.{◌≡◌, ◌≤◌};
ghost use Rattle.unum_io.specs.Causes.{Rose};
ghost use Rattle.unum_cli.specs.Central.{all_fit, central_text};
ghost use Rattle.unum_cli.specs.FlatCode.{compiled_text, flat_text};
ghost use Rattle.unum_cli.specs.Valid.{valid_text};
ghost use Rattle.unum_cli.specs.Tool.{text_due, Answers, AnswersText, IsOfBundle};

use crate::answer::{Desk, Status};
use crate::central::central_told;
use crate::flat_code::{compiled_text, flat_text};
use crate::validate::valid_text;
use crate::writing::finish;
use bundle_read::Bundle;
use std::alloc::Global;
use unum_io::Sink;
use unum_ir::Ir;

/// Tells how much is in a bundle.
pub fn validate<K: Sink>(alloc: Global, bundle: &Bundle, out: &mut K) -> Status
    ensures told { (desk : Desk) → desk ≡ Desk.Empty → AnswersText (valid_text bundle.now) result desk (K.taken out.old) (K.taken out.new) }
    ensures only { IsOfBundle result }
    ensures later { K.faults out.old ≤ K.faults out.new }
    ensures cause { result ≡ Status.WriteFault → Rose (K.faults out.old) (K.faults out.new) }
{
    let Ok(text) = valid_text(alloc, bundle) else {
        return Status::NoMemory;
    };
    finish(out, text.as_str(), Status::Written)
}

/// Prints the flat code of a bundle's machines.
pub fn compile<K: Sink>(alloc: Global, bundle: Bundle, out: &mut K) -> Status
    ensures told { (desk : Desk) → desk ≡ Desk.Empty → AnswersText (compiled_text bundle) result desk (K.taken out.old) (K.taken out.new) }
    ensures only { IsOfBundle result }
    ensures later { K.faults out.old ≤ K.faults out.new }
    ensures cause { result ≡ Status.WriteFault → Rose (K.faults out.old) (K.faults out.new) }
{
    let Ok(text) = compiled_text(alloc, bundle) else {
        return Status::NoMemory;
    };
    finish(out, text.as_str(), Status::Written)
}

/// Tells how each session of a bundle ends by its sequential run.
pub fn central<K: Sink>(alloc: Global, bundle: &Bundle, limit: u64, out: &mut K) -> Status
    requires { limit ≤ 10000000 }
    ensures told { (desk : Desk) → desk ≡ Desk.Empty → Answers (text_due (all_fit bundle.now limit) (central_text bundle.now limit)) result desk (K.taken out.old) (K.taken out.new) }
    ensures only { IsOfBundle result }
    ensures later { K.faults out.old ≤ K.faults out.new }
    ensures cause { result ≡ Status.WriteFault → Rose (K.faults out.old) (K.faults out.new) }
{
    let Ok(told) = central_told(alloc, bundle, limit) else {
        return Status::NoMemory;
    };
    if told.all_fit {
        finish(out, told.text.as_str(), Status::Written)
    } else {
        finish(out, told.text.as_str(), Status::Spent)
    }
}

/// Tells how much is in a flat form.
pub fn tell_flat<K: Sink>(alloc: Global, ir: &Ir, out: &mut K) -> Status
    ensures told { (desk : Desk) → desk ≡ Desk.Empty → AnswersText (flat_text ir.now) result desk (K.taken out.old) (K.taken out.new) }
    ensures only { IsOfBundle result }
    ensures later { K.faults out.old ≤ K.faults out.new }
    ensures cause { result ≡ Status.WriteFault → Rose (K.faults out.old) (K.faults out.new) }
{
    let Ok(text) = flat_text(alloc, ir) else {
        return Status::NoMemory;
    };
    finish(out, text.as_str(), Status::Written)
}
