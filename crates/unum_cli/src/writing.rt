//! What is written where no command is carried out.

ghost use Rattle.std.specs.Prelude.{◌≡◌, ◌≢◌, ◌⊎◌, ◌≤◌};
ghost use Rattle.unum_io.specs.Causes.{Rose};
ghost use Rattle.unum_cli.specs.Tool.{AnswersRefusal, AnswersUntaken, AnswersUsage, IsOfBundle, Wrote};

use crate::answer::{Desk, Status};
use crate::refusals::refusal_text;
use crate::taking::TakeError;
use bundle_read::Refusal;
use std::alloc::Global;
use unum_io::{Sink, write_all};

const USAGE: &str = "usage: unum validate | compile | ir | central | simulate | run | make\n";

/// Writes the text of a status.
pub fn finish<K: Sink>(out: &mut K, text: &str, status: Status) -> Status
    ensures wrote { Wrote (K.taken out.old) (K.taken out.new) text.now status result }
    ensures later { K.faults out.old ≤ K.faults out.new }
    ensures cause { result ≡ Status.WriteFault → (status ≡ Status.WriteFault) ⊎ Rose (K.faults out.old) (K.faults out.new) }
{
    match write_all(out, text.as_bytes()) {
        Ok(()) => status,
        Err(_) => {
            drop(status);
            Status::WriteFault
        }
    }
}

/// Tells which words there are.
pub fn tell_usage<K: Sink>(out: &mut K) -> Status
    ensures told { (desk : Desk) → desk ≡ Desk.Empty → AnswersUsage result desk (K.taken out.old) (K.taken out.new) }
    ensures only { (result ≡ Status.Usage) ⊎ (result ≡ Status.WriteFault) }
    ensures cause { result ≡ Status.WriteFault → Rose (K.faults out.old) (K.faults out.new) }
{
    finish(out, USAGE, Status::Usage)
}

/// Tells a refusal.
pub fn refuse<K: Sink>(alloc: Global, out: &mut K, refusal: Refusal) -> Status
    ensures told { (desk : Desk) → desk ≡ Desk.Empty → AnswersRefusal refusal result desk (K.taken out.old) (K.taken out.new) }
    ensures only { IsOfBundle result }
    ensures later { K.faults out.old ≤ K.faults out.new }
    ensures cause { result ≡ Status.WriteFault → Rose (K.faults out.old) (K.faults out.new) }
{
    let Ok(text) = refusal_text(alloc, &refusal) else {
        drop(refusal);
        return Status::NoMemory;
    };
    finish(out, text.as_str(), Status::Refused(refusal))
}

/// Tells why nothing was taken from the source.
pub fn tell_untaken<K: Sink>(alloc: Global, out: &mut K, error: TakeError) -> Status
    ensures told { (desk : Desk) → desk ≡ Desk.Empty → AnswersUntaken error result desk (K.taken out.old) (K.taken out.new) }
    ensures fault { result ≡ Status.ReadFault → error ≡ TakeError.Fault }
    ensures no_usage { result ≢ Status.Usage }
    ensures later { K.faults out.old ≤ K.faults out.new }
    ensures cause { result ≡ Status.WriteFault → Rose (K.faults out.old) (K.faults out.new) }
{
    match error {
        TakeError::Refused(refusal) => refuse(alloc, out, refusal),
        TakeError::Fault => Status::ReadFault,
        TakeError::NoMemory => Status::NoMemory,
    }
}
