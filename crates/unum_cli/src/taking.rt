//! What is taken from a source.

ghost use Rattle.std.specs.Prelude.{◌≡◌, ◌≢◌, ◌≤◌, [], Err, IfSome, IfOk, length};
ghost use Rattle.unum_io.specs.Causes.{Rose};
ghost use Rattle.bundle_read.specs.Accepted.{IsAccepted};
ghost use Rattle.bundle_read.specs.Judged.{judged};
ghost use Rattle.unum_ir.specs.WellFormed.{IsWellFormed};
ghost use Rattle.unum_cli.specs.FlatCode.{JudgesFlat};
ghost use Rattle.unum_cli.specs.Tool.{Takes, TakesAll, TakesBytes, TakesFlat};

use crate::flat_code::read_flat;
use asl_read::LRule;
use bundle_read::{Bundle, BundleError, Refusal, RuleCode, read_bundle};
use std::alloc::Global;
use unum_io::{Bytes, ReadAll, Source, read_all};
use unum_ir::Ir;
use unum_json::Text;

/// The most bytes of a bundle.
const MAX_BYTES: u64 = 4_194_304;

/// Why no bundle was taken from a source.
#[derive(Debug, Drop)]
pub enum TakeError {
    /// The bytes are refused.
    Refused(Refusal),
    /// A read failed.
    Fault,
    /// Memory ran out.
    NoMemory,
}

/// More bytes than a text has.
fn too_long(alloc: Global) -> TakeError
    ensures { result ≡ TakeError.Refused (Refusal.One (RuleCode.Reading LRule.L0) []) }
{
    TakeError::Refused(Refusal::One {
        rule: RuleCode::Reading(LRule::L0),
        at: Text::new(alloc),
    })
}

/// All bytes of a source, which is read to its end.
fn take_bytes<S: Source>(alloc: Global, source: &mut S) -> Result<Bytes, TakeError>
    ensures told { IfSome (S.left source.old) (λ bytes. TakesBytes result bytes) }
    ensures within { IfOk result (λ taken. length taken.items ≤ 4194304) }
    ensures end { TakesAll result (S.left source.new) }
    ensures fault { result ≡ Err TakeError.Fault → Rose (S.faults source.old) (S.faults source.new) }
{
    match read_all(alloc, source, MAX_BYTES) {
        Ok(bytes) => Ok(bytes),
        Err(ReadAll::TooLong) => Err(too_long(alloc)),
        Err(ReadAll::Fault) => Err(TakeError::Fault),
        Err(ReadAll::NoMemory) => Err(TakeError::NoMemory),
    }
}

/// Reads the text of flat code from a source, which is read to its end.
pub fn take_flat<S: Source>(alloc: Global, source: &mut S) -> Result<Ir, TakeError>
    ensures told { IfSome (S.left source.old) (λ bytes. TakesFlat result (λ made. JudgesFlat made bytes)) }
    ensures end { TakesAll result (S.left source.new) }
    ensures well { IfOk result IsWellFormed }
    ensures fault { result ≡ Err TakeError.Fault → Rose (S.faults source.old) (S.faults source.new) }
{
    match take_bytes(alloc, source) {
        Ok(bytes) => read_flat(alloc, bytes.as_slice()),
        Err(error) => Err(error),
    }
}

/// The bundle that some bytes are.
fn bundle_of(alloc: Global, bytes: &[u8]) -> Result<Bundle, TakeError>
    ensures told { Takes result (judged bytes.now) }
    ensures accepted { IfOk result IsAccepted }
    ensures no_fault { result ≢ Err TakeError.Fault }
{
    match read_bundle(alloc, bytes) {
        Ok(bundle) => Ok(bundle),
        Err(BundleError::Refused(refusal)) => Err(TakeError::Refused(refusal)),
        Err(BundleError::NoMemory) => Err(TakeError::NoMemory),
    }
}

/// Reads a bundle from a source, which is read to its end.
pub fn take_bundle<S: Source>(alloc: Global, source: &mut S) -> Result<Bundle, TakeError>
    ensures told { IfSome (S.left source.old) (λ bytes. Takes result (judged bytes)) }
    ensures end { TakesAll result (S.left source.new) }
    ensures accepted { IfOk result IsAccepted }
    ensures fault { result ≡ Err TakeError.Fault → Rose (S.faults source.old) (S.faults source.new) }
{
    match take_bytes(alloc, source) {
        Ok(bytes) => bundle_of(alloc, bytes.as_slice()),
        Err(error) => Err(error),
    }
}
