//! Sinks of bytes.

ghost use Rattle.std.specs.Prelude.{◌≡◌, ℕ, List, ◌<◌, length, IfOk};
ghost use Rattle.std.specs.declared.option.Option.{Option};
ghost use Rattle.std.specs.Io.{WritesAtMost};
ghost use Rattle.std.specs.Io.KnownBytes.{WriteAppends};
ghost use Rattle.unum_io.specs.Causes.{HasCause};

use crate::source::Failed;
use std::io::Write;

/// Where bytes go.
pub trait Sink {
    // The bytes that were taken, where they are known.
    ghost taken: { Self → Option (List ℕ) };

    // How often a write has failed. It never falls.
    ghost faults: { Self → ℕ };

    /// Takes some of the bytes from the front, at least one if there is one, and says how many.
    ///
    /// `Failed` comes only where the count of faults rose, and else that count is as it was. At `Failed` nothing was taken.
    fn write(&mut self, from: &[u8]) -> Result<usize, Failed>
        ensures bound { WritesAtMost result from.now }
        ensures some { IfOk result (λ n. 0 < length from.now → 0 < n) }
        ensures bytes { WriteAppends (taken self.old) (taken self.new) result from.now }
        ensures cause { HasCause (faults self.old) (faults self.new) result };
}

/// A sink over a standard writer. Each error of the writer is a fault, and so is a write that takes nothing of a piece that
/// is not empty.
///
/// It tells of the bytes that were taken what its writer tells, and a file, a terminal or a pipe tells nothing.
#[derive(Drop)]
pub struct StdSink<W> {
    inner: W,
    faults: u64,
}

impl<W> StdSink<W> {
    /// A sink with no fault so far.
    pub fn new(inner: W) -> StdSink<W>
        ensures { result.faults ≡ 0 }
    {
        StdSink { inner, faults: 0 }
    }
}

impl<W: Write> Sink for StdSink<W> {
    ghost taken = { λ s. W.contents s.inner };

    ghost faults = { λ s. s.faults };

    fn write(&mut self, from: &[u8]) -> Result<usize, Failed> {
        match self.inner.write(from) {
            Ok(0) if !from.is_empty() => {
                self.faults = self.faults.saturating_add(1);
                Err(Failed)
            }
            Ok(count) => Ok(count),
            Err(_) => {
                self.faults = self.faults.saturating_add(1);
                Err(Failed)
            }
        }
    }
}
