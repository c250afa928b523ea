//! Sources of bytes.

ghost use Rattle.std.specs.Prelude.{◌≡◌, ℕ, List};
ghost use Rattle.std.specs.declared.option.Option.{Option};
ghost use Rattle.std.specs.Io.{ReadsAtMost};
ghost use Rattle.std.specs.Io.KnownBytes.{ReadConsumes};
ghost use Rattle.unum_io.specs.Causes.{HasCause};

use std::io::Read;

/// A read or a write failed, and gave or took nothing.
#[derive(Clone, Copy, Debug, PartialEq, Eq)]
pub struct Failed;

/// Where bytes come from.
pub trait Source {
    // The bytes that are left, where they are known.
    ghost left: { Self → Option (List ℕ) };

    // How often a read has failed. It never falls.
    ghost faults: { Self → ℕ };

    /// Gives the next bytes, and says how many. With room in the buffer, 0 means the end.
    ///
    /// `Failed` comes only where the count of faults rose, and else that count is as it was. At `Failed` nothing was given.
    fn read(&mut self, into: &mut [u8]) -> Result<usize, Failed>
        ensures bound { ReadsAtMost result into.new }
        ensures bytes { ReadConsumes (left self.old) (left self.new) result into.new }
        ensures cause { HasCause (faults self.old) (faults self.new) result };
}

/// A source over a standard reader. Each error of the reader is a fault.
///
/// It tells of the bytes that are left what its reader tells, and a file, a terminal or a pipe tells nothing.
#[derive(Drop)]
pub struct StdSource<R> {
    inner: R,
    faults: u64,
}

impl<R> StdSource<R> {
    /// A source with no fault so far.
    pub fn new(inner: R) -> StdSource<R>
        ensures { result.faults ≡ 0 }
    {
        StdSource { inner, faults: 0 }
    }
}

impl<R: Read> Source for StdSource<R> {
    ghost left = { λ s. R.remaining s.inner };

    ghost faults = { λ s. s.faults };

    fn read(&mut self, into: &mut [u8]) -> Result<usize, Failed> {
        match self.inner.read(into) {
            Ok(count) => Ok(count),
            Err(_) => {
                self.faults = self.faults.saturating_add(1);
                Err(Failed)
            }
        }
    }
}
