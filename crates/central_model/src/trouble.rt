//! Why no run is told.

use unum_json::NoMemory;

/// Why no run is told.
#[derive(Clone, Copy, Debug, PartialEq, Eq)]
pub enum CentralError {
    /// The run has more visits than the limit.
    TooLong,
    /// Memory ran out.
    NoMemory,
}

impl From<NoMemory> for CentralError {
    ghost use Rattle.std.specs.Prelude.{◌≡◌};
    ghost use Rattle.central_model.specs.declared.trouble.CentralError.TheVariants as error;

    ghost from_gives = { λ _ f. f ≡ error.NoMemory };

    fn from(_refused: NoMemory) -> CentralError {
        CentralError::NoMemory
    }
}
