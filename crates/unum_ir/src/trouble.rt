//! Why a state's own data flow gave no value.
//!
//! Source: Amazon States Language, "Errors".

ghost use Rattle.std.specs.Prelude.{◌≡◌, Result};
ghost use Rattle.asl_shape.specs.declared.trouble.ShapeError.{ShapeError};
ghost use Rattle.asl_shape.specs.Flow.{Gives as IsShaped};
ghost use Rattle.unum_json.specs.declared.value.Json.{Json};
ghost use Rattle.asl_model.specs.Data.{named};
ghost use Rattle.unum_ir.specs.Given.{error_name, Gives};

use asl_shape::ShapeError;
use unum_json::{Json, NoMemory};

/// Why a state's own data flow gave no value.
#[derive(Clone, Copy, Debug, PartialEq, Eq)]
pub enum StateError {
    /// A path finds nothing.
    Path,
    /// A path of a template finds nothing.
    Parameter,
    /// A ResultPath leads to no place in the raw input.
    ResultPath,
    /// A value, or the inputs of a fan together, are too large.
    TooLarge,
    /// What ItemsPath finds is no array.
    NoArray,
    /// A Map has more than 1,000 items.
    TooManyItems,
    /// No rule of a Choice matches, and it has no Default.
    NoChoice,
}

impl StateError {
    /// The name by which a machine knows the error.
    ///
    /// Source: Amazon States Language, "Errors".
    pub fn name(&self) -> &'static str
        ensures { result.now ≡ error_name self.now }
    {
        match self {
            StateError::Path => "Unum.PathFailure",
            StateError::Parameter => "States.ParameterPathFailure",
            StateError::ResultPath => "States.ResultPathMatchFailure",
            StateError::TooLarge => "Unum.DataLimit",
            StateError::NoArray => "Unum.ItemsNotArray",
            StateError::TooManyItems => "Unum.ItemLimit",
            StateError::NoChoice => "States.NoChoiceMatched",
        }
    }
}

/// Why a call gave no value: an error that the state's own scope knows, or want of memory.
#[derive(Clone, Copy, Debug, PartialEq, Eq)]
pub enum FlowError {
    /// An error that has a name in the state's own scope.
    Named(StateError),
    /// Memory ran out.
    NoMemory,
}

impl From<StateError> for FlowError {
    ghost use Rattle.std.specs.Prelude.{◌≡◌};
    ghost use Rattle.unum_ir.specs.declared.trouble.FlowError.TheVariants as error;

    ghost from_gives = { λ e f. f ≡ error.Named e };

    fn from(error: StateError) -> FlowError {
        FlowError::Named(error)
    }
}

impl From<NoMemory> for FlowError {
    ghost use Rattle.std.specs.Prelude.{◌≡◌};
    ghost use Rattle.unum_ir.specs.declared.trouble.FlowError.TheVariants as error;

    ghost from_gives = { λ _ f. f ≡ error.NoMemory };

    fn from(_refused: NoMemory) -> FlowError {
        FlowError::NoMemory
    }
}

/// The same with the error's name.
pub fn named(made: Result<Json, ShapeError>) -> Result<Json, FlowError>
    ensures { (due : Result Json ShapeError) → IsShaped made due → Gives (λ v. v) result (named due) }
{
    match made {
        Ok(value) => Ok(value),
        Err(ShapeError::Path) => Err(FlowError::Named(StateError::Path)),
        Err(ShapeError::Parameter) => Err(FlowError::Named(StateError::Parameter)),
        Err(ShapeError::ResultPath) => Err(FlowError::Named(StateError::ResultPath)),
        Err(ShapeError::TooLarge) => Err(FlowError::Named(StateError::TooLarge)),
        Err(ShapeError::NoMemory) => Err(FlowError::NoMemory),
    }
}
