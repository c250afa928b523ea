//! What happens to a state's data.
//!
//! Source: Amazon States Language, "Input and Output Processing".

ghost use Rattle.std.specs.Prelude.{◌≡◌, IfOk, OnOk, Option, Result};
ghost use Rattle.unum_json.specs.Keys.{with_key};
ghost use Rattle.unum_json.specs.declared.value.Json as json;
ghost use Rattle.asl_paths.specs.Lookup.{Puts};
ghost use Rattle.asl_shape.specs.declared.trouble.ShapeError.TheVariants as shape_error;
ghost use Rattle.asl_model.specs.Data.{prepared, handed_on, output, put_error, error_output, failure, named};
ghost use Rattle.asl_shape.specs.Flow.{small, small_or};
ghost use Rattle.unum_ir.specs.Given.{Gives};

use crate::trouble::{FlowError, StateError, named};
use asl_paths::{Path, PutError};
use asl_shape::{Shape, post, prep};
use std::alloc::Global;
use unum_json::{Fault, Fields, Json, NoMemory, Outcome, Text, copy, is_small, object};

/// The failure with this error and this cause.
///
/// Source: Amazon States Language, "Errors".
pub fn failure(alloc: Global, error: &str, cause: &str) -> Result<Outcome, NoMemory>
    ensures { IfOk result (λ o. o ≡ failure error.now cause.now) }
{
    let error = Text::from_str(alloc, error)?;
    let cause = Text::from_str(alloc, cause)?;
    Ok(Outcome::Failed(Fault { error, cause }))
}

/// What a state is given: `InputPath` is applied, and then `Parameters`. The first that fails is the error: a path that finds
/// nothing, or a value that is too large.
///
/// Source: Amazon States Language, "Input and Output Processing".
#[tactic(auto, unfolding(asl_model::specs::Data::prepared))]
pub fn prepare(alloc: Global, shape: &Shape, raw: &Json) -> Result<Json, FlowError>
    ensures { Gives (λ v. v) result (prepared shape.now raw.now) }
{
    named(prep(alloc, shape, raw))
}

/// What a state hands on: `ResultSelector` is applied, and then `ResultPath` and `OutputPath`. The first that fails is the error.
///
/// Source: Amazon States Language, "Input and Output Processing".
#[tactic(auto, unfolding(asl_model::specs::Data::handed_on))]
pub fn hand_on(alloc: Global, shape: &Shape, raw: &Json, made: &Json) -> Result<Json, FlowError>
    ensures { Gives (λ v. v) result (handed_on shape.now raw.now made.now) }
{
    named(post(alloc, shape, raw, made))
}

/// A copy of a value that is small enough.
fn small_copy(alloc: Global, value: &Json) -> Result<Json, FlowError>
    ensures { Gives (λ v. v) result (named (small value.now)) }
{
    if !is_small(value) {
        return Err(FlowError::Named(StateError::TooLarge));
    }
    Ok(copy(alloc, value)?)
}

/// What a Choice or a Succeed hands on: `OutputPath` alone is applied. The errors are a path that finds nothing and a value that
/// is too large.
///
/// Source: Amazon States Language, "Choice State" and "Succeed State".
#[tactic(auto, unfolding(asl_model::specs::Data::output))]
pub fn put_out(alloc: Global, shape: &Shape, value: &Json) -> Result<Json, FlowError>
    ensures { Gives (λ v. v) result (output shape.now value.now) }
{
    let Some(path) = &shape.output else {
        return Ok(object(alloc, Fields::new(alloc))?);
    };
    match path.get(value) {
        Some(found) => small_copy(alloc, found),
        None => Err(FlowError::Named(StateError::Path)),
    }
}

/// Sets a field to a text.
fn set_text(alloc: Global, fields: &mut Fields<Json>, key: &str, text: &str) -> Result<(), NoMemory>
    ensures { OnOk result (fields.new ≡ with_key key.now (json.Str text.now) fields.old) }
{
    let key = Text::from_str(alloc, key)?;
    let text = Text::from_str(alloc, text)?;
    fields.insert(key, Json::string(text))
}

/// The Error Output of an error and its cause.
///
/// Source: Amazon States Language, "Fallback States".
fn error_output(alloc: Global, error: &str, cause: &str) -> Result<Json, NoMemory>
    ensures { IfOk result (λ v. v ≡ error_output error.now cause.now) }
{
    let mut fields = Fields::new(alloc);
    set_text(alloc, &mut fields, "Cause", cause)?;
    set_text(alloc, &mut fields, "Error", error)?;
    object(alloc, fields)
}

/// What was put into the raw data, where it is small enough.
fn small_put(put: Result<Json, PutError>) -> Result<Json, FlowError>
    ensures { (due : Option Json) → Puts put due → Gives (λ v. v) result (named (small_or shape_error.ResultPath due)) }
{
    match put {
        Ok(value) => {
            if is_small(&value) {
                return Ok(value);
            }
            drop(value);
            Err(FlowError::Named(StateError::TooLarge))
        }
        Err(PutError::NoPlace) => Err(FlowError::Named(StateError::ResultPath)),
        Err(PutError::NoMemory) => Err(FlowError::NoMemory),
    }
}

/// The raw data with the Error Output where a catcher's `ResultPath` leads, or the raw data alone for null. The errors are a path
/// that leads to no place and a value that is too large.
///
/// Source: Amazon States Language, "Fallback States".
#[tactic(auto, unfolding(asl_model::specs::Data::put_error))]
pub fn put_error(
    alloc: Global,
    path: &Option<Path>,
    raw: &Json,
    error: &str,
    cause: &str,
) -> Result<Json, FlowError>
    ensures { Gives (λ v. v) result (put_error path.now raw.now error.now cause.now) }
{
    let Some(path) = path else {
        return small_copy(alloc, raw);
    };
    let output = error_output(alloc, error, cause)?;
    let put = path.put(alloc, raw, &output);
    drop(output);
    small_put(put)
}
