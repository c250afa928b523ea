//! Catchers of a state.
//!
//! Source: Amazon States Language, "Fallback States".

ghost use Rattle.std.specs.Prelude.{◌≡◌, IfOk, None, map};
ghost use Rattle.asl_model.specs.Data.{put_error};
ghost use Rattle.asl_model.specs.Head.{Goes, caught, or_fails};
ghost use Rattle.asl_model.specs.Tree.{catcher_of};
ghost use Rattle.central_model.specs.Views.{onward_of};

use crate::onward::Onward;
use asl_model::Catcher;
use std::alloc::Global;
use unum_ir::{FlowError, failure, match_error, put_error};
use unum_json::{Items, Json, NoMemory, Text};

/// Where a catcher leads, with the error put into the raw data.
fn follow<'m>(
    alloc: Global,
    name: &Text,
    raw: &Json,
    error: &str,
    cause: &str,
    catcher: &'m Catcher,
) -> Result<Onward<'m>, NoMemory>
    ensures { IfOk result (λ o. onward_of o ≡ or_fails name.now (put_error catcher.now.result raw.now error.now cause.now) (λ v. Goes catcher.now.next v None)) }
{
    match put_error(alloc, &catcher.result, raw, error, cause) {
        Ok(data) => Ok(Onward::Goes {
            next: &catcher.next,
            data,
            again: None,
        }),
        Err(FlowError::Named(error)) => {
            Ok(Onward::Ends(failure(alloc, error.name(), name.as_str())?))
        }
        Err(FlowError::NoMemory) => Err(NoMemory),
    }
}

/// The first catcher that matches leads on, and an error that none matches ends the scope.
///
/// Source: Amazon States Language, "Fallback States".
pub fn catch<'m>(
    alloc: Global,
    name: &Text,
    raw: &Json,
    error: &str,
    cause: &str,
    answered: bool,
    catchers: &'m Items<Catcher>,
) -> Result<Onward<'m>, NoMemory>
    ensures { IfOk result (λ o. onward_of o ≡ caught name.now raw.now error.now cause.now answered (map catcher_of catchers.now)) }
{
    for catcher in catchers.as_slice() {
        if match_error(&catcher.errors, error, answered) {
            return follow(alloc, name, raw, error, cause, catcher);
        }
    }
    Ok(Onward::Ends(failure(alloc, error, cause)?))
}
