//! What follows a state, and what it does about errors.

ghost use Rattle.std.specs.Prelude.{◌≡◌, IfOk, map, codes};
ghost use Rattle.unum_json.specs.Parsed.{view};
ghost use Rattle.asl_read.specs.Parts.{after_in, retrier_of, catcher_of, care_in, list_in};

use crate::shapes::path_if;
use crate::values::{list_in, number_in, text_if, text_in, texts_in, truth_in};
use asl_model::{After, Care, Catcher, Retrier};
use std::alloc::Global;
use unum_json::{Items, NoMemory, Value};

pub(crate) fn after_in(alloc: Global, value: &Value) -> Result<After, NoMemory>
    ensures { IfOk result (λ a. a ≡ after_in (view value.now)) }
{
    let next = text_if(alloc, value, "Next")?;
    Ok(After {
        next,
        end: truth_in(value, "End"),
    })
}

/// The most attempts of a retrier.
const MOST_ATTEMPTS: u32 = 99_999_999;

fn retrier_of(alloc: Global, value: &Value) -> Result<Retrier, NoMemory>
    ensures { IfOk result (λ r. r ≡ retrier_of (view value.now)) }
{
    let errors = texts_in(alloc, value, "ErrorEquals")?;
    Ok(Retrier {
        errors,
        most: number_in(value, "MaxAttempts", MOST_ATTEMPTS, 3),
    })
}

fn catcher_of(alloc: Global, value: &Value) -> Result<Catcher, NoMemory>
    ensures { IfOk result (λ c. c ≡ catcher_of (view value.now)) }
{
    let errors = texts_in(alloc, value, "ErrorEquals")?;
    let result = path_if(alloc, value, "ResultPath")?;
    let next = text_in(alloc, value, "Next")?;
    Ok(Catcher {
        errors,
        result,
        next,
    })
}

fn retriers_in(alloc: Global, value: &Value) -> Result<Items<Retrier>, NoMemory>
    ensures { IfOk result (λ rs. rs ≡ map retrier_of (list_in (codes "Retry") (view value.now))) }
{
    let mut found = Items::new(alloc);
    for item in list_in(value, "Retry") {
        found.push(retrier_of(alloc, item)?)?;
    }
    Ok(found)
}

fn catchers_in(alloc: Global, value: &Value) -> Result<Items<Catcher>, NoMemory>
    ensures { IfOk result (λ cs. cs ≡ map catcher_of (list_in (codes "Catch") (view value.now))) }
{
    let mut found = Items::new(alloc);
    for item in list_in(value, "Catch") {
        found.push(catcher_of(alloc, item)?)?;
    }
    Ok(found)
}

pub(crate) fn care_in(alloc: Global, value: &Value) -> Result<Care, NoMemory>
    ensures { IfOk result (λ c. c ≡ care_in (view value.now)) }
{
    let retry = retriers_in(alloc, value)?;
    let catch = catchers_in(alloc, value)?;
    Ok(Care { retry, catch })
}
