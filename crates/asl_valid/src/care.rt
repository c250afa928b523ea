//! Retriers and catchers.
//!
//! Source: Amazon States Language, "Errors".

ghost use Rattle.std.specs.Prelude.{◌≡◌, ◌&&◌, ◌||◌, ◌==◌, nat_lt, not, length, map};
ghost use Rattle.std.specs.List.{list_any};
ghost use Rattle.asl_model.specs.Tree.{state_tree, care_of};
ghost use Rattle.asl_model.specs.Valid.{has_bad_care, has_bad_errors};
ghost use Rattle.asl_valid.specs.Rules.{catcher_errors, has_all, is_bad_care, retrier_errors};

use asl_model::{Care, Catcher, Retrier, State};
use unum_json::{Items, Text};

/// Whether one of these names is `States.ALL`.
#[tactic(auto, unfolding(asl_model::specs::Data::all_errors))]
fn has_all(errors: &Items<Text>) -> bool
    ensures { result ≡ has_all errors.now }
{
    for name in errors.as_slice() {
        if name.as_str() == "States.ALL" {
            return true;
        }
    }
    false
}

/// Whether there is no name, or `States.ALL` stands beside another or not in the last list.
pub fn is_bad_list(errors: &Items<Text>, more: bool) -> bool
    ensures { result ≡ ((length errors.now == 0) || (has_all errors.now && (nat_lt 1 (length errors.now) || more))) }
{
    errors.is_empty() || (has_all(errors) && (errors.len() > 1 || more))
}

/// Whether the error names of retriers are not as they should be.
pub fn has_bad_retry(retriers: &Items<Retrier>) -> bool
    ensures { result ≡ has_bad_errors (retrier_errors retriers.now) }
{
    for (i, retrier) in retriers.as_slice().iter().enumerate() {
        if is_bad_list(&retrier.errors, i + 1 < retriers.len()) {
            return true;
        }
    }
    false
}

/// Whether the error names of catchers are not as they should be.
fn has_bad_catch(catchers: &Items<Catcher>) -> bool
    ensures { result ≡ has_bad_errors (catcher_errors catchers.now) }
{
    for (i, catcher) in catchers.as_slice().iter().enumerate() {
        if is_bad_list(&catcher.errors, i + 1 < catchers.len()) {
            return true;
        }
    }
    false
}

/// Whether the MaxAttempts of a retrier is above 99,999,999.
pub fn has_bad_attempts(retriers: &Items<Retrier>) -> bool
    ensures { result ≡ list_any (λ r. nat_lt 99999999 r.most) retriers.now }
{
    retriers
        .as_slice()
        .iter()
        .any(|retrier| retrier.most > 99_999_999)
}

/// Whether retriers and catchers break the rule of theirs.
fn is_bad_care(care: &Care) -> bool
    ensures { result ≡ is_bad_care (care_of care.now) }
{
    has_bad_retry(&care.retry)
        || has_bad_catch(&care.catch)
        || has_bad_attempts(&care.retry)
        || care.retry.len() > 16
        || care.catch.len() > 16
}

/// Whether a state's retriers and catchers break the rule of theirs.
pub fn has_bad_care(state: &State) -> bool
    ensures { result ≡ has_bad_care (state_tree state.now) }
{
    match state {
        State::Task { care, .. } | State::Parallel { care, .. } | State::Map { care, .. } => {
            is_bad_care(care)
        }
        _ => false,
    }
}
