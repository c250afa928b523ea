//! What a rule answers for a value.

ghost use Rattle.std.specs.Prelude.{◌≡◌, map, option_copied};
ghost use Rattle.unum_json.specs.Seen.{shape_of};
ghost use Rattle.choice_rules.specs.Evaluating.{is_null as null_at, is_numeric as numeric_at, is_string as string_at, is_boolean as boolean_at, is_text_of, operand_in, compared, asked, tested, all_hold, some_holds, matches as matched, matches_in};

use crate::comparison::{Comparison, Operand, relates};
use crate::failure::PathFailure;
use crate::pattern::Pattern;
use crate::rule::{Op, Rule};
use asl_paths::Path;
use unum_json::{Json, Seen};

/// What stands on the right of a comparison.
fn find_operand<'a>(operand: &'a Operand, value: &'a Json) -> Option<&'a Json>
    ensures { option_copied result ≡ operand_in value.now operand.now }
{
    match operand {
        Operand::Constant(constant) => Some(constant),
        Operand::Found(path) => path.get(value),
    }
}

/// Whether a comparison holds of what the variable found.
fn compare(comparison: &Comparison, value: &Json, found: &Json) -> Result<bool, PathFailure>
    ensures { result ≡ compared comparison.now found.now (operand_in value.now comparison.now.operand) }
{
    match find_operand(&comparison.operand, value) {
        Some(operand) => Ok(relates(comparison.kind, comparison.rel, found, operand)),
        None => Err(PathFailure),
    }
}

fn is_null(found: Seen<'_>) -> bool
    ensures { result ≡ null_at (shape_of found.entry) }
{
    matches!(found, Seen::Null)
}

fn is_numeric(found: Seen<'_>) -> bool
    ensures { result ≡ numeric_at (shape_of found.entry) }
{
    matches!(found, Seen::Int(_))
}

fn is_string(found: Seen<'_>) -> bool
    ensures { result ≡ string_at (shape_of found.entry) }
{
    matches!(found, Seen::Str(_))
}

fn is_boolean(found: Seen<'_>) -> bool
    ensures { result ≡ boolean_at (shape_of found.entry) }
{
    matches!(found, Seen::Bool(_))
}

/// Whether a value is a text that a pattern matches.
fn is_matched(pattern: &Pattern, found: Seen<'_>) -> bool
    ensures { result ≡ is_text_of pattern.now (shape_of found.entry) }
{
    match found {
        Seen::Str(text) => pattern.matches(text.as_str()),
        _ => false,
    }
}

/// What an operator answers for what the variable found.
fn ask(op: &Op, value: &Json, found: &Json) -> Result<bool, PathFailure>
    ensures { result ≡ asked op.now value.now found.now }
{
    match op {
        Op::Compare(comparison) => compare(comparison, value, found),
        Op::Matches(pattern) => Ok(is_matched(pattern, found.seen())),
        Op::IsNull(flag) => Ok(is_null(found.seen()) == *flag),
        Op::IsPresent(flag) => Ok(*flag),
        Op::IsNumeric(flag) => Ok(is_numeric(found.seen()) == *flag),
        Op::IsString(flag) => Ok(is_string(found.seen()) == *flag),
        Op::IsBoolean(flag) => Ok(is_boolean(found.seen()) == *flag),
    }
}

/// What an operator answers for the value, or the missing value, of a variable.
fn test(op: &Op, value: &Json, found: Option<&Json>) -> Result<bool, PathFailure>
    ensures { result ≡ tested op.now value.now (option_copied found.entry) }
{
    match (op, found) {
        (_, Some(found)) => ask(op, value, found),
        (Op::IsPresent(flag), None) => Ok(!*flag),
        _ => Err(PathFailure),
    }
}

/// Whether a rule matches a value.
///
/// It fails where the evaluation meets a path that finds nothing. "And" is evaluated from the left up to the first
/// rule that does not match, and "or" up to the first that does.
#[cycle(matches)]
pub fn matches(rule: &Rule, value: &Json) -> Result<bool, PathFailure>
    ensures { result ≡ matched rule.now value.now }
{
    match rule {
        Rule::Test { variable, op } => test(op, value, variable.get(value)),
        Rule::And(rules) => all_match(rules.as_slice(), value),
        Rule::Or(rules) => some_matches(rules.as_slice(), value),
        Rule::Not(rule) => Ok(!matches(rule.get(), value)?),
    }
}

#[cycle(matches)]
fn all_match(rules: &[Rule], value: &Json) -> Result<bool, PathFailure>
    ensures { result ≡ all_hold (map (matches_in value.now) rules.now) }
{
    for rule in rules {
        if !matches(rule, value)? {
            return Ok(false);
        }
    }
    Ok(true)
}

#[cycle(matches)]
fn some_matches(rules: &[Rule], value: &Json) -> Result<bool, PathFailure>
    ensures { result ≡ some_holds (map (matches_in value.now) rules.now) }
{
    for rule in rules {
        if matches(rule, value)? {
            return Ok(true);
        }
    }
    Ok(false)
}
