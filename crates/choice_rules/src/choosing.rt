//! The first rule of a list that matches a value.

ghost use Rattle.std.specs.Prelude.{◌≡◌, ◌<◌, ◌≤◌, ◌^◌, length, map};
ghost use Rattle.choice_rules.specs.Evaluating.{choose as choice, OnChosen};
ghost use Rattle.choice_rules.specs.declared.rule.Rule.{Rule};

use crate::evaluation::matches;
use crate::failure::PathFailure;
use crate::rule::Rule;
use unum_json::Json;

/// What stands in a list from which is chosen: a rule, or something that has one.
pub trait HasRule {
    ghost rule_of: { Self → Rule };

    /// The rule of it.
    fn rule(&self) -> &Rule
        ensures { result.now ≡ rule_of self.now };
}

impl HasRule for Rule {
    ghost rule_of = { λ rule. rule };

    fn rule(&self) -> &Rule {
        self
    }
}

/// The index of the first rule that matches a value.
///
/// It fails where a rule does before one matches.
pub fn first_match<T: HasRule>(list: &[T], value: &Json) -> Result<Option<usize>, PathFailure>
    ensures choice { result ≡ choice (map T.rule_of list.now) value.now }
    ensures within { OnChosen result (λ i. i < length list.now) }
{
    for (i, item) in list.iter().enumerate() {
        if matches(item.rule(), value)? {
            return Ok(Some(i));
        }
    }
    Ok(None)
}

/// The index of the first rule that matches a value. The list has at most 4,294,967,296 rules.
///
/// It fails where a rule does before one matches.
pub fn choose(list: &[Rule], value: &Json) -> Result<Option<u32>, PathFailure>
    requires { length list.now ≤ 2 ^ 32 }
    ensures { result ≡ choice list.now value.now }
{
    match first_match(list, value)? {
        Some(i) => Ok(Some(i as u32)),
        None => Ok(None),
    }
}
