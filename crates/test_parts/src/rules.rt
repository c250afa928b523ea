//! Cases of rules, which are JSON as in a Choice, and of patterns:
//!
//! - `rule match RULE, VALUE`: whether a copy of the rule matches a value;
//! - `rule choose [RULE,..], VALUE`: the index of the first rule that matches;
//! - `pattern match PATTERN, TEXT`: whether a pattern matches a text;
//! - `pattern long PATTERN, LETTERS, TIMES`: how often it matches a text of so many letters, of so many times;
//! - `pattern spell PATTERN`: its canonical text.

use crate::cells::{formatted, list_in, members_in, number, quoted, said, text_in};
use crate::paths::path_in;
use crate::refused::{Refused, Told};
use choice_rules::{
    Comparison, NonEmpty, Op, OpKind, Operand, Pattern, Rel, Rule, choose, copy_rule, is_sound,
    matches,
};
use sqlite_items::Boxed;
use std::alloc::{AllocError, Global};
use unum_json::{Fields, Json, Seen, copy};

/// How deep rules are read.
const DEPTH: u32 = 9;

fn pattern_in(alloc: Global, cell: &Json) -> Result<Pattern, Refused> {
    Ok(Pattern::read(alloc, text_in(cell)?.as_str())?)
}

fn relation(name: &str) -> Option<Rel> {
    match name {
        "Equals" => Some(Rel::Equal),
        "LessThan" => Some(Rel::Less),
        "LessThanEquals" => Some(Rel::LessEqual),
        "GreaterThan" => Some(Rel::Greater),
        "GreaterThanEquals" => Some(Rel::GreaterEqual),
        _ => None,
    }
}

/// The comparison's kind, and how its name goes on.
fn kind_of(name: &str) -> Option<(OpKind, &str)> {
    if let Some(rest) = name.strip_prefix("String") {
        return Some((OpKind::Text, rest));
    }
    if let Some(rest) = name.strip_prefix("Numeric") {
        return Some((OpKind::Number, rest));
    }
    Some((OpKind::Truth, name.strip_prefix("Boolean")?))
}

fn compared(kind: OpKind, rel: Rel, operand: Operand) -> Result<Op, Refused> {
    if is_sound(kind, rel, &operand) {
        Ok(Op::Compare(Comparison { kind, rel, operand }))
    } else {
        drop(operand);
        Err(Refused::NoCase)
    }
}

fn comparison(alloc: Global, name: &str, value: &Json) -> Result<Op, Refused> {
    let (kind, rest) = kind_of(name).ok_or(Refused::NoCase)?;
    match rest.strip_suffix("Path") {
        Some(rest) => {
            let rel = relation(rest).ok_or(Refused::NoCase)?;
            compared(kind, rel, Operand::Found(path_in(alloc, value)?))
        }
        None => {
            let rel = relation(rest).ok_or(Refused::NoCase)?;
            compared(kind, rel, Operand::Constant(copy(alloc, value)?))
        }
    }
}

/// The question for a fact.
fn fact(name: &str, flag: bool) -> Option<Op> {
    match name {
        "IsNull" => Some(Op::IsNull(flag)),
        "IsPresent" => Some(Op::IsPresent(flag)),
        "IsNumeric" => Some(Op::IsNumeric(flag)),
        "IsString" => Some(Op::IsString(flag)),
        "IsBoolean" => Some(Op::IsBoolean(flag)),
        _ => None,
    }
}

fn operator(alloc: Global, name: &str, value: &Json) -> Result<Op, Refused> {
    match value.seen() {
        Seen::Bool(flag) if name.starts_with("Is") => fact(name, flag).ok_or(Refused::NoCase),
        _ if name == "StringMatches" => Ok(Op::Matches(pattern_in(alloc, value)?)),
        _ => comparison(alloc, name, value),
    }
}

/// The rule that asks of its variable what the other member says.
fn test(alloc: Global, fields: &Fields<Json>) -> Result<Rule, Refused> {
    let [(name, value), (_variable, variable)] = fields.as_slice() else {
        return Err(Refused::NoCase);
    };
    let variable = path_in(alloc, variable)?;
    match operator(alloc, name.as_str(), value) {
        Ok(op) => Ok(Rule::Test { variable, op }),
        Err(refused) => {
            drop(variable);
            Err(refused)
        }
    }
}

#[cycle(rules)]
fn push_rules(
    alloc: Global,
    depth: u32,
    rules: &mut Vec<Rule>,
    cells: &[Json],
) -> Result<(), Refused> {
    for cell in cells {
        rules.push(rule_in(alloc, depth, cell)?)?;
    }
    Ok(())
}

#[cycle(rules)]
fn rules_in(alloc: Global, depth: u32, cell: &Json) -> Result<Vec<Rule>, Refused> {
    let cells = list_in(cell)?;
    let mut rules = Vec::new(alloc);
    match push_rules(alloc, depth, &mut rules, cells) {
        Ok(()) => Ok(rules),
        Err(refused) => {
            drop(rules);
            Err(refused)
        }
    }
}

#[cycle(rules)]
fn several(alloc: Global, depth: u32, cell: &Json) -> Result<NonEmpty<Rule>, Refused> {
    let rules = rules_in(alloc, depth, cell)?;
    if rules.is_empty() {
        drop(rules);
        return Err(Refused::NoCase);
    }
    Ok(NonEmpty::from_vec(rules))
}

#[cycle(rules)]
fn joined(alloc: Global, depth: u32, name: &str, cell: &Json) -> Result<Rule, Refused> {
    match name {
        "And" => Ok(Rule::And(several(alloc, depth, cell)?)),
        "Or" => Ok(Rule::Or(several(alloc, depth, cell)?)),
        "Not" => Ok(Rule::Not(Boxed::new(alloc, rule_in(alloc, depth, cell)?)?)),
        _ => Err(Refused::NoCase),
    }
}

#[cycle(rules)]
fn rule_in(alloc: Global, depth: u32, cell: &Json) -> Result<Rule, Refused> {
    let fields = members_in(cell)?;
    match fields.as_slice() {
        [(name, cell)] if depth > 0 => joined(alloc, depth - 1, name.as_str(), cell),
        _ => test(alloc, fields),
    }
}

fn match_copy(alloc: Global, rule: &Rule, value: &Json) -> Told {
    let copy = copy_rule(alloc, rule)?;
    let answer = matches(&copy, value);
    drop(copy);
    formatted(answer?.to_string(alloc))
}

fn matched(alloc: Global, rule: &Json, value: &Json) -> Told {
    let rule = rule_in(alloc, DEPTH, rule)?;
    let told = match_copy(alloc, &rule, value);
    drop(rule);
    told
}

fn choice(rules: &[Rule], value: &Json) -> Result<Option<u32>, Refused> {
    if rules.len() > 9 {
        return Err(Refused::NoCase);
    }
    Ok(choose(rules, value)?)
}

fn chosen(alloc: Global, rules: &Json, value: &Json) -> Told {
    let rules = rules_in(alloc, DEPTH, rules)?;
    let choice = choice(rules.as_slice(), value);
    drop(rules);
    match choice? {
        Some(index) => formatted(index.to_string(alloc)),
        None => said(alloc, "none"),
    }
}

/// What a case of rules comes to.
pub fn rule(alloc: Global, verb: &str, cells: &[Json]) -> Told {
    match (verb, cells) {
        ("match", [rule, value]) => matched(alloc, rule, value),
        ("choose", [rules, value]) => chosen(alloc, rules, value),
        _ => Err(Refused::NoCase),
    }
}

fn pattern_match(alloc: Global, pattern: &Json, text: &str) -> Told {
    let pattern = pattern_in(alloc, pattern)?;
    let matched = pattern.matches(text);
    drop(pattern);
    formatted(matched.to_string(alloc))
}

fn push_letters(text: &mut String, count: u32) -> Result<(), AllocError> {
    for _ in 0..count {
        text.push('a')?;
    }
    Ok(())
}

fn count_matches(pattern: &Pattern, text: &str, times: u32) -> u32 {
    let mut count = 0u32;
    for _ in 0..times {
        if pattern.matches(text) {
            count = count.saturating_add(1);
        }
    }
    count
}

fn match_long(alloc: Global, pattern: &Pattern, letters: u32, times: u32) -> Told {
    let mut text = String::new(alloc);
    let pushed = push_letters(&mut text, letters);
    let count = count_matches(pattern, text.as_str(), times);
    drop(text);
    pushed?;
    formatted(format!(in alloc; "{count} of {times}"))
}

fn pattern_long(alloc: Global, pattern: &Json, letters: &Json, times: &Json) -> Told {
    let letters = number(letters)?;
    let times = number(times)?;
    let pattern = pattern_in(alloc, pattern)?;
    let told = match_long(alloc, &pattern, letters, times);
    drop(pattern);
    told
}

fn pattern_spell(alloc: Global, pattern: &Json) -> Told {
    let pattern = pattern_in(alloc, pattern)?;
    let text = pattern.spell(alloc);
    drop(pattern);
    quoted(alloc, "", text?)
}

/// What a case of patterns comes to.
pub fn pattern(alloc: Global, verb: &str, cells: &[Json]) -> Told {
    match (verb, cells) {
        ("match", [pattern, text]) => pattern_match(alloc, pattern, text_in(text)?.as_str()),
        ("long", [pattern, letters, times]) => pattern_long(alloc, pattern, letters, times),
        ("spell", [pattern]) => pattern_spell(alloc, pattern),
        _ => Err(Refused::NoCase),
    }
}
