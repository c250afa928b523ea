//! The rules of a Choice.

ghost use Rattle.std.specs.Prelude.{◌≡◌, ◌&&◌, [], IfOk, IsTrue, None, map, codes, option_map, unwrap_or};
ghost use Rattle.serde_json.specs.Find.{get};
ghost use Rattle.unum_json.specs.Parsed.{view};
ghost use Rattle.unum_json.specs.declared.value.Json.{out-Json};
ghost use Rattle.choice_rules.specs.Compared.{is_allowed, is_of_kind};
ghost use Rattle.choice_rules.specs.Patterns.{pattern_of};
ghost use Rattle.asl_read.specs.Parts.{list_in, path_at, path_in};
ghost use Rattle.asl_read.specs.Choices.{operators};
ghost use Rattle.asl_read.specs.Rules.{named_operator, op_by, op_in, no_rule, one_or_more, rule_by, rule_of, rules_of, top_rule_of};

use crate::shapes::{path_at, path_in};
use crate::table::Operator;
use crate::values::{list_in, text_in, text_of, truth_of, whole_of};
use asl_model::TopRule;
use asl_paths::Path;
use choice_rules::{Comparison, NonEmpty, Op, OpKind, Operand, Pattern, PatternError, Rel, Rule};
use sqlite_items::Boxed;
use std::alloc::Global;
use unum_json::{Items, Json, NoMemory, Text, Value};

/// The operators, by their keys.
const OPERATORS: [(&'static str, Operator); 28] = [
    ("StringEquals", Operator::Text(Rel::Equal)),
    ("StringLessThan", Operator::Text(Rel::Less)),
    ("StringLessThanEquals", Operator::Text(Rel::LessEqual)),
    ("StringGreaterThan", Operator::Text(Rel::Greater)),
    ("StringGreaterThanEquals", Operator::Text(Rel::GreaterEqual)),
    ("StringEqualsPath", Operator::TextAt(Rel::Equal)),
    ("StringLessThanPath", Operator::TextAt(Rel::Less)),
    ("StringLessThanEqualsPath", Operator::TextAt(Rel::LessEqual)),
    ("StringGreaterThanPath", Operator::TextAt(Rel::Greater)),
    (
        "StringGreaterThanEqualsPath",
        Operator::TextAt(Rel::GreaterEqual),
    ),
    ("NumericEquals", Operator::Number(Rel::Equal)),
    ("NumericLessThan", Operator::Number(Rel::Less)),
    ("NumericLessThanEquals", Operator::Number(Rel::LessEqual)),
    ("NumericGreaterThan", Operator::Number(Rel::Greater)),
    (
        "NumericGreaterThanEquals",
        Operator::Number(Rel::GreaterEqual),
    ),
    ("NumericEqualsPath", Operator::NumberAt(Rel::Equal)),
    ("NumericLessThanPath", Operator::NumberAt(Rel::Less)),
    (
        "NumericLessThanEqualsPath",
        Operator::NumberAt(Rel::LessEqual),
    ),
    ("NumericGreaterThanPath", Operator::NumberAt(Rel::Greater)),
    (
        "NumericGreaterThanEqualsPath",
        Operator::NumberAt(Rel::GreaterEqual),
    ),
    ("BooleanEquals", Operator::Truth),
    ("BooleanEqualsPath", Operator::TruthAt),
    ("StringMatches", Operator::Matches),
    ("IsNull", Operator::IsNull),
    ("IsPresent", Operator::IsPresent),
    ("IsNumeric", Operator::IsNumeric),
    ("IsString", Operator::IsString),
    ("IsBoolean", Operator::IsBoolean),
];

fn pattern_of(alloc: Global, text: &Text) -> Result<Pattern, NoMemory>
    ensures { IfOk result (λ p. p ≡ unwrap_or (pattern_of text.now) []) }
{
    match Pattern::read(alloc, text.as_str()) {
        Ok(pattern) => Ok(pattern),
        Err(PatternError::LoneBackslash) => Ok(Pattern::empty(alloc)),
        Err(PatternError::NoMemory) => Err(NoMemory),
    }
}

fn found_by(alloc: Global, kind: OpKind, rel: Rel, value: &Value) -> Result<Op, NoMemory>
    requires { IsTrue (is_allowed kind rel) }
    ensures { IfOk result (λ op. op ≡ Op.Compare (record { kind = kind; rel = rel; operand = Operand.Found (path_at (view value.now)) })) }
{
    let operand = Operand::Found(path_at(alloc, value)?);
    Ok(Op::Compare(Comparison { kind, rel, operand }))
}

fn compared(kind: OpKind, rel: Rel, constant: Json) -> Op
    requires { IsTrue (is_allowed kind rel && is_of_kind kind (out-Json constant)) }
    ensures { result ≡ Op.Compare (record { kind = kind; rel = rel; operand = Operand.Constant constant }) }
{
    Op::Compare(Comparison {
        kind,
        rel,
        operand: Operand::Constant(constant),
    })
}

/// What an operator asks for, by the value at its key.
fn op_by(alloc: Global, operator: Operator, value: &Value) -> Result<Op, NoMemory>
    ensures { IfOk result (λ op. op ≡ op_by operator (view value.now)) }
{
    match operator {
        Operator::Text(rel) => {
            let text = text_of(alloc, value)?;
            Ok(compared(OpKind::Text, rel, Json::string(text)))
        }
        Operator::TextAt(rel) => found_by(alloc, OpKind::Text, rel, value),
        Operator::Number(rel) => Ok(compared(OpKind::Number, rel, Json::whole(whole_of(value)))),
        Operator::NumberAt(rel) => found_by(alloc, OpKind::Number, rel, value),
        Operator::Truth => Ok(compared(OpKind::Truth, Rel::Equal, Json::truth(truth_of(value)))),
        Operator::TruthAt => found_by(alloc, OpKind::Truth, Rel::Equal, value),
        Operator::Matches => {
            let text = text_of(alloc, value)?;
            Ok(Op::Matches(pattern_of(alloc, &text)?))
        }
        Operator::IsNull => Ok(Op::IsNull(truth_of(value))),
        Operator::IsPresent => Ok(Op::IsPresent(truth_of(value))),
        Operator::IsNumeric => Ok(Op::IsNumeric(truth_of(value))),
        Operator::IsString => Ok(Op::IsString(truth_of(value))),
        Operator::IsBoolean => Ok(Op::IsBoolean(truth_of(value))),
    }
}

/// The first of these operators that stands in a rule.
fn op_among(
    alloc: Global,
    operators: &[(&'static str, Operator)],
    value: &Value,
) -> Result<Op, NoMemory>
    ensures { IfOk result (λ op. op ≡ op_in (map named_operator operators.now) (view value.now)) }
{
    for row in operators {
        if let Some(found) = value.get(row.0) {
            return op_by(alloc, row.1, found);
        }
    }
    Ok(Op::IsPresent(true))
}

/// The operator that stands in a rule.
fn op_in(alloc: Global, value: &Value) -> Result<Op, NoMemory>
    ensures { IfOk result (λ op. op ≡ op_in operators (view value.now)) }
{
    op_among(alloc, &OPERATORS, value)
}

/// A rule that tests a variable.
fn test(alloc: Global, value: &Value) -> Result<Rule, NoMemory>
    ensures { IfOk result (λ r. r ≡ Rule.Test (path_in (codes "Variable") (view value.now)) (op_in operators (view value.now))) }
{
    let variable = path_in(alloc, value, "Variable")?;
    let op = op_in(alloc, value)?;
    Ok(Rule::Test { variable, op })
}

/// What stands for a rule that is malformed.
fn no_rule(alloc: Global) -> Rule
    ensures { result ≡ no_rule }
{
    Rule::Test {
        variable: Path::root(alloc),
        op: Op::IsPresent(true),
    }
}

fn every(alloc: Global, rules: Vec<Rule>) -> Rule
    ensures { result ≡ one_or_more Rule.And rules.items }
{
    if rules.is_empty() {
        no_rule(alloc)
    } else {
        Rule::And(NonEmpty::from_vec(rules))
    }
}

fn some(alloc: Global, rules: Vec<Rule>) -> Rule
    ensures { result ≡ one_or_more Rule.Or rules.items }
{
    if rules.is_empty() {
        no_rule(alloc)
    } else {
        Rule::Or(NonEmpty::from_vec(rules))
    }
}

/// The rules that an array's items spell.
#[cycle(rules)]
fn rules_of(alloc: Global, value: &Value) -> Result<Vec<Rule>, NoMemory>
    ensures { IfOk result (λ rs. rs.items ≡ rules_of (view value.now)) }
{
    let mut rules = Vec::new(alloc);
    let Value::Array(items) = value else {
        return Ok(rules);
    };
    for item in items.iter() {
        rules.push(rule_of(alloc, item)?)?;
    }
    Ok(rules)
}

/// A rule that is no And and no Or.
#[cycle(rules)]
fn not_or_test(alloc: Global, value: &Value) -> Result<Rule, NoMemory>
    ensures { IfOk result (λ r. r ≡ rule_by (view value.now) None None (option_map rule_of (get (codes "Not") (view value.now)))) }
{
    match value.get("Not") {
        Some(inner) => {
            let rule = rule_of(alloc, inner)?;
            Ok(Rule::Not(Boxed::new(alloc, rule)?))
        }
        None => test(alloc, value),
    }
}

/// A rule that is no And.
#[cycle(rules)]
fn or_not_test(alloc: Global, value: &Value) -> Result<Rule, NoMemory>
    ensures { IfOk result (λ r. r ≡ rule_by (view value.now) None (option_map rules_of (get (codes "Or") (view value.now)))
        (option_map rule_of (get (codes "Not") (view value.now)))) }
{
    match value.get("Or") {
        Some(any) => {
            let rules = rules_of(alloc, any)?;
            Ok(some(alloc, rules))
        }
        None => not_or_test(alloc, value),
    }
}

/// The rule that a value spells.
#[cycle(rules)]
#[tactic(auto, using(crate::proofs::Inside::rule_here))]
pub fn rule_of(alloc: Global, value: &Value) -> Result<Rule, NoMemory>
    ensures { IfOk result (λ r. r ≡ rule_of (view value.now)) }
{
    match value.get("And") {
        Some(all) => {
            let rules = rules_of(alloc, all)?;
            Ok(every(alloc, rules))
        }
        None => or_not_test(alloc, value),
    }
}

fn top_rule_of(alloc: Global, value: &Value) -> Result<TopRule, NoMemory>
    ensures { IfOk result (λ r. r ≡ top_rule_of (view value.now)) }
{
    let rule = rule_of(alloc, value)?;
    let next = text_in(alloc, value, "Next")?;
    Ok(TopRule { rule, next })
}

/// The rules of a Choice.
pub(crate) fn top_rules_in(alloc: Global, value: &Value) -> Result<Items<TopRule>, NoMemory>
    ensures { IfOk result (λ rs. rs ≡ map top_rule_of (list_in (codes "Choices") (view value.now))) }
{
    let mut rules = Items::new(alloc);
    for item in list_in(value, "Choices") {
        rules.push(top_rule_of(alloc, item)?)?;
    }
    Ok(rules)
}
