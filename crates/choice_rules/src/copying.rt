//! Equal copies of rules.

ghost use Rattle.std.specs.Prelude.{◌≡◌, IfOk};

use crate::comparison::{Comparison, Operand};
use crate::pattern::Pattern;
use crate::rule::{Op, Rule};
use crate::several::NonEmpty;
use asl_paths::copy_path;
use sqlite_items::Boxed;
use std::alloc::Global;
use unum_json::{NoMemory, copy};

fn copy_operand(alloc: Global, operand: &Operand) -> Result<Operand, NoMemory>
    ensures { IfOk result (λ o. o ≡ operand.now) }
{
    match operand {
        Operand::Constant(value) => Ok(Operand::Constant(copy(alloc, value)?)),
        Operand::Found(path) => Ok(Operand::Found(copy_path(alloc, path)?)),
    }
}

fn copy_comparison(alloc: Global, comparison: &Comparison) -> Result<Comparison, NoMemory>
    ensures { IfOk result (λ c. c ≡ comparison.now) }
{
    let operand = copy_operand(alloc, &comparison.operand)?;
    Ok(Comparison {
        kind: comparison.kind,
        rel: comparison.rel,
        operand,
    })
}

fn copy_pattern(alloc: Global, pattern: &Pattern) -> Result<Pattern, NoMemory>
    ensures { IfOk result (λ p. p ≡ pattern.now) }
{
    let pieces = Vec::from_slice(alloc, pattern.pieces())?;
    Ok(Pattern::from_pieces(pieces))
}

fn copy_op(alloc: Global, op: &Op) -> Result<Op, NoMemory>
    ensures { IfOk result (λ o. o ≡ op.now) }
{
    match op {
        Op::Compare(comparison) => Ok(Op::Compare(copy_comparison(alloc, comparison)?)),
        Op::Matches(pattern) => Ok(Op::Matches(copy_pattern(alloc, pattern)?)),
        Op::IsNull(flag) => Ok(Op::IsNull(*flag)),
        Op::IsPresent(flag) => Ok(Op::IsPresent(*flag)),
        Op::IsNumeric(flag) => Ok(Op::IsNumeric(*flag)),
        Op::IsString(flag) => Ok(Op::IsString(*flag)),
        Op::IsBoolean(flag) => Ok(Op::IsBoolean(*flag)),
    }
}

/// An equal rule.
#[cycle(copy)]
pub fn copy_rule(alloc: Global, rule: &Rule) -> Result<Rule, NoMemory>
    ensures { IfOk result (λ r. r ≡ rule.now) }
{
    match rule {
        Rule::Test { variable, op } => {
            let variable = copy_path(alloc, variable)?;
            let op = copy_op(alloc, op)?;
            Ok(Rule::Test { variable, op })
        }
        Rule::And(rules) => Ok(Rule::And(copy_rules(alloc, rules)?)),
        Rule::Or(rules) => Ok(Rule::Or(copy_rules(alloc, rules)?)),
        Rule::Not(rule) => {
            let copied = copy_rule(alloc, rule.get())?;
            Ok(Rule::Not(Boxed::new(alloc, copied)?))
        }
    }
}

#[cycle(copy)]
fn copy_rules(alloc: Global, rules: &NonEmpty<Rule>) -> Result<NonEmpty<Rule>, NoMemory>
    ensures { IfOk result (λ r. r ≡ rules.now) }
{
    let mut copies = Vec::new(alloc);
    for rule in rules.as_slice() {
        copies.push(copy_rule(alloc, rule)?)?;
    }
    Ok(NonEmpty::from_vec(copies))
}
