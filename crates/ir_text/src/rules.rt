//! Choice rules, as they are printed.

ghost use Rattle.std.specs.Prelude.{◌≡◌, ◌∷◌, [], ◌++◌, IfOk, map};
ghost use Rattle.unum_json.specs.declared.value.Json as json;
ghost use Rattle.ir_text.specs.Printed.{kind_name, rel_name, operand_name, operand_value, op_key, op_value, rule_fields, node_rule_value};

use crate::objects::put;
use crate::parts::{number_value, path_value};
use asl_paths::Path;
use choice_rules::{Comparison, NonEmpty, Op, OpKind, Operand, Rel, Rule};
use std::alloc::Global;
use unum_ir::NodeRule;
use unum_json::{Fields, Items, Json, NoMemory, Text, array, copy, object};

fn kind_name(kind: OpKind) -> &'static str
    ensures { result.now ≡ kind_name kind }
{
    match kind {
        OpKind::Text => "String",
        OpKind::Number => "Numeric",
        OpKind::Truth => "Boolean",
    }
}

fn rel_name(rel: Rel) -> &'static str
    ensures { result.now ≡ rel_name rel }
{
    match rel {
        Rel::Equal => "Equals",
        Rel::Less => "LessThan",
        Rel::LessEqual => "LessThanEquals",
        Rel::Greater => "GreaterThan",
        Rel::GreaterEqual => "GreaterThanEquals",
    }
}

fn operand_name(operand: &Operand) -> &'static str
    ensures { result.now ≡ operand_name operand.now }
{
    match operand {
        Operand::Constant(_) => "",
        Operand::Found(_) => "Path",
    }
}

fn operand_value(alloc: Global, operand: &Operand) -> Result<Json, NoMemory>
    ensures { IfOk result (λ v. v ≡ operand_value operand.now) }
{
    match operand {
        Operand::Constant(value) => copy(alloc, value),
        Operand::Found(path) => path_value(alloc, path),
    }
}

fn joined(alloc: Global, kind: &str, rel: &str, operand: &str) -> Result<Text, NoMemory>
    ensures { IfOk result (λ t. t ≡ kind.now ++ rel.now ++ operand.now) }
{
    let mut out = String::from_str(alloc, kind)?;
    out.push_str(rel)?;
    out.push_str(operand)?;
    Ok(Text::from_string(out)?)
}

fn comparison_key(alloc: Global, comparison: &Comparison) -> Result<Text, NoMemory>
    ensures { IfOk result (λ t. t ≡ op_key (Op.Compare comparison.now)) }
{
    let kind = kind_name(comparison.kind);
    let rel = rel_name(comparison.rel);
    joined(alloc, kind, rel, operand_name(&comparison.operand))
}

fn op_key(alloc: Global, op: &Op) -> Result<Text, NoMemory>
    ensures { IfOk result (λ t. t ≡ op_key op.now) }
{
    match op {
        Op::Compare(comparison) => comparison_key(alloc, comparison),
        Op::Matches(_) => Text::from_str(alloc, "StringMatches"),
        Op::IsNull(_) => Text::from_str(alloc, "IsNull"),
        Op::IsPresent(_) => Text::from_str(alloc, "IsPresent"),
        Op::IsNumeric(_) => Text::from_str(alloc, "IsNumeric"),
        Op::IsString(_) => Text::from_str(alloc, "IsString"),
        Op::IsBoolean(_) => Text::from_str(alloc, "IsBoolean"),
    }
}

fn op_value(alloc: Global, op: &Op) -> Result<Json, NoMemory>
    ensures { IfOk result (λ v. v ≡ op_value op.now) }
{
    match op {
        Op::Compare(comparison) => operand_value(alloc, &comparison.operand),
        Op::Matches(pattern) => Ok(Json::string(pattern.spell(alloc)?)),
        Op::IsNull(flag)
        | Op::IsPresent(flag)
        | Op::IsNumeric(flag)
        | Op::IsString(flag)
        | Op::IsBoolean(flag) => Ok(Json::truth(*flag)),
    }
}

/// The fields of a rule that tests a variable.
fn test_fields(alloc: Global, variable: &Path, op: &Op) -> Result<Fields<Json>, NoMemory>
    ensures { IfOk result (λ fs. fs ≡ rule_fields (Rule.Test variable.now op.now)) }
{
    let mut fields = Fields::new(alloc);
    let key = op_key(alloc, op)?;
    let value = op_value(alloc, op)?;
    put(alloc, &mut fields, key.as_str(), value)?;
    let value = path_value(alloc, variable)?;
    put(alloc, &mut fields, "Variable", value)?;
    Ok(fields)
}

/// The fields with this one alone.
fn only(alloc: Global, key: &str, value: Json) -> Result<Fields<Json>, NoMemory>
    ensures { IfOk result (λ fs. fs ≡ (key.now, value) ∷ []) }
{
    let mut fields = Fields::new(alloc);
    put(alloc, &mut fields, key, value)?;
    Ok(fields)
}

/// The fields of a rule.
#[cycle(rules)]
fn rule_fields(alloc: Global, rule: &Rule) -> Result<Fields<Json>, NoMemory>
    ensures { IfOk result (λ fs. fs ≡ rule_fields rule.now) }
{
    match rule {
        Rule::Test { variable, op } => test_fields(alloc, variable, op),
        Rule::And(rules) => only(alloc, "And", rules_value(alloc, rules)?),
        Rule::Or(rules) => only(alloc, "Or", rules_value(alloc, rules)?),
        Rule::Not(rule) => {
            let inner = rule_fields(alloc, rule.get())?;
            only(alloc, "Not", object(alloc, inner)?)
        }
    }
}

#[cycle(rules)]
fn rules_value(alloc: Global, rules: &NonEmpty<Rule>) -> Result<Json, NoMemory>
    ensures { IfOk result (λ v. v ≡ json.Arr (map json.Obj (map rule_fields rules.now))) }
{
    let mut values = Items::new(alloc);
    for rule in rules.as_slice() {
        let fields = rule_fields(alloc, rule)?;
        values.push(object(alloc, fields)?)?;
    }
    array(alloc, values)
}

/// A rule with the number of the node that it leads to.
pub(crate) fn node_rule_value(alloc: Global, rule: &NodeRule) -> Result<Json, NoMemory>
    ensures { IfOk result (λ v. v ≡ node_rule_value rule.now) }
{
    let mut fields = rule_fields(alloc, &rule.rule)?;
    put(alloc, &mut fields, "Next", number_value(rule.next))?;
    object(alloc, fields)
}
