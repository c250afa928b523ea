//! The flat form that a value spells.

ghost use Rattle.std.specs.Prelude.{◌≡◌, IfOk, Option, Some, None, map, codes, option_map, true};
ghost use Rattle.unum_json.specs.Parsed.{view};
ghost use Rattle.serde_json.specs.Find.{get};
ghost use Rattle.unum_json.specs.Keys.{find_key};
ghost use Rattle.asl_read.specs.Parts.{json_of as a_json, list_in as some_list, template_at as a_template, map_shape_in as a_map_shape};
ghost use Rattle.ir_text.specs.Tables.{ops, kinds};
ghost use Rattle.ir_text.specs.Spelled.{number_of, number, number_or_null, number_or_null_of, numbers, first_or_zero, node_rule_of, retrier_of, catcher_of, care_of, op_by, node_of, func_by, func_of, scope_of, ir_of};

use crate::kinds::{FuncKind, NodeKind, Object};
use crate::rows::{kind_named, op_named};
use asl_model::{ItemTemplate, MapShape, Retrier};
use asl_read::{
    item_template_at, json_of, list_in, map_shape_in, number_in, pass_shape_in, path_if, path_in,
    path_shape_in, rule_of, shape_in, text_in, texts_in, whole_of,
};
use std::alloc::Global;
use unum_ir::{Func, Ir, Node, NodeCare, NodeCatcher, NodeRule, Op, Scope};
use unum_json::{Items, Json, NoMemory, Value};

/// A number that fits, and for any other the greatest `u32`.
fn number_of(value: &Value) -> u32
    ensures { result ≡ number_of (view value.now) }
{
    match u32::try_from(whole_of(value)) {
        Ok(number) => number,
        Err(_) => u32::MAX,
    }
}

fn number(value: &Value, key: &str) -> u32
    ensures { result ≡ number key.now (view value.now) }
{
    number_in(value, key, u32::MAX, 0)
}

fn number_or_null_of(value: &Value) -> Option<u32>
    ensures { result ≡ number_or_null_of (view value.now) }
{
    match value {
        Value::Null => None,
        _ => Some(number_of(value)),
    }
}

fn number_or_null(value: &Value, key: &str) -> Option<u32>
    ensures { result ≡ number_or_null key.now (view value.now) }
{
    match value.get(key) {
        Some(found) => number_or_null_of(found),
        None => None,
    }
}

fn numbers(alloc: Global, value: &Value, key: &str) -> Result<Items<u32>, NoMemory>
    ensures { IfOk result (λ ns. ns ≡ numbers key.now (view value.now)) }
{
    let mut found = Items::new(alloc);
    for item in list_in(value, key) {
        found.push(number_of(item))?;
    }
    Ok(found)
}

/// The first number of a key's array, or 0.
fn first_number(value: &Value, key: &str) -> u32
    ensures { result ≡ first_or_zero (numbers key.now (view value.now)) }
{
    match list_in(value, key).first() {
        Some(first) => number_of(first),
        None => 0,
    }
}

fn node_rule_of(alloc: Global, value: &Value) -> Result<NodeRule, NoMemory>
    ensures { IfOk result (λ r. r ≡ node_rule_of (view value.now)) }
{
    let rule = rule_of(alloc, value)?;
    Ok(NodeRule {
        rule,
        next: number(value, "Next"),
    })
}

fn node_rules(alloc: Global, value: &Value) -> Result<Items<NodeRule>, NoMemory>
    ensures { IfOk result (λ rs. rs ≡ map node_rule_of (some_list (codes "rules") (view value.now))) }
{
    let mut found = Items::new(alloc);
    for item in list_in(value, "rules") {
        found.push(node_rule_of(alloc, item)?)?;
    }
    Ok(found)
}

fn retrier_of(alloc: Global, value: &Value) -> Result<Retrier, NoMemory>
    ensures { IfOk result (λ r. r ≡ retrier_of (view value.now)) }
{
    let errors = texts_in(alloc, value, "errors")?;
    Ok(Retrier {
        errors,
        most: number(value, "most"),
    })
}

fn catcher_of(alloc: Global, value: &Value) -> Result<NodeCatcher, NoMemory>
    ensures { IfOk result (λ c. c ≡ catcher_of (view value.now)) }
{
    let errors = texts_in(alloc, value, "errors")?;
    match path_if(alloc, value, "result") {
        Ok(result) => Ok(NodeCatcher {
            errors,
            result,
            next: number(value, "next"),
        }),
        Err(refused) => {
            drop(errors);
            Err(refused)
        }
    }
}

fn retriers(alloc: Global, value: &Value) -> Result<Items<Retrier>, NoMemory>
    ensures { IfOk result (λ rs. rs ≡ map retrier_of (some_list (codes "retry") (view value.now))) }
{
    let mut found = Items::new(alloc);
    for item in list_in(value, "retry") {
        found.push(retrier_of(alloc, item)?)?;
    }
    Ok(found)
}

fn catchers(alloc: Global, value: &Value) -> Result<Items<NodeCatcher>, NoMemory>
    ensures { IfOk result (λ cs. cs ≡ map catcher_of (some_list (codes "catch") (view value.now))) }
{
    let mut found = Items::new(alloc);
    for item in list_in(value, "catch") {
        found.push(catcher_of(alloc, item)?)?;
    }
    Ok(found)
}

fn care_of(alloc: Global, value: &Value) -> Result<NodeCare, NoMemory>
    ensures { IfOk result (λ c. c ≡ care_of (view value.now)) }
{
    let retry = retriers(alloc, value)?;
    match catchers(alloc, value) {
        Ok(catch) => Ok(NodeCare { retry, catch }),
        Err(refused) => {
            drop(retry);
            Err(refused)
        }
    }
}

fn result_of(alloc: Global, value: &Value) -> Result<Option<Json>, NoMemory>
    ensures { IfOk result (λ o. o ≡ option_map a_json (get (codes "Result") (view value.now))) }
{
    match value.get("Result") {
        Some(found) => Ok(Some(json_of(alloc, found)?)),
        None => Ok(None),
    }
}

fn selector_of(alloc: Global, value: &Value) -> Result<Option<ItemTemplate>, NoMemory>
    ensures { IfOk result (λ o. o ≡ option_map (a_template true) (get (codes "selector") (view value.now))) }
{
    match value.get("selector") {
        Some(found) => Ok(Some(item_template_at(alloc, found)?)),
        None => Ok(None),
    }
}

fn pass_of(alloc: Global, value: &Value) -> Result<Op, NoMemory>
    ensures { IfOk result (λ op. op ≡ op_by (Some (Object.Node NodeKind.Pass)) (view value.now)) }
{
    let result = result_of(alloc, value)?;
    match pass_shape_in(alloc, value) {
        Ok(shape) => Ok(Op::Pass {
            shape,
            result,
            next: number_or_null(value, "next"),
        }),
        Err(refused) => {
            drop(result);
            Err(refused)
        }
    }
}

fn choice_of(alloc: Global, value: &Value) -> Result<Op, NoMemory>
    ensures { IfOk result (λ op. op ≡ op_by (Some (Object.Node NodeKind.Choice)) (view value.now)) }
{
    let shape = path_shape_in(alloc, value)?;
    match node_rules(alloc, value) {
        Ok(rules) => Ok(Op::Choice {
            shape,
            rules,
            default: number_or_null(value, "default"),
        }),
        Err(refused) => {
            drop(shape);
            Err(refused)
        }
    }
}

fn succeed_of(alloc: Global, value: &Value) -> Result<Op, NoMemory>
    ensures { IfOk result (λ op. op ≡ op_by None (view value.now)) }
{
    Ok(Op::Succeed {
        shape: path_shape_in(alloc, value)?,
    })
}

fn fail_of(alloc: Global, value: &Value) -> Result<Op, NoMemory>
    ensures { IfOk result (λ op. op ≡ op_by (Some (Object.Node NodeKind.Fail)) (view value.now)) }
{
    let error = text_in(alloc, value, "error")?;
    let cause = text_in(alloc, value, "cause")?;
    Ok(Op::Fail { error, cause })
}

fn task_of(alloc: Global, value: &Value) -> Result<Op, NoMemory>
    ensures { IfOk result (λ op. op ≡ op_by (Some (Object.Node NodeKind.Task)) (view value.now)) }
{
    let care = care_of(alloc, value)?;
    match shape_in(alloc, value) {
        Ok(shape) => Ok(Op::Task {
            shape,
            func: number(value, "func"),
            next: number_or_null(value, "next"),
            care,
        }),
        Err(refused) => {
            drop(care);
            Err(refused)
        }
    }
}

fn parallel_of(alloc: Global, value: &Value) -> Result<Op, NoMemory>
    ensures { IfOk result (λ op. op ≡ op_by (Some (Object.Node NodeKind.Parallel)) (view value.now)) }
{
    let scopes = numbers(alloc, value, "scopes")?;
    let Ok(care) = care_of(alloc, value) else {
        drop(scopes);
        return Err(NoMemory);
    };
    match shape_in(alloc, value) {
        Ok(shape) => Ok(Op::Parallel {
            shape,
            func: number(value, "func"),
            next: number_or_null(value, "next"),
            care,
            scopes,
        }),
        Err(refused) => {
            drop(care);
            drop(scopes);
            Err(refused)
        }
    }
}

fn map_with(alloc: Global, value: &Value, shape: MapShape, care: NodeCare) -> Result<Op, NoMemory>
    requires { (shape ≡ a_map_shape (view value.now)) × (care ≡ care_of (view value.now)) }
    ensures { IfOk result (λ op. op ≡ op_by (Some (Object.Node NodeKind.Map)) (view value.now)) }
{
    let Ok(items) = path_in(alloc, value, "items") else {
        drop(shape);
        drop(care);
        return Err(NoMemory);
    };
    match selector_of(alloc, value) {
        Ok(selector) => Ok(Op::Map {
            shape,
            func: number(value, "func"),
            next: number_or_null(value, "next"),
            care,
            scope: first_number(value, "scopes"),
            items,
            selector,
            limit: number(value, "limit"),
        }),
        Err(refused) => {
            drop(shape);
            drop(care);
            drop(items);
            Err(refused)
        }
    }
}

fn map_of(alloc: Global, value: &Value) -> Result<Op, NoMemory>
    ensures { IfOk result (λ op. op ≡ op_by (Some (Object.Node NodeKind.Map)) (view value.now)) }
{
    let care = care_of(alloc, value)?;
    match map_shape_in(alloc, value) {
        Ok(shape) => map_with(alloc, value, shape, care),
        Err(refused) => {
            drop(care);
            Err(refused)
        }
    }
}

fn op_by(alloc: Global, kind: Option<Object>, value: &Value) -> Result<Op, NoMemory>
    ensures { IfOk result (λ op. op ≡ op_by kind (view value.now)) }
{
    match kind {
        Some(Object::Node(kind)) => match kind {
            NodeKind::Pass => pass_of(alloc, value),
            NodeKind::Choice => choice_of(alloc, value),
            NodeKind::Succeed => succeed_of(alloc, value),
            NodeKind::Fail => fail_of(alloc, value),
            NodeKind::Task => task_of(alloc, value),
            NodeKind::Parallel => parallel_of(alloc, value),
            NodeKind::Map => map_of(alloc, value),
        },
        _ => succeed_of(alloc, value),
    }
}

fn node_of(alloc: Global, value: &Value) -> Result<Node, NoMemory>
    ensures { IfOk result (λ n. n ≡ node_of (view value.now)) }
{
    let tag = text_in(alloc, value, "op")?;
    let kind = op_named(tag.as_str());
    drop(tag);
    let name = text_in(alloc, value, "name")?;
    match op_by(alloc, kind, value) {
        Ok(op) => Ok(Node {
            name,
            scope: number(value, "scope"),
            op,
        }),
        Err(refused) => {
            drop(name);
            Err(refused)
        }
    }
}

fn func_by(alloc: Global, kind: Option<Object>, value: &Value) -> Result<Func, NoMemory>
    ensures { IfOk result (λ f. f ≡ func_by kind (view value.now)) }
{
    match kind {
        Some(Object::Func(FuncKind::Task)) => Ok(Func::Task {
            node: number(value, "node"),
            resource: text_in(alloc, value, "resource")?,
        }),
        Some(Object::Func(FuncKind::Join)) => Ok(Func::Join {
            node: number(value, "node"),
        }),
        _ => Ok(Func::Enter {
            scope: number(value, "scope"),
        }),
    }
}

fn func_of(alloc: Global, value: &Value) -> Result<Func, NoMemory>
    ensures { IfOk result (λ f. f ≡ func_of (view value.now)) }
{
    let tag = text_in(alloc, value, "kind")?;
    let kind = kind_named(tag.as_str());
    drop(tag);
    func_by(alloc, kind, value)
}

fn scope_of(value: &Value) -> Scope
    ensures { result ≡ scope_of (view value.now) }
{
    Scope {
        parent: number_or_null(value, "parent"),
        start: number(value, "start"),
    }
}

fn nodes_of(alloc: Global, value: &Value) -> Result<Items<Node>, NoMemory>
    ensures { IfOk result (λ ns. ns ≡ map node_of (some_list (codes "nodes") (view value.now))) }
{
    let mut found = Items::new(alloc);
    for item in list_in(value, "nodes") {
        found.push(node_of(alloc, item)?)?;
    }
    Ok(found)
}

fn funcs_of(alloc: Global, value: &Value) -> Result<Items<Func>, NoMemory>
    ensures { IfOk result (λ fs. fs ≡ map func_of (some_list (codes "funcs") (view value.now))) }
{
    let mut found = Items::new(alloc);
    for item in list_in(value, "funcs") {
        found.push(func_of(alloc, item)?)?;
    }
    Ok(found)
}

fn scopes_of(alloc: Global, value: &Value) -> Result<Items<Scope>, NoMemory>
    ensures { IfOk result (λ ss. ss ≡ map scope_of (some_list (codes "scopes") (view value.now))) }
{
    let mut found = Items::new(alloc);
    for item in list_in(value, "scopes") {
        found.push(scope_of(item))?;
    }
    Ok(found)
}

/// The flat form that a value spells.
pub(crate) fn ir_of(alloc: Global, value: &Value) -> Result<Ir, NoMemory>
    ensures { IfOk result (λ ir. ir ≡ ir_of (view value.now)) }
{
    let scopes = scopes_of(alloc, value)?;
    let Ok(funcs) = funcs_of(alloc, value) else {
        drop(scopes);
        return Err(NoMemory);
    };
    match nodes_of(alloc, value) {
        Ok(nodes) => Ok(Ir {
            nodes,
            funcs,
            scopes,
        }),
        Err(refused) => {
            drop(scopes);
            drop(funcs);
            Err(refused)
        }
    }
}
