//! Nodes, functions and scopes, as they are printed.

ghost use Rattle.std.specs.Prelude.{◌≡◌, ◌++◌, ◌∷◌, [], IfOk, OnOk, map, Option, codes};
ghost use Rattle.unum_json.specs.declared.value.Json as json;
ghost use Rattle.ir_text.specs.Printed.{with_rows, there, unless_none, retrier_value, catcher_value, called, op_name, IsFan, op_rows, node_value, func_rows, func_value, scope_value, node_rule_value, number_value as a_number, number_or_null as a_number_or_null, scopes_value as some_scopes, path_value as a_path, template_value as a_template, unless_zero as a_number_if, flow};

use crate::objects::{put, put_if};
use crate::parts::{
    number_or_null, number_value, path_value, put_flow, scopes_value, template_value, text_value,
    texts_value, unless_none, unless_root, unless_zero, word,
};
use crate::rules::node_rule_value;
use asl_model::{ItemTemplate, Retrier};
use asl_paths::Path;
use std::alloc::Global;
use unum_ir::{Func, Node, NodeCare, NodeCatcher, NodeRule, Op, Scope};
use unum_json::{Fields, Items, Json, NoMemory, Text, array, copy, object};

fn retrier_value(alloc: Global, retrier: &Retrier) -> Result<Json, NoMemory>
    ensures { IfOk result (λ v. v ≡ retrier_value retrier.now) }
{
    let mut fields = Fields::new(alloc);
    let value = texts_value(alloc, &retrier.errors)?;
    put(alloc, &mut fields, "errors", value)?;
    put(alloc, &mut fields, "most", number_value(retrier.most))?;
    object(alloc, fields)
}

fn catcher_value(alloc: Global, catcher: &NodeCatcher) -> Result<Json, NoMemory>
    ensures { IfOk result (λ v. v ≡ catcher_value catcher.now) }
{
    let mut fields = Fields::new(alloc);
    let value = texts_value(alloc, &catcher.errors)?;
    put(alloc, &mut fields, "errors", value)?;
    put(alloc, &mut fields, "next", number_value(catcher.next))?;
    let result = unless_root(alloc, &catcher.result)?;
    put_if(alloc, &mut fields, "result", result)?;
    object(alloc, fields)
}

fn retriers(alloc: Global, retry: &Items<Retrier>) -> Result<Option<Json>, NoMemory>
    ensures { IfOk result (λ o. o ≡ unless_none (map retrier_value retry.now)) }
{
    let mut values = Items::new(alloc);
    for retrier in retry.as_slice() {
        values.push(retrier_value(alloc, retrier)?)?;
    }
    unless_none(alloc, values)
}

fn catchers(alloc: Global, catch: &Items<NodeCatcher>) -> Result<Option<Json>, NoMemory>
    ensures { IfOk result (λ o. o ≡ unless_none (map catcher_value catch.now)) }
{
    let mut values = Items::new(alloc);
    for catcher in catch.as_slice() {
        values.push(catcher_value(alloc, catcher)?)?;
    }
    unless_none(alloc, values)
}

/// Adds the function of a Task or a fan, what follows it, and its care.
fn put_called(
    alloc: Global,
    fields: &mut Fields<Json>,
    func: u32,
    next: Option<u32>,
    cared: &NodeCare,
) -> Result<(), NoMemory>
    ensures { OnOk result (fields.new ≡ with_rows fields.old (called func next cared.now)) }
{
    put(alloc, fields, "func", number_value(func))?;
    put(alloc, fields, "next", number_or_null(next))?;
    let retry = retriers(alloc, &cared.retry)?;
    put_if(alloc, fields, "retry", retry)?;
    let catch = catchers(alloc, &cared.catch)?;
    put_if(alloc, fields, "catch", catch)
}

fn rules_value(alloc: Global, rules: &Items<NodeRule>) -> Result<Json, NoMemory>
    ensures { IfOk result (λ v. v ≡ json.Arr (map node_rule_value rules.now)) }
{
    let mut values = Items::with_room(alloc, rules.len())?;
    for rule in rules.as_slice() {
        values.push(node_rule_value(alloc, rule)?)?;
    }
    array(alloc, values)
}

/// Adds what a pass has beside its data flow.
fn put_pass(
    alloc: Global,
    fields: &mut Fields<Json>,
    handed: &Option<Json>,
    next: Option<u32>,
) -> Result<(), NoMemory>
    ensures { OnOk result (fields.new ≡ with_rows fields.old ((codes "Result", handed.now) ∷ there (codes "next") (a_number_or_null next)
        ∷ [])) }
{
    if let Some(handed) = handed {
        let value = copy(alloc, handed)?;
        put(alloc, fields, "Result", value)?;
    }
    put(alloc, fields, "next", number_or_null(next))
}

/// Adds what a map has beside its data flow, its function and its care.
fn put_map(
    alloc: Global,
    fields: &mut Fields<Json>,
    scope: u32,
    items: &Path,
    selector: &Option<ItemTemplate>,
    limit: u32,
) -> Result<(), NoMemory>
    ensures { OnOk result (fields.new ≡ with_rows fields.old (there (codes "scopes") (some_scopes (scope ∷ []))
        ∷ there (codes "items") (a_path items.now)
        ∷ (codes "selector", a_template selector.now) ∷ (codes "limit", a_number_if limit) ∷ [])) }
{
    let value = scopes_value(alloc, &[scope])?;
    put(alloc, fields, "scopes", value)?;
    let value = path_value(alloc, items)?;
    put(alloc, fields, "items", value)?;
    if let Some(selector) = selector {
        let value = copy(alloc, selector.template().source())?;
        put(alloc, fields, "selector", value)?;
    }
    put_if(alloc, fields, "limit", unless_zero(limit))
}

fn op_name(op: &Op) -> &'static str
    ensures { result.now ≡ op_name op.now }
{
    match op {
        Op::Pass { .. } => "pass",
        Op::Choice { .. } => "choice",
        Op::Succeed { .. } => "succeed",
        Op::Fail { .. } => "fail",
        Op::Task { .. } => "task",
        Op::Parallel { .. } => "parallel",
        Op::Map { .. } => "map",
    }
}

fn put_choice(
    alloc: Global,
    fields: &mut Fields<Json>,
    rules: &Items<NodeRule>,
    default: Option<u32>,
) -> Result<(), NoMemory>
    ensures { OnOk result (fields.new ≡ with_rows fields.old (there (codes "rules") (json.Arr (map node_rule_value rules.now))
        ∷ there (codes "default") (a_number_or_null default) ∷ [])) }
{
    let value = rules_value(alloc, rules)?;
    put(alloc, fields, "rules", value)?;
    put(alloc, fields, "default", number_or_null(default))
}

fn put_fail(
    alloc: Global,
    fields: &mut Fields<Json>,
    error: &Text,
    cause: &Text,
) -> Result<(), NoMemory>
    ensures { OnOk result (fields.new ≡ with_rows fields.old (there (codes "error") (json.Str error.now)
        ∷ there (codes "cause") (json.Str cause.now) ∷ [])) }
{
    let value = text_value(alloc, error)?;
    put(alloc, fields, "error", value)?;
    let value = text_value(alloc, cause)?;
    put(alloc, fields, "cause", value)
}

/// Adds what the node of a fan has.
fn put_fan(alloc: Global, fields: &mut Fields<Json>, op: &Op) -> Result<(), NoMemory>
    requires { IsFan op.now }
    ensures { OnOk result (fields.new ≡ with_rows fields.old (op_rows op.now)) }
{
    match op {
        Op::Parallel {
            shape,
            func,
            next,
            care,
            scopes,
        } => {
            put_flow(alloc, fields, shape)?;
            put_called(alloc, fields, *func, *next, care)?;
            let value = scopes_value(alloc, scopes.as_slice())?;
            put(alloc, fields, "scopes", value)
        }
        Op::Map {
            shape,
            func,
            next,
            care,
            scope,
            items,
            selector,
            limit,
        } => {
            put_flow(alloc, fields, shape.shape())?;
            put_called(alloc, fields, *func, *next, care)?;
            put_map(alloc, fields, *scope, items, selector, *limit)
        }
        _ => unreachable!(),
    }
}

/// Adds what a node of its op has.
fn put_op(alloc: Global, fields: &mut Fields<Json>, op: &Op) -> Result<(), NoMemory>
    ensures { OnOk result (fields.new ≡ with_rows fields.old (op_rows op.now)) }
{
    match op {
        Op::Pass {
            shape,
            result,
            next,
        } => {
            put_flow(alloc, fields, shape.shape())?;
            put_pass(alloc, fields, result, *next)
        }
        Op::Choice {
            shape,
            rules,
            default,
        } => {
            put_flow(alloc, fields, shape.shape())?;
            put_choice(alloc, fields, rules, *default)
        }
        Op::Succeed { shape } => put_flow(alloc, fields, shape.shape()),
        Op::Fail { error, cause } => put_fail(alloc, fields, error, cause),
        Op::Task {
            shape,
            func,
            next,
            care,
        } => {
            put_flow(alloc, fields, shape)?;
            put_called(alloc, fields, *func, *next, care)
        }
        fan => put_fan(alloc, fields, fan),
    }
}

fn node_fields(alloc: Global, fields: &mut Fields<Json>, node: &Node) -> Result<(), NoMemory>
    ensures { OnOk result (fields.new ≡ with_rows fields.old (there (codes "name") (json.Str node.now.name)
        ∷ there (codes "op") (json.Str (op_name node.now.op)) ∷ there (codes "scope") (a_number node.now.scope) ∷ op_rows node.now.op)) }
{
    let value = text_value(alloc, &node.name)?;
    put(alloc, fields, "name", value)?;
    let value = word(alloc, op_name(&node.op))?;
    put(alloc, fields, "op", value)?;
    put(alloc, fields, "scope", number_value(node.scope))?;
    put_op(alloc, fields, &node.op)
}

/// A node.
pub(crate) fn node_value(alloc: Global, node: &Node) -> Result<Json, NoMemory>
    ensures { IfOk result (λ v. v ≡ node_value node.now) }
{
    let mut fields = Fields::new(alloc);
    node_fields(alloc, &mut fields, node)?;
    object(alloc, fields)
}

fn put_func(alloc: Global, fields: &mut Fields<Json>, func: &Func) -> Result<(), NoMemory>
    ensures { OnOk result (fields.new ≡ with_rows fields.old (func_rows func.now)) }
{
    match func {
        Func::Enter { scope } => {
            let value = word(alloc, "enter")?;
            put(alloc, fields, "kind", value)?;
            put(alloc, fields, "scope", number_value(*scope))
        }
        Func::Task { node, resource } => {
            let value = word(alloc, "task")?;
            put(alloc, fields, "kind", value)?;
            put(alloc, fields, "node", number_value(*node))?;
            let value = text_value(alloc, resource)?;
            put(alloc, fields, "resource", value)
        }
        Func::Join { node } => {
            let value = word(alloc, "join")?;
            put(alloc, fields, "kind", value)?;
            put(alloc, fields, "node", number_value(*node))
        }
    }
}

/// A function.
pub(crate) fn func_value(alloc: Global, func: &Func) -> Result<Json, NoMemory>
    ensures { IfOk result (λ v. v ≡ func_value func.now) }
{
    let mut fields = Fields::new(alloc);
    put_func(alloc, &mut fields, func)?;
    object(alloc, fields)
}

/// A scope.
pub(crate) fn scope_value(alloc: Global, scope: &Scope) -> Result<Json, NoMemory>
    ensures { IfOk result (λ v. v ≡ scope_value scope.now) }
{
    let mut fields = Fields::new(alloc);
    put(alloc, &mut fields, "parent", number_or_null(scope.parent))?;
    put(alloc, &mut fields, "start", number_value(scope.start))?;
    object(alloc, fields)
}
