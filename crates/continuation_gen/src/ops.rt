//! What a state is, by its numbers.

ghost use Rattle.std.specs.Prelude.{◌≡◌, ◌<◌, ◌^◌, ◌+◌, List, ℕ, map, IfOk};
ghost use Rattle.asl_model.specs.Machine as m;
ghost use Rattle.asl_model.specs.Tree.{block_tree, blocks_from, state_tree, care_of, catcher_of};
ghost use Rattle.continuation_gen.specs.Numbering as n;
ghost use Rattle.continuation_gen.specs.Filling.{IsFan, number_in, inner_at};

use crate::counting::scopes_in;
use crate::placed::Spot;
use asl_model::{
    After, Block, Care, Catcher, ItemTemplate, MapShape, PassShape, PathShape, State, TopRule,
    copy_errors, copy_item_template, copy_map_shape, copy_pass_shape, copy_path_shape,
    copy_retriers,
};
use asl_paths::{Path, copy_path};
use asl_shape::{Shape, copy_shape};
use choice_rules::copy_rule;
use std::alloc::Global;
use unum_ir::{Node, NodeCare, NodeCatcher, NodeRule, Op};
use unum_json::{Items, Json, NoMemory, Text, copy, copy_text};

fn copy_path_if(alloc: Global, path: &Option<Path>) -> Result<Option<Path>, NoMemory>
    ensures { IfOk result (λ p. p ≡ path.now) }
{
    match path {
        Some(path) => Ok(Some(copy_path(alloc, path)?)),
        None => Ok(None),
    }
}

fn number_catcher(
    alloc: Global,
    spot: &Spot<'_>,
    catcher: &Catcher,
) -> Result<NodeCatcher, NoMemory>
    ensures { IfOk result (λ c. c ≡ n.number_catcher (number_in spot.now) (catcher_of catcher.now)) }
{
    let errors = copy_errors(alloc, &catcher.errors)?;
    let result = copy_path_if(alloc, &catcher.result)?;
    let next = spot.number(&catcher.next);
    Ok(NodeCatcher {
        errors,
        result,
        next,
    })
}

fn number_catchers(
    alloc: Global,
    spot: &Spot<'_>,
    catch: &Items<Catcher>,
) -> Result<Items<NodeCatcher>, NoMemory>
    ensures { IfOk result (λ c. c ≡ map (n.number_catcher (number_in spot.now)) (map catcher_of catch.now)) }
{
    let mut numbered = Items::with_room(alloc, catch.len())?;
    for catcher in catch.as_slice() {
        numbered.push(number_catcher(alloc, spot, catcher)?)?;
    }
    Ok(numbered)
}

fn number_care(alloc: Global, spot: &Spot<'_>, care: &Care) -> Result<NodeCare, NoMemory>
    ensures { IfOk result (λ c. c ≡ n.number_care (number_in spot.now) (care_of care.now)) }
{
    let retry = copy_retriers(alloc, &care.retry)?;
    let catch = number_catchers(alloc, spot, &care.catch)?;
    Ok(NodeCare { retry, catch })
}

fn number_rule(alloc: Global, spot: &Spot<'_>, rule: &TopRule) -> Result<NodeRule, NoMemory>
    ensures { IfOk result (λ r. r ≡ n.number_rule (number_in spot.now) rule.now) }
{
    let next = spot.number(&rule.next);
    let rule = copy_rule(alloc, &rule.rule)?;
    Ok(NodeRule { rule, next })
}

fn number_rules(
    alloc: Global,
    spot: &Spot<'_>,
    rules: &Items<TopRule>,
) -> Result<Items<NodeRule>, NoMemory>
    ensures { IfOk result (λ r. r ≡ map (n.number_rule (number_in spot.now)) rules.now) }
{
    let mut numbered = Items::with_room(alloc, rules.len())?;
    for rule in rules.as_slice() {
        numbered.push(number_rule(alloc, spot, rule)?)?;
    }
    Ok(numbered)
}

/// The scopes of these blocks, where the first has that number.
fn number_scopes(alloc: Global, first: u32, branches: &Items<Block>) -> Result<Items<u32>, NoMemory>
    requires { first + (n.size_all (blocks_from (map block_tree branches.now))).scope < 2 ^ 32 }
    ensures { IfOk result (λ s. s ≡ n.scope_numbers (inner_at first) (blocks_from (map block_tree branches.now))) }
{
    let mut scopes = Items::with_room(alloc, branches.len())?;
    let mut scope = first;
    for block in branches.as_slice() {
        scopes.push(scope)?;
        scope += scopes_in(block);
    }
    Ok(scopes)
}

fn pass(
    alloc: Global,
    spot: &Spot<'_>,
    shape: &PassShape,
    value: &Option<Json>,
    after: &After,
) -> Result<Op, NoMemory>
    ensures { IfOk result (λ op. op ≡ n.op_of (number_in spot.now) spot.now.func (inner_at spot.now.scope) (m.Pass shape.now value.now after.now)) }
{
    let result = match value {
        Some(value) => Some(copy(alloc, value)?),
        None => None,
    };
    let shape = copy_pass_shape(alloc, shape)?;
    Ok(Op::Pass {
        shape,
        result,
        next: spot.next(&after.next),
    })
}

fn choice(
    alloc: Global,
    spot: &Spot<'_>,
    shape: &PathShape,
    rules: &Items<TopRule>,
    default: &Option<Text>,
) -> Result<Op, NoMemory>
    ensures { IfOk result (λ op. op ≡ n.op_of (number_in spot.now) spot.now.func (inner_at spot.now.scope) (m.Choice shape.now rules.now default.now)) }
{
    let rules = number_rules(alloc, spot, rules)?;
    let shape = copy_path_shape(alloc, shape)?;
    Ok(Op::Choice {
        shape,
        rules,
        default: spot.next(default),
    })
}

fn fail(alloc: Global, error: &Text, cause: &Text) -> Result<Op, NoMemory>
    ensures { IfOk result (λ op. op ≡ Op.Fail error.now cause.now) }
{
    let error = copy_text(alloc, error)?;
    let cause = copy_text(alloc, cause)?;
    Ok(Op::Fail { error, cause })
}

fn task(
    alloc: Global,
    spot: &Spot<'_>,
    shape: &Shape,
    after: &After,
    care: &Care,
) -> Result<Op, NoMemory>
    ensures { (resource : List ℕ) → IfOk result (λ op. op ≡ n.op_of (number_in spot.now) spot.now.func (inner_at spot.now.scope) (m.Task shape.now resource after.now (care_of care.now))) }
{
    let care = number_care(alloc, spot, care)?;
    let shape = copy_shape(alloc, shape)?;
    Ok(Op::Task {
        shape,
        func: spot.func,
        next: spot.next(&after.next),
        care,
    })
}

fn parallel(
    alloc: Global,
    spot: &Spot<'_>,
    shape: &Shape,
    branches: &Items<Block>,
    after: &After,
    care: &Care,
) -> Result<Op, NoMemory>
    requires { spot.now.scope + (n.size_all (blocks_from (map block_tree branches.now))).scope < 2 ^ 32 }
    ensures { IfOk result (λ op. op ≡ n.op_of (number_in spot.now) spot.now.func (inner_at spot.now.scope) (m.Parallel shape.now (blocks_from (map block_tree branches.now)) after.now (care_of care.now))) }
{
    let scopes = number_scopes(alloc, spot.scope, branches)?;
    let care = number_care(alloc, spot, care)?;
    let shape = copy_shape(alloc, shape)?;
    Ok(Op::Parallel {
        shape,
        func: spot.func,
        next: spot.next(&after.next),
        care,
        scopes,
    })
}

/// What a Map goes over.
#[derive(Clone, Copy)]
struct Iteration<'m> {
    items: &'m Path,
    selector: &'m Option<ItemTemplate>,
    limit: u32,
}

fn map_op(
    alloc: Global,
    spot: &Spot<'_>,
    shape: &MapShape,
    iteration: &Iteration<'_>,
    after: &After,
    care: &Care,
) -> Result<Op, NoMemory>
    ensures { (body : m.Block) → IfOk result (λ op. op ≡ n.op_of (number_in spot.now) spot.now.func (inner_at spot.now.scope) (m.Map shape.now iteration.now.items.now iteration.now.selector.now body after.now (care_of care.now) iteration.now.limit)) }
{
    let items = copy_path(alloc, iteration.items)?;
    let selector = match iteration.selector {
        Some(selector) => Some(copy_item_template(alloc, selector)?),
        None => None,
    };
    let care = number_care(alloc, spot, care)?;
    let shape = copy_map_shape(alloc, shape)?;
    Ok(Op::Map {
        shape,
        func: spot.func,
        next: spot.next(&after.next),
        care,
        scope: spot.scope,
        items,
        selector,
        limit: iteration.limit,
    })
}

/// A fan by its numbers.
fn fan_of(alloc: Global, spot: &Spot<'_>, state: &State) -> Result<Op, NoMemory>
    requires fan { IsFan (state_tree state.now) }
    requires fits { spot.now.scope + (n.size_under (state_tree state.now)).scope < 2 ^ 32 }
    ensures { IfOk result (λ op. op ≡ n.op_of (number_in spot.now) spot.now.func (inner_at spot.now.scope) (state_tree state.now)) }
{
    match state {
        State::Parallel {
            shape,
            branches,
            after,
            care,
        } => parallel(alloc, spot, shape, branches, after, care),
        State::Map {
            shape,
            items,
            selector,
            after,
            care,
            limit,
            ..
        } => {
            let iteration = Iteration {
                items,
                selector,
                limit: *limit,
            };
            map_op(alloc, spot, shape, &iteration, after, care)
        }
        _ => unreachable!(),
    }
}

/// A state by its numbers.
fn op_of(alloc: Global, spot: &Spot<'_>, state: &State) -> Result<Op, NoMemory>
    requires { spot.now.scope + (n.size_under (state_tree state.now)).scope < 2 ^ 32 }
    ensures { IfOk result (λ op. op ≡ n.op_of (number_in spot.now) spot.now.func (inner_at spot.now.scope) (state_tree state.now)) }
{
    match state {
        State::Pass {
            shape,
            result,
            after,
        } => pass(alloc, spot, shape, result, after),
        State::Choice {
            shape,
            rules,
            default,
        } => choice(alloc, spot, shape, rules, default),
        State::Succeed { shape } => Ok(Op::Succeed {
            shape: copy_path_shape(alloc, shape)?,
        }),
        State::Fail { error, cause } => fail(alloc, error, cause),
        State::Task {
            shape,
            after,
            care,
            ..
        } => task(alloc, spot, shape, after, care),
        fan => fan_of(alloc, spot, fan),
    }
}

/// The node of a state of the scope with that number.
pub fn node_of(
    alloc: Global,
    spot: &Spot<'_>,
    scope: u32,
    row: &(Text, State),
) -> Result<Node, NoMemory>
    requires { spot.now.scope + (n.size_under (state_tree row.now.1)).scope < 2 ^ 32 }
    ensures { IfOk result (λ node. node ≡ record { name = row.now.0; scope = scope; op = n.op_of (number_in spot.now) spot.now.func (inner_at spot.now.scope) (state_tree row.now.1) }) }
{
    let name = copy_text(alloc, &row.0)?;
    let op = op_of(alloc, spot, &row.1)?;
    Ok(Node { name, scope, op })
}
