//! Where a state leads.
//!
//! Source: Amazon States Language, "Transitions", "Choice State" and "Fallback States".

ghost use Rattle.std.specs.Prelude.{◌≡◌, ◌++◌};
ghost use Rattle.std.specs.List.{list_any};
ghost use Rattle.asl_model.specs.Tree.{block_tree, state_tree};
ghost use Rattle.asl_model.specs.Valid.{is_lost, is_undecided, lacks_after, one_or_none};
ghost use Rattle.asl_valid.specs.Rules.{catcher_nexts, is_unknown, rule_nexts};

use asl_model::{After, Block, Care, Catcher, State, TopRule};
use unum_json::{Items, Text};

/// Whether a block has no state of that name.
pub fn is_unknown(block: &Block, name: &Text) -> bool
    ensures { result ≡ is_unknown (block_tree block.now) name.now }
{
    block.state(name.as_bytes()).is_none()
}

/// Whether a Next or a Default is no state of the block.
fn is_next_lost(block: &Block, next: &Option<Text>) -> bool
    ensures { result ≡ list_any (is_unknown (block_tree block.now)) (one_or_none next.now) }
{
    match next {
        Some(name) => is_unknown(block, name),
        None => false,
    }
}

/// Whether the Next of a catcher is no state of the block.
fn is_catch_lost(block: &Block, catchers: &Items<Catcher>) -> bool
    ensures { result ≡ list_any (is_unknown (block_tree block.now)) (catcher_nexts catchers.now) }
{
    for catcher in catchers.as_slice() {
        if is_unknown(block, &catcher.next) {
            return true;
        }
    }
    false
}

/// Whether the Next of a rule is no state of the block.
fn is_rule_lost(block: &Block, rules: &Items<TopRule>) -> bool
    ensures { result ≡ list_any (is_unknown (block_tree block.now)) (rule_nexts rules.now) }
{
    for rule in rules.as_slice() {
        if is_unknown(block, &rule.next) {
            return true;
        }
    }
    false
}

/// Whether a Next or the Next of a catcher is no state of the block.
fn is_onward_lost(block: &Block, after: &After, care: &Care) -> bool
    ensures { result ≡ list_any (is_unknown (block_tree block.now)) (one_or_none after.now.next ++ catcher_nexts care.now.catch) }
{
    is_next_lost(block, &after.next) || is_catch_lost(block, &care.catch)
}

/// Whether the Next of a rule or a Default is no state of the block.
fn is_choice_lost(block: &Block, rules: &Items<TopRule>, default: &Option<Text>) -> bool
    ensures { result ≡ list_any (is_unknown (block_tree block.now)) (rule_nexts rules.now ++ one_or_none default.now) }
{
    is_rule_lost(block, rules) || is_next_lost(block, default)
}

/// Whether a state leads to no state of its block.
pub fn is_lost(block: &Block, state: &State) -> bool
    ensures { result ≡ is_lost (block_tree block.now) (state_tree state.now) }
{
    match state {
        State::Task { after, care, .. }
        | State::Parallel { after, care, .. }
        | State::Map { after, care, .. } => is_onward_lost(block, after, care),
        State::Pass { after, .. } => is_next_lost(block, &after.next),
        State::Choice { rules, default, .. } => is_choice_lost(block, rules, default),
        _ => false,
    }
}

/// Whether both or none of Next and End are there.
fn is_undecided(after: &After) -> bool
    ensures { result ≡ is_undecided after.now }
{
    after.next.is_some() == after.end
}

/// Whether a state that has a Next or End has not exactly one of them.
pub fn lacks_after(state: &State) -> bool
    ensures { result ≡ lacks_after (state_tree state.now) }
{
    match state {
        State::Task { after, .. }
        | State::Pass { after, .. }
        | State::Parallel { after, .. }
        | State::Map { after, .. } => is_undecided(after),
        _ => false,
    }
}
