//! The texts of refusals.

ghost use Rattle.std.specs.Prelude.{◌≡◌, ◌++◌, codes, flat_map, string_bytes, IfOk, OnOk};
ghost use Rattle.unum_json.specs.Written.{quoted};
ghost use Rattle.unum_cli.specs.Refused.{bundle_name, code_name, valid_name, pair_text, refusal_text};

use asl_model::VRule;
use bundle_read::{BRule, BrokenPair, Refusal, RuleCode};
use std::alloc::Global;
use unum_json::{Items, Json, NoMemory, Text, copy_text, to_text};

fn bundle_name(rule: BRule) -> &'static str
    ensures { result.now ≡ bundle_name rule }
{
    match rule {
        BRule::B1 => "B1",
        BRule::B2 => "B2",
        BRule::B3 => "B3",
        BRule::B4 => "B4",
        BRule::B5 => "B5",
    }
}

fn code_name(rule: RuleCode) -> &'static str
    ensures { result.now ≡ code_name rule }
{
    match rule {
        RuleCode::Reading(rule) => rule.as_str(),
        RuleCode::Bundle(rule) => bundle_name(rule),
        RuleCode::Flat(rule) => rule.as_str(),
    }
}

fn valid_name(rule: VRule) -> &'static str
    ensures { result.now ≡ valid_name rule }
{
    match rule {
        VRule::V1 => "V1",
        VRule::V2 => "V2",
        VRule::V3 => "V3",
        VRule::V4 => "V4",
        VRule::V5 => "V5",
        VRule::V6 => "V6",
        VRule::V7 => "V7",
        VRule::V8 => "V8",
        VRule::V9 => "V9",
        VRule::V10 => "V10",
        VRule::V11 => "V11",
    }
}

/// Adds a blank, and a text as JSON.
pub(crate) fn push_quoted(alloc: Global, out: &mut String, text: &Text) -> Result<(), NoMemory>
    ensures { OnOk result (string_bytes out.new ≡ string_bytes out.old ++ codes " " ++ quoted text.now) }
{
    let json = Json::string(copy_text(alloc, text)?);
    let text = to_text(alloc, &json)?;
    out.push_str(" ")?;
    out.push_str(text.as_str())?;
    Ok(())
}

fn push_pair(alloc: Global, out: &mut String, pair: &BrokenPair) -> Result<(), NoMemory>
    ensures { OnOk result (string_bytes out.new ≡ string_bytes out.old ++ pair_text pair.now) }
{
    out.push_str("refused ")?;
    out.push_str(valid_name(pair.rule))?;
    push_quoted(alloc, out, &pair.machine)?;
    push_quoted(alloc, out, &pair.state)?;
    out.push_str("\n")?;
    Ok(())
}

fn push_pairs(alloc: Global, out: &mut String, pairs: &Items<BrokenPair>) -> Result<(), NoMemory>
    ensures { OnOk result (string_bytes out.new ≡ string_bytes out.old ++ flat_map pair_text pairs.now) }
{
    for pair in pairs.as_slice() {
        push_pair(alloc, out, pair)?;
    }
    Ok(())
}

fn push_one(alloc: Global, out: &mut String, rule: RuleCode, at: &Text) -> Result<(), NoMemory>
    ensures { OnOk result (string_bytes out.new ≡ string_bytes out.old ++ refusal_text (Refusal.One rule at.now)) }
{
    out.push_str("refused ")?;
    out.push_str(code_name(rule))?;
    push_quoted(alloc, out, at)?;
    out.push_str("\n")?;
    Ok(())
}

fn push_refusal(alloc: Global, out: &mut String, refusal: &Refusal) -> Result<(), NoMemory>
    ensures { OnOk result (string_bytes out.new ≡ string_bytes out.old ++ refusal_text refusal.now) }
{
    match refusal {
        Refusal::One { rule, at } => push_one(alloc, out, *rule, at),
        Refusal::Many(pairs) => push_pairs(alloc, out, pairs),
    }
}

/// The text of a refusal: a line with the rule and the place, or a line for each rule that a machine breaks, with the
/// machine and the state.
pub fn refusal_text(alloc: Global, refusal: &Refusal) -> Result<Text, NoMemory>
    ensures { IfOk result (λ t. t ≡ refusal_text refusal.now) }
{
    let mut out = String::new(alloc);
    push_refusal(alloc, &mut out, refusal)?;
    Ok(Text::from_string(out)?)
}
