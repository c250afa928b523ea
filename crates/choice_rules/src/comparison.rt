//! Comparisons of what a variable finds with an operand.

ghost use Rattle.std.specs.Prelude.{◌≡◌};
ghost use Rattle.choice_rules.specs.Compared.{is_of_kind as of_kind, is_sound as sound};
ghost use Rattle.unum_json.specs.Seen.{shape_of};
ghost use Rattle.choice_rules.specs.Comparing.{holds as holds_at, relates as related, relates_at};

use asl_paths::Path;
use std::cmp::Ordering;
use std::marker::Model;
use unum_json::{Json, Seen};

/// What a comparison is about.
#[derive(Clone, Copy, Debug, PartialEq, Eq)]
pub enum OpKind {
    /// Texts, ordered by their UTF-8 bytes.
    Text,
    /// Whole numbers.
    Number,
    /// Truth values.
    Truth,
}

/// How the variable's value is to stand to the operand.
#[derive(Clone, Copy, Debug, PartialEq, Eq)]
pub enum Rel {
    /// It is equal.
    Equal,
    /// It is less.
    Less,
    /// It is less or equal.
    LessEqual,
    /// It is greater.
    Greater,
    /// It is greater or equal.
    GreaterEqual,
}

/// What the variable's value is compared with.
#[derive(Drop)]
pub enum Operand {
    /// This value.
    Constant(Json),
    /// What a path finds.
    Found(Path),
}

/// A comparison with an operand.
///
/// Truth values are compared by `Equal` alone, and an operand that is a constant is of the comparison's kind.
#[derive(Drop)]
pub struct Comparison {
    /// The type that both values are to have.
    pub kind: OpKind,
    /// How the variable's value is to stand to the operand.
    pub rel: Rel,
    /// What it is compared with.
    pub operand: Operand,
}

impl Model for Comparison {
    ghost use Rattle.std.specs.Prelude.{IsTrue};
    ghost use Rattle.choice_rules.specs.Compared.{Compared, is_sound};
    ghost use Rattle.std.specs.Coded.{codes};
    ghost use Rattle.choice_rules.specs.contracts.comparison.Operand as right;

    ghost Value = { Compared };

    ghost coded = { Prim.hlevel (codes, right.the_row.coded) };

    ghost view = { λ c. record { kind = c.kind; rel = c.rel; operand = c.operand } };

    ghost invariant = { λ c. IsTrue (is_sound c.kind c.rel c.operand) };
}

/// Whether a value is a text, a number or a truth value, as the kind says.
fn is_of_kind(kind: OpKind, value: Seen<'_>) -> bool
    ensures { result ≡ of_kind kind (shape_of value.entry) }
{
    match (kind, value) {
        (OpKind::Text, Seen::Str(_)) => true,
        (OpKind::Number, Seen::Int(_)) => true,
        (OpKind::Truth, Seen::Bool(_)) => true,
        _ => false,
    }
}

/// Whether there may be a comparison of this kind by this relation with this operand.
pub fn is_sound(kind: OpKind, rel: Rel, operand: &Operand) -> bool
    ensures { result ≡ sound kind rel operand.now }
{
    if kind == OpKind::Truth && rel != Rel::Equal {
        return false;
    }
    match operand {
        Operand::Constant(value) => is_of_kind(kind, value.seen()),
        Operand::Found(_) => true,
    }
}

/// Whether two values in this order stand so.
fn holds(rel: Rel, order: Ordering) -> bool
    ensures { result ≡ holds_at rel order }
{
    match rel {
        Rel::Equal => order.is_eq(),
        Rel::Less => order.is_lt(),
        Rel::LessEqual => order.is_le(),
        Rel::Greater => order.is_gt(),
        Rel::GreaterEqual => order.is_ge(),
    }
}

/// Whether two values are of this kind and stand so.
pub(crate) fn relates(kind: OpKind, rel: Rel, left: &Json, right: &Json) -> bool
    ensures { result ≡ related kind rel left.now right.now }
{
    relates_seen(kind, rel, left.seen(), right.seen())
}

fn relates_seen(kind: OpKind, rel: Rel, left: Seen<'_>, right: Seen<'_>) -> bool
    ensures { result ≡ relates_at kind rel (shape_of left.entry) (shape_of right.entry) }
{
    match (kind, left, right) {
        (OpKind::Text, Seen::Str(left), Seen::Str(right)) => {
            holds(rel, left.as_bytes().cmp(right.as_bytes()))
        }
        (OpKind::Number, Seen::Int(left), Seen::Int(right)) => holds(rel, left.cmp(&right)),
        (OpKind::Truth, Seen::Bool(left), Seen::Bool(right)) => left == right,
        _ => false,
    }
}
