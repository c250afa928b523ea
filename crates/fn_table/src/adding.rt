//! The sum of an array.

ghost use Rattle.std.specs.Prelude.{◌≡◌, List, ◌∷◌};
ghost use Rattle.std.specs.Option.{option_and_then};
ghost use Rattle.unum_json.specs.declared.value.Json.{Json};
ghost use Rattle.unum_json.specs.Seen.{shape_of};
ghost use Rattle.fn_table.specs.Answers.{number_in as number_of, total_of, total_from};

use unum_json::{Json, Seen};

/// The whole number that a value is.
fn number_in(value: Seen<'_>) -> Option<i64>
    ensures { result ≡ number_of (shape_of value.entry) }
{
    match value {
        Seen::Int(number) => Some(number),
        _ => None,
    }
}

/// A running total with one item more, if that is a whole number and the sum fits.
fn add(total: i64, item: &Json) -> Option<i64>
    ensures { (rest : List Json) → total_from total (item.now ∷ rest) ≡ option_and_then (λ sum. total_from sum rest) result }
{
    match number_in(item.seen()) {
        Some(number) => total.checked_add(number),
        None => None,
    }
}

/// The sum of an array of whole numbers, if each sum from the left fits.
pub fn sum_up(items: &[Json]) -> Option<i64>
    ensures { result ≡ total_of items.now }
{
    let mut total = 0;
    for item in items {
        total = add(total, item)?;
    }
    Some(total)
}
