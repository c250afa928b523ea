//! JSON values as their texts spell them.

ghost use Rattle.std.specs.Prelude.{◌≡◌, option_map, option_and_then};
ghost use Rattle.serde_json.specs.Find.{get, as_bool, as_number, as_str, as_array, as_object, as_i64};
ghost use Rattle.serde_json.specs.View.{number_view};
ghost use Rattle.unum_json.specs.Parsed.{view, items_view, members_view};

use crate::fields::Fields;
use crate::text::Text;
use serde_json::Number;

/// A JSON value (RFC 8259, section 3) as its text spells it: a number is an integer of 64 bits or a finite float.
///
/// Contracts see it as the value that `serde_json` has for it.
#[derive(Drop)]
pub enum Value {
    /// The literal `null`.
    Null,
    /// The literal `true` or `false`.
    Bool(bool),
    /// A number.
    Number(Number),
    /// A string.
    String(Text),
    /// An array.
    Array(Vec<Value>),
    /// An object, with each key once and the keys in rising byte order.
    Object(Fields<Value>),
}

impl Value {
    /// The value of a key, or `None` exactly where this is no object that has the key.
    pub fn get(&self, key: &str) -> Option<&Value>
        ensures { option_map (λ v. view v.now) result ≡ get key.now (view self.now) }
    {
        match self {
            Value::Object(members) => members.get(key.as_bytes()),
            _ => None,
        }
    }

    /// The truth value, or `None` exactly where this is none.
    pub fn as_bool(&self) -> Option<bool>
        ensures { result ≡ as_bool (view self.now) }
    {
        match self {
            Value::Bool(truth) => Some(*truth),
            _ => None,
        }
    }

    /// The number, or `None` exactly where this is none.
    pub fn as_number(&self) -> Option<&Number>
        ensures { option_map (λ n. number_view n.now) result ≡ as_number (view self.now) }
    {
        match self {
            Value::Number(number) => Some(number),
            _ => None,
        }
    }

    /// The whole number that fits an `i64`, or `None` exactly where this is none.
    pub fn as_i64(&self) -> Option<i64>
        ensures { result ≡ option_and_then as_i64 (as_number (view self.now)) }
    {
        match self {
            Value::Number(number) => number.as_i64(),
            _ => None,
        }
    }

    /// The text of a string, or `None` exactly where this is none.
    pub fn as_str(&self) -> Option<&str>
        ensures { option_map (λ s. s.now) result ≡ as_str (view self.now) }
    {
        match self {
            Value::String(text) => Some(text.as_str()),
            _ => None,
        }
    }

    /// The items of an array, or `None` exactly where this is none.
    pub fn as_array(&self) -> Option<&Vec<Value>>
        ensures { option_map (λ v. items_view v.now.items) result ≡ as_array (view self.now) }
    {
        match self {
            Value::Array(items) => Some(items),
            _ => None,
        }
    }

    /// The members of an object, or `None` exactly where this is none.
    pub fn as_object(&self) -> Option<&Fields<Value>>
        ensures { option_map (λ m. members_view m.now) result ≡ as_object (view self.now) }
    {
        match self {
            Value::Object(members) => Some(members),
            _ => None,
        }
    }
}
