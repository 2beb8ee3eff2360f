// A value, and what is found in it.

ghost use Rattle.std.specs.Prelude.{◌≡◌, is_some, option_map, option_and_then};
ghost use Rattle.serde_json.specs.Find.{as_null, as_number, as_str, as_u64, as_array, as_object, at, get};
ghost use Rattle.json_value.specs.View.{view, items_view, members_view};

use crate::objects::{found_in, item_at};
use serde_json::Number;

/// A JSON value, which owns its text. An object has each name once, in the order of their bytes. Where a name came twice, it has the last value.
#[derive(Drop)]
pub enum Value {
    Null,
    Bool(bool),
    Number(Number),
    String(String),
    Array(Vec<Value>),
    Object(Vec<(String, Value)>),
}

impl Value {
    /// Whether the value is `null`.
    pub fn is_null(&self) -> bool
        ensures { result ≡ is_some (as_null (view self.now)) }
    {
        matches!(self, Value::Null)
    }

    /// The number, if the value is one without sign, fraction or exponent, of at most 64 bits.
    pub fn as_u64(&self) -> Option<u64>
        ensures { result ≡ option_and_then as_u64 (as_number (view self.now)) }
    {
        match self {
            Value::Number(number) => number.as_u64(),
            _ => None,
        }
    }

    /// The text, if the value is a string.
    pub fn as_str(&self) -> Option<&str>
        ensures { option_map (λ s. s.now) result ≡ as_str (view self.now) }
    {
        match self {
            Value::String(text) => Some(text.as_str()),
            _ => None,
        }
    }

    /// The items, if the value is an array.
    pub fn as_array(&self) -> Option<&[Value]>
        ensures { option_map (λ v. items_view v.now) result ≡ as_array (view self.now) }
    {
        match self {
            Value::Array(items) => Some(items.as_slice()),
            _ => None,
        }
    }

    /// The members, if the value is an object, in the order of their names.
    pub fn as_object(&self) -> Option<&[(String, Value)]>
        ensures { option_map (λ m. members_view m.now) result ≡ as_object (view self.now) }
    {
        match self {
            Value::Object(members) => Some(members.as_slice()),
            _ => None,
        }
    }

    /// The item of an array at an index.
    pub fn item(&self, index: usize) -> Option<&Value>
        ensures { option_map (λ v. view v.now) result ≡ at index (view self.now) }
    {
        match self {
            Value::Array(items) => item_at(items, index),
            _ => None,
        }
    }

    /// The member of an object with this name.
    pub fn member(&self, name: &str) -> Option<&Value>
        ensures { option_map (λ v. view v.now) result ≡ get name.now (view self.now) }
    {
        match self {
            Value::Object(members) => found_in(members, name),
            _ => None,
        }
    }
}
