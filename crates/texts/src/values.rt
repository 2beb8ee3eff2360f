//! Readers that do not allocate: numbers, sides, byte strings of a given length, and the parts of arrays and objects.

ghost use Rattle.std.specs.Prelude.{◌≡◌, Option, option_map};
ghost use Rattle.serde_json.specs.Data.{Data};
ghost use Rattle.serde_json.specs.Find.{as_str};
ghost use Rattle.json_value.specs.View.{view};
ghost use Rattle.texts.specs.Values.{array_of, object_of, item_of, member_of, pair_of, tag_of};

use hex::FromHex;
use json_value::Value;
use terms::Side;

/// A type that is read from a JSON value, without allocating.
pub trait FromValue: Sized {
    // the value read, or `None` if the JSON value does not have the shape
    ghost reads: { Data → Option Self };

    /// Reads the value; `None` if the JSON value does not have the shape.
    fn from_value(value: &Value) -> Option<Self>
        ensures { result ≡ reads (view value.now) };
}

/// A number without sign, fraction or exponent, of at most 64 bits.
impl FromValue for u64 {
    ghost use Rattle.texts.specs.Values.{u64_of};

    ghost reads = { u64_of };

    fn from_value(value: &Value) -> Option<u64> {
        value.as_u64()
    }
}

/// A number without sign, fraction or exponent, of at most 32 bits.
impl FromValue for u32 {
    ghost use Rattle.texts.specs.Values.{u32_of};

    ghost reads = { u32_of };

    fn from_value(value: &Value) -> Option<u32> {
        u32::try_from(value.as_u64()?).ok()
    }
}

/// A number without sign, fraction or exponent, of at most 16 bits.
impl FromValue for u16 {
    ghost use Rattle.texts.specs.Values.{u16_of};

    ghost reads = { u16_of };

    fn from_value(value: &Value) -> Option<u16> {
        u16::try_from(value.as_u64()?).ok()
    }
}

/// A string of hexadecimal digits for `N` bytes, in both letter cases.
impl<const N: usize> FromValue for [u8; N] {
    ghost use Rattle.texts.specs.Values.{bytes_of_len};

    ghost reads = { bytes_of_len N };

    fn from_value(value: &Value) -> Option<[u8; N]> {
        <[u8; N] as FromHex>::from_hex(value.as_str()?).ok()
    }
}

/// The string `A` or `B`.
impl FromValue for Side {
    ghost use Rattle.texts.specs.Values.{side_of};

    ghost reads = { side_of };

    fn from_value(value: &Value) -> Option<Side> {
        match value.as_str()?.as_bytes() {
            b"A" => Some(Side::A),
            b"B" => Some(Side::B),
            _ => None,
        }
    }
}

/// An array of two items, the one of side A first.
impl<T: FromValue + Drop> FromValue for (T, T) {
    ghost use Rattle.texts.specs.Values.{pair_of};

    ghost reads = { pair_of T.reads };

    fn from_value(value: &Value) -> Option<(T, T)> {
        let pair = array_of(value, 2)?;
        Some((item(pair, 0)?, item(pair, 1)?))
    }
}

/// The value, if it is an array of `count` items.
#[tactic(auto, using(crate::proofs::Counts::items_counted))]
pub fn array_of(value: &Value, count: usize) -> Option<&Value>
    ensures { option_map (λ v. view v.now) result ≡ array_of count (view value.now) }
{
    if value.as_array()?.len() != count {
        return None;
    }
    Some(value)
}

/// The value, if it is an object of `count` members.
#[tactic(auto, using(crate::proofs::Counts::members_counted))]
pub fn object_of(value: &Value, count: usize) -> Option<&Value>
    ensures { option_map (λ v. view v.now) result ≡ object_of count (view value.now) }
{
    if value.as_object()?.len() != count {
        return None;
    }
    Some(value)
}

/// Reads the item of an array at an index.
pub fn item<T: FromValue>(array: &Value, index: usize) -> Option<T>
    ensures { result ≡ item_of index T.reads (view array.now) }
{
    T::from_value(array.item(index)?)
}

/// Reads the member of an object with this name.
pub fn member<T: FromValue>(object: &Value, name: &str) -> Option<T>
    ensures { result ≡ member_of name.now T.reads (view object.now) }
{
    T::from_value(object.member(name)?)
}

/// The string that an array has at an index.
pub fn name_at(array: &Value, index: usize) -> Option<&str>
    ensures { option_map (λ t. t.now) result ≡ item_of index as_str (view array.now) }
{
    array.item(index)?.as_str()
}

/// The string at the front of an array, which says what the rest of it is.
pub fn tag_of(value: &Value) -> Option<&str>
    ensures { option_map (λ t. t.now) result ≡ tag_of (view value.now) }
{
    value.item(0)?.as_str()
}
