//! Readers that allocate: byte strings of
//! any length, and arrays of one shape.

ghost use Rattle.std.specs.Prelude.{◌≡◌, Option};
ghost use Rattle.serde_json.specs.Data.{Data};
ghost use Rattle.json_value.specs.View.{view, items_view};
ghost use Rattle.texts.specs.Values.{Gives, bytes_of, each_of, list_of, item_of, member_of};

use crate::errors::ShapeError;
use hex::FromHexError;
use json_value::Value;
use lists::{ByteString, List};
use std::alloc::Global;

/// A type that is read from a JSON value, by a reader that may allocate.
pub trait ReadValue: Sized {
    // the value read, or `None` if the JSON value does not have the shape
    ghost reads: { Data → Option Self };

    /// Reads the value; `BadShape` if the
    /// JSON value does not have the shape.
    fn read_value(alloc: Global, value: &Value) -> Result<Self, ShapeError>
        ensures { Gives (λ x. x) result (reads (view value.now)) };
}

// Reads each value of a list.
fn each_of<T: ReadValue + Drop>(alloc: Global, values: &[Value]) -> Result<Vec<T>, ShapeError>
    ensures { Gives (λ xs. xs.items) result (each_of T.reads (items_view values.now)) }
{
    let mut list = Vec::new(alloc);
    for value in values {
        list.push(T::read_value(alloc, value)?)?;
    }
    Ok(list)
}

/// Reads an array whose items all have one shape.
pub fn list_of<T: ReadValue + Drop>(alloc: Global, value: &Value) -> Result<Vec<T>, ShapeError>
    ensures { Gives (λ xs. xs.items) result (list_of T.reads (view value.now)) }
{
    let Some(array) = value.as_array() else {
        return Err(ShapeError::BadShape);
    };
    each_of(alloc, array)
}

/// Decodes a string of hexadecimal digits, in both letter cases.
pub fn bytes_of(alloc: Global, value: &Value) -> Result<Vec<u8>, ShapeError>
    ensures { Gives (λ bytes. bytes.items) result (bytes_of (view value.now)) }
{
    let Some(text) = value.as_str() else {
        return Err(ShapeError::BadShape);
    };
    match hex::decode(alloc, text) {
        Ok(bytes) => Ok(bytes),
        Err(FromHexError::OutOfMemory) => Err(ShapeError::NoMemory),
        Err(_) => Err(ShapeError::BadShape),
    }
}

/// Reads the item of an array at an index.
pub fn read_item<T: ReadValue + Drop>(
    alloc: Global,
    array: &Value,
    index: usize,
) -> Result<T, ShapeError>
    ensures { Gives (λ x. x) result (item_of index T.reads (view array.now)) }
{
    match array.item(index) {
        Some(value) => T::read_value(alloc, value),
        None => Err(ShapeError::BadShape),
    }
}

/// Reads the member of an object with this name.
pub fn read_member<T: ReadValue + Drop>(
    alloc: Global,
    object: &Value,
    name: &str,
) -> Result<T, ShapeError>
    ensures { Gives (λ x. x) result (member_of name.now T.reads (view object.now)) }
{
    match object.member(name) {
        Some(value) => T::read_value(alloc, value),
        None => Err(ShapeError::BadShape),
    }
}

/// A string of hexadecimal digits, in both letter cases.
impl ReadValue for ByteString {
    ghost use Rattle.texts.specs.Values.{bytes_of};

    ghost reads = { bytes_of };

    fn read_value(alloc: Global, value: &Value) -> Result<ByteString, ShapeError> {
        Ok(ByteString::from_vec(bytes_of(alloc, value)?))
    }
}

/// An array whose items all have one shape.
impl<T: ReadValue + Drop> ReadValue for List<T> {
    ghost use Rattle.texts.specs.Values.{list_of};

    ghost reads = { list_of T.reads };

    fn read_value(alloc: Global, value: &Value) -> Result<List<T>, ShapeError> {
        Ok(List::from_vec(list_of(alloc, value)?))
    }
}
