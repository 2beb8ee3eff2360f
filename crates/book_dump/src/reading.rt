// Reads the dump in a text.

ghost use Rattle.std.specs.Prelude.{◌≡◌};
ghost use Rattle.serde_json.specs.Read.{read};
ghost use Rattle.book_dump.specs.Loaded.{IsValue, Loads, dump_in};

use crate::errors::LoadError;
use json_value::{ReadError, Value};
use std::alloc::Global;
use texts::{PlainDump, ReadValue, ShapeError};

// Parses a text as a JSON value.
fn value_in(alloc: Global, text: &str) -> Result<Value, LoadError>
    ensures { IsValue result (read text.now) }
{
    match Value::from_str(alloc, text) {
        Ok(value) => Ok(value),
        Err(ReadError::NoMemory) => Err(LoadError::NoMemory),
        Err(ReadError::NotJson) => Err(LoadError::NotJson),
    }
}

/// Reads the dump in a text: `NotJson`, or `BadShape`
/// where the value does not have the shape.
pub(crate) fn dump_in(alloc: Global, text: &str) -> Result<PlainDump, LoadError>
    ensures { Loads result (dump_in text.now) }
{
    let value = value_in(alloc, text)?;
    match PlainDump::read_value(alloc, &value) {
        Ok(dump) => Ok(dump),
        Err(error) => match error {
            ShapeError::NoMemory => Err(LoadError::NoMemory),
            ShapeError::BadShape => Err(LoadError::BadShape),
        },
    }
}
