// Reads plain scenarios.

ghost use Rattle.std.specs.Prelude.{◌≡◌, ok_or};
ghost use Rattle.json_value.specs.View.{view};
ghost use Rattle.scenario.specs.declared.errors.ScenarioError.TheVariants.{NotJson};
ghost use Rattle.scenario.specs.Reading.{Reads, value_in, plain_in};

use crate::errors::ScenarioError;
use crate::plain::PlainScenario;
use json_value::{ReadError, Value};
use std::alloc::Global;
use texts::{ReadValue, ShapeError};

// Parses bytes as a JSON value.
fn value_in(alloc: Global, bytes: &[u8]) -> Result<Value, ScenarioError>
    ensures { Reads view result (ok_or (value_in bytes.now) NotJson) }
{
    match Value::from_slice(alloc, bytes) {
        Ok(value) => Ok(value),
        Err(ReadError::NoMemory) => Err(ScenarioError::NoMemory),
        Err(ReadError::NotJson) => Err(ScenarioError::NotJson),
    }
}

/// Reads a plain scenario: `NotJson`, or `BadShape` where the value does not have the shape.
pub(crate) fn plain_in(alloc: Global, bytes: &[u8]) -> Result<PlainScenario, ScenarioError>
    ensures { Reads (λ s. s) result (plain_in bytes.now) }
{
    let value = value_in(alloc, bytes)?;
    match PlainScenario::read_value(alloc, &value) {
        Ok(plain) => Ok(plain),
        Err(error) => match error {
            ShapeError::NoMemory => Err(ScenarioError::NoMemory),
            ShapeError::BadShape => Err(ScenarioError::BadShape),
        },
    }
}
