// Why a text is not read.

ghost use Rattle.std.specs.Prelude.{◌≡◌};
ghost use Rattle.json_value.specs.declared.errors.ReadError.TheVariants.{NoMemory, NotJson};

use json::Invalid;
use std::alloc::{AllocError, AllocFailed};

/// Why a text is not read.
#[derive(Clone, Copy, Debug, PartialEq, Drop)]
pub enum ReadError {
    /// Memory ran out.
    NoMemory,
    /// The text is not JSON, nests deeper than 127, or has a number that no float of 64 bits is near.
    NotJson,
}

impl From<AllocError> for ReadError {
    ghost from_gives = { λ _ e. e ≡ NoMemory };

    fn from(_error: AllocError) -> ReadError {
        ReadError::NoMemory
    }
}

impl<T: Drop> From<AllocFailed<T>> for ReadError {
    ghost from_gives = { λ _ e. e ≡ NoMemory };

    fn from(_error: AllocFailed<T>) -> ReadError {
        ReadError::NoMemory
    }
}

impl From<Invalid> for ReadError {
    ghost from_gives = { λ _ e. e ≡ NotJson };

    fn from(_error: Invalid) -> ReadError {
        ReadError::NotJson
    }
}
