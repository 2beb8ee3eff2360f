//! Why a value is not read.

ghost use Rattle.std.specs.Prelude.{◌≡◌};
ghost use Rattle.texts.specs.Refusals.{refusal_number};
ghost use Rattle.texts.specs.declared.errors.ShapeError.TheVariants.{NoMemory};

use std::alloc::{AllocError, AllocFailed};
use thiserror::Error;

/// Why a value is not read.
#[derive(Clone, Copy, Debug, PartialEq, Eq, Drop, Error)]
pub enum ShapeError {
    /// Memory ran out.
    #[error("NoMemory")]
    NoMemory,
    /// The JSON value does not have the shape.
    #[error("BadShape")]
    BadShape,
}

impl ShapeError {
    /// The refusal's number, which is the same in each reader of whole texts; 0 is out of memory.
    pub fn number(&self) -> u8
        ensures { result ≡ refusal_number self.now }
    {
        match self {
            ShapeError::NoMemory => 0,
            ShapeError::BadShape => 2,
        }
    }
}

impl From<AllocError> for ShapeError {
    ghost from_gives = { λ _ e. e ≡ NoMemory };

    fn from(_error: AllocError) -> ShapeError {
        ShapeError::NoMemory
    }
}

impl<T: Drop> From<AllocFailed<T>> for ShapeError {
    ghost from_gives = { λ _ e. e ≡ NoMemory };

    fn from(_error: AllocFailed<T>) -> ShapeError {
        ShapeError::NoMemory
    }
}
