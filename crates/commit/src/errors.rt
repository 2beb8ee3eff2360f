//! Why a view has no commitment.

ghost use Rattle.std.specs.Prelude.{◌≡◌};
ghost use Rattle.commit.specs.Building.{refusal_number};
ghost use Rattle.commit.specs.declared.errors.BuildError.TheVariants.{NoMemory};

use std::alloc::{AllocError, AllocFailed};
use thiserror::Error;

/// Why a view has no commitment. A view that shares out the capacity, with at most 966 HTLCs, has one.
#[derive(Debug, Drop, Error)]
pub enum BuildError {
    /// Memory ran out.
    #[error("NoMemory")]
    NoMemory,
    /// There are more than 4,000 outputs.
    #[error("TooManyOutputs")]
    TooManyOutputs,
    /// The value of an output is above 21,000,000 bitcoins.
    #[error("ValueTooLarge")]
    ValueTooLarge,
}

impl BuildError {
    /// The refusal's number.
    pub fn number(&self) -> u8
        ensures { result ≡ refusal_number self.now }
    {
        match self {
            BuildError::NoMemory => 0,
            BuildError::TooManyOutputs => 1,
            BuildError::ValueTooLarge => 2,
        }
    }
}

impl From<AllocError> for BuildError {
    ghost from_gives = { λ _ e. e ≡ NoMemory };

    fn from(_e: AllocError) -> BuildError {
        BuildError::NoMemory
    }
}

impl<T: Drop> From<AllocFailed<T>> for BuildError {
    ghost from_gives = { λ _ e. e ≡ NoMemory };

    fn from(_e: AllocFailed<T>) -> BuildError {
        BuildError::NoMemory
    }
}
