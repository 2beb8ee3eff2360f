// Why no claim is made of a plain one.

ghost use Rattle.std.specs.Prelude.{◌≡◌};
ghost use Rattle.plain_claims.specs.declared.errors.ClaimError.TheVariants.{NoMemory};

use std::alloc::{AllocError, AllocFailed};
use thiserror::Error;

/// Why no claim is made of a plain one.
#[derive(Clone, Copy, Debug, PartialEq, Eq, Drop, Error)]
pub enum ClaimError {
    /// Memory ran out.
    #[error("NoMemory")]
    NoMemory,
    /// The claim is not accepted, or its script is refused by `parse` or `check`.
    #[error("BadClaim")]
    BadClaim,
}

impl ClaimError {
    ghost use Rattle.plain_claims.specs.Refusals.{claim_error_number};

    /// The number of the refusal; 0 is out of memory.
    pub fn number(&self) -> u8
        ensures { result ≡ claim_error_number self.now }
    {
        match self {
            ClaimError::NoMemory => 0,
            ClaimError::BadClaim => 1,
        }
    }
}

impl From<AllocError> for ClaimError {
    ghost from_gives = { λ _ e. e ≡ NoMemory };

    fn from(_error: AllocError) -> ClaimError {
        ClaimError::NoMemory
    }
}

impl<T: Drop> From<AllocFailed<T>> for ClaimError {
    ghost from_gives = { λ _ e. e ≡ NoMemory };

    fn from(_error: AllocFailed<T>) -> ClaimError {
        ClaimError::NoMemory
    }
}
