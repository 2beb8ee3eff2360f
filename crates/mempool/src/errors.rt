//! Why the newest blocks are not replaced.

ghost use Rattle.std.specs.Prelude.{◌≡◌};
ghost use Rattle.mempool.specs.declared.errors.ReorgError.TheVariants.{NoMemory};

use std::alloc::{AllocError, AllocFailed};
use thiserror::Error;

/// Why the newest blocks are not replaced. The causes are checked in this order.
#[derive(Clone, Copy, Debug, PartialEq, Eq, Drop, Error)]
pub enum ReorgError {
    /// Memory ran out.
    #[error("NoMemory")]
    NoMemory,
    /// This number of blocks cannot be taken off. It is 0, it is more than there are above the first block, or one of them holds a grant. Or the height
    /// would fall more than 6 below the greatest that the chain ever had.
    #[error("TooDeep")]
    TooDeep,
    /// The blocks hold fewer transactions than are to be forgotten.
    #[error("NoSuchTx")]
    NoSuchTx,
}

impl From<AllocError> for ReorgError {
    ghost from_gives = { λ _ e. e ≡ NoMemory };

    fn from(_error: AllocError) -> ReorgError {
        ReorgError::NoMemory
    }
}

impl<T: Drop> From<AllocFailed<T>> for ReorgError {
    ghost from_gives = { λ _ e. e ≡ NoMemory };

    fn from(_error: AllocFailed<T>) -> ReorgError {
        ReorgError::NoMemory
    }
}
