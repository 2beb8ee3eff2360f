//! Why a dump is not loaded.

ghost use Rattle.std.specs.Prelude.{◌≡◌};
ghost use Rattle.book_dump.specs.declared.errors.EntryError.TheVariants.{NoMemory};

use std::alloc::{AllocError, AllocFailed};
use thiserror::Error;

/// Why an entry of a dump is refused before its call is made.
#[derive(Clone, Copy, Debug, PartialEq, Eq, Drop, Error)]
pub enum EntryError {
    /// Memory ran out.
    #[error("NoMemory")]
    NoMemory,
    /// The two sides cannot agree on the terms of an opening. Or a release has no claim, or more than 4,000 claims or outputs.
    #[error("BadShape")]
    BadShape,
    /// A claim is not accepted, or its script is refused by `parse` or `check`.
    #[error("BadClaim")]
    BadClaim,
}

impl From<AllocError> for EntryError {
    ghost from_gives = { λ _ e. e ≡ NoMemory };

    fn from(_error: AllocError) -> EntryError {
        EntryError::NoMemory
    }
}

impl<T: Drop> From<AllocFailed<T>> for EntryError {
    ghost from_gives = { λ _ e. e ≡ NoMemory };

    fn from(_error: AllocFailed<T>) -> EntryError {
        EntryError::NoMemory
    }
}

/// Why a text is not loaded as a book. Entries are counted from 0, the oldest first.
#[derive(Clone, Copy, Debug, PartialEq, Eq, Drop, Error)]
pub enum LoadError {
    /// Memory ran out.
    #[error("NoMemory")]
    NoMemory,
    /// Invalid JSON.
    #[error("NotJson")]
    NotJson,
    /// The JSON value does not have the shape of a dump.
    #[error("BadShape")]
    BadShape,
    /// A claim of this entry is not accepted, or its script is refused by `parse` or `check`.
    #[error("BadClaim {0}")]
    BadClaim(usize),
    /// The call of this entry is refused, made after the entries before it.
    #[error("BadHistory {0}")]
    BadHistory(usize),
}

impl LoadError {
    ghost use Rattle.book_dump.specs.Refusals.{load_error_number};

    /// The number of the refusal; 0 is out of memory.
    pub fn number(&self) -> u8
        ensures { result ≡ load_error_number self.now }
    {
        match self {
            LoadError::NoMemory => 0,
            LoadError::NotJson => 1,
            LoadError::BadShape => 2,
            LoadError::BadClaim(_) => 3,
            LoadError::BadHistory(_) => 4,
        }
    }
}
