//! Why a store refuses a secret.

ghost use Rattle.std.specs.Prelude.{◌≡◌};
ghost use Rattle.secrets.specs.Refusals.{refusal_number};

use thiserror::Error;

/// Why a store refuses a secret.
#[derive(Clone, Copy, Debug, Drop, Error, PartialEq, Eq)]
pub enum StoreError {
    /// The index is not the next one.
    #[error("OutOfTurn")]
    OutOfTurn,
    /// A stored secret that should derive from this one does not.
    #[error("NotOfThisSeed")]
    NotOfThisSeed,
}

impl StoreError {
    /// The refusal's number.
    pub fn number(&self) -> u8
        ensures { result ≡ refusal_number self.now }
    {
        match self {
            StoreError::OutOfTurn => 1,
            StoreError::NotOfThisSeed => 2,
        }
    }
}
