//! Why there is no digest.

ghost use Rattle.std.specs.Prelude.{◌≡◌};
ghost use Rattle.sighash.specs.Refusals.{refusal_number};

use thiserror::Error;

/// Why there is no digest.
#[derive(Clone, Copy, Debug, PartialEq, Eq, Drop, Error)]
pub enum DigestError {
    /// The transaction has no input at this index.
    #[error("NoSuchInput")]
    NoSuchInput,
}

impl DigestError {
    /// The refusal's number.
    pub fn number(&self) -> u8
        ensures { result ≡ refusal_number self.now }
    {
        match self {
            DigestError::NoSuchInput => 1,
        }
    }
}
