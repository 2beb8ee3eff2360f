//! Why terms are refused.

ghost use Rattle.std.specs.Prelude.{◌≡◌};
ghost use Rattle.terms.specs.Refusals.{refusal_number};

use thiserror::Error;

/// Why terms are refused.
#[derive(Clone, Copy, Debug, PartialEq, Eq, Drop, Error)]
pub enum TermsError {
    /// The capacity is above 21,000,000 bitcoins, or the two starting balances do not sum to it.
    #[error("BadTerms")]
    BadTerms,
}

impl TermsError {
    /// The refusal's number.
    pub fn number(&self) -> u8
        ensures { result ≡ refusal_number self.now }
    {
        match self {
            TermsError::BadTerms => 1,
        }
    }
}
