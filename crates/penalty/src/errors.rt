//! Why values make no revoked state.

ghost use Rattle.std.specs.Prelude.{◌≡◌};
ghost use Rattle.penalty.specs.States.{refusal_number};

use thiserror::Error;

/// Why no commitment of the terms can pay a view. Checked in this order.
#[derive(Clone, Copy, Debug, PartialEq, Eq, Drop, Error)]
pub enum StateError {
    /// There are more than 3,998 HTLCs.
    #[error("TooManyHtlcs")]
    TooManyHtlcs,
    /// The expiry of an HTLC is a time: 500,000,000 or above (BIP 65).
    #[error("ExpiryTooLarge")]
    ExpiryTooLarge,
    /// Balances and HTLCs do not sum to the capacity.
    #[error("WrongTotal")]
    WrongTotal,
}

impl StateError {
    /// The refusal's number. None is 0, which stands for out of memory.
    pub fn number(&self) -> u8
        ensures { result ≡ refusal_number self.now }
    {
        match self {
            StateError::TooManyHtlcs => 1,
            StateError::ExpiryTooLarge => 2,
            StateError::WrongTotal => 3,
        }
    }
}
