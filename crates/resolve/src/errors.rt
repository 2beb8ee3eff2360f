//! Why a value is refused as knowledge of a channel.

ghost use Rattle.std.specs.Prelude.{◌≡◌};
ghost use Rattle.resolve.specs.Refusals.{refusal_number, refusal_by, push_refusal_number};
ghost use Rattle.resolve.specs.declared.errors.KnownError.TheVariants.{NoMemory};
ghost use Rattle.resolve.specs.declared.errors.RevokedError.TheVariants.{NoMemory as NoRoom};

use penalty::StateError;
use std::alloc::AllocError;
use thiserror::Error;

/// Why there is no known commitment of these values. `NumberTooLarge` is checked first, and then the others in this order, memory last.
#[derive(Clone, Copy, Debug, PartialEq, Eq, Drop, Error)]
pub enum KnownError {
    /// Memory ran out.
    #[error("NoMemory")]
    NoMemory,
    /// There are more than 3,998 HTLCs.
    #[error("TooManyHtlcs")]
    TooManyHtlcs,
    /// The expiry of an HTLC is a time: 500,000,000 or above (BIP 65).
    #[error("ExpiryTooLarge")]
    ExpiryTooLarge,
    /// Balances and HTLCs do not sum to the capacity.
    #[error("WrongTotal")]
    WrongTotal,
    /// The tokens on the commitment and on its HTLC transactions are not those of the owner's peer.
    #[error("BadSignature")]
    BadSignature,
    /// The number is 2^48 or above, which no commitment transaction can carry (BOLT 3, "Commitment Transaction").
    #[error("NumberTooLarge")]
    NumberTooLarge,
}

impl KnownError {
    /// The refusal's number.
    pub fn number(&self) -> u8
        ensures { result ≡ refusal_number self.now }
    {
        match self {
            KnownError::NoMemory => 0,
            KnownError::TooManyHtlcs => 1,
            KnownError::ExpiryTooLarge => 2,
            KnownError::WrongTotal => 3,
            KnownError::BadSignature => 4,
            KnownError::NumberTooLarge => 5,
        }
    }
}

// The refusal here that stands for a view's refusal.
pub(crate) fn of_view(refusal: StateError) -> KnownError
    ensures { result ≡ refusal_by refusal }
{
    match refusal {
        StateError::TooManyHtlcs => KnownError::TooManyHtlcs,
        StateError::ExpiryTooLarge => KnownError::ExpiryTooLarge,
        StateError::WrongTotal => KnownError::WrongTotal,
    }
}

impl From<AllocError> for KnownError {
    ghost from_gives = { λ _ e. e ≡ NoMemory };

    fn from(_e: AllocError) -> KnownError {
        KnownError::NoMemory
    }
}

/// Why a revoked commitment isn't appended to those before it. Its number is checked first.
#[derive(Clone, Copy, Debug, PartialEq, Eq, Drop, Error)]
pub enum RevokedError {
    /// Memory ran out.
    #[error("NoMemory")]
    NoMemory,
    /// Its number is not the next one, or is 2^48 or above (BOLT 3, "Commitment Transaction").
    #[error("WrongNumber")]
    WrongNumber,
}

impl RevokedError {
    /// The refusal's number.
    pub fn number(&self) -> u8
        ensures { result ≡ push_refusal_number self.now }
    {
        match self {
            RevokedError::NoMemory => 0,
            RevokedError::WrongNumber => 1,
        }
    }
}

impl From<AllocError> for RevokedError {
    ghost from_gives = { λ _ e. e ≡ NoRoom };

    fn from(_e: AllocError) -> RevokedError {
        RevokedError::NoMemory
    }
}
