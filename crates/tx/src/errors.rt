//! Why a transaction is refused. Each refusal has a number, which is the same in every call of the crate.

ghost use Rattle.std.specs.Prelude.{◌≡◌};
ghost use Rattle.tx.specs.Refusals.{limit_refusal_number, field_refusal_number, decode_refusal_number, encode_refusal_number, decoding};
ghost use Rattle.tx.specs.declared.errors.LimitError.TheVariants as limit;
ghost use Rattle.tx.specs.declared.errors.DecodeError.TheVariants as decode;
ghost use Rattle.tx.specs.declared.errors.EncodeError.TheVariants as encode;

use std::alloc::{AllocError, AllocFailed};
use thiserror::Error;

/// Why a list refuses an element.
#[derive(Debug, Drop, Error)]
pub enum LimitError {
    /// Memory ran out.
    #[error("NoMemory")]
    NoMemory,
    /// The list is full, or the element exceeds the limits of its kind.
    #[error("OverLimit")]
    OverLimit,
}

/// Why fields do not make an output or a transaction.
#[derive(Debug, Drop, Error)]
pub enum FieldError {
    /// There is no input.
    #[error("NoInputs")]
    NoInputs,
    /// A value is above 2,100,000,000,000,000 satoshis.
    #[error("ValueTooLarge")]
    ValueTooLarge,
    /// A script has more than 10,000 bytes.
    #[error("OverLimit")]
    OverLimit,
}

/// Why bytes are not a transaction: the first fault from left to right.
#[derive(Debug, Drop, Error)]
pub enum DecodeError {
    /// Memory ran out.
    #[error("NoMemory")]
    NoMemory,
    /// The bytes end within a field.
    #[error("Truncated")]
    Truncated,
    /// A compactSize is not minimal.
    #[error("LongCount")]
    LongCount,
    /// The marker is not 0, or the flag is not 1 (BIP 144).
    #[error("BadMarker")]
    BadMarker,
    /// There is no input.
    #[error("NoInputs")]
    NoInputs,
    /// No witness has an item.
    #[error("NoWitness")]
    NoWitness,
    /// A value is above 2,100,000,000,000,000 satoshis.
    #[error("ValueTooLarge")]
    ValueTooLarge,
    /// There are bytes after the lock time.
    #[error("Trailing")]
    Trailing,
    /// A count is above its limit.
    #[error("OverLimit")]
    OverLimit,
}

/// Why a transaction is not encoded.
#[derive(Debug, Drop, Error)]
pub enum EncodeError {
    /// Memory ran out.
    #[error("NoMemory")]
    NoMemory,
    /// No witness has an item.
    #[error("NoWitness")]
    NoWitness,
}

impl LimitError {
    /// The refusal's number.
    pub fn number(&self) -> u8
        ensures { result ≡ limit_refusal_number self.now }
    {
        match self {
            LimitError::NoMemory => 0,
            LimitError::OverLimit => 8,
        }
    }
}

impl FieldError {
    /// The refusal's number.
    pub fn number(&self) -> u8
        ensures { result ≡ field_refusal_number self.now }
    {
        match self {
            FieldError::NoInputs => 4,
            FieldError::ValueTooLarge => 6,
            FieldError::OverLimit => 8,
        }
    }
}

impl DecodeError {
    /// The refusal's number.
    pub fn number(&self) -> u8
        ensures { result ≡ decode_refusal_number self.now }
    {
        match self {
            DecodeError::NoMemory => 0,
            DecodeError::Truncated => 1,
            DecodeError::LongCount => 2,
            DecodeError::BadMarker => 3,
            DecodeError::NoInputs => 4,
            DecodeError::NoWitness => 5,
            DecodeError::ValueTooLarge => 6,
            DecodeError::Trailing => 7,
            DecodeError::OverLimit => 8,
        }
    }
}

impl EncodeError {
    /// The refusal's number.
    pub fn number(&self) -> u8
        ensures { result ≡ encode_refusal_number self.now }
    {
        match self {
            EncodeError::NoMemory => 0,
            EncodeError::NoWitness => 5,
        }
    }
}

impl From<AllocError> for LimitError {
    ghost from_gives = { λ _ e. e ≡ limit.NoMemory };

    fn from(_e: AllocError) -> LimitError {
        LimitError::NoMemory
    }
}

impl<T: Drop> From<AllocFailed<T>> for LimitError {
    ghost from_gives = { λ _ e. e ≡ limit.NoMemory };

    fn from(_e: AllocFailed<T>) -> LimitError {
        LimitError::NoMemory
    }
}

impl From<AllocError> for DecodeError {
    ghost from_gives = { λ _ e. e ≡ decode.NoMemory };

    fn from(_e: AllocError) -> DecodeError {
        DecodeError::NoMemory
    }
}

impl<T: Drop> From<AllocFailed<T>> for DecodeError {
    ghost from_gives = { λ _ e. e ≡ decode.NoMemory };

    fn from(_e: AllocFailed<T>) -> DecodeError {
        DecodeError::NoMemory
    }
}

impl From<LimitError> for DecodeError {
    ghost from_gives = { λ e d. d ≡ decoding e };

    fn from(e: LimitError) -> DecodeError {
        match e {
            LimitError::NoMemory => DecodeError::NoMemory,
            LimitError::OverLimit => DecodeError::OverLimit,
        }
    }
}

impl From<AllocError> for EncodeError {
    ghost from_gives = { λ _ e. e ≡ encode.NoMemory };

    fn from(_e: AllocError) -> EncodeError {
        EncodeError::NoMemory
    }
}
