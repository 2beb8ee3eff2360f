// Why claims are not filled, or not made ready to be signed.

ghost use Rattle.std.specs.Prelude.{◌≡◌};
ghost use Rattle.filling.specs.declared.errors.FillError.TheVariants.{NoMemory};
ghost use Rattle.filling.specs.declared.errors.SpendError.TheVariants.{NoMemory as SpendNoMemory};

use std::alloc::{AllocError, AllocFailed};
use thiserror::Error;

/// Why claims are not filled. Checked in this order: `MixedShells`, `SameOutpoint`, `OutputsExceed`. Then each slot is checked, claim by claim
/// and with the top of the stack first, for `NoRight` and `NoPreimage`.
#[derive(Debug, Drop, Error)]
pub enum FillError {
    /// Memory ran out.
    #[error("NoMemory")]
    NoMemory,
    /// The signer has no right to the key of a slot.
    #[error("NoRight")]
    NoRight,
    /// No preimage is given for the hash of a slot.
    #[error("NoPreimage")]
    NoPreimage,
    /// The outputs are worth more than the claimed outputs together.
    #[error("OutputsExceed")]
    OutputsExceed,
    /// A claim with a fixed transaction is not alone.
    #[error("MixedShells")]
    MixedShells,
    /// Two claims spend the same outpoint.
    #[error("SameOutpoint")]
    SameOutpoint,
}

impl FillError {
    ghost use Rattle.filling.specs.Refusals.{fill_error_number};

    /// The number of the refusal; 0 is out of memory.
    pub fn number(&self) -> u8
        ensures { result ≡ fill_error_number self.now }
    {
        match self {
            FillError::NoMemory => 0,
            FillError::NoRight => 1,
            FillError::NoPreimage => 2,
            FillError::OutputsExceed => 3,
            FillError::MixedShells => 4,
            FillError::SameOutpoint => 5,
        }
    }
}

impl From<AllocError> for FillError {
    ghost from_gives = { λ _ e. e ≡ NoMemory };

    fn from(_error: AllocError) -> FillError {
        FillError::NoMemory
    }
}

impl<T: Drop> From<AllocFailed<T>> for FillError {
    ghost from_gives = { λ _ e. e ≡ NoMemory };

    fn from(_error: AllocFailed<T>) -> FillError {
        FillError::NoMemory
    }
}

/// Why no unsigned spend is made of claims. Checked in this order: `FixedTransaction`, `SameOutpoint`, `OutputsExceed`, `MeasuredSignature`, `NoPreimage`.
#[derive(Debug, Drop, Error)]
pub enum SpendError {
    /// Memory ran out.
    #[error("NoMemory")]
    NoMemory,
    /// A claim has a fixed transaction.
    #[error("FixedTransaction")]
    FixedTransaction,
    /// Two claims spend the same outpoint.
    #[error("SameOutpoint")]
    SameOutpoint,
    /// The outputs are worth more than the claimed outputs together.
    #[error("OutputsExceed")]
    OutputsExceed,
    /// The path of a claim asks for the length, the hash or the bytes of a signature.
    #[error("MeasuredSignature")]
    MeasuredSignature,
    /// No preimage is given for the hash of a slot.
    #[error("NoPreimage")]
    NoPreimage,
}

impl SpendError {
    ghost use Rattle.filling.specs.Spends.{spend_error_number};

    /// The number of the refusal; 0 is out of memory.
    pub fn number(&self) -> u8
        ensures { result ≡ spend_error_number self.now }
    {
        match self {
            SpendError::NoMemory => 0,
            SpendError::FixedTransaction => 1,
            SpendError::SameOutpoint => 2,
            SpendError::OutputsExceed => 3,
            SpendError::MeasuredSignature => 4,
            SpendError::NoPreimage => 5,
        }
    }
}

impl From<AllocError> for SpendError {
    ghost from_gives = { λ _ e. e ≡ SpendNoMemory };

    fn from(_error: AllocError) -> SpendError {
        SpendError::NoMemory
    }
}
