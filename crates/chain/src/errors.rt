//! Why the chain refuses a transaction, a block or a call. A refusal has the same number in every call.

ghost use Rattle.std.specs.Prelude.{◌≡◌};
ghost use Rattle.chain.specs.declared.errors.ChainError.TheVariants.{NoMemory};

use script::Cause;
use std::alloc::{AllocError, AllocFailed};
use thiserror::Error;

/// Why the chain refuses.
#[derive(Clone, Copy, Debug, PartialEq, Eq, Error)]
pub enum ChainError {
    /// Memory ran out.
    #[error("NoMemory")]
    NoMemory,
    /// An input on the chain already spends the output.
    #[error("Spent")]
    Spent,
    /// Nothing on the chain created the output.
    #[error("Unknown")]
    Unknown,
    /// The lock time is not reached (BIP 65).
    #[error("NotFinal")]
    NotFinal,
    /// The input's relative lock is not reached (BIP 68).
    #[error("TooYoung")]
    TooYoung,
    /// The script stops for this cause, at the opcode of this index (BIP 141).
    #[error("Script {0} {1}")]
    Script(Cause, usize),
    /// The output's program is not a version 0 one, or the witness or its script does not have the form that
    /// the program requires (BIP 141).
    #[error("BadProgram")]
    BadProgram,
    /// The outputs are worth more than the inputs.
    #[error("OutputsExceed")]
    OutputsExceed,
    /// Two inputs spend the same output, or a transaction with this id is already on the chain.
    #[error("Twice")]
    Twice,
    /// This number of blocks cannot be taken off.
    #[error("TooDeep")]
    TooDeep,
}

/// The transaction of a block that is at fault, counted from 0, and its first refusal.
#[derive(Clone, Copy, Debug, PartialEq, Eq, Error)]
#[error("{refusal} {index}")]
pub struct BlockError {
    pub index: usize,
    pub refusal: ChainError,
}

impl From<AllocError> for ChainError {
    ghost from_gives = { λ _ e. e ≡ NoMemory };

    fn from(_error: AllocError) -> ChainError {
        ChainError::NoMemory
    }
}

impl<T: Drop> From<AllocFailed<T>> for ChainError {
    ghost from_gives = { λ _ e. e ≡ NoMemory };

    fn from(_error: AllocFailed<T>) -> ChainError {
        ChainError::NoMemory
    }
}

impl ChainError {
    ghost use Rattle.std.specs.Prelude.{◌≡◌};
    ghost use Rattle.chain.specs.Refusals.{number_of};

    /// The refusal's number; 0 is out of memory.
    pub fn number(&self) -> u8
        ensures { result ≡ number_of self.now }
    {
        match self {
            ChainError::NoMemory => 0,
            ChainError::Spent => 1,
            ChainError::Unknown => 2,
            ChainError::NotFinal => 3,
            ChainError::TooYoung => 4,
            ChainError::Script(_, _) => 5,
            ChainError::BadProgram => 6,
            ChainError::OutputsExceed => 7,
            ChainError::Twice => 8,
            ChainError::TooDeep => 9,
        }
    }
}
