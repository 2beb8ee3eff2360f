// Why a claim is not accepted.

ghost use Rattle.std.specs.Prelude.{◌≡◌};
ghost use Rattle.claim.specs.Refusals.{refusal_number};
ghost use Rattle.claim.specs.declared.errors.AcceptError.TheVariants.{NoMemory};

use facts::Stated;
use std::alloc::{AllocError, AllocFailed};
use thiserror::Error;

/// Why a claim is not accepted. Checked in this order: `NoSuchPath`, `WrongArity`, `WrongProgram`, `WrongShell`, `Contradiction`, `Unmet`.
#[derive(Debug, Drop, Error)]
pub enum AcceptError {
    /// Memory ran out.
    #[error("NoMemory")]
    NoMemory,
    /// The script has no path of this index.
    #[error("NoSuchPath")]
    NoSuchPath,
    /// The number of slots is not that of the path.
    #[error("WrongArity")]
    WrongArity,
    /// The first fact of the path that the slots do not show.
    #[error("Unmet {0}")]
    Unmet(Stated),
    /// The path asks for one fact with both polarities.
    #[error("Contradiction")]
    Contradiction,
    /// The program is not that of the script.
    #[error("WrongProgram")]
    WrongProgram,
    /// The fixed transaction does not fit the path or the place.
    #[error("WrongShell")]
    WrongShell,
}

impl AcceptError {
    /// The number of the refusal; 0 is out of memory.
    pub fn number(&self) -> u8
        ensures { result ≡ refusal_number self.now }
    {
        match self {
            AcceptError::NoMemory => 0,
            AcceptError::NoSuchPath => 1,
            AcceptError::WrongArity => 2,
            AcceptError::Unmet(_) => 3,
            AcceptError::Contradiction => 4,
            AcceptError::WrongProgram => 5,
            AcceptError::WrongShell => 6,
        }
    }
}

impl From<AllocError> for AcceptError {
    ghost from_gives = { λ _ e. e ≡ NoMemory };

    fn from(_error: AllocError) -> AcceptError {
        AcceptError::NoMemory
    }
}

impl<T: Drop> From<AllocFailed<T>> for AcceptError {
    ghost from_gives = { λ _ e. e ≡ NoMemory };

    fn from(_error: AllocFailed<T>) -> AcceptError {
        AcceptError::NoMemory
    }
}
