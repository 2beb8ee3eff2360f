// Why a script is not listed.

ghost use Rattle.std.specs.Prelude.{◌≡◌};
ghost use Rattle.paths.specs.Refusals.{refusal_number};
ghost use Rattle.paths.specs.declared.errors.CheckError.TheVariants.{NoMemory};

use std::alloc::{AllocError, AllocFailed};
use thiserror::Error;

/// Why the paths of a script are not listed. The whole script is checked for `OpenBranch`, then for `TooManyOps`. Then the paths are
/// followed in the text order of their branches, and the first fault met is returned.
#[derive(Clone, Copy, PartialEq, Eq, Debug, Error)]
pub enum CheckError {
    /// Memory ran out.
    #[error("NoMemory")]
    NoMemory,
    /// An ELSE or ENDIF without its IF, a second ELSE of one IF, or an IF without its ENDIF.
    #[error("OpenBranch")]
    OpenBranch,
    /// More than 201 counted opcodes, the keys of a path's CHECKMULTISIGs included.
    #[error("TooManyOps")]
    TooManyOps,
    /// No rule decides the opcode at this index. The number of opcodes as the index stands for the end of the script.
    #[error("Undecided {0}")]
    Undecided(usize),
    /// A 65th path begins.
    #[error("TooManyPaths")]
    TooManyPaths,
    /// A path needs more than 1,000 stack elements.
    #[error("TooTall")]
    TooTall,
}

impl CheckError {
    /// The number of the refusal; 0 is out of memory.
    pub fn number(&self) -> u8
        ensures { result ≡ refusal_number self.now }
    {
        match self {
            CheckError::NoMemory => 0,
            CheckError::OpenBranch => 1,
            CheckError::TooManyOps => 2,
            CheckError::Undecided(_) => 3,
            CheckError::TooManyPaths => 4,
            CheckError::TooTall => 5,
        }
    }
}

impl From<AllocError> for CheckError {
    ghost from_gives = { λ _ e. e ≡ NoMemory };

    fn from(_error: AllocError) -> CheckError {
        CheckError::NoMemory
    }
}

impl<T: Drop> From<AllocFailed<T>> for CheckError {
    ghost from_gives = { λ _ e. e ≡ NoMemory };

    fn from(_error: AllocFailed<T>) -> CheckError {
        CheckError::NoMemory
    }
}
