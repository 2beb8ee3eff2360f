//! How a run ends.

ghost use Rattle.std.specs.Prelude.{◌≡◌};
ghost use Rattle.machine.specs.Refusals.{refusal_number};
ghost use Rattle.machine.specs.declared.ends.Stop.TheVariants.{NoMemory};

use script::Cause;
use std::alloc::AllocError;
use thiserror::Error;

/// The result of a clean run.
#[derive(Clone, Copy, Debug, PartialEq, Eq)]
pub struct Run {
    /// The counted opcodes: those of the whole script above 60 (in hexadecimal), and the keys of each CHECKMULTISIG that ran.
    pub counted: usize,
    /// The greatest number of elements on the stack, at the start or after an opcode.
    pub height: usize,
}

/// Why a run has no clean end.
#[derive(Clone, Copy, Debug, PartialEq, Eq, Error)]
pub enum Stop {
    /// Memory ran out.
    #[error("NoMemory")]
    NoMemory,
    /// The cause, and the index of the opcode that the run stops at. The index is 0 for an item that is too long, and the number of
    /// opcodes for a stop at the end.
    #[error("{0} {1}")]
    At(Cause, usize),
}

impl Stop {
    /// The refusal's number: that of the cause, or 0 for out of memory.
    pub fn number(&self) -> u8
        ensures { result ≡ refusal_number self.now }
    {
        match self {
            Stop::NoMemory => 0,
            Stop::At(cause, _) => cause.number(),
        }
    }
}

impl From<AllocError> for Stop {
    ghost from_gives = { λ _ e. e ≡ NoMemory };

    fn from(_error: AllocError) -> Stop {
        Stop::NoMemory
    }
}
