//! Why a run stops at an opcode.

ghost use Rattle.std.specs.Prelude.{◌≡◌};
ghost use Rattle.machine.specs.declared.halts.Halt.TheVariants.{NoMemory};

use script::{Cause, Kind};
use std::alloc::AllocError;

/// Why a run stops at an opcode.
#[derive(Clone, Copy, Debug, PartialEq, Eq)]
pub enum Halt {
    /// Memory ran out.
    NoMemory,
    /// The run stops for this cause.
    Stop(Cause),
}

impl Halt {
    /// The stop for a check that fails.
    pub fn failed(kind: Kind) -> Self
        ensures { result ≡ Halt.Stop (Cause.FailedCheck kind) }
    {
        Halt::Stop(Cause::FailedCheck(kind))
    }
}

impl From<AllocError> for Halt {
    ghost from_gives = { λ _ e. e ≡ NoMemory };

    fn from(_error: AllocError) -> Halt {
        Halt::NoMemory
    }
}
