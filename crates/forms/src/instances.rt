// Scripts that fill a pattern.

ghost use Rattle.std.specs.Prelude.{◌≡◌, true, IfOk};
ghost use Rattle.paths.specs.Patterns.{filled, IsListedAs};
ghost use Rattle.forms.specs.Pieces.{are_taken};

use paths::{Checked, CheckedPattern, Fill, InstanceError};
use std::alloc::{AllocError, Global};

/// The script with these fills, which the holes take. The only error is that memory ran out.
#[tactic(auto, using(crate::proofs::Forms::never_wrong))]
pub fn instance_of(
    alloc: Global,
    pattern: &CheckedPattern,
    fills: &[Fill],
) -> Result<Checked, AllocError>
    requires { are_taken pattern.now.pieces fills.now ≡ true }
    ensures { IfOk result (IsListedAs (filled pattern.now.pieces fills.now)) }
{
    match pattern.instance(alloc, fills) {
        Ok(checked) => Ok(checked),
        Err(refusal) => match refusal {
            InstanceError::NoMemory => Err(AllocError),
            InstanceError::WrongHoles => unreachable!(),
        },
    }
}
