// The call that accepts claims.

ghost use Rattle.std.specs.Prelude.{◌≡◌, MatchResult, IfOk};
ghost use Rattle.claim.specs.Judgement.{judgement_of, bare_shell};
ghost use Rattle.claim.specs.Claims.{IsAcceptedOf, IsSpending, IsWhole};
ghost use Rattle.claim.specs.Fitting.{IsRefusal};

use crate::claims::Claim;
use crate::errors::AcceptError;
use crate::judgement::judge;
use crate::parts::{Place, Shell, Slot};
use lists::List;
use paths::{Checked, Way};
use std::alloc::Global;

// The shell, with the witness items of a fixed transaction removed.
fn bare(shell: Shell) -> Shell
    ensures { result ≡ bare_shell shell }
{
    match shell {
        Shell::Open => Shell::Open,
        Shell::Fixed(mut tx) => {
            tx.strip_witnesses();
            Shell::Fixed(tx)
        }
    }
}

/// Accepts a claim by one path of a checked script, on an output whose program is the script's. `slots` fill the path's slots, the top of the stack
/// first. Whatever fits the claim spends the output. A claim keeps a fixed transaction without its witness, and of the checked script the bytes and
/// its own path.
///
/// Checked in this order: `NoSuchPath`, `WrongArity`, `WrongProgram`, `WrongShell`, `Contradiction`, and `Unmet` with the first fact of the path
/// that the slots do not show. `NoMemory` means that this fact could not be copied.
#[tactic(auto, using(crate::proofs::Shells::bare_twice))]
pub fn accept(
    alloc: Global,
    checked: Checked,
    path: usize,
    slots: Vec<Slot>,
    place: Place,
    shell: Shell,
) -> Result<Claim, AcceptError>
    ensures accepted { MatchResult result (IsAcceptedOf checked path slots.items place shell)
        (IsRefusal (judgement_of checked path slots.items place (bare_shell shell))) }
    ensures spends { IfOk result IsSpending }
    ensures whole { IfOk result IsWhole }
{
    let shell = bare(shell);
    match judge(alloc, &checked, path, slots.as_slice(), &place, &shell) {
        Err(refusal) => Err(refusal),
        Ok(()) => {
            let way = checked.into_way(path);
            let Way {
                script,
                path: taken,
            } = way;
            let claim = Claim::new(script, path, taken, List::from_vec(slots), place, shell);
            // The proof learns from its path that the claim spends the output.
            let _ = claim.path();
            Ok(claim)
        }
    }
}
