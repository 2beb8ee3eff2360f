//! Laws over the definitions alone.

ghost use Rattle.claim.specs.Laws.{AcceptedSpend, FittingRunsClean, FittingIsTimed};

use paths::laws::listed_paths_are_sound;
use script::laws::runs_are_exact;

/// Whatever fits an accepted claim, on a script with its listed paths, meets the claim's path and spends the output. Step by step, the script runs clean on the
/// items of its witness. Its transaction has version 2 and a lock time that is a height, at least the claim's. Its input has the claim's age in blocks as its
/// sequence. This follows from what a claim is, so it holds of every claim, whoever made it and however long ago.
pub fn accepted_claims_spend()
    ensures spends { AcceptedSpend }
    ensures clean { FittingRunsClean }
    ensures timed { FittingIsTimed }
{
    // The proof takes from these that whatever meets a listed path runs clean, and what a clean run is.
    listed_paths_are_sound();
    runs_are_exact();
}
