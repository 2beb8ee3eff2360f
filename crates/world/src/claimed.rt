//! The chain's test of an input that spends a claimed output.

ghost use Rattle.std.specs.Prelude.{◌≡◌, length, slice_get, Some, MatchResult, ⊤};
ghost use Rattle.tx.specs.declared.input.TxIn.{TxIn};
ghost use Rattle.chain.specs.declared.errors.ChainError.TheVariants.{NoMemory};
ghost use Rattle.chain.specs.Refusals.{Answers};
ghost use Rattle.chain.specs.Checks.{indexed_refusal};
ghost use Rattle.safety.specs.Enforcement.{IsDue};

use chain::{ChainError, Coins};
use claim::Claim;
use safety::laws::claims_spend;
use tx::Tx;

/// Tests an input of a transaction for the next block, as `check_input` does. If
/// the input fits the claim and is due, the only possible error is out of memory.
pub fn check_claimed<C: Coins>(
    chain: &C,
    claim: &Claim,
    tx: &Tx,
    index: usize,
) -> Result<(), ChainError>
    ensures exact { Answers (indexed_refusal (C.standing chain.now).blocks
        (length (C.standing chain.now).blocks) tx.now (slice_get tx.now.inputs index)) result }
    ensures due { (input : TxIn) → slice_get tx.now.inputs index ≡ Some input
        → IsDue (C.standing chain.now).blocks
        (length (C.standing chain.now).blocks) claim.now tx.now input
        → MatchResult result (λ _. ⊤) (λ e. e ≡ NoMemory) }
{
    // By these the proof knows that the claim was accepted, and what holds for such claims.
    claims_spend();
    let _ = claim.path();
    chain.check_input(tx, index)
}
