// Builds the transaction of a batch.

ghost use Rattle.std.specs.Prelude.{◌≡◌, ◌↔◌, ℕ, List, map, None, IfOk, MatchResult};
ghost use Rattle.keys.specs.Rights.{Rights, MaySign};
ghost use Rattle.filling.specs.Filled.{IsFillingOf};
ghost use Rattle.filling.specs.Refusals.{IsFirstRefusal};
ghost use Rattle.book.specs.Calling.{IsFillRefusal, filling_by};
ghost use Rattle.book.specs.Signers.{fill_refusal};

use crate::calls::Batch;
use claim::Claim;
use filling::{FillError, Filled, fill};
use keys::Signer;
use std::alloc::{AllocError, Global};
use tx::{Tx, TxOut};

/// Claims that were filled and released, and a copy of their transaction.
#[derive(Drop)]
pub struct FilledTwice {
    pub filled: Filled,
    pub copy: Tx,
}

// Clones outputs. The only error is that memory ran out.
fn copies(alloc: Global, outputs: &[TxOut]) -> Result<Vec<TxOut>, AllocError>
    ensures { IfOk result (λ v. v.items ≡ outputs.now) }
{
    let mut copies = Vec::new(alloc);
    for output in outputs {
        copies.push(output.copy()?)?;
    }
    Ok(copies)
}

// References to the claims. The only error is that memory ran out.
fn lent(alloc: Global, claims: &[Claim]) -> Result<Vec<&Claim>, AllocError>
    ensures { IfOk result (λ v. map (λ c. c.now) v.items ≡ claims.now) }
{
    let mut lent = Vec::new(alloc);
    for claim in claims {
        lent.push(claim)?;
    }
    Ok(lent)
}

/// Fills the claims of a batch with a signer, as a book's `release` does with the channel's. Refused, in this order, with `MixedShells`, `SameOutpoint` and `OutputsExceed`; then, by claim and slot,
/// with `NoRight` where the signer has no right to the key, or `NoPreimage` where the batch has none for the hash. `tested` says the same for any rights to the same keys.
pub fn filled(alloc: Global, batch: &Batch, signer: &Signer) -> Result<Filled, FillError>
    ensures by_signer { MatchResult result
        (IsFillingOf batch.now.claims batch.now.outputs signer.now batch.now.preimages)
        (IsFirstRefusal batch.now.claims batch.now.outputs signer.now batch.now.preimages) }
    ensures tested { (rights : Rights)
        → ((key : List ℕ) → MaySign signer.now key ↔ MaySign rights key)
        → let first = fill_refusal batch.now.claims batch.now.outputs rights batch.now.preimages
        in MatchResult result (λ f. (first ≡ None) × (f ≡ filling_by batch.now))
        (IsFillRefusal first) }
{
    let outputs = copies(alloc, batch.outputs.values())?;
    let claims = lent(alloc, batch.claims.values())?;
    fill(alloc, &claims, outputs, signer, batch.preimages.values())
}
