// The call that fills claims.

ghost use Rattle.std.specs.Prelude.{◌≡◌, ◌≤◌, ◌<◌, map, length, IfOk, MatchResult};
ghost use Rattle.tx.specs.declared.limits.TheConstants.{MAX_INPUTS as max_inputs, MAX_OUTPUTS as max_outputs};
ghost use Rattle.filling.specs.Filled.{AllRunClean, IsFillingOf};
ghost use Rattle.filling.specs.Refusals.{IsFirstRefusal};

use crate::errors::FillError;
use crate::exclusions::{are_mixed, do_exceed, share_outpoint};
use crate::filled::Filled;
use crate::preimages::Preimages;
use crate::unsigned::unsigned;
use crate::witnesses::filled_inputs;
use claim::{Claim, Place};
use keys::Signer;
use lists::List;
use std::alloc::{AllocError, Global};
use tx::{Inputs, Tx, TxOut};

// The places of the claimed outputs.
fn places(alloc: Global, claims: &[&Claim]) -> Result<Vec<Place>, AllocError>
    ensures { IfOk result (λ ps. ps.items ≡ map (λ c. c.place) (map (λ c. c.now) claims.now)) }
{
    let mut places = Vec::new(alloc);
    for claim in claims {
        places.push(claim.place().copy()?)?;
    }
    Ok(places)
}

// The filling with these inputs.
fn finished(unsigned: Tx, inputs: Inputs, places: Vec<Place>) -> Filled
    requires some { 0 < length inputs }
    requires clean { AllRunClean (record unsigned { inputs = inputs }) inputs places.items }
    ensures { result ≡ record { tx = record unsigned { inputs = inputs }; places = places.items } }
{
    let parts = unsigned.into_parts();
    let tx = Tx::new(parts.version, inputs, parts.outputs, parts.lock_time).unwrap();
    Filled::new(tx, List::from_vec(places))
}

/// Fills 1 to 4,000 claims in one transaction. For open claims, it has version 2, the claims' inputs in their order with their sequences, and the
/// given outputs, at most 4,000. Its lock time is the greatest height that a claim needs. A claim with a fixed transaction must be alone, and its
/// filling is that transaction with its witness. The given outputs are then ignored.
///
/// The signer signs for the slots of keys. The slots of hashes are filled from the preimages. Each input fits its claim, and so runs clean.
/// Checked in this order: `MixedShells`, `SameOutpoint`, `OutputsExceed`, and then each slot, claim by claim and with the top of the stack first,
/// for `NoRight` and `NoPreimage`. `NoMemory` may come at any time. The time is linear in the claims, the outputs and the preimages, apart from a
/// logarithmic factor.
pub fn fill(
    alloc: Global,
    claims: &[&Claim],
    outputs: Vec<TxOut>,
    signer: &Signer,
    preimages: &[[u8; 32]],
) -> Result<Filled, FillError>
    requires some { 1 ≤ length claims.now }
    requires inputs { length claims.now ≤ max_inputs }
    requires outputs { length outputs.items ≤ max_outputs }
    ensures { MatchResult result (IsFillingOf
        (map (λ c. c.now) claims.now) outputs.items signer.now preimages.now)
        (IsFirstRefusal (map (λ c. c.now) claims.now) outputs.items signer.now preimages.now) }
{
    if are_mixed(claims) {
        return Err(FillError::MixedShells);
    }
    if share_outpoint(alloc, claims)? {
        return Err(FillError::SameOutpoint);
    }
    if do_exceed(claims, &outputs) {
        return Err(FillError::OutputsExceed);
    }
    let preimages = Preimages::new(alloc, preimages)?;
    let places = places(alloc, claims)?;
    let unsigned = unsigned(alloc, claims, outputs)?;
    match filled_inputs(alloc, &unsigned, claims, signer, &preimages) {
        Err(refusal) => Err(refusal),
        Ok(inputs) => Ok(finished(unsigned, inputs, places)),
    }
}
