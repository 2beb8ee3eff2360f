// The witnesses of a filling.

ghost use Rattle.std.specs.Prelude.{◌≡◌, ◌≤◌, nat_le, true, Some, map, reverse, slice_get, length, IfOk, MatchResult};
ghost use Rattle.script.specs.declared.limits.TheConstants.{MAX_STACK_SIZE as max_stack_size};
ghost use Rattle.tx.specs.declared.limits.TheConstants.{MAX_INPUTS as max_inputs, MAX_BYTES as max_bytes};
ghost use Rattle.std.specs.List.{list_all};
ghost use Rattle.filling.specs.Filling.{item_for, unsigned_input, filled_input, script_of};
ghost use Rattle.filling.specs.Refusals.{IsFillable, AreFillable, Lacks, LacksFirst, UnlessMemory, all_slots};
ghost use Rattle.filling.specs.Standing.{IsUnsigned, Stands, CanSpend, AllCanSpend};
ghost use Rattle.tx.specs.Fields.{unsigned_transaction};
ghost use Rattle.claim.specs.Fitting.{witness_for};

use crate::errors::FillError;
use crate::preimages::Preimages;
use claim::{Claim, Slot};
use keys::Signer;
use lists::ByteString;
use sighash::SighashCache;
use sighash::programs::is_script_hash_program;
use std::alloc::{AllocError, Global};
use tx::{Inputs, Tx, TxIn, Witness};

// What fills a slot, where signatures are over this digest.
fn item(
    alloc: Global,
    digest: &[u8; 32],
    slot: &Slot,
    signer: &Signer,
    preimages: &Preimages<'_>,
) -> Result<ByteString, FillError>
    ensures { MatchResult result (λ x. (x ≡ item_for digest.now preimages.now slot.now)
        × IsFillable signer.now preimages.now slot.now)
        (λ e. UnlessMemory e (Lacks signer.now preimages.now slot.now e)) }
{
    match slot {
        Slot::Sig(key) => match signer.sign(key, digest) {
            Ok(token) => Ok(ByteString::from_slice(alloc, token.bytes())?),
            Err(_) => Err(FillError::NoRight),
        },
        Slot::Preimage(hash) => match preimages.of(hash) {
            Some(preimage) => Ok(ByteString::from_slice(alloc, &preimage)?),
            None => Err(FillError::NoPreimage),
        },
        Slot::Exact(exact) => Ok(exact.item.copy()?),
    }
}

// What fills slots, in their order.
fn items(
    alloc: Global,
    digest: &[u8; 32],
    slots: &[Slot],
    signer: &Signer,
    preimages: &Preimages<'_>,
) -> Result<Vec<ByteString>, FillError>
    ensures { MatchResult result (λ xs.
        (xs.items ≡ map (item_for digest.now preimages.now) slots.now)
        × AreFillable signer.now preimages.now slots.now)
        (λ e. UnlessMemory e (LacksFirst signer.now preimages.now slots.now e)) }
{
    let mut items = Vec::new(alloc);
    for slot in slots {
        items.push(item(alloc, digest, slot, signer, preimages)?)?;
    }
    Ok(items)
}

/// The witness of items. For P2WSH the script comes last (BIP 141).
pub(crate) fn witness_of(
    alloc: Global,
    program: &[u8],
    script: &[u8],
    items: Vec<ByteString>,
) -> Result<Witness, AllocError>
    requires count { length items.items ≤ max_stack_size }
    requires bounded { list_all (λ item. nat_le (length item) max_bytes) items.items ≡ true }
    requires short { length script.now ≤ max_bytes }
    ensures { IfOk result (λ w. w ≡ witness_for program.now script.now items.items) }
{
    if !is_script_hash_program(program) {
        return Ok(Witness::from_vec(items).unwrap());
    }
    let mut items = items;
    items.push(ByteString::from_slice(alloc, script)?)?;
    Ok(Witness::from_vec(items).unwrap())
}

// The witness of a claim, where signatures are over this digest.
fn witness(
    alloc: Global,
    digest: &[u8; 32],
    claim: &Claim,
    signer: &Signer,
    preimages: &Preimages<'_>,
) -> Result<Witness, FillError>
    requires short { AreFillable signer.now preimages.now claim.now.slots
        → length claim.now.slots ≤ max_stack_size }
    ensures { MatchResult result (λ w.
        (w ≡ witness_for claim.now.place.program (script_of claim.now)
        (reverse (map (item_for digest.now preimages.now) claim.now.slots)))
        × AreFillable signer.now preimages.now claim.now.slots)
        (λ e. UnlessMemory e (LacksFirst signer.now preimages.now claim.now.slots e)) }
{
    let mut items = items(alloc, digest, claim.slots(), signer, preimages)?;
    items.reverse();
    let program = claim.place().program.bytes();
    let script = claim.script();
    Ok(witness_of(alloc, program, script, items)?)
}

// The input of a claim in the transaction, with its witness.
fn filled_input(
    alloc: Global,
    cache: &SighashCache<'_>,
    index: usize,
    claim: &Claim,
    signer: &Signer,
    preimages: &Preimages<'_>,
) -> Result<TxIn, FillError>
    requires here { slice_get cache.now.inputs index ≡ Some (unsigned_input claim.now) }
    requires bare { unsigned_transaction cache.now ≡ cache.now }
    requires stands { Stands cache.now claim.now }
    ensures value { MatchResult result (λ x. (x ≡ filled_input cache.now preimages.now claim.now)
        × AreFillable signer.now preimages.now claim.now.slots)
        (λ e. UnlessMemory e (LacksFirst signer.now preimages.now claim.now.slots e)) }
    ensures can_spend { IfOk result (λ x. CanSpend claim.now) }
{
    // The proof learns from the path that the claim spends its output.
    let _ = claim.path();
    let digest = cache
        .digest_of(index, claim.script(), claim.place().value)
        .unwrap();
    let witness = witness(alloc, &digest, claim, signer, preimages)?;
    Ok(TxIn {
        outpoint: claim.outpoint(),
        sequence: claim.sequence(),
        witness,
    })
}

/// The inputs of the claims of a transaction, with their witnesses.
pub(crate) fn filled_inputs(
    alloc: Global,
    tx: &Tx,
    claims: &[&Claim],
    signer: &Signer,
    preimages: &Preimages<'_>,
) -> Result<Inputs, FillError>
    requires unsigned { IsUnsigned (map (λ c. c.now) claims.now) tx.now }
    requires count { length claims.now ≤ max_inputs }
    ensures value { MatchResult result
        (λ xs. (xs ≡ map (filled_input tx.now preimages.now) (map (λ c. c.now) claims.now))
        × AreFillable signer.now preimages.now (all_slots (map (λ c. c.now) claims.now)))
        (λ e. UnlessMemory e (LacksFirst signer.now preimages.now
        (all_slots (map (λ c. c.now) claims.now)) e)) }
    ensures can_spend { IfOk result (λ xs. AllCanSpend (map (λ c. c.now) claims.now)) }
{
    let cache = SighashCache::new(tx);
    let mut inputs = Inputs::new(alloc);
    for (i, claim) in claims.iter().enumerate() {
        let input = filled_input(alloc, &cache, i, claim, signer, preimages)?;
        inputs.push_within_limit(input)?;
    }
    Ok(inputs)
}
