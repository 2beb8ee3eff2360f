// Signatures that a transaction lacks.

ghost use Rattle.std.specs.Prelude.{◌≡◌, ◌++◌, map, slice_get, Some, OnOk, IfOk};
ghost use Rattle.filling.specs.Filling.{digest_for, unsigned_input};
ghost use Rattle.filling.specs.Spends.{missing_here, missing_on, missing_from};

use claim::{Claim, Slot};
use keys::Key;
use sighash::SighashCache;
use std::alloc::{AllocError, Global};
use tx::Tx;

/// A signature that a transaction lacks.
#[derive(Clone, Copy, Debug)]
pub struct MissingSignature {
    /// The index of the input.
    pub input: usize,
    /// The index of its item in the input's witness, the deepest item of the stack first (BIP 141).
    pub item: usize,
    /// The key that signs.
    pub key: Key,
    /// What it signs: the digest of the input with hash type ALL (BIP 143).
    pub digest: [u8; 32],
}

// Adds the signature of a slot, if it is one.
fn add_if_missing(
    missing: &mut Vec<MissingSignature>,
    input: usize,
    item: usize,
    digest: &[u8; 32],
    slot: &Slot,
) -> Result<(), AllocError>
    ensures { OnOk result (missing.new.items ≡ missing.old.items
        ++ missing_here input item digest.now slot.now) }
{
    match slot {
        Slot::Sig(key) => missing.push(MissingSignature {
            input,
            item,
            key: *key,
            digest: *digest,
        })?,
        Slot::Preimage(_) => {}
        Slot::Exact(_) => {}
    }
    Ok(())
}

// Adds what the slots of an input lack.
fn add_missing(
    missing: &mut Vec<MissingSignature>,
    input: usize,
    digest: &[u8; 32],
    slots: &[Slot],
) -> Result<(), AllocError>
    ensures { OnOk result (missing.new.items ≡ missing.old.items
        ++ missing_on input digest.now slots.now) }
{
    for (above, slot) in slots.iter().enumerate() {
        add_if_missing(missing, input, slots.len() - 1 - above, digest, slot)?;
    }
    Ok(())
}

// Adds what the input of a claim lacks.
fn add_missing_of(
    missing: &mut Vec<MissingSignature>,
    cache: &SighashCache<'_>,
    input: usize,
    claim: &Claim,
) -> Result<(), AllocError>
    requires here { slice_get cache.now.inputs input ≡ Some (unsigned_input claim.now) }
    ensures { OnOk result (missing.new.items ≡ missing.old.items
        ++ missing_on input (digest_for cache.now claim.now) claim.now.slots) }
{
    let digest = cache
        .digest_of(input, claim.script(), claim.place().value)
        .unwrap();
    add_missing(missing, input, &digest, claim.slots())
}

/// The signatures that the transaction of claims lacks, by claim, those of a claim the top of the stack first.
pub(crate) fn missing_signatures(
    alloc: Global,
    tx: &Tx,
    claims: &[&Claim],
) -> Result<Vec<MissingSignature>, AllocError>
    requires unsigned { tx.now.inputs ≡ map unsigned_input (map (λ c. c.now) claims.now) }
    ensures { IfOk result (λ v. v.items ≡ missing_from tx.now 0 (map (λ c. c.now) claims.now)) }
{
    let cache = SighashCache::new(tx);
    let mut missing = Vec::new(alloc);
    for (input, claim) in claims.iter().enumerate() {
        add_missing_of(&mut missing, &cache, input, claim)?;
    }
    Ok(missing)
}
