// The claim that a refusal of a spend is about.

ghost use Rattle.std.specs.Prelude.{◌≡◌, [], map, slice_get, IfOk};
ghost use Rattle.std.specs.Str.{bytes_eq};
ghost use Rattle.sha2.specs.Sha256.{sha256 as sha256_of};
ghost use Rattle.tx.specs.Fields.{same_outpoint};
ghost use Rattle.filling.specs.Spends.{is_signature, is_measuring, is_measured_on, is_measured};
ghost use Rattle.enforce_c.specs.Spent.{UnlessMemory};
ghost use Rattle.enforce_c.specs.Faulty.{is_again, first_again, is_among, wants, lacks, first_at, spend_about, refused_at};

use crate::about::{About, Refused, about_of};
use crate::statuses::Refusal;
use claim::{Claim, Slot};
use digest::sha256;
use facts::{Fact, Stated};
use filling::SpendError;
use std::alloc::{AllocError, Global};
use tx::OutPoint;

// Whether both are the same outpoint.
fn same_outpoint(one: &OutPoint, other: &OutPoint) -> bool
    ensures { result ≡ same_outpoint one.now other.now }
{
    one.txid == other.txid && one.index == other.index
}

// Whether a claim is on the output of one of those before it.
fn is_again(before: &[Claim], claim: &Claim) -> bool
    ensures { result ≡ is_again before.now claim.now }
{
    let outpoint = claim.outpoint();
    before
        .iter()
        .any(|other| same_outpoint(&other.outpoint(), &outpoint))
}

// The first claim that is on the output of one before it.
#[tactic(auto, using(crate::proofs::FaultyClaims::again_next, crate::proofs::FaultyClaims::again_here, crate::proofs::FaultyClaims::again_none))]
fn first_again(claims: &[Claim]) -> About
    ensures { result ≡ first_again [] claims.now }
{
    for (index, claim) in claims.iter().enumerate() {
        if is_again(&claims[..index], claim) {
            return About::OfClaim(index);
        }
    }
    About::Whole
}

// Whether a signature stands in the slot at an index.
fn is_signature(slots: &[Slot], index: usize) -> bool
    ensures { result ≡ is_signature (slice_get slots.now index) }
{
    match slots.get(index) {
        Some(slot) => matches!(slot, Slot::Sig(_)),
        None => false,
    }
}

// Whether a fact speaks of the bytes of a signature itself.
fn is_measuring(slots: &[Slot], fact: &Fact) -> bool
    ensures { result ≡ is_measuring slots.now fact.now }
{
    match fact {
        Fact::Hash(slot, _) => is_signature(slots, *slot),
        Fact::Size(slot, _) => is_signature(slots, *slot),
        Fact::Is(slot, _) => is_signature(slots, *slot),
        Fact::KeyForm(slot) => is_signature(slots, *slot),
        _ => false,
    }
}

// Whether one of a path's facts does.
fn is_measured_on(slots: &[Slot], facts: &[Stated]) -> bool
    ensures { result ≡ is_measured_on slots.now facts.now }
{
    facts.iter().any(|stated| is_measuring(slots, &stated.fact))
}

// Whether the path of a claim measures one of its signatures.
fn is_measured(claim: &Claim) -> bool
    ensures { result ≡ is_measured claim.now }
{
    is_measured_on(claim.slots(), claim.path().facts.values())
}

// The first claim whose path does.
#[tactic(auto, using(crate::proofs::FaultyClaims::first_next, crate::proofs::FaultyClaims::first_here, crate::proofs::FaultyClaims::first_none))]
fn first_measured(claims: &[Claim]) -> About
    ensures { result ≡ first_at is_measured 0 claims.now }
{
    for (index, claim) in claims.iter().enumerate() {
        if is_measured(claim) {
            return About::OfClaim(index);
        }
    }
    About::Whole
}

// The hashes of preimages.
fn hashes_of(alloc: Global, preimages: &[[u8; 32]]) -> Result<Vec<[u8; 32]>, AllocError>
    ensures { IfOk result (λ v. v.items ≡ map sha256_of preimages.now) }
{
    let mut hashes = Vec::with_capacity(alloc, preimages.len())?;
    for preimage in preimages {
        hashes.push(sha256(preimage))?;
    }
    Ok(hashes)
}

// Whether both are the same hash.
fn is_same(hash: &[u8; 32], image: &[u8; 32]) -> bool
    ensures { result ≡ bytes_eq hash.now image.now }
{
    hash == image
}

// Whether one of these hashes is this one.
fn is_among(hashes: &[[u8; 32]], image: &[u8; 32]) -> bool
    ensures { result ≡ is_among hashes.now image.now }
{
    hashes.iter().any(|hash| is_same(hash, image))
}

// Whether a slot wants a preimage of another hash than these.
fn wants(hashes: &[[u8; 32]], slot: &Slot) -> bool
    ensures { result ≡ wants hashes.now slot.now }
{
    match slot {
        Slot::Preimage(image) => !is_among(hashes, image),
        _ => false,
    }
}

// Whether a slot of a claim does.
fn lacks(hashes: &[[u8; 32]], claim: &Claim) -> bool
    ensures { result ≡ lacks hashes.now claim.now }
{
    claim.slots().iter().any(|slot| wants(hashes, slot))
}

// The first claim of which a slot does.
#[tactic(auto, using(crate::proofs::FaultyClaims::first_next, crate::proofs::FaultyClaims::first_here, crate::proofs::FaultyClaims::first_none))]
fn first_lacking(hashes: &[[u8; 32]], claims: &[Claim]) -> About
    ensures { result ≡ first_at (lacks hashes.now) 0 claims.now }
{
    for (index, claim) in claims.iter().enumerate() {
        if lacks(hashes, claim) {
            return About::OfClaim(index);
        }
    }
    About::Whole
}

// What a refusal of the spend of claims is about.
fn spend_about(
    alloc: Global,
    claims: &[Claim],
    preimages: &[[u8; 32]],
    why: &Refusal,
) -> Result<About, AllocError>
    ensures { IfOk result (λ a. a ≡ spend_about claims.now preimages.now why.now) }
{
    match why {
        Refusal::Spend(SpendError::SameOutpoint) => Ok(first_again(claims)),
        Refusal::Spend(SpendError::MeasuredSignature) => Ok(first_measured(claims)),
        Refusal::Spend(SpendError::NoPreimage) => {
            let hashes = hashes_of(alloc, preimages)?;
            Ok(first_lacking(hashes.as_slice(), claims))
        }
        _ => Ok(about_of(why)),
    }
}

/// A refusal of the spend of claims, with what it is about. Where memory runs out it is `NoMemory`.
pub(crate) fn refused_at(
    alloc: Global,
    claims: &[Claim],
    preimages: &[[u8; 32]],
    why: Refusal,
) -> Refused
    ensures { UnlessMemory result.why (result ≡ refused_at claims.now preimages.now why) }
{
    match spend_about(alloc, claims, preimages, &why) {
        Ok(about) => Refused { why, about },
        Err(error) => Refused::from(error),
    }
}
