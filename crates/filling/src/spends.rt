// The transaction that spends claims, before it is signed.

ghost use Rattle.std.specs.Prelude.{◌≡◌, ◌≤◌, ◌<◌, map, length, slice_get, MatchResult};
ghost use Rattle.std.specs.List.{list_any};
ghost use Rattle.tx.specs.declared.limits.TheConstants.{MAX_INPUTS as max_inputs, MAX_OUTPUTS as max_outputs};
ghost use Rattle.filling.specs.Spends.{is_signature, is_measuring, is_measured_on, is_measured, wants_preimage, lacks_preimage, first_spend_refusal, IsSpendRefusal, IsUnsignedSpend};

use crate::blanks::{blank_inputs, wants_preimage};
use crate::errors::SpendError;
use crate::exclusions::{do_exceed, has_fixed, share_outpoint};
use crate::missing::{MissingSignature, missing_signatures};
use crate::preimages::Preimages;
use crate::unsigned::open_transaction;
use claim::{Claim, Slot};
use lists::List;
use paths::{Fact, Stated};
use std::alloc::Global;
use tx::{Inputs, Tx, TxOut};

/// A transaction that spends the outputs of claims, and the signatures that it lacks: the empty item stands in the place of each.
#[derive(Debug, Drop)]
pub struct UnsignedSpend {
    pub tx: Tx,
    pub signatures: List<MissingSignature>,
}

// Whether a signature stands in the slot at an index.
fn is_signature(slots: &[Slot], index: usize) -> bool
    ensures { result ≡ is_signature (slice_get slots.now index) }
{
    match slots.get(index) {
        Some(slot) => matches!(slot, Slot::Sig(_)),
        None => false,
    }
}

// Whether a fact speaks of the bytes of a signature itself.
fn is_measuring(slots: &[Slot], fact: &Fact) -> bool
    ensures { result ≡ is_measuring slots.now fact.now }
{
    match fact {
        Fact::Hash(slot, _) => is_signature(slots, *slot),
        Fact::Size(slot, _) => is_signature(slots, *slot),
        Fact::Is(slot, _) => is_signature(slots, *slot),
        Fact::KeyForm(slot) => is_signature(slots, *slot),
        Fact::Truth(_) => false,
        Fact::Form(_) => false,
        Fact::Token(_, _) => false,
        Fact::Assigned(_, _) => false,
        Fact::Lock(_) => false,
        Fact::Age(_) => false,
    }
}

// Whether one of a path's facts does.
fn is_measured_on(slots: &[Slot], facts: &[Stated]) -> bool
    ensures { result ≡ is_measured_on slots.now facts.now }
{
    facts.iter().any(|stated| is_measuring(slots, &stated.fact))
}

// Whether the path of a claim measures one of its signatures.
fn is_measured(claim: &Claim) -> bool
    ensures { result ≡ is_measured claim.now }
{
    is_measured_on(claim.slots(), claim.path().facts.values())
}

// Whether the path of a claim does.
fn any_measured(claims: &[&Claim]) -> bool
    ensures { result ≡ list_any is_measured (map (λ c. c.now) claims.now) }
{
    for claim in claims {
        if is_measured(claim) {
            return true;
        }
    }
    false
}

// Whether a slot wants a preimage that is not there.
fn any_wants_preimage(slots: &[Slot], preimages: &Preimages<'_>) -> bool
    ensures { result ≡ list_any (wants_preimage preimages.now) slots.now }
{
    slots.iter().any(|slot| wants_preimage(slot, preimages))
}

// Whether a claim lacks a preimage.
fn lacks_preimage(claims: &[&Claim], preimages: &Preimages<'_>) -> bool
    ensures { result ≡ list_any (lacks_preimage preimages.now) (map (λ c. c.now) claims.now) }
{
    for claim in claims {
        if any_wants_preimage(claim.slots(), preimages) {
            return true;
        }
    }
    false
}

// The transaction with these inputs.
fn with_inputs(tx: Tx, inputs: Inputs) -> Tx
    requires { 0 < length inputs }
    ensures { result ≡ record tx { inputs = inputs } }
{
    let parts = tx.into_parts();
    Tx::new(parts.version, inputs, parts.outputs, parts.lock_time).unwrap()
}

/// The transaction that spends the outputs of 1 to 4,000 open claims, before it is signed, and the signatures that it lacks. It has version 2, the claims' inputs in their order with their sequences,
/// and the given outputs, at most 4,000. Its lock time is the greatest height that a claim needs. Preimages and exact items stand in its witnesses. In the place of each signature stands the empty item.
///
/// With the token of each missing signature in its place, it is what [`fill`](crate::fill) makes, and each input runs clean. The digests of the missing signatures do not depend on witnesses, so they stay
/// right whatever is put in. No path of these claims asks for the length, the hash or the bytes of a signature. So a valid signature of another form, as those of the Bitcoin network, meets what its
/// token meets.
///
/// Checked in this order: `FixedTransaction`, `SameOutpoint`, `OutputsExceed`, `MeasuredSignature`, `NoPreimage`. `NoMemory` may come at any time.
pub fn unsigned_spend(
    alloc: Global,
    claims: &[&Claim],
    outputs: Vec<TxOut>,
    preimages: &[[u8; 32]],
) -> Result<UnsignedSpend, SpendError>
    requires some { 1 ≤ length claims.now }
    requires inputs { length claims.now ≤ max_inputs }
    requires outputs { length outputs.items ≤ max_outputs }
    ensures { MatchResult result
        (λ s. IsUnsignedSpend (map (λ c. c.now) claims.now) outputs.items preimages.now s.tx s.signatures)
        (IsSpendRefusal (first_spend_refusal (map (λ c. c.now) claims.now) outputs.items preimages.now)) }
{
    if has_fixed(claims) {
        return Err(SpendError::FixedTransaction);
    }
    if share_outpoint(alloc, claims)? {
        return Err(SpendError::SameOutpoint);
    }
    if do_exceed(claims, &outputs) {
        return Err(SpendError::OutputsExceed);
    }
    if any_measured(claims) {
        return Err(SpendError::MeasuredSignature);
    }
    let preimages = Preimages::new(alloc, preimages)?;
    if lacks_preimage(claims, &preimages) {
        return Err(SpendError::NoPreimage);
    }
    let unsigned = open_transaction(alloc, claims, outputs)?;
    let signatures = List::from_vec(missing_signatures(alloc, &unsigned, claims)?);
    let inputs = blank_inputs(alloc, claims, &preimages)?;
    let tx = with_inputs(unsigned, inputs);
    Ok(UnsignedSpend { tx, signatures })
}
