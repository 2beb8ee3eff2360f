// The signed spend of claims, from rows that the caller gives.

ghost use Rattle.std.specs.Prelude.{◌≡◌, ◌≤◌, ◌+◌, ◌++◌, Some, None, Ok, Err, length, slice_get, slice_set, OnOk, IfOk, MatchOption, MatchResult};
ghost use Rattle.tx.specs.declared.limits.TheConstants.{MAX_INPUTS as max_inputs, MAX_OUTPUTS as max_outputs, MAX_ITEMS as max_items, MAX_BYTES as max_bytes};
ghost use Rattle.tx.specs.Parts.{IsWithin, IsBounded};
ghost use Rattle.filling.specs.Spends.{IsUnsignedSpend, with_item, changed_at};
ghost use Rattle.enforce_c.specs.Spent.{preimages_in, UnlessMemory};
ghost use Rattle.enforce_c.specs.Finished.{place_of, row_place, signature_in, signature_for, signatures_of, HasSignatures, IsSigned, IsNotSigned, IsFinished};

use crate::about::Refused;
use crate::claim_rows::{ClaimRow, SlotRow};
use crate::der::{is_der, is_sighash_all};
use crate::faulty::refused_at;
use crate::finish_rows::SignedRow;
use crate::ranges::part;
use crate::spend_rows::{OutputRow, PreimageRow};
use crate::spending::{Parts, encoded, preimages_of, read, spend_of};
use crate::statuses::{Refusal, SignaturePlace};
use claim::Claim;
use filling::{MissingSignature, UnsignedSpend};
use lists::ByteString;
use std::alloc::{AllocError, Global};
use std::marker::Model;
use tx::{Tx, TxOut, Witness, txid};

/// A transaction with its signatures: its bytes and its id. A contract sees it as both.
#[derive(Drop)]
pub struct Finishing {
    pub(crate) bytes: Vec<u8>,
    pub(crate) txid: [u8; 32],
}

impl Model for Finishing {
    ghost use Rattle.enforce_c.specs.Finished.{SignedParts};

    ghost Value = { SignedParts };

    ghost view = { λ s. record { bytes = s.bytes.items; txid = s.txid } };
}

// Where a signature that is lacking goes.
fn place_of(missing: &MissingSignature) -> SignaturePlace
    ensures { result ≡ place_of missing.now }
{
    SignaturePlace {
        input: missing.input,
        item: missing.item,
    }
}

// Whether an item has the form of a signature with hash type ALL.
fn tested(item: &[u8], place: SignaturePlace) -> Result<(), Refusal>
    ensures value { MatchResult result (λ _. signature_in place item.now ≡ Ok item.now)
        (λ e. signature_in place item.now ≡ Err e) }
    ensures few { OnOk result (length item.now ≤ 73) }
{
    if !is_der(item) {
        return Err(Refusal::NotDer(place));
    }
    if !is_sighash_all(item) {
        return Err(Refusal::NotSighashAll(place));
    }
    Ok(())
}

// The signature that a row gives for one that is lacking.
fn signature_for<'a>(
    bytes: &'a [u8],
    missing: &MissingSignature,
    row: &SignedRow,
) -> Result<&'a [u8], Refusal>
    ensures value { MatchResult result (λ s. signature_for bytes.now missing.now row.now ≡ Ok s.now)
        (λ e. signature_for bytes.now missing.now row.now ≡ Err e) }
    ensures few { IfOk result (λ s. length s.now ≤ 73) }
{
    let place = place_of(missing);
    if row.input != place.input || row.item != place.item {
        return Err(Refusal::NoSignature(place));
    }
    let Some(item) = part(bytes, row.bytes_at, row.bytes_length) else {
        return Err(Refusal::SignatureOutOfRange(place));
    };
    tested(item, place)?;
    Ok(item)
}

// The place of a row.
fn row_place(row: &SignedRow) -> SignaturePlace
    ensures { result ≡ row_place row.now }
{
    SignaturePlace {
        input: row.input,
        item: row.item,
    }
}

// The row at an index.
fn row_at(rows: &[SignedRow], index: usize) -> Option<&SignedRow>
    ensures { MatchOption result (slice_get rows.now index ≡ None)
        (λ row. slice_get rows.now index ≡ Some row.now) }
{
    match rows.get(index) {
        Some(row) => Some(row),
        None => None,
    }
}

// The witness of items that keep its limits.
#[tactic(auto, using(crate::proofs::SignedSpends::are_bounded))]
fn witness_of(items: Vec<ByteString>) -> Witness
    requires { IsWithin max_items IsBounded items.items }
    ensures { result ≡ items.items }
{
    Witness::from_vec(items).unwrap()
}

// A witness with another item at an index.
#[tactic(auto, using(crate::proofs::SignedSpends::within_set))]
fn with_item(
    alloc: Global,
    witness: &Witness,
    index: usize,
    item: &[u8],
) -> Result<Witness, AllocError>
    requires { length item.now ≤ max_bytes }
    ensures { IfOk result (λ w. w ≡ slice_set witness.now index item.now) }
{
    let item = ByteString::from_slice(alloc, item)?;
    let mut items = witness.copy()?.into_vec();
    if index < items.len() {
        items[index] = item;
    } else {
        drop(item);
    }
    Ok(witness_of(items))
}

// Puts a signature where it is lacking.
fn put_signature(
    alloc: Global,
    tx: &mut Tx,
    missing: &MissingSignature,
    signature: &[u8],
) -> Result<(), AllocError>
    requires { length signature.now ≤ max_bytes }
    ensures { OnOk result (tx.new ≡ record tx.old {
      inputs = changed_at (with_item missing.now.item signature.now) missing.now.input tx.old.inputs;
    }) }
{
    let witness = match tx.inputs().get(missing.input) {
        Some(input) => with_item(alloc, &input.witness, missing.item, signature)?,
        None => return Ok(()),
    };
    tx.set_witness(missing.input, witness);
    Ok(())
}

// Puts the signatures that rows give into a transaction that lacks them.
#[tactic(auto, using(crate::proofs::SignedSpends::signed_next))]
fn sign(
    alloc: Global,
    tx: &mut Tx,
    missing: &[MissingSignature],
    rows: &[SignedRow],
    bytes: &[u8],
) -> Result<(), Refusal>
    ensures { MatchResult result (λ _. HasSignatures bytes.now missing.now rows.now tx.old tx.new)
        (λ e. UnlessMemory e (signatures_of bytes.now missing.now rows.now ≡ Err e)) }
{
    for (index, lacking) in missing.iter().enumerate() {
        let Some(row) = row_at(rows, index) else {
            return Err(Refusal::NoSignature(place_of(lacking)));
        };
        let signature = signature_for(bytes, lacking, row)?;
        put_signature(alloc, tx, lacking, signature)?;
    }
    match row_at(rows, missing.len()) {
        Some(row) => Err(Refusal::NotAsked(row_place(row))),
        None => Ok(()),
    }
}

// The signed spend of claims.
#[tactic(auto, using(crate::proofs::SignedSpends::is_signed, crate::proofs::SignedSpends::no_spend, crate::proofs::SignedSpends::no_signature, crate::proofs::SignedSpends::no_bytes))]
fn signed_spend(
    alloc: Global,
    claims: &[Claim],
    outputs: Vec<TxOut>,
    preimages: &[[u8; 32]],
    rows: &[SignedRow],
    bytes: &[u8],
) -> Result<Finishing, Refusal>
    requires some { 1 ≤ length claims.now }
    requires inputs { length claims.now ≤ max_inputs }
    requires outputs { length outputs.items ≤ max_outputs }
    ensures { MatchResult result
        (λ b. IsSigned claims.now outputs.items preimages.now rows.now bytes.now b)
        (λ e. UnlessMemory e
        (IsNotSigned claims.now outputs.items preimages.now rows.now bytes.now e)) }
{
    let UnsignedSpend { tx, signatures } = spend_of(alloc, claims, outputs, preimages)?;
    let mut tx = tx;
    sign(alloc, &mut tx, signatures.values(), rows, bytes)?;
    let bytes = encoded(alloc, &tx)?;
    let txid = txid(&tx);
    Ok(Finishing { bytes, txid })
}

/// The signed spend that rows ask for. Checked in this order: the numbers of claims and of outputs, each output, each claim, the spend, each signature.
#[tactic(auto, using(crate::proofs::SignedSpends::not_read, crate::proofs::SignedSpends::finished_of, crate::proofs::SignedSpends::not_finished, crate::proofs::SignedSpends::memory_out))]
pub(crate) fn finished(
    alloc: Global,
    claims: &[ClaimRow],
    slots: &[SlotRow],
    outputs: &[OutputRow],
    preimages: &[PreimageRow],
    signed: &[SignedRow],
    bytes: &[u8],
) -> Result<Finishing, Refused>
    ensures { IsFinished (record {
      claims = claims.now;
      slots = slots.now;
      outputs = outputs.now;
      bytes = bytes.now;
    }) (preimages_in preimages.now) signed.now result }
{
    let Parts {
        claims: accepted,
        outputs: paid,
    } = read(alloc, claims, slots, outputs, bytes)?;
    let preimages = preimages_of(alloc, preimages)?;
    let (accepted, preimages) = (accepted.as_slice(), preimages.as_slice());
    match signed_spend(alloc, accepted, paid, preimages, signed, bytes) {
        Ok(finishing) => Ok(finishing),
        Err(why) => Err(refused_at(alloc, accepted, preimages, why)),
    }
}
