// The spend of claims, from rows that the caller gives.

ghost use Rattle.std.specs.Prelude.{◌≡◌, ◌≤◌, ◌+◌, ◌*◌, None, Some, Ok, Err, length, map, IfOk, MatchResult};
ghost use Rattle.tx.specs.declared.limits.TheConstants.{MAX_INPUTS as max_inputs, MAX_OUTPUTS as max_outputs};
ghost use Rattle.tx.specs.Spelling.{IsTransaction, stripped_spelling};
ghost use Rattle.filling.specs.Spends.{IsUnsignedSpend};
ghost use Rattle.enforce_c.specs.Spent.{preimages_in, output_of, output_at, outputs_of, IsNoClaimAt, AreClaimsOf, IsFirstNoClaim, number_fault, signature_row, AreRead, UnlessMemory, IsUnread, IsUnspent, IsNotEncoded, capped, fee_of, IsTold, IsMade, IsUnmade, IsSpent};
ghost use Rattle.enforce_c.specs.Claimed.{IsClaimOf};

use crate::about::{About, Refused};
use crate::claim_rows::{ClaimRow, SlotRow};
use crate::claims_of_c::claimed;
use crate::faulty::refused_at;
use crate::ranges::part;
use crate::spend_rows::{OutputRow, PreimageRow, SignatureRow};
use crate::statuses::Refusal;
use claim::Claim;
use filling::{MissingSignature, UnsignedSpend, total_claimed, unsigned_spend};
use lists::ByteString;
use std::alloc::{AllocError, Global};
use std::marker::Model;
use tx::{
    FieldError, MAX_INPUTS, MAX_OUTPUTS, Tx, TxOut, encode, encode_stripped, total_value, txid,
};

// The greatest number of 64 bits.
const GREATEST: u128 = 18_446_744_073_709_551_615;

// The greatest number of bytes of a signature: 72 of DER, and the hash type.
const SIGNATURE_SIZE: u128 = 73;

/// A transaction before it is signed, with what is told of it.
#[derive(Drop)]
pub struct Spending {
    pub(crate) bytes: Vec<u8>,
    pub(crate) signatures: Vec<SignatureRow>,
    pub(crate) weight: u64,
    pub(crate) fee_sat: u64,
    pub(crate) txid: [u8; 32],
}

impl Model for Spending {
    ghost use Rattle.enforce_c.specs.Spent.{SpendParts};

    ghost Value = { SpendParts };

    ghost view = { λ s. record { bytes = s.bytes.items; signatures = s.signatures.items; weight = s.weight; fee_sat = s.fee_sat; txid = s.txid } };
}

// The output of a row.
fn output_of(alloc: Global, bytes: &[u8], row: &OutputRow) -> Result<TxOut, Refusal>
    ensures { MatchResult result (λ o. output_of bytes.now row.now ≡ Ok o)
        (λ e. UnlessMemory e (output_of bytes.now row.now ≡ Err e)) }
{
    let Some(script) = part(bytes, row.script_at, row.script_length) else {
        return Err(Refusal::OutOfRange);
    };
    match TxOut::new(row.value, ByteString::from_slice(alloc, script)?) {
        Ok(output) => Ok(output),
        Err(error) => Err(Refusal::Field(error)),
    }
}

// The output of the row of an index.
#[tactic(auto, using(crate::proofs::Spends::no_output))]
fn output_at(alloc: Global, bytes: &[u8], index: usize, row: &OutputRow) -> Result<TxOut, Refused>
    ensures { MatchResult result (λ o. output_at index (output_of bytes.now row.now) ≡ Ok o)
        (λ e. UnlessMemory e.why (output_at index (output_of bytes.now row.now) ≡ Err e)) }
{
    match output_of(alloc, bytes, row) {
        Ok(output) => Ok(output),
        Err(why) => Err(Refused {
            why,
            about: About::OfOutput(index),
        }),
    }
}

// The outputs of rows.
#[tactic(auto, using(crate::proofs::Spends::outputs_next, crate::proofs::Spends::output_here, crate::proofs::Spends::outputs_all, crate::proofs::Spends::no_memory))]
fn outputs_of(alloc: Global, bytes: &[u8], rows: &[OutputRow]) -> Result<Vec<TxOut>, Refused>
    ensures value { MatchResult result (λ v. outputs_of bytes.now 0 rows.now ≡ Ok v.items)
        (λ e. UnlessMemory e.why (outputs_of bytes.now 0 rows.now ≡ Err e)) }
    ensures count { IfOk result (λ v. length v.items ≡ length rows.now) }
{
    let mut outputs = Vec::new(alloc);
    for (index, row) in rows.iter().enumerate() {
        outputs.push(output_at(alloc, bytes, index, row)?)?;
    }
    Ok(outputs)
}

/// The preimages of rows. The only error is that memory ran out.
pub(crate) fn preimages_of(alloc: Global, rows: &[PreimageRow]) -> Result<Vec<[u8; 32]>, AllocError>
    ensures { IfOk result (λ v. v.items ≡ preimages_in rows.now) }
{
    let mut preimages = Vec::new(alloc);
    for row in rows {
        preimages.push(row.bytes)?;
    }
    Ok(preimages)
}

// The claim of the row of an index.
fn claim_at(
    alloc: Global,
    index: usize,
    row: &ClaimRow,
    slots: &[SlotRow],
    bytes: &[u8],
) -> Result<Claim, Refused>
    ensures { MatchResult result (λ c. IsClaimOf row.now slots.now bytes.now c)
        (λ e. IsNoClaimAt index row.now slots.now bytes.now e) }
{
    match claimed(alloc, row, slots, bytes) {
        Ok(claim) => Ok(claim),
        Err(why) => Err(Refused {
            why,
            about: About::OfClaim(index),
        }),
    }
}

// The claims of rows.
#[tactic(auto, using(crate::proofs::Spends::claims_next, crate::proofs::Spends::claims_all, crate::proofs::Spends::no_claim, crate::proofs::Spends::no_claim_later, crate::proofs::Spends::no_memory))]
fn all_claimed(
    alloc: Global,
    rows: &[ClaimRow],
    slots: &[SlotRow],
    bytes: &[u8],
) -> Result<Vec<Claim>, Refused>
    ensures value { MatchResult result (λ v. AreClaimsOf slots.now bytes.now rows.now v.items)
        (λ e. UnlessMemory e.why (IsFirstNoClaim slots.now bytes.now 0 rows.now e)) }
    ensures count { IfOk result (λ v. length v.items ≡ length rows.now) }
{
    let mut claims = Vec::new(alloc);
    for (index, row) in rows.iter().enumerate() {
        claims.push(claim_at(alloc, index, row, slots, bytes)?)?;
    }
    Ok(claims)
}

// References to claims.
fn lent(alloc: Global, claims: &[Claim]) -> Result<Vec<&Claim>, AllocError>
    ensures { IfOk result (λ v. map (λ c. c.now) v.items ≡ claims.now) }
{
    let mut lent = Vec::new(alloc);
    for claim in claims {
        lent.push(claim)?;
    }
    Ok(lent)
}

// The row of a signature.
fn signature_row(signature: &MissingSignature) -> SignatureRow
    ensures { result ≡ signature_row signature.now }
{
    SignatureRow {
        input: signature.input,
        item: signature.item,
        key: signature.key.bytes,
        digest: signature.digest,
    }
}

// The rows of signatures.
fn signature_rows(
    alloc: Global,
    signatures: &[MissingSignature],
) -> Result<Vec<SignatureRow>, AllocError>
    ensures { IfOk result (λ v. v.items ≡ map signature_row signatures.now) }
{
    let mut rows = Vec::new(alloc);
    for signature in signatures {
        rows.push(signature_row(signature))?;
    }
    Ok(rows)
}

// Whether there are from 1 to 4,000 claims, and at most 4,000 outputs.
fn counted(claims: usize, outputs: usize) -> Result<(), Refusal>
    ensures { MatchResult result (λ _. (number_fault claims outputs ≡ None) × (1 ≤ claims) × (claims ≤ max_inputs) × (outputs ≤ max_outputs))
        (λ e. number_fault claims outputs ≡ Some e) }
{
    if claims == 0 {
        return Err(Refusal::Field(FieldError::NoInputs));
    }
    if claims > MAX_INPUTS || outputs > MAX_OUTPUTS {
        return Err(Refusal::Field(FieldError::OverLimit));
    }
    Ok(())
}

/// The claims and the outputs that rows ask for.
#[derive(Drop)]
pub(crate) struct Parts {
    pub(crate) claims: Vec<Claim>,
    pub(crate) outputs: Vec<TxOut>,
}

/// What rows say.
#[tactic(auto, using(crate::proofs::Spends::unread_number, crate::proofs::Spends::unread_output, crate::proofs::Spends::unread_claim))]
pub(crate) fn read(
    alloc: Global,
    claims: &[ClaimRow],
    slots: &[SlotRow],
    outputs: &[OutputRow],
    bytes: &[u8],
) -> Result<Parts, Refused>
    ensures value { MatchResult result
        (λ p. AreRead (record { claims = claims.now; slots = slots.now; outputs = outputs.now; bytes = bytes.now }) p.claims.items p.outputs.items)
        (λ e. UnlessMemory e.why (IsUnread (record { claims = claims.now; slots = slots.now; outputs = outputs.now; bytes = bytes.now }) e)) }
    ensures some { IfOk result (λ p. 1 ≤ length p.claims.items) }
    ensures inputs { IfOk result (λ p. length p.claims.items ≤ max_inputs) }
    ensures outputs { IfOk result (λ p. length p.outputs.items ≤ max_outputs) }
{
    counted(claims.len(), outputs.len())?;
    let outputs = outputs_of(alloc, bytes, outputs)?;
    let claims = all_claimed(alloc, claims, slots, bytes)?;
    Ok(Parts { claims, outputs })
}

/// The unsigned spend of claims.
#[tactic(auto, using(crate::proofs::Spends::unspent))]
pub(crate) fn spend_of(
    alloc: Global,
    claims: &[Claim],
    outputs: Vec<TxOut>,
    preimages: &[[u8; 32]],
) -> Result<UnsignedSpend, Refusal>
    requires some { 1 ≤ length claims.now }
    requires inputs { length claims.now ≤ max_inputs }
    requires outputs { length outputs.items ≤ max_outputs }
    ensures { MatchResult result
        (λ s. IsUnsignedSpend claims.now outputs.items preimages.now s.tx s.signatures)
        (λ e. UnlessMemory e (IsUnspent claims.now outputs.items preimages.now e)) }
{
    let claims = lent(alloc, claims)?;
    match unsigned_spend(alloc, claims.as_slice(), outputs, preimages) {
        Ok(spend) => Ok(spend),
        Err(error) => Err(Refusal::Spend(error)),
    }
}

/// The bytes of a transaction.
#[tactic(auto, using(crate::proofs::Spends::not_encoded))]
pub(crate) fn encoded(alloc: Global, tx: &Tx) -> Result<Vec<u8>, Refusal>
    ensures { MatchResult result (λ v. IsTransaction tx.now v.items)
        (λ e. UnlessMemory e (IsNotEncoded tx.now e)) }
{
    match encode(alloc, tx) {
        Ok(bytes) => Ok(bytes),
        Err(error) => Err(Refusal::Encode(error)),
    }
}

// A number as 64 bits tell it: the greatest stands for more.
fn capped(number: u128) -> u64
    ensures { result ≡ capped number }
{
    if number > GREATEST {
        18_446_744_073_709_551_615
    } else {
        number as u64
    }
}

// The weight that a transaction has at most once it is signed, by its bytes and the number of signatures that it lacks.
fn weight_of(alloc: Global, tx: &Tx, bytes: usize, signatures: usize) -> Result<u64, AllocError>
    ensures { IfOk result (λ w. w ≡ capped (3 * length (stripped_spelling tx.now) + bytes + 73 * signatures)) }
{
    let stripped = encode_stripped(alloc, tx)?.len();
    let weight = 3 * stripped as u128 + bytes as u128 + SIGNATURE_SIZE * signatures as u128;
    Ok(capped(weight))
}

// What the claimed outputs are worth, less the outputs.
fn fee_of(alloc: Global, claims: &[Claim], tx: &Tx) -> Result<u64, AllocError>
    ensures { IfOk result (λ n. n ≡ capped (fee_of claims.now tx.now)) }
{
    let claims = lent(alloc, claims)?;
    let claimed = total_claimed(claims.as_slice());
    Ok(capped(claimed.saturating_sub(total_value(tx.outputs()))))
}

// What is told of a spend.
#[tactic(auto, using(crate::proofs::Spends::is_told))]
fn told_of(
    alloc: Global,
    claims: &[Claim],
    spend: &UnsignedSpend,
    bytes: Vec<u8>,
) -> Result<Spending, AllocError>
    requires { IsTransaction spend.now.tx bytes.items }
    ensures { IfOk result (λ s. IsTold claims.now spend.now.tx spend.now.signatures s) }
{
    let weight = weight_of(alloc, &spend.tx, bytes.len(), spend.signatures.len())?;
    let fee_sat = fee_of(alloc, claims, &spend.tx)?;
    let signatures = signature_rows(alloc, spend.signatures.values())?;
    let txid = txid(&spend.tx);
    Ok(Spending {
        bytes,
        signatures,
        weight,
        fee_sat,
        txid,
    })
}

// The spend of claims: its bytes, the signatures that it lacks, and what is told of it.
#[tactic(auto, using(crate::proofs::Spends::is_made, crate::proofs::Spends::no_spend, crate::proofs::Spends::no_bytes))]
fn spending_of(
    alloc: Global,
    claims: &[Claim],
    outputs: Vec<TxOut>,
    preimages: &[[u8; 32]],
) -> Result<Spending, Refusal>
    requires some { 1 ≤ length claims.now }
    requires inputs { length claims.now ≤ max_inputs }
    requires outputs { length outputs.items ≤ max_outputs }
    ensures { MatchResult result
        (λ s. IsMade claims.now outputs.items preimages.now s)
        (λ e. UnlessMemory e (IsUnmade claims.now outputs.items preimages.now e)) }
{
    let spend = spend_of(alloc, claims, outputs, preimages)?;
    let bytes = encoded(alloc, &spend.tx)?;
    Ok(told_of(alloc, claims, &spend, bytes)?)
}

/// The spend that rows ask for. Checked in this order: the numbers of claims and of outputs, each output, each claim, the spend.
#[tactic(auto, using(crate::proofs::Spends::not_read, crate::proofs::Spends::spent_of, crate::proofs::Spends::not_spent, crate::proofs::Spends::memory_out))]
pub(crate) fn spent(
    alloc: Global,
    claims: &[ClaimRow],
    slots: &[SlotRow],
    outputs: &[OutputRow],
    preimages: &[PreimageRow],
    bytes: &[u8],
) -> Result<Spending, Refused>
    ensures { IsSpent (record { claims = claims.now; slots = slots.now; outputs = outputs.now; bytes = bytes.now }) (preimages_in preimages.now) result }
{
    let Parts {
        claims: accepted,
        outputs: paid,
    } = read(alloc, claims, slots, outputs, bytes)?;
    let preimages = preimages_of(alloc, preimages)?;
    let preimages = preimages.as_slice();
    match spending_of(alloc, accepted.as_slice(), paid, preimages) {
        Ok(spending) => Ok(spending),
        Err(why) => Err(refused_at(alloc, accepted.as_slice(), preimages, why)),
    }
}
