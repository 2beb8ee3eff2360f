//! The batch by which due claims are released.

ghost use Rattle.std.specs.Prelude.{◌≡◌, ◌+◌, ◌*◌, ◌≤◌, ◌^◌, [], ◌∷◌, map, fold, length, None, Some, IfOk, OnOk, MatchResult};
ghost use Rattle.std.specs.List.{flat_map};
ghost use Rattle.sighash.specs.Programs.{key_hash_program};
ghost use Rattle.tx.specs.declared.limits.TheConstants.{MAX_INPUTS as max_inputs, MAX_VALUE as max_value};
ghost use Rattle.book.specs.Calls.{IsBatchOf};
ghost use Rattle.side.specs.Batches.{are_of, value_of, batch_refusal, with_new, each_once, claims_in, preimages_for, output_for};

use crate::due::DueClaim;
use book::Batch;
use claim::Claim;
use keys::Key;
use lists::List;
use sighash::programs::key_hash_program;
use std::alloc::{AllocError, Global};
use thiserror::Error;
use tx::{MAX_VALUE, TxOut};

/// Why claims are not released together. Checked in this order.
#[derive(Clone, Copy, Debug, PartialEq, Eq, Drop, Error)]
pub enum BatchError {
    /// The claims are not all of one channel.
    #[error("MixedChannels")]
    MixedChannels,
    /// What they claim is worth more than 21,000,000 bitcoins.
    #[error("OverValue")]
    OverValue,
}

impl BatchError {
    ghost use Rattle.std.specs.Prelude.{◌≡◌};
    ghost use Rattle.side.specs.Batches.{batch_error_number};

    /// The number of the refusal. None is 0, which stands for out of memory: the test does not allocate.
    pub fn number(&self) -> u8
        ensures { result ≡ batch_error_number self.now }
    {
        match self {
            BatchError::MixedChannels => 1,
            BatchError::OverValue => 2,
        }
    }
}

// Whether the claims are all of this channel.
fn are_of(channel: u64, due: &[&DueClaim]) -> bool
    ensures { result ≡ are_of channel (map (λ d. d.now) due.now) }
{
    for due_claim in due {
        if due_claim.channel != channel {
            return false;
        }
    }
    true
}

// What the claims are worth, in satoshis. The sum cannot overflow 128 bits.
fn value_of(due: &[&DueClaim]) -> u128
    ensures value { result ≡ value_of (map (λ d. d.now) due.now) }
    ensures bound { result ≤ length due.now * 2 ^ 64 }
{
    let mut total = 0;
    for due_claim in due {
        let value = due_claim.claim.place().value;
        total += u128::from(value);
    }
    total
}

/// What claims are worth together, in satoshis, if one transaction of a channel can release them. Refused, in this order, with `MixedChannels` and `OverValue`. Does not allocate.
pub fn worth_of(channel: u64, due: &[&DueClaim]) -> Result<u64, BatchError>
    ensures { let all = map (λ d. d.now) due.now
        in MatchResult result (λ v. (batch_refusal channel all ≡ None) × (v ≡ value_of all))
        (λ e. batch_refusal channel all ≡ Some e) }
{
    if !are_of(channel, due) {
        return Err(BatchError::MixedChannels);
    }
    let value = value_of(due);
    if value > u128::from(MAX_VALUE) {
        return Err(BatchError::OverValue);
    }
    Ok(value as u64)
}

// Copies of the claims. The only error is that memory ran out.
fn claims_of(alloc: Global, due: &[&DueClaim]) -> Result<List<Claim>, AllocError>
    ensures { IfOk result (λ claims. claims ≡ map (λ d. d.claim) (map (λ d. d.now) due.now)) }
{
    let mut claims = List::new(alloc);
    for due_claim in due {
        claims.push(due_claim.claim.copy()?)?;
    }
    Ok(claims)
}

// Appends a preimage, unless it stands there already. If memory runs out, nothing changes.
fn push_once(preimages: &mut List<[u8; 32]>, preimage: &[u8; 32]) -> Result<(), AllocError>
    ensures { OnOk result (preimages.new ≡ with_new preimages.old preimage.now) }
{
    if preimages.values().contains(preimage) {
        return Ok(());
    }
    preimages.push(*preimage)
}

// Appends each preimage of a claim, unless it stands there already.
fn push_each_once(preimages: &mut List<[u8; 32]>, wanted: &[[u8; 32]]) -> Result<(), AllocError>
    ensures { OnOk result (preimages.new ≡ fold with_new preimages.old wanted.now) }
{
    for preimage in wanted {
        push_once(preimages, preimage)?;
    }
    Ok(())
}

// The preimages that the claims need, each once. The only error is that memory ran out.
fn preimages_of(alloc: Global, due: &[&DueClaim]) -> Result<List<[u8; 32]>, AllocError>
    ensures { IfOk result (λ preimages. preimages ≡ each_once
        (flat_map (λ d. d.preimages) (map (λ d. d.now) due.now))) }
{
    let mut preimages = List::new(alloc);
    for due_claim in due {
        push_each_once(&mut preimages, due_claim.preimages.values())?;
    }
    Ok(preimages)
}

// The output that pays a value to the hash of a key (P2WPKH). The only error is that memory ran out.
fn payment_of(alloc: Global, payment: &Key, value: u64) -> Result<TxOut, AllocError>
    requires { value ≤ max_value }
    ensures { IfOk result (λ o. o ≡ record {
      value = value;
      script = key_hash_program
          payment.now.bytes;
    }) }
{
    let program = key_hash_program(alloc, &payment.bytes)?;
    match TxOut::new(value, program) {
        Ok(output) => Ok(output),
        Err(_) => unreachable!(),
    }
}

/// The batch of claims that are worth `value` satoshis. Its one output pays the whole value to the hash of the payment key (P2WPKH). A claim with a fixed transaction keeps the outputs of that
/// transaction. The batch has the preimages that the claims need, each once. The only error is that memory ran out.
pub fn batch_of(
    alloc: Global,
    payment: &Key,
    due: &[&DueClaim],
    value: u64,
) -> Result<Batch, AllocError>
    requires some { 1 ≤ length due.now }
    requires inputs { length due.now ≤ max_inputs }
    requires value { value ≡ value_of (map (λ d. d.now) due.now) }
    requires limit { value ≤ max_value }
    ensures { let all = map (λ d. d.now) due.now
        in IfOk result (IsBatchOf (claims_in all) (output_for payment.now.bytes all ∷ [])
        (preimages_for all)) }
{
    let mut outputs = List::new(alloc);
    outputs.push(payment_of(alloc, payment, value)?)?;
    let claims = claims_of(alloc, due)?;
    let preimages = preimages_of(alloc, due)?;
    match Batch::new(claims, outputs, preimages) {
        Some(batch) => Ok(batch),
        None => unreachable!(),
    }
}
