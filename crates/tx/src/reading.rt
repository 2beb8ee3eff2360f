//! From bytes to transactions.

ghost use Rattle.std.specs.Prelude.{◌≡◌, ◌≤◌, ◌<◌, ℕ, List, length, IfOk, Ok};
ghost use Rattle.tx.specs.declared.limits.TheConstants.{MAX_INPUTS as max_inputs, MAX_OUTPUTS as max_outputs, MAX_ITEMS as max_items};
ghost use Rattle.tx.specs.Fields.{Transaction};
ghost use Rattle.tx.specs.Spelling.{IsTransaction, IsStripped};
ghost use Rattle.tx.specs.Reading.{Gives, fields_at, byte_string_at, input_at, output_at, inputs_at, outputs_at, witness_at, signed_input_at, signed_inputs_at, witnesses_at, version_at, reading, stripped_reading};

use crate::errors::DecodeError;
use crate::fields::{byte_string_at, compact_size_up_to, marker_at, split, u32_at, u64_at};
use crate::input::{Inputs, OutPoint, TxIn};
use crate::limits::{MAX_INPUTS, MAX_ITEMS, MAX_OUTPUTS, MAX_VALUE};
use crate::output::{Outputs, TxOut};
use crate::transaction::{Tx, has_witness};
use crate::witness::Witness;
use std::alloc::Global;

// An input, without its witness so far.
#[tactic(auto, unfolding(crate::specs::Reading::input_at))]
fn input_at(alloc: Global, bytes: &[u8]) -> Result<(TxIn, &[u8]), DecodeError>
    ensures { Gives (λ x. (x.0, x.1.now)) result (input_at bytes.now) }
{
    let (hash, rest) = split(bytes, 32)?;
    let mut txid = [0; 32];
    txid.copy_from_slice(hash);
    let (index, rest) = u32_at(rest)?;
    let (_, rest) = compact_size_up_to(0, rest)?;
    let (sequence, rest) = u32_at(rest)?;
    let input = TxIn {
        outpoint: OutPoint { txid, index },
        sequence,
        witness: Witness::new(alloc),
    };
    Ok((input, rest))
}

#[tactic(auto, unfolding(crate::specs::Reading::output_at))]
fn output_at(alloc: Global, bytes: &[u8]) -> Result<(TxOut, &[u8]), DecodeError>
    ensures { Gives (λ x. (x.0, x.1.now)) result (output_at bytes.now) }
{
    let (value, rest) = u64_at(bytes)?;
    if value > MAX_VALUE {
        return Err(DecodeError::ValueTooLarge);
    }
    let (script, rest) = byte_string_at(alloc, rest)?;
    Ok((TxOut::new(value, script).unwrap(), rest))
}

// `count` inputs, without their witnesses so far.
fn some_inputs_at(
    alloc: Global,
    count: usize,
    bytes: &[u8],
) -> Result<(Vec<TxIn>, &[u8]), DecodeError>
    ensures length { IfOk result (λ x. length x.0.items ≡ count) }
    ensures value { Gives (λ x. (x.0.items, x.1.now)) result (fields_at input_at count bytes.now) }
{
    let mut inputs = Vec::new(alloc);
    let mut rest = bytes;
    for _ in 0..count {
        let (input, after) = input_at(alloc, rest)?;
        inputs.push(input)?;
        rest = after;
    }
    Ok((inputs, rest))
}

fn some_outputs_at(
    alloc: Global,
    count: usize,
    bytes: &[u8],
) -> Result<(Outputs, &[u8]), DecodeError>
    requires { count ≤ max_outputs }
    ensures { Gives (λ x. (x.0, x.1.now)) result (fields_at output_at count bytes.now) }
{
    let mut outputs = Outputs::new(alloc);
    let mut rest = bytes;
    for _ in 0..count {
        let (output, after) = output_at(alloc, rest)?;
        outputs.push_within_limit(output)?;
        rest = after;
    }
    Ok((outputs, rest))
}

fn some_items_at(alloc: Global, count: usize, bytes: &[u8]) -> Result<(Witness, &[u8]), DecodeError>
    requires { count ≤ max_items }
    ensures { Gives (λ x. (x.0, x.1.now)) result (fields_at byte_string_at count bytes.now) }
{
    let mut items = Witness::new(alloc);
    let mut rest = bytes;
    for _ in 0..count {
        let (item, after) = byte_string_at(alloc, rest)?;
        items.push_within_limit(item)?;
        rest = after;
    }
    Ok((items, rest))
}

#[tactic(auto, unfolding(crate::specs::Reading::inputs_at, crate::specs::Reading::list_at, crate::specs::Reading::input_count_at))]
fn inputs_at(alloc: Global, bytes: &[u8]) -> Result<(Vec<TxIn>, &[u8]), DecodeError>
    ensures len { IfOk result (λ x. (0 < length x.0.items) × (length x.0.items ≤ max_inputs)) }
    ensures value { Gives (λ x. (x.0.items, x.1.now)) result (inputs_at bytes.now) }
{
    let (count, rest) = compact_size_up_to(MAX_INPUTS, bytes)?;
    if count == 0 {
        return Err(DecodeError::NoInputs);
    }
    some_inputs_at(alloc, count, rest)
}

#[tactic(auto, unfolding(crate::specs::Reading::outputs_at, crate::specs::Reading::list_at))]
fn outputs_at(alloc: Global, bytes: &[u8]) -> Result<(Outputs, &[u8]), DecodeError>
    ensures { Gives (λ x. (x.0, x.1.now)) result (outputs_at bytes.now) }
{
    let (count, rest) = compact_size_up_to(MAX_OUTPUTS, bytes)?;
    some_outputs_at(alloc, count, rest)
}

#[tactic(auto, unfolding(crate::specs::Reading::witness_at, crate::specs::Reading::list_at))]
fn witness_at(alloc: Global, bytes: &[u8]) -> Result<(Witness, &[u8]), DecodeError>
    ensures { Gives (λ x. (x.0, x.1.now)) result (witness_at bytes.now) }
{
    let (count, rest) = compact_size_up_to(MAX_ITEMS, bytes)?;
    some_items_at(alloc, count, rest)
}

// An input with its witness.
#[tactic(auto, unfolding(crate::specs::Reading::signed_input_at))]
fn signed_input_at<'a>(
    alloc: Global,
    input: &TxIn,
    bytes: &'a [u8],
) -> Result<(TxIn, &'a [u8]), DecodeError>
    ensures { Gives (λ x. (x.0, x.1.now)) result (signed_input_at input.now bytes.now) }
{
    let (witness, rest) = witness_at(alloc, bytes)?;
    let signed = TxIn {
        outpoint: input.outpoint,
        sequence: input.sequence,
        witness,
    };
    Ok((signed, rest))
}

// The inputs with their witnesses.
fn signed_inputs_at<'a>(
    alloc: Global,
    unsigned: &[TxIn],
    bytes: &'a [u8],
) -> Result<(Inputs, &'a [u8]), DecodeError>
    requires { length unsigned.now ≤ max_inputs }
    ensures { Gives (λ x. (x.0, x.1.now)) result (signed_inputs_at unsigned.now bytes.now) }
{
    let mut inputs = Inputs::new(alloc);
    let mut rest = bytes;
    for input in unsigned {
        let (signed, after) = signed_input_at(alloc, input, rest)?;
        inputs.push_within_limit(signed)?;
        rest = after;
    }
    Ok((inputs, rest))
}

// The inputs with their witnesses, at least one of which has an item.
#[tactic(auto, unfolding(crate::specs::Reading::witnesses_at))]
fn witnesses_at<'a>(
    alloc: Global,
    unsigned: &[TxIn],
    bytes: &'a [u8],
) -> Result<(Inputs, &'a [u8]), DecodeError>
    requires { length unsigned.now ≤ max_inputs }
    ensures some { IfOk result (λ x. 0 < length x.0) }
    ensures value { Gives (λ x. (x.0, x.1.now)) result (witnesses_at unsigned.now bytes.now) }
{
    let (inputs, rest) = signed_inputs_at(alloc, unsigned, bytes)?;
    if !has_witness(inputs.as_slice()) {
        return Err(DecodeError::NoWitness);
    }
    Ok((inputs, rest))
}

// The version, and the marker and flag after it.
#[tactic(auto, unfolding(crate::specs::Reading::version_at))]
fn version_at(bytes: &[u8]) -> Result<(u32, &[u8]), DecodeError>
    ensures { Gives (λ x. (x.0, x.1.now)) result (version_at bytes.now) }
{
    let (version, rest) = u32_at(bytes)?;
    let rest = marker_at(0, rest)?;
    let rest = marker_at(1, rest)?;
    Ok((version, rest))
}

#[tactic(auto, unfolding(crate::specs::Reading::reading, crate::specs::Reading::end_at))]
fn all(alloc: Global, bytes: &[u8]) -> Result<Tx, DecodeError>
    ensures { Gives (λ t. t) result (reading bytes.now) }
{
    let (version, rest) = version_at(bytes)?;
    let (unsigned, rest) = inputs_at(alloc, rest)?;
    let (outputs, rest) = outputs_at(alloc, rest)?;
    let (inputs, rest) = witnesses_at(alloc, &unsigned, rest)?;
    let (lock_time, rest) = u32_at(rest)?;
    if !rest.is_empty() {
        return Err(DecodeError::Trailing);
    }
    Ok(Tx::new(version, inputs, outputs, lock_time).unwrap())
}

/// The transaction that all of the bytes spell (BIP 144). Marker and flag are always there, each compactSize is minimal, and at least
/// one witness has an item. The error is that memory ran out, or the first fault from left to right.
pub fn decode(alloc: Global, bytes: &[u8]) -> Result<Tx, DecodeError>
    // The bytes spell the transaction that is read.
    ensures found { IfOk result (λ t. IsTransaction t bytes.now) }
    // A transaction that the bytes spell is read, unless memory runs out.
    ensures only { (t : Transaction) → IsTransaction t bytes.now → Gives (λ t. t) result (Ok t) }
    // The fault is the first one from left to right.
    ensures exact { Gives (λ t. t) result (reading bytes.now) }
{
    all(alloc, bytes)
}

#[tactic(auto, unfolding(crate::specs::Reading::stripped_reading, crate::specs::Reading::end_at))]
fn all_stripped(alloc: Global, bytes: &[u8]) -> Result<Tx, DecodeError>
    ensures { Gives (λ t. t) result (stripped_reading bytes.now) }
{
    let (version, rest) = u32_at(bytes)?;
    let (inputs, rest) = inputs_at(alloc, rest)?;
    let (outputs, rest) = outputs_at(alloc, rest)?;
    let (lock_time, rest) = u32_at(rest)?;
    if !rest.is_empty() {
        return Err(DecodeError::Trailing);
    }
    let inputs = Inputs::from_vec(inputs).unwrap();
    Ok(Tx::new(version, inputs, outputs, lock_time).unwrap())
}

/// The transaction that the bytes spell in the form without marker, flag and witnesses, over which its id is taken
/// (BIP 141). It has no witness items. The error is that memory ran out, or the first fault from left to right.
pub fn decode_stripped(alloc: Global, bytes: &[u8]) -> Result<Tx, DecodeError>
    // The bytes spell the transaction that is read.
    ensures found { IfOk result (λ t. IsStripped t bytes.now) }
    // A transaction that the bytes spell is read, unless memory runs out.
    ensures only { (t : Transaction) → IsStripped t bytes.now → Gives (λ t. t) result (Ok t) }
    // The fault is the first one from left to right.
    ensures exact { Gives (λ t. t) result (stripped_reading bytes.now) }
{
    all_stripped(alloc, bytes)
}
