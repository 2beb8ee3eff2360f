//! Transactions that take the outputs of a commitment.

use claim::Claim;
use filling::{FillError, fill};
use keys::Signer;
use lists::ByteString;
use penalty::PenaltySet;
use std::alloc::Global;
use tx::{MAX_INPUTS, MAX_OUTPUTS, Tx, TxOut, encode, txid};

/// What is shown of a transaction: its id, the number of its inputs, its lock time and the hash of its bytes.
#[derive(Clone, Copy, Drop)]
pub struct Spend {
    pub id: [u8; 32],
    pub inputs: u64,
    pub lock_time: u32,
    pub hash: [u8; 32],
}

/// One output of this value, with an empty script.
fn outputs_of(alloc: Global, value: u64) -> Vec<TxOut> {
    let mut outputs = Vec::new(alloc);
    if let Ok(output) = TxOut::new(value, ByteString::new(alloc)) {
        let _ = outputs.push(output);
    }
    outputs
}

/// What is shown of a transaction.
fn spend_of(alloc: Global, tx: &Tx) -> Result<Spend, FillError> {
    match encode(alloc, tx) {
        Ok(bytes) => Ok(Spend {
            id: txid(tx),
            inputs: tx.inputs().len() as u64,
            lock_time: tx.lock_time(),
            hash: digest::sha256d(bytes.as_slice()),
        }),
        Err(_) => Err(FillError::NoMemory),
    }
}

/// The transaction that takes claims into these outputs, or why there is none.
fn filled(
    alloc: Global,
    claims: &[&Claim],
    outputs: Vec<TxOut>,
    signer: &Signer,
) -> Result<Spend, FillError> {
    if claims.is_empty() || claims.len() > MAX_INPUTS || outputs.len() > MAX_OUTPUTS {
        return Err(FillError::NoMemory);
    }
    match fill(alloc, claims, outputs, signer, &[]) {
        Ok(filled) => spend_of(alloc, filled.tx()),
        Err(refusal) => Err(refusal),
    }
}

/// Whether a claim is on an output of the commitment itself, which the first claim is on.
fn is_own(set: &PenaltySet, claim: &Claim) -> bool {
    match set.claims().first() {
        Some(first) => claim.outpoint().txid == first.outpoint().txid,
        None => false,
    }
}

/// The value of the commitment's own outputs.
fn total(set: &PenaltySet) -> u64 {
    let mut total = 0u64;
    for claim in set.claims() {
        if is_own(set, claim) {
            total = total.saturating_add(claim.place().value);
        }
    }
    total
}

/// The transaction that takes the commitment's own outputs together, and this number of satoshis more than they are worth.
pub fn spent(
    alloc: Global,
    set: &PenaltySet,
    more: u64,
    signer: &Signer,
) -> Result<Spend, FillError> {
    let mut own = Vec::new(alloc);
    for claim in set.claims() {
        if is_own(set, claim) && own.push(claim).is_err() {
            return Err(FillError::NoMemory);
        }
    }
    let outputs = outputs_of(alloc, total(set).saturating_add(more));
    filled(alloc, own.as_slice(), outputs, signer)
}

/// The transaction that takes the first claim twice, into the same value.
pub fn spent_twice(alloc: Global, set: &PenaltySet, signer: &Signer) -> Result<Spend, FillError> {
    match set.claims().first() {
        Some(first) => filled(
            alloc,
            &[first, first],
            outputs_of(alloc, total(set)),
            signer,
        ),
        None => Err(FillError::NoMemory),
    }
}
