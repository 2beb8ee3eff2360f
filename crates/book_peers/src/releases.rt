//! What a node releases: claims in a transaction with one output.

use crate::peers::PREIMAGE;
use anyhow::{Context, Result};
use book::Batch;
use claim::Claim;
use lists::{ByteString, List};
use std::alloc::Global;
use tx::TxOut;

// An output of 1,000 satoshis that anyone can spend.
fn output(alloc: Global) -> Result<TxOut> {
    let program = ByteString::from_slice(alloc, &[0x51])?;
    Ok(TxOut::new(1000, program)?)
}

fn outputs(alloc: Global) -> Result<List<TxOut>> {
    let mut outputs = List::new(alloc);
    outputs.push(output(alloc)?)?;
    Ok(outputs)
}

fn preimages(alloc: Global) -> Result<List<[u8; 32]>> {
    let mut preimages = List::new(alloc);
    preimages.push(PREIMAGE)?;
    Ok(preimages)
}

fn batch_of(claims: List<Claim>, outputs: List<TxOut>, preimages: List<[u8; 32]>) -> Result<Batch> {
    Batch::new(claims, outputs, preimages).context("no batch")
}

/// The claims, in a transaction with one output, and the preimage of every HTLC.
pub fn batch_with(alloc: Global, claims: List<Claim>) -> Result<Batch> {
    let (outputs, preimages) = (outputs(alloc)?, preimages(alloc)?);
    batch_of(claims, outputs, preimages)
}
