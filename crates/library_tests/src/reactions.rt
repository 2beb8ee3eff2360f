//! What a node does about a block.

use crate::openings::SEAT;
use anyhow::{Context, Result, ensure};
use book::{Batch, Book};
use chain::Block;
use keys::{Base, Key};
use lists::List;
use publish::signed_commitment;
use side::{DueClaim, ReadParts, Reader, worth_of};
use sighash::programs::key_hash_program;
use std::alloc::Global;
use tx::{Tx, TxOut};
use watch::Watch;

/// Reads the block at a height: what falls due, and what to read the next block with.
pub fn read(
    alloc: Global,
    book: &Book,
    watches: Vec<Watch>,
    learnt: Vec<[u8; 32]>,
    height: u64,
    block: &Block,
) -> Result<ReadParts> {
    let fundings = book.fundings(alloc)?;
    ensure!(fundings.len() == watches.len(), "a watch for each channel");
    let mut reader = Reader::new(alloc, fundings, watches, learnt)?;
    answer(alloc, book, &mut reader, block)?;
    Ok(reader.read(alloc, height, block)?.into_parts()?)
}

// Answers what the reader asks.
fn answer(alloc: Global, book: &Book, reader: &mut Reader, block: &Block) -> Result<()> {
    let channels = reader.to_ask(alloc, block)?;
    for channel in &channels {
        reader.answer(*channel, book.known(*channel)?)?;
    }
    Ok(())
}

/// Releases a claim: what its output is worth less a fee goes to this side's payment key. The transaction
/// is to be broadcast once the book is kept.
pub fn release(alloc: Global, book: &mut Book, due: &DueClaim, fee_sat: u64) -> Result<Tx> {
    let channel = book.channel(due.channel).context("no such channel")?;
    let key = channel.signer().base(Base::Payment);
    let batch = batch(alloc, due, &key, fee_sat)?;
    let filled = book.release(SEAT, due.channel, batch)?;
    Ok(filled.into_tx())
}

// The batch of one claim.
fn batch(alloc: Global, due: &DueClaim, key: &Key, fee_sat: u64) -> Result<Batch> {
    let worth_sat = worth_of(due.channel, &[due])?;
    let rest_sat = worth_sat.checked_sub(fee_sat).context("too great a fee")?;
    let output = TxOut::new(rest_sat, key_hash_program(alloc, &key.bytes)?)?;
    let outputs = List::from_vec(vec![in alloc; output]?);
    let claims = List::from_vec(vec![in alloc; due.claim.copy()?]?);
    Batch::new(claims, outputs, due.preimages.clone()?).context("no batch")
}

/// The commitment with the number that the close gave.
pub fn commitment(alloc: Global, book: &Book, number: u64) -> Result<Tx> {
    let patterns = book.patterns()?;
    let channel = book.channel(0).context("no such channel")?;
    let tx = signed_commitment(alloc, patterns.get(), channel, number)?;
    tx.context("no such commitment")
}
