//! How two nodes open a channel.

use anyhow::{Context, Result, ensure};
use book::{Book, Opening};
use channel::{OpeningPoints, opening_points, opening_token};
use commit::funding_script;
use keys::{Base, Signer};
use sighash::Token;
use sighash::programs::script_hash_program;
use std::alloc::Global;
use terms::{BaseKeys, Party, Side, Terms};
use tx::{OutPoint, TxOut};

/// The seat that makes all calls here. A history names the seat of each.
pub const SEAT: u32 = 0;

/// What a side sends first (`open_channel`, `accept_channel`).
pub fn greeting(alloc: Global, seed: &[u8; 32]) -> (BaseKeys, OpeningPoints) {
    let signer = Signer::new(alloc, seed);
    (BaseKeys::of(&signer), opening_points(&signer))
}

/// The funding output, for the opener's transaction.
pub fn funding_output(alloc: Global, a: &BaseKeys, b: &BaseKeys, value_sat: u64) -> Result<TxOut> {
    let script = funding_script(alloc, &a.funding, &b.funding)?;
    let program = script_hash_program(alloc, &script)?;
    Ok(TxOut::new(value_sat, program)?)
}

fn party(bases: BaseKeys, start_msat: u64) -> Party {
    Party {
        dust_sat: 546,
        delay_blocks: 144,
        minimum_msat: 1_000,
        start_msat,
        bases,
    }
}

/// The terms.
pub fn agreed(funding: OutPoint, a: BaseKeys, b: BaseKeys) -> Result<Terms> {
    let (a, b) = (party(a, 80_000_000), party(b, 20_000_000));
    Ok(Terms::new(funding, 100_000, Side::A, 1_000, a, b)?)
}

/// A side's token on its peer's commitment 0, by the peer's points.
pub fn token_for(
    alloc: Global,
    terms: &Terms,
    side: Side,
    seed: &[u8; 32],
    peer: &OpeningPoints,
) -> Result<Token> {
    let signer = Signer::new(alloc, seed);
    let own = terms.party(side).bases.funding;
    ensure!(
        own.bytes == signer.base(Base::Funding).bytes,
        "another seed"
    );
    Ok(opening_token(alloc, terms, side, &signer, &peer.first)?)
}

/// Opens the channel by what the peer gave: its index in the book.
pub fn open(
    alloc: Global,
    book: &mut Book,
    terms: Terms,
    side: Side,
    seed: [u8; 32],
    peer: &OpeningPoints,
    token: Token,
) -> Result<u64> {
    let opening = Opening::new(alloc, terms, side, seed, peer.first, peer.second, token);
    let index = book.open(SEAT, opening.context("another seed")?)?;
    Ok(index)
}
