//! How both sides open a channel.

ghost use Rattle.std.specs.Prelude.{◌≡◌, IfOk};
ghost use Rattle.terms.specs.Sides.{other};
ghost use Rattle.channel.specs.Keeping.{HasBases, CanOpen};

use anyhow::{Context, Result};
use book::Opening;
use channel::{Channel, opening_points, opening_token};
use digest::sha256;
use keys::Signer;
use parties::{FUNDING, party, terms_of};
use std::alloc::Global;
use terms::{Side, Terms};
use tx::OutPoint;

/// How a side opens a channel in its book, and the second channel.
#[derive(Drop)]
pub struct Opened {
    pub opening: Opening,
    pub channel: Channel,
}

// The seed of a node's signer in a channel: SHA-256 of "channel", the node's seed and the channel's number.
fn channel_seed(byte: u8, number: u32) -> [u8; 32] {
    let mut bytes = [byte; 43];
    bytes[..7].copy_from_slice(b"channel");
    bytes[39..].copy_from_slice(&number.to_le_bytes());
    sha256(&bytes)
}

// How a side opens a channel, with its signer and its peer's.
fn opening_of(
    alloc: Global,
    terms: Terms,
    side: Side,
    seed: &[u8; 32],
    signer: &Signer,
    peer: &Signer,
) -> Result<Opening>
    requires peers { HasBases terms (other side) peer.now.seed }
{
    let own = opening_points(signer);
    let token = opening_token(alloc, &terms, side.other(), peer, &own.first)?;
    let peers = opening_points(peer);
    Opening::new(alloc, terms, side, *seed, peers.first, peers.second, token).context(
        "the terms have other base keys",
    )
}

// A side's opening, and its second channel.
fn open_by(
    alloc: Global,
    terms: Terms,
    side: Side,
    seed: &[u8; 32],
    signer: Signer,
    peer: &Signer,
) -> Result<Opened>
    requires own { CanOpen terms side signer }
    requires peers { HasBases terms (other side) peer.now.seed }
{
    let opening = opening_of(alloc, terms, side, seed, &signer, peer)?;
    let (first, next, token) = (opening.first_point, opening.next_point, opening.token);
    let channel = Channel::new(alloc, terms, side, signer, first, next, &token)?;
    Ok(Opened { opening, channel })
}

/// How a side opens the channel of this number, of 100,000 satoshis. A opens it, and has 80,000.
pub fn open_side(alloc: Global, number: u32, side: Side) -> Result<Opened> {
    open_side_with(alloc, number, side, 100_000)
}

/// The same for a channel of this many satoshis. A has four fifths of them.
pub fn open_side_with(alloc: Global, number: u32, side: Side, capacity_sat: u32) -> Result<Opened> {
    let seed_a = channel_seed(0x0a, number);
    let seed_b = channel_seed(0x0b, number);
    let (a, b) = (Signer::new(alloc, &seed_a), Signer::new(alloc, &seed_b));
    let funding = OutPoint {
        index: number,
        ..FUNDING
    };
    let capacity_sat = u64::from(capacity_sat);
    let terms = terms_of(
        funding,
        capacity_sat,
        party(&a, capacity_sat * 800),
        party(&b, capacity_sat * 200),
    )?;
    match side {
        Side::A => open_by(alloc, terms, Side::A, &seed_a, a, &b),
        Side::B => open_by(alloc, terms, Side::B, &seed_b, b, &a),
    }
}
