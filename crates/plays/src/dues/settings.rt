// The channel, and what its commitments pay.

use crate::dues::publishing::funding_output;
use crate::dues::sides::party;
use chain::{Chain, Coins};
use digest::sha256;
use lists::List;
use std::alloc::Global;
use terms::{Htlc, Share, Side, Terms, View};

/// The satoshis of the channel, of which A has 80,000 at the start.
const CAPACITY_SAT: u64 = 100_000;

/// The preimage of every HTLC.
pub const PREIMAGE: [u8; 32] = [0; 32];

/// A channel, and what all its commitments pay.
#[derive(Drop)]
pub struct Setting {
    pub terms: Terms,
    pub view: View,
}

/// The delays of A and of B, in blocks.
pub type Delays = [u16; 2];

/// An HTLC that a side offered.
#[derive(Clone, Copy)]
pub struct Offer {
    pub satoshis: u64,
    pub expiry_height: u32,
}

/// The terms of a channel whose funding output is granted on a chain. A opened it, at 1,000 satoshis per 1,000 units of weight.
fn open(alloc: Global, delays: Delays, chain: &mut Chain) -> Option<Terms> {
    let a = party(alloc, Side::A, 80_000_000, delays[0]);
    let b = party(alloc, Side::B, 20_000_000, delays[1]);
    let output = funding_output(alloc, &a.bases.funding, &b.bases.funding, CAPACITY_SAT)?;
    let funding = chain.grant(output).ok()?;
    Terms::new(funding, CAPACITY_SAT, Side::A, 1000, a, b).ok()
}

/// Appends an HTLC. Returns whether there was memory.
fn push(offered: &mut Vec<Htlc>, offer: &Offer) -> bool {
    let htlc = Htlc {
        id: offered.len() as u64,
        amount_msat: offer.satoshis.saturating_mul(1000),
        hash: sha256(&PREIMAGE),
        expiry_height: offer.expiry_height,
    };
    offered.push(htlc).is_ok()
}

/// The balance that is left to a side after its offers.
fn balance_msat(start_msat: u64, offers: &[Offer]) -> u64 {
    let mut balance_msat = start_msat;
    for offer in offers {
        balance_msat = balance_msat.saturating_sub(offer.satoshis.saturating_mul(1000));
    }
    balance_msat
}

/// The balance that is left to a side after its offers, and the HTLCs that it offered.
fn share(alloc: Global, start_msat: u64, offers: &[Offer]) -> Option<Share> {
    let mut offered = Vec::new(alloc);
    for offer in offers {
        if !push(&mut offered, offer) {
            return None;
        }
    }
    Some(Share {
        balance_msat: balance_msat(start_msat, offers),
        offered: List::from_vec(offered),
    })
}

/// What commitments with these HTLCs of A and of B pay.
fn view(alloc: Global, of_a: &[Offer], of_b: &[Offer]) -> Option<View> {
    let a = share(alloc, 80_000_000, of_a)?;
    let b = share(alloc, 20_000_000, of_b)?;
    Some(View {
        a,
        b,
        feerate_per_kw: 1000,
    })
}

/// A channel with these HTLCs of A and of B, opened on a chain.
pub fn open_channel(
    alloc: Global,
    delays: Delays,
    of_a: &[Offer],
    of_b: &[Offer],
    chain: &mut Chain,
) -> Option<Setting> {
    let terms = open(alloc, delays, chain)?;
    let view = view(alloc, of_a, of_b)?;
    Some(Setting { terms, view })
}
