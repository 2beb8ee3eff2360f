//! Plays a channel with three HTLCs, one of them trimmed, and prints what each side can broadcast: its commitments with both signatures, and the HTLC transaction of
//! each HTLC, without a preimage and with it.
//!
//! The expected output is from an independent model of BOLT 3 and BIP 143.

use crate::plays::{Peers, open, play_words};
use channel::Channel;
use forms::{Patterns, patterns};
use page::Page;
use publish::{signed_commitment, signed_htlc_tx};
use terms::Side;
use tx::{Tx, encode};

/// The greatest commitment number shown, and the number of HTLCs shown for each: one more than there are.
const SHOWN: u64 = 3;

/// The preimage of every HTLC.
const PREIMAGE: [u8; 32] = [0; 32];

/// A offers an HTLC, and one that both sides' commitments trim; B offers one. Then A signs, B signs, and A signs again.
const OFFERS: &str =
    "A offer 10000000 5, B deliver, A offer 1000000 6, B deliver, B offer 9000000 7, A deliver";

const SIGNATURES: &str =
    "A sign, B deliver, A deliver, B sign, A deliver, B deliver, A sign, B deliver, A deliver";

/// Shows the bytes of a transaction.
fn show_bytes(page: &mut Page, tx: &Tx) {
    match encode(page.alloc(), tx) {
        Ok(bytes) => page.hex("", bytes.as_slice()),
        Err(_) => page.fail(),
    }
}

/// Shows the HTLC transaction of an HTLC, with these known preimages.
fn show_htlc(
    page: &mut Page,
    patterns: &Patterns,
    channel: &Channel,
    number: u64,
    k: u64,
    preimages: &[[u8; 32]],
) {
    page.debug(&channel.side());
    page.count(" ", number);
    page.count(" HTLC ", k);
    page.count(", preimages ", preimages.len() as u64);
    page.push(": ");
    let shown = signed_htlc_tx(
        page.alloc(),
        patterns,
        channel,
        number,
        k as usize,
        preimages,
    );
    match shown {
        Ok(Some(tx)) => show_bytes(page, &tx),
        Ok(None) => page.push("none"),
        Err(_) => page.fail(),
    }
    page.push("\n");
}

/// Shows a commitment of a number.
fn show_commitment(page: &mut Page, patterns: &Patterns, channel: &Channel, number: u64) {
    page.debug(&channel.side());
    page.count(" ", number);
    page.push(": ");
    match signed_commitment(page.alloc(), patterns, channel, number) {
        Ok(Some(tx)) => show_bytes(page, &tx),
        Ok(None) => page.push("none"),
        Err(_) => page.fail(),
    }
    page.push("\n");
}

/// Shows what a side can broadcast.
fn show_side(page: &mut Page, patterns: &Patterns, channel: &Channel) {
    for number in 0..=SHOWN {
        show_commitment(page, patterns, channel, number);
        for k in 0..SHOWN {
            show_htlc(page, patterns, channel, number, k, &[]);
            show_htlc(page, patterns, channel, number, k, &[[1; 32], PREIMAGE]);
        }
    }
}

/// Plays the channel, and shows what both sides can broadcast.
fn show_played(page: &mut Page, patterns: &Patterns, peers: &mut Peers) {
    if play_words(page.alloc(), &mut peers.pair, &PREIMAGE, OFFERS) != 6
        || play_words(page.alloc(), &mut peers.pair, &PREIMAGE, SIGNATURES) != 9
    {
        page.fail();
    }
    show_side(page, patterns, peers.pair.channel(Side::A));
    show_side(page, patterns, peers.pair.channel(Side::B));
}

/// Shows what both sides of that channel can broadcast.
pub fn show_all(page: &mut Page) {
    let Ok(patterns) = patterns(page.alloc()) else {
        page.fail();
        return;
    };
    match open(page.alloc()) {
        Some(mut peers) => show_played(page, &patterns, &mut peers),
        None => page.fail(),
    }
}
