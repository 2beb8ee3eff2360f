//! Compares `revoked` with BOLT 3, Appendix C, and with its HTLCs as they are with anchors. `oracles/revoked.py` wrote the lines of this part, and what it has to print.
//!
//! A line has a transaction and a revoked commitment. Its words are the transaction without witnesses, the channel's
//! type (`static_remotekey` or `anchors`), the commitment's five keys (revocation, delayed, local HTLC, remote HTLC,
//! remote), its delay in blocks, and its HTLCs. An HTLC is
//! `offered` or `received`, the payment hash and the expiry, with a colon between each two. Of each claim the program
//! prints the index of the output, its value, the script, the path and the fills of its slots, and last the indices of
//! the other outputs.
//!
//! The module `reading` reads the words. It calls `revoked` and `tx`.

mod reading;

use claim::{Claim, Slot};
use page::Page;
use reading::{revoked_of, tx_of};
use revoked::{ChannelPatterns, Found, Revoked, channel_patterns, claims_in};
use tx::Tx;

/// Shows what fills a slot.
fn show_slot(page: &mut Page, slot: &Slot) {
    match slot {
        Slot::Sig(key) => page.hex(" sig:", &key.bytes),
        Slot::Preimage(hash) => page.hex(" preimage:", hash),
        Slot::Exact(item) => page.hex(" exact:", item.item.bytes()),
    }
}

/// Shows a claim.
fn show_claim(page: &mut Page, claim: &Claim) {
    let place = claim.place();
    page.hex("", &place.outpoint.txid);
    page.count(":", u64::from(place.outpoint.index));
    page.count(" value ", place.value);
    page.hex(" program ", place.program.bytes());
    page.hex(" script ", claim.script());
    page.count(" path ", claim.index() as u64);
    for slot in claim.slots() {
        show_slot(page, slot);
    }
    page.push("\n");
}

/// Shows what was found: a line for each claim, and one for the other outputs.
fn show_found(page: &mut Page, found: &Found) {
    for claim in found.claims.values() {
        show_claim(page, claim);
    }
    page.push("others");
    for index in found.others.values() {
        page.count(" ", u64::from(*index));
    }
    page.push("\n");
}

/// Shows what a commitment lets claim of a transaction.
fn show_claims(page: &mut Page, patterns: &ChannelPatterns, revoked: &Revoked, tx: &Tx) {
    match claims_in(page.alloc(), patterns, revoked, tx) {
        Ok(found) => show_found(page, &found),
        Err(_) => page.fail(),
    }
}

/// Shows what the commitment that words name lets claim of a transaction.
fn show_tx(page: &mut Page, patterns: &ChannelPatterns, commitment: &str, tx: &Tx) {
    match revoked_of(page, patterns, commitment) {
        Some(revoked) => show_claims(page, patterns, &revoked, tx),
        None => page.fail(),
    }
}

/// Shows all lines, by the patterns of channels.
fn show_lines(page: &mut Page, patterns: &ChannelPatterns, lines: &str) {
    for line in lines.lines() {
        let (tx, commitment) = line.split_once(' ').unwrap_or((line, ""));
        match tx_of(page.alloc(), tx) {
            Some(tx) => show_tx(page, patterns, commitment, &tx),
            None => page.fail(),
        }
    }
}

/// Shows all lines.
pub fn show_all(page: &mut Page, lines: &str) {
    match channel_patterns(page.alloc()) {
        Ok(patterns) => show_lines(page, &patterns, lines),
        Err(_) => page.fail(),
    }
}
