//! The words of a line.

use hex::FromHex;
use keys::Key;
use page::Page;
use revoked::{
    ChannelPatterns, ChannelType, CommitmentKeys, Direction, Expiry, Revoked, RevokedHtlc,
};
use std::alloc::Global;
use std::str::SplitWhitespace;
use tx::{Tx, decode_stripped};

/// The bytes that a word spells. The page fails if they are not as many.
fn bytes_of<const N: usize>(page: &mut Page, word: &str) -> [u8; N] {
    match <[u8; N] as FromHex>::from_hex(word) {
        Ok(bytes) => bytes,
        Err(_) => {
            page.fail();
            [0; N]
        }
    }
}

/// The key that the next word spells.
fn next_key(page: &mut Page, words: &mut SplitWhitespace<'_>) -> Option<Key> {
    Key::read(&bytes_of(page, words.next().unwrap_or("")))
}

/// The keys that the next words spell.
fn keys_of(page: &mut Page, words: &mut SplitWhitespace<'_>) -> Option<CommitmentKeys> {
    Some(CommitmentKeys {
        revocation: next_key(page, words)?,
        delayed: next_key(page, words)?,
        local_htlc: next_key(page, words)?,
        remote_htlc: next_key(page, words)?,
        remote: next_key(page, words)?,
    })
}

/// Appends the HTLC that a word names.
fn push_htlc(page: &mut Page, word: &str, htlcs: &mut Vec<RevokedHtlc>) {
    let (direction, rest) = word.split_once(':').unwrap_or(("", ""));
    let (hash, height) = rest.split_once(':').unwrap_or(("", ""));
    let direction = if direction == "offered" {
        Direction::Offered
    } else {
        Direction::Received
    };
    let hash = bytes_of(page, hash);
    match Expiry::new(height.parse().unwrap_or(0)) {
        Some(expiry) => {
            let htlc = RevokedHtlc {
                direction,
                hash,
                expiry,
            };
            if htlcs.push(htlc).is_err() {
                page.fail();
            }
        }
        None => page.fail(),
    }
}

/// The HTLCs that words name.
fn htlcs_of(page: &mut Page, words: SplitWhitespace<'_>) -> Vec<RevokedHtlc> {
    let mut htlcs = Vec::new(page.alloc());
    for word in words {
        push_htlc(page, word, &mut htlcs);
    }
    htlcs
}

/// The commitment of a line, which stands behind the transaction.
pub fn revoked_of(page: &mut Page, patterns: &ChannelPatterns, line: &str) -> Option<Revoked> {
    let mut words = line.split_whitespace();
    let channel_type = if words.next().unwrap_or("") == "anchors" {
        ChannelType::Anchors
    } else {
        ChannelType::StaticRemoteKey
    };
    let keys = keys_of(page, &mut words)?;
    let delay_blocks = words.next().unwrap_or("").parse().unwrap_or(0);
    let htlcs = htlcs_of(page, words);
    Revoked::new(
        page.alloc(),
        patterns,
        channel_type,
        keys,
        delay_blocks,
        htlcs,
    )
    .ok()
}

/// The transaction that a word spells.
pub fn tx_of(alloc: Global, word: &str) -> Option<Tx> {
    match hex::decode(alloc, word) {
        Ok(bytes) => decode_stripped(alloc, bytes.as_slice()).ok(),
        Err(_) => None,
    }
}
