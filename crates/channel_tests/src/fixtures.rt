//! Keys, parties and hashes that several modules test with.

use hex::FromHex;
use keys::Key;
use parties::{key_of, one_key, party_with};
use std::process::Abort;
use terms::Party;

/// A key: 02, and then one byte 32 times.
pub fn key(rt: &impl Abort, fill: u8) -> Key {
    key_of(fill).expect(rt, "a key")
}

/// A side with one key for all its base keys.
pub fn one_key_party(rt: &impl Abort, start_msat: u64) -> Party {
    party_with(one_key(key(rt, 2)), start_msat)
}

/// Whether a hexadecimal text spells this hash.
pub fn is_hash(hash: &[u8; 32], text: &str) -> bool {
    <[u8; 32] as FromHex>::from_hex(text) == Ok(*hash)
}
