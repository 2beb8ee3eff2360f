//! The whole output of listings, and messages of every length.

use crate::fixtures::{joined, prints, repeated};
use digest::ripemd160;
use facts::texts::Hex;
use std::alloc::Global;
use std::process::Abort;

// Two keys, and two hashes of 20 bytes, in hexadecimal.
const KEY_11: &str = "021111111111111111111111111111111111111111111111111111111111111111";

const KEY_22: &str = "022222222222222222222222222222222222222222222222222222222222222222";

const HASH_33: &str = "3333333333333333333333333333333333333333";

const HASH_44: &str = "4444444444444444444444444444444444444444";

// The script of an HTLC that a commitment offers (BOLT 3), without anchors: three paths, the second with six facts.
const OFFERED: [&str; 9] = [
    "76a914",
    HASH_33,
    "8763ac6721",
    KEY_11,
    "7c820120876475527c21",
    KEY_22,
    "52ae67a914",
    HASH_44,
    "88ac6868",
];

const OFFERED_PATHS: [&str; 15] = [
    "paths 3\npath 0 arity 2 counted 19 height 4 lock - age -\n  hash 0 ",
    HASH_33,
    " yes\n  key 0\n  form 1\n  token 1 slot 0 yes\npath 1 arity 4 counted 21 height 7 lock - age -\n  hash 0 ",
    HASH_33,
    " no\n  size 0 32 no\n  form 2\n  form 1\n  is 3 - yes\n  assigned 2,1 ",
    KEY_11,
    ",",
    KEY_22,
    " yes\npath 2 arity 2 counted 19 height 5 lock - age -\n  hash 0 ",
    HASH_33,
    " no\n  size 0 32 yes\n  hash 0 ",
    HASH_44,
    " yes\n  form 1\n  token 1 ",
    KEY_11,
    " yes\n",
];

// The script of an HTLC that a commitment receives (BOLT 3),
// expiring at height 500: three paths, the third with a lock.
const RECEIVED: [&str; 9] = [
    "76a914",
    HASH_33,
    "8763ac6721",
    KEY_11,
    "7c8201208763a914",
    HASH_44,
    "88527c21",
    KEY_22,
    "52ae677502f401b175ac6868",
];

const RECEIVED_PATHS: [&str; 15] = [
    "paths 3\npath 0 arity 2 counted 21 height 4 lock - age -\n  hash 0 ",
    HASH_33,
    " yes\n  key 0\n  form 1\n  token 1 slot 0 yes\npath 1 arity 4 counted 23 height 7 lock - age -\n  hash 0 ",
    HASH_33,
    " no\n  size 0 32 yes\n  hash 0 ",
    HASH_44,
    " yes\n  form 2\n  form 1\n  is 3 - yes\n  assigned 2,1 ",
    KEY_11,
    ",",
    KEY_22,
    " yes\npath 2 arity 2 counted 21 height 5 lock 500 age -\n  hash 0 ",
    HASH_33,
    " no\n  size 0 32 no\n  lock 500\n  form 1\n  token 1 ",
    KEY_11,
    " yes\n",
];

// The script of a key hash.
const KEY_HASH: [&str; 3] = ["76a914", HASH_33, "88ac"];

const KEY_HASH_PATHS: [&str; 3] = [
    "paths 1\npath 0 arity 2 counted 4 height 4 lock - age -\n  hash 0 ",
    HASH_33,
    " yes\n  key 0\n  form 1\n  token 1 slot 0 yes\n",
];

// Asserts the listing of a script.
fn lists(rt: &impl Abort, alloc: Global, code: &[&str], text: &[&str]) {
    let code = joined(rt, alloc, code);
    let text = joined(rt, alloc, text);
    prints(
        rt,
        alloc,
        &["paths", code.as_str()],
        "",
        text.as_str(),
        "",
        0,
    );
}

#[test]
fn lists_the_scripts_of_htlcs_and_of_a_key_hash(rt: HostRuntime) {
    lists(&rt, rt.alloc(), &OFFERED, &OFFERED_PATHS);
    lists(&rt, rt.alloc(), &RECEIVED, &RECEIVED_PATHS);
    lists(&rt, rt.alloc(), &KEY_HASH, &KEY_HASH_PATHS);
}

// Asserts that a text of these bytes has their hash.
fn has_hash(rt: &impl Abort, alloc: Global, text: &str, bytes: &[u8]) {
    let hash = format!(in alloc; "{}\n", Hex(&ripemd160(bytes))).expect(rt, "memory");
    prints(rt, alloc, &["ripemd", text], "", hash.as_str(), "", 0);
}

// Asserts the hash of a message of this length, in one letter case.
fn hashes_in(rt: &impl Abort, alloc: Global, byte: &str, len: usize, bytes: &[u8]) {
    let text = repeated(rt, alloc, byte, len, "");
    has_hash(rt, alloc, text.as_str(), bytes);
}

// Messages of every length, in either letter case.
#[test]
fn hashes_every_length(rt: HostRuntime) {
    let mut message = Vec::new(rt.alloc());
    for len in 0usize..=600 {
        hashes_in(&rt, rt.alloc(), "5a", len, message.as_slice());
        hashes_in(&rt, rt.alloc(), "5A", len, message.as_slice());
        assert!(rt; message.push(0x5au8).is_ok());
    }
}
