//! Keys against values from Python's hashlib, and what signers may sign for.

use crate::fixtures::key;
use hex::FromHex;
use keys::{Base, Key, Signer, derive, point, revocation};
use sighash::Token;
use std::alloc::{AllocError, Global};
use std::process::Abort;

/// The bases in the order of their numbers.
const BASES: [Base; 5] = [
    Base::Funding,
    Base::Payment,
    Base::Delayed,
    Base::Htlc,
    Base::Revocation,
];

/// The seed of all signers here: 32 bytes 0a (hexadecimal).
const SEED: [u8; 32] = [0x0a; 32];

/// The base keys of the seed.
const BASE_KEYS: [&str; 5] = [
    "02b0e2d3dc1a6b22e109abb20ef5d32787b004e8b72941b7b1e1c43021c26a5fb0",
    "028857fd3aae0cb581c0deb5d49013130c944d27fb8fdd0b086ad9aee60c51de15",
    "0284403cd5687784ca4b27ca9cf048bf3c9495426bce2fc3977212127290e00880",
    "025ec23b9dbd14dfd11bfd006ede9591e377f5b44630869a0c6bd8d7ff6b4b3660",
    "0286791f9847667325180a6aa37fe82c669c364ebb242e6f89646c56b0fd4ea99b",
];

/// The keys that derive from them at the point of 03 and 32 bytes 33 (hexadecimal).
const DERIVED: [&str; 5] = [
    "02bec57b1cbeb30d1818bf205eb4339031666a1f9fdba201c96d384403b4399372",
    "026e01cf07b3a02dd4213450e796c9b4c35b91dad30ecd32156e8c88095bb6426c",
    "02a6369da809a5dbc8d23606685e3efea17bfaa50369fa6b69f893195e70bea196",
    "02f754d4b978ac2d2cb15b22c5bd4cdc4f7bc034ba7e1e8faf6a0e9633fae3c6b5",
    "02ed42fec8c1c267d90bd96b0094d01decf05bbf5f6bc563c376eeccdec100d5ee",
];

/// Their revocation keys at the point of the secret 00 01 .. 1f.
const REVOCATIONS: [&str; 5] = [
    "02a9d48c7524d05e24ff01fc409097b3361e11ffd099f1be1670e50dd5956801d1",
    "0279b621788663ccaa53551eededa48ef59cbf95a692dae9186c164a9c347c4794",
    "0229cc594b69a59ce2d55d29f81cb6702d4790bf5dd89b3a95786111d0dbe92b9d",
    "02f4dd69cdf5764d417c1722a176ad2daa317be07fa60e4e9ef1f91489d322b983",
    "0208ef4ccea5aa1f13aa579efec7a6da8b41fb3908370de6403f6f3feac682b11c",
];

/// The point of that secret.
const POINT: &str = "028087c7b77b89484bf1d2369981072209aaa1b7f8a2f4972ae96b2f2d3b3c28db";

/// The seed of the per-commitment secrets.
const COMMITMENT_SEED: &str = "6b4d9577f0bae8fdae454f93df2cb4e6a5849f10b2f662c6832b0aa9c7a7d946";

/// The point of 03 and 32 bytes 33 (hexadecimal).
fn some_point(rt: &impl Abort) -> Key {
    let mut bytes = [0x33; 33];
    bytes[0] = 3;
    Key::read(&bytes).expect(rt, "a key")
}

/// The secret 00 01 .. 1f.
fn some_secret() -> [u8; 32] {
    let mut secret = [0; 32];
    for i in 0..32 {
        secret[i] = i as u8;
    }
    secret
}

/// Whether a key has these 66 hexadecimal digits.
fn is_key(key: &Key, text: &str) -> bool {
    <[u8; 33] as FromHex>::from_hex(text) == Ok(key.bytes)
}

#[test]
fn derives_the_keys_that_hashlib_gives(rt: HostRuntime) {
    let signer = Signer::new(rt.alloc(), &SEED);
    let secret_point = point(&some_secret());
    assert!(rt; is_key(&secret_point, POINT));
    for (n, base) in BASES.iter().enumerate() {
        let base_key = signer.base(*base);
        assert!(rt; usize::from(base.number()) == n);
        assert!(rt; is_key(&base_key, BASE_KEYS[n]), "base {n}");
        let derived = derive(&base_key, &some_point(&rt));
        assert!(rt; is_key(&derived, DERIVED[n]), "base {n}");
        let revocation = revocation(&base_key, &secret_point);
        assert!(rt; is_key(&revocation, REVOCATIONS[n]), "base {n}");
    }
    let seed = <[u8; 32] as FromHex>::from_hex(COMMITMENT_SEED);
    assert!(rt; seed == Ok(signer.commitment_seed()));
}

/// Whether the signer may sign for all of these keys, or for none of them.
fn signs(rt: &impl Abort, signer: &Signer, keys: &[&str], all: bool) -> bool {
    for text in keys {
        if signer.can_sign(&key(rt, text)) != all {
            return false;
        }
    }
    true
}

// A signer with base keys learns a point, then the point of a secret, which alone makes no revocation key signable, and
// then the secret, which does.
fn learn_rights(rt: &impl Abort, signer: &mut Signer) {
    assert!(rt; signs(rt, signer, &BASE_KEYS, true));
    assert!(rt; signs(rt, signer, &DERIVED, false));
    assert!(rt; signs(rt, signer, &REVOCATIONS, false));
    signer.learn_point(&some_point(rt)).expect(rt, "memory");
    assert!(rt; signs(rt, signer, &DERIVED, true));
    assert!(rt; signs(rt, signer, &REVOCATIONS, false));
    signer.learn_point(&key(rt, POINT)).expect(rt, "memory");
    assert!(rt; signs(rt, signer, &REVOCATIONS, false));
    signer.learn_secret(&some_secret()).expect(rt, "memory");
    assert!(rt; signs(rt, signer, &REVOCATIONS, true));
    assert!(rt; signs(rt, signer, &BASE_KEYS, true));
    assert!(rt; signs(rt, signer, &[POINT], false));
}

#[test]
fn signs_for_what_it_has_a_right_to(rt: HostRuntime) {
    let mut signer = Signer::new(rt.alloc(), &SEED);
    learn_rights(&rt, &mut signer);
}

/// A secret that differs for each number.
fn numbered_secret(number: u16) -> [u8; 32] {
    let mut secret = [0x44; 32];
    secret[..2].copy_from_slice(&number.to_be_bytes());
    secret
}

/// Learns the secret with this number and its point, by one call or by two.
fn learn(rt: &impl Abort, signer: &mut Signer, number: u16) {
    let secret = numbered_secret(number);
    let point = point(&secret);
    if number % 2 == 0 {
        signer
            .learn_revocation(&secret, &point)
            .expect(rt, "memory");
    } else {
        signer.learn_point(&point).expect(rt, "memory");
        signer.learn_secret(&secret).expect(rt, "memory");
    }
}

#[test]
fn learns_many_and_forgets_none(rt: HostRuntime) {
    let mut signer = Signer::new(rt.alloc(), &SEED);
    for number in 0..300 {
        learn(&rt, &mut signer, number);
    }
    let first = point(&numbered_secret(0));
    assert!(rt; signer.can_sign(&derive(&signer.base(Base::Htlc), &first)));
    assert!(rt; signer.copy().is_ok());
}

// The example in the documentation of `keys`.
fn sign_delayed(
    alloc: Global,
    seed: &[u8; 32],
    point: &Key,
    digest: &[u8; 32],
) -> Result<Option<Token>, AllocError> {
    let mut signer = Signer::new(alloc, seed);
    signer.learn_point(point)?;
    let key = derive(&signer.base(Base::Delayed), point);
    Ok(signer.sign(&key, digest).ok())
}

#[test]
fn signs_with_a_delayed_key(rt: HostRuntime) {
    let token = sign_delayed(rt.alloc(), &SEED, &some_point(&rt), &[9; 32]);
    let wanted = Token::new(&key(&rt, DERIVED[2]).bytes, &[9; 32]);
    assert!(rt; token == Ok(Some(wanted)));
}
