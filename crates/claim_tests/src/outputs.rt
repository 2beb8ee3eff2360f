//! Scripts of outputs (BOLT 3) and claims on them: they fail only where memory runs out. The bytes of the scripts of BOLT 3, Appendix C, and
//! what fills the slots, stand as facts in the proofs of `forms`.

use crate::fixtures::{claimed, key};
use claim::Claim;
use forms::{
    ClaimKind, Expiry, HtlcKeys, Patterns, accepted_slots, funding, key_hash, offered, patterns,
    received, to_local,
};
use paths::Checked;
use sighash::Token;
use sighash::programs::script_hash_program;
use std::alloc::{AllocError, Global};
use std::process::Abort;

// Whether a script is built.
fn is_built(script: Result<Checked, AllocError>) -> bool {
    script.is_ok()
}

// Whether the scripts without a number are built.
fn are_built(alloc: Global, patterns: &Patterns, keys: &HtlcKeys) -> bool {
    is_built(funding(alloc, patterns, &keys.local, &keys.remote))
        && is_built(key_hash(alloc, patterns, &keys.remote))
        && is_built(offered(alloc, patterns, keys, &[7; 32]))
}

// Whether the scripts with a number are built.
fn are_numbered(alloc: Global, patterns: &Patterns, keys: &HtlcKeys, delay_blocks: u16) -> bool {
    let Some(expiry) = Expiry::new(u32::from(delay_blocks) * 7629) else {
        return false;
    };
    is_built(to_local(alloc, patterns, &keys.revocation, delay_blocks, &keys.local))
        && is_built(received(alloc, patterns, keys, &[7; 32], expiry))
}

const DELAYS: [u16; 12] = [0, 1, 16, 17, 127, 128, 255, 256, 32767, 32768, 40000, 65535];

// No delay and no expiry is refused while memory lasts.
fn builds_every_shape(rt: &impl Abort, alloc: Global, patterns: &Patterns, keys: &HtlcKeys) {
    assert!(rt; are_built(alloc, patterns, keys));
    for delay_blocks in &DELAYS {
        assert!(rt;
            are_numbered(alloc, patterns, keys, *delay_blocks),
            "{delay_blocks}"
        );
    }
}

// A claim of a kind on this script.
fn claim(rt: &impl Abort, alloc: Global, checked: Checked, kind: &ClaimKind) -> Claim {
    let slots = accepted_slots(alloc, kind).expect(rt, "memory");
    let program = script_hash_program(alloc, checked.script().bytes()).expect(rt, "memory");
    claimed(rt, alloc, checked, kind.path(), slots, program)
}

// Asserts what a claim needs: an age and a height.
fn needs(rt: &impl Abort, claim: &Claim, age: u16, height: u64) {
    assert!(rt; claim.needs_age() == age);
    assert!(rt; claim.sequence() == u32::from(age));
    assert!(rt; claim.needs_height() == height);
}

// A claim on to_local after 40,000 blocks.
fn claims_delayed(rt: &impl Abort, alloc: Global, patterns: &Patterns, keys: &HtlcKeys) {
    let delayed = keys.local;
    let checked = to_local(alloc, patterns, &keys.revocation, 40_000, &delayed);
    let checked = checked.expect(rt, "memory");
    let claim = claim(rt, alloc, checked, &ClaimKind::Delayed { delayed });
    needs(rt, &claim, 40_000, 0);
}

// A claim on a received HTLC from its expiry at height 500 on.
fn claims_expired(rt: &impl Abort, alloc: Global, patterns: &Patterns, keys: &HtlcKeys) {
    let expiry = Expiry::new(500).expect(rt, "a height");
    let checked = received(alloc, patterns, keys, &[7; 32], expiry).expect(rt, "memory");
    let remote = keys.remote;
    let claim = claim(rt, alloc, checked, &ClaimKind::DirectTimeout { remote });
    needs(rt, &claim, 0, 500);
}

// The example of the page of `forms`, and with the same patterns every script and a claim from a height on.
#[test]
fn claims_after_a_delay(rt: HostRuntime) {
    let alloc = rt.alloc();
    let keys = HtlcKeys {
        revocation: key(&rt, 1),
        remote: key(&rt, 2),
        local: key(&rt, 3),
    };
    let patterns = patterns(alloc).expect(&rt, "memory");
    builds_every_shape(&rt, alloc, &patterns, &keys);
    claims_delayed(&rt, alloc, &patterns, &keys);
    claims_expired(&rt, alloc, &patterns, &keys);
}

// The number of slots of a claim of a kind; `None` where memory ran out.
fn count(alloc: Global, kind: &ClaimKind) -> Option<usize> {
    match accepted_slots(alloc, kind) {
        Ok(slots) => Some(slots.len()),
        Err(_) => None,
    }
}

#[test]
fn fills_the_slots_of_every_kind(rt: HostRuntime) {
    let local = key(&rt, 1);
    let remote = key(&rt, 2);
    let payment_hash = [9; 32];
    let remote_token = Token::new(&remote.bytes, &[5; 32]);
    let with_two = [
        ClaimKind::Penalty { revocation: local },
        ClaimKind::Delayed { delayed: local },
        ClaimKind::HtlcPenalty { revocation: local },
        ClaimKind::DirectPreimage {
            payment_hash,
            remote,
        },
        ClaimKind::DirectTimeout { remote },
        ClaimKind::KeyHash { key: local },
    ];
    for kind in &with_two {
        assert!(rt; count(rt.alloc(), kind) == Some(2));
    }
    let with_four = [
        ClaimKind::HtlcTimeout {
            local,
            remote_token,
        },
        ClaimKind::HtlcSuccess {
            payment_hash,
            local,
            remote_token,
        },
    ];
    for kind in &with_four {
        assert!(rt; count(rt.alloc(), kind) == Some(4));
    }
}
