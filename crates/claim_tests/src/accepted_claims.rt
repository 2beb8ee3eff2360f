//! An accepted claim, and programs from outside.

use crate::fixtures::{checked_parts, claimed, joined, key, key_slots, place};
use claim::{Claim, Shell, accept};
use lists::ByteString;
use sighash::programs::script_hash_program;
use std::alloc::Global;
use std::process::Abort;

// The example of the page of `claim`: a script is parsed, checked, and claimed.
fn claim_of(rt: &impl Abort, alloc: Global) -> Claim {
    let slots = key_slots(rt, alloc, &key(rt, 0x11));
    let program = script_hash_program(alloc, &[0xac]).expect(rt, "memory");
    let checked = checked_parts(rt, alloc, &[(&[0xac], 1)]);
    claimed(rt, alloc, checked, 0, slots, program)
}

// Whether a copy of a claim waits for no age and no height.
fn is_due_at_once(rt: &impl Abort, claim: &Claim) -> bool {
    let copy = claim.copy().expect(rt, "memory");
    copy.needs_age() == 0 && copy.needs_height() == 0
}

#[test]
fn claims_a_checksig(rt: HostRuntime) {
    let claim = claim_of(&rt, rt.alloc());
    assert!(rt; is_due_at_once(&rt, &claim));
}

// The number of the refusal of a claim without slots by this script, on an output with a program of these parts. `None`
// if the claim is accepted.
fn refusal_of(
    rt: &impl Abort,
    alloc: Global,
    script: &[u8],
    program: &[(&[u8], usize)],
) -> Option<u8> {
    let place = place(ByteString::from_vec(joined(rt, alloc, program)));
    let checked = checked_parts(rt, alloc, &[(script, 1)]);
    match accept(alloc, checked, 0, Vec::new(alloc), place, Shell::Open) {
        Ok(_) => None,
        Err(error) => Some(error.number()),
    }
}

// SHA-256 of the witness script 51, as computed elsewhere.
const HASH_OF_51: [u8; 32] = [
    0x4a, 0xe8, 0x15, 0x72, 0xf0, 0x6e, 0x1b, 0x88, 0xfd, 0x5c, 0xed, 0x7a, 0x1a, 0x00, 0x09, 0x45,
    0x43, 0x2e, 0x83, 0xe1, 0x55, 0x1e, 0x6f, 0x72, 0x1e, 0xe9, 0xc0, 0x0b, 0x8c, 0xc3, 0x32, 0x60,
];

// Its first 31 bytes.
const SHORT: [u8; 31] = [
    0x4a, 0xe8, 0x15, 0x72, 0xf0, 0x6e, 0x1b, 0x88, 0xfd, 0x5c, 0xed, 0x7a, 0x1a, 0x00, 0x09, 0x45,
    0x43, 0x2e, 0x83, 0xe1, 0x55, 0x1e, 0x6f, 0x72, 0x1e, 0xe9, 0xc0, 0x0b, 0x8c, 0xc3, 0x32,
];

// The hash with another last byte.
const OTHER: [u8; 32] = [
    0x4a, 0xe8, 0x15, 0x72, 0xf0, 0x6e, 0x1b, 0x88, 0xfd, 0x5c, 0xed, 0x7a, 0x1a, 0x00, 0x09, 0x45,
    0x43, 0x2e, 0x83, 0xe1, 0x55, 0x1e, 0x6f, 0x72, 0x1e, 0xe9, 0xc0, 0x0b, 0x8c, 0xc3, 0x32, 0x61,
];

// A script, how its output's program begins, the rest of the program, and the number of the refusal.
type Row = (&'static [u8], &'static [u8], &'static [u8], Option<u8>);

const ROWS: [Row; 6] = [
    (&[0x51], &[0x00, 0x20], &HASH_OF_51, None),
    (&[0x52], &[0x00, 0x20], &HASH_OF_51, Some(5)),
    (&[0x51], &[0x00, 0x20], &SHORT, Some(5)),
    (&[0x51], &[0x00, 0x20], &OTHER, Some(5)),
    (&[0x51], &[0x51, 0x20], &HASH_OF_51, Some(5)),
    (&[0x51], &[0x00, 0x00], &[0; 32], Some(5)),
];

#[test]
fn knows_programs_from_outside(rt: HostRuntime) {
    for (script, start, hash, refusal) in &ROWS {
        let found = refusal_of(&rt, rt.alloc(), script, &[(start, 1), (hash, 1)]);
        assert!(rt; found == *refusal);
    }
}
