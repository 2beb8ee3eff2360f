//! Runs of many shapes, none of which may run out of memory.

use super::{FIRST, ran};
use machine::{Run, Stop};
use std::alloc::Global;
use std::process::Abort;

// Whether a run did not run out of memory.
fn has_memory(outcome: Result<Run, Stop>) -> bool {
    outcome != Err(Stop::NoMemory)
}

// Each opcode.
const CODES: [&[u8]; 12] = [
    &[0x75],
    &[0x76],
    &[0x7c],
    &[0x82],
    &[0x87],
    &[0x88],
    &[0xa9],
    &[0xac],
    &[0x63, 0x51, 0x67, 0x51, 0x68],
    &[0x64, 0x51, 0x67, 0x51, 0x68],
    &[0x00, 0xb1],
    &[0x00, 0xb2],
];

const BYTES: [u8; 520] = [9; 520];

// Each opcode on items of every length.
#[test]
fn runs_on_items_of_every_length(rt: HostRuntime) {
    for len in (0usize..=520).step_by(13) {
        for code in &CODES {
            let items = [&BYTES[..len], &BYTES[..len]];
            let outcome = ran(&rt, rt.alloc(), code, &items);
            assert!(rt; has_memory(outcome), "{len}");
        }
    }
}

const ITEMS: [&[u8]; 600] = [&[9]; 600];

const PUSHES: [u8; 10_000] = [0x51; 10_000];

// Each number of witness items, and of pushes; and long scripts that are jumped over entirely.
#[test]
fn runs_on_every_count(rt: HostRuntime) {
    for count in 0usize..=600 {
        let on_items = ran(&rt, rt.alloc(), &[], &ITEMS[..count]);
        assert!(rt; has_memory(on_items), "{count}");
        let of_pushes = ran(&rt, rt.alloc(), &PUSHES[..count], &[]);
        assert!(rt; has_memory(of_pushes), "{count}");
    }
    let mut code = PUSHES;
    code[0] = 0x00;
    code[1] = 0x63;
    for len in (2usize..=10_000).step_by(357) {
        let outcome = ran(&rt, rt.alloc(), &code[..len], &[]);
        assert!(rt; has_memory(outcome), "{len}");
    }
}

// Pushes a number up to 75.
fn push_number(rt: &impl Abort, code: &mut Vec<u8>, n: u8) {
    let push = [1, n];
    let push = if n == 0 { &push[1..] } else { &push };
    code.extend_from_slice(push).expect(rt, "memory");
}

// CHECKMULTISIG of `sigs` signatures from the witness and `keys` keys, all of them the same.
fn multi_sig(rt: &impl Abort, alloc: Global, sigs: u8, keys: u8) -> Vec<u8> {
    let mut code = Vec::new(alloc);
    push_number(rt, &mut code, sigs);
    for _key in 0..keys {
        code.push(33).expect(rt, "memory");
        code.extend_from_slice(&FIRST[..33]).expect(rt, "memory");
    }
    push_number(rt, &mut code, keys);
    code.push(0xae).expect(rt, "memory");
    code
}

#[test]
fn runs_every_choice_of_signatures(rt: HostRuntime) {
    let mut items: [&[u8]; 21] = [&FIRST; 21];
    items[0] = &[];
    for keys in 0u8..=20 {
        for sigs in 0..=keys {
            let code = multi_sig(&rt, rt.alloc(), sigs, keys);
            let outcome = ran(&rt, rt.alloc(), &code, &items[..=usize::from(sigs)]);
            assert!(rt; outcome.is_ok(), "{sigs} {keys}");
        }
    }
}
