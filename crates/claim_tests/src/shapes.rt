//! Scripts of many shapes under ample memory, each with its paths.

use crate::fixtures::checked_parts;
use crate::wanted::{Parts, Wanted, lists};

// Each opcode by itself, on slots.
const OPCODES: [(Parts, &[Wanted]); 14] = [
    (&[(&[0x00], 1)], &[]),
    (&[(&[0x51], 1)], &[Wanted([0, 0, 0, 1], None, None)]),
    (&[(&[0x60], 1)], &[Wanted([0, 0, 0, 1], None, None)]),
    (&[(&[0x75], 1)], &[Wanted([2, 1, 1, 2], None, None)]),
    (&[(&[0x76, 0x75], 1)], &[Wanted([1, 1, 2, 2], None, None)]),
    (&[(&[0x7c, 0x75], 1)], &[Wanted([2, 1, 2, 2], None, None)]),
    (
        &[(&[0x82, 0x01, 0x20, 0x87, 0x75], 1)],
        &[Wanted([1, 1, 3, 3], None, None)],
    ),
    (&[(&[0x53, 0x87], 1)], &[Wanted([1, 1, 1, 2], None, None)]),
    (&[(&[0x53, 0x88], 1)], &[Wanted([2, 2, 1, 3], None, None)]),
    (
        &[(&[0x76, 0xa9, 0x00, 0x87, 0x75], 1)],
        &[Wanted([1, 1, 4, 3], None, None)],
    ),
    (&[(&[0xac], 1)], &[Wanted([2, 3, 1, 2], None, None)]),
    (
        &[(&[0x00, 0x00, 0x00, 0xae], 1)],
        &[Wanted([0, 0, 1, 3], None, None)],
    ),
    (
        &[(&[0x55, 0xb1], 1)],
        &[Wanted([0, 1, 1, 1], Some(5), None)],
    ),
    (
        &[(&[0x55, 0xb2], 1)],
        &[Wanted([0, 1, 1, 1], None, Some(5))],
    ),
];

#[test]
fn lists_every_opcode(rt: HostRuntime) {
    for (parts, wanted) in &OPCODES {
        assert!(rt; lists(&rt, rt.alloc(), parts, wanted));
    }
}

// Pushes of every length, every number of slots and of paths, and long scripts.
#[test]
fn lists_every_count(rt: HostRuntime) {
    let alloc = rt.alloc();
    for len in 0u8..=75 {
        let parts: [(&[u8], usize); 3] = [(&[len], 1), (&[9], usize::from(len)), (&[0x87], 1)];
        assert!(rt; lists(&rt, alloc, &parts, &[Wanted([1, 1, 1, 2], None, None)]));
    }
    for drops in 0usize..=201 {
        let wanted = Wanted([drops + 1, 1, drops, drops + 1], None, None);
        assert!(rt; lists(&rt, alloc, &[(&[0x75], drops)], &[wanted]));
    }
    for len in (0usize..=9_996).step_by(714) {
        let parts: [(&[u8], usize); 3] = [(&[0x00, 0x63], 1), (&[0x51], len), (&[0x68, 0x51], 1)];
        assert!(rt; lists(&rt, alloc, &parts, &[Wanted([0, 0, 2, 1], None, None)]));
    }
    for splits in 0usize..=63 {
        let parts: [(&[u8], usize); 2] = [(&[0x63, 0x67], splits), (&[0x68], splits)];
        let checked = checked_parts(&rt, alloc, &parts);
        assert!(rt; checked.paths().len() == splits + 1);
    }
}

// The numbers up to 20, as a script pushes them.
const NUMBERS: [&[u8]; 21] = [
    &[0x00],
    &[0x51],
    &[0x52],
    &[0x53],
    &[0x54],
    &[0x55],
    &[0x56],
    &[0x57],
    &[0x58],
    &[0x59],
    &[0x5a],
    &[0x5b],
    &[0x5c],
    &[0x5d],
    &[0x5e],
    &[0x5f],
    &[0x60],
    &[0x01, 17],
    &[0x01, 18],
    &[0x01, 19],
    &[0x01, 20],
];

// The push of a key.
const PUSH: [u8; 34] = [
    0x21, 0x02, 0x11, 0x11, 0x11, 0x11, 0x11, 0x11, 0x11, 0x11, 0x11, 0x11, 0x11, 0x11, 0x11, 0x11,
    0x11, 0x11, 0x11, 0x11, 0x11, 0x11, 0x11, 0x11, 0x11, 0x11, 0x11, 0x11, 0x11, 0x11, 0x11, 0x11,
    0x11, 0x11,
];

// Signatures in slots, below keys of the script.
#[test]
fn lists_every_choice_of_signatures(rt: HostRuntime) {
    for (keys, n) in NUMBERS.iter().enumerate() {
        for (sigs, m) in NUMBERS[..=keys].iter().enumerate() {
            let parts: [(&[u8], usize); 4] = [(m, 1), (&PUSH, keys), (n, 1), (&[0xae], 1)];
            let asked = if sigs == 0 { 1 } else { sigs + 2 };
            let wanted = Wanted([sigs + 1, asked, keys + 1, sigs + keys + 3], None, None);
            assert!(rt; lists(&rt, rt.alloc(), &parts, &[wanted]), "{sigs} {keys}");
        }
    }
}
