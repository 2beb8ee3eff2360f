//! The paths of the scripts of BOLT 3, the limits, and the first refusal.

use crate::fixtures::{checked_parts, listed};
use crate::wanted::{Parts, Wanted, lists};
use std::alloc::Global;
use std::process::Abort;

// The example of the page of `paths`: IF 1 ELSE 2 ENDIF
#[test]
fn lists_both_branches(rt: HostRuntime) {
    let checked = checked_parts(&rt, rt.alloc(), &[(&[0x63, 0x51, 0x67, 0x52, 0x68], 1)]);
    assert_eq!(rt; checked.paths().len(), 2);
}

// The script of to_local (BOLT 3).
const TO_LOCAL: Parts = &[
    (&[0x63, 0x21, 0x02], 1),
    (&[0x11], 32),
    (&[0x67, 0x02, 0x90, 0x00, 0xb2, 0x75, 0x21, 0x02], 1),
    (&[0x22], 32),
    (&[0x68, 0xac], 1),
];

// The script of to_remote (BOLT 3).
const KEY_HASH: Parts = &[(&[0x76, 0xa9, 0x14], 1), (&[0x33], 20), (&[0x88, 0xac], 1)];

// The script of an offered HTLC (BOLT 3).
const OFFERED: Parts = &[
    (&[0x76, 0xa9, 0x14], 1),
    (&[0x33], 20),
    (&[0x87, 0x63, 0xac, 0x67, 0x21, 0x02], 1),
    (&[0x11], 32),
    (
        &[
            0x7c, 0x82, 0x01, 0x20, 0x87, 0x64, 0x75, 0x52, 0x7c, 0x21, 0x02,
        ],
        1,
    ),
    (&[0x22], 32),
    (&[0x52, 0xae, 0x67, 0xa9, 0x14], 1),
    (&[0x44], 20),
    (&[0x88, 0xac, 0x68, 0x68], 1),
];

// The script of a received HTLC (BOLT 3) that expires at height 500.
const RECEIVED: Parts = &[
    (&[0x76, 0xa9, 0x14], 1),
    (&[0x33], 20),
    (&[0x87, 0x63, 0xac, 0x67, 0x21, 0x02], 1),
    (&[0x11], 32),
    (&[0x7c, 0x82, 0x01, 0x20, 0x87, 0x63, 0xa9, 0x14], 1),
    (&[0x44], 20),
    (&[0x88, 0x52, 0x7c, 0x21, 0x02], 1),
    (&[0x22], 32),
    (
        &[
            0x52, 0xae, 0x67, 0x75, 0x02, 0xf4, 0x01, 0xb1, 0x75, 0xac, 0x68, 0x68,
        ],
        1,
    ),
];

// Scripts and their paths: those of BOLT 3, and then up to three limits.
const LISTINGS: [(Parts, &[Wanted]); 7] = [
    (
        TO_LOCAL,
        &[
            Wanted([2, 3, 6, 2], None, None),
            Wanted([2, 4, 6, 2], None, Some(144)),
        ],
    ),
    (KEY_HASH, &[Wanted([2, 4, 4, 4], None, None)]),
    (
        OFFERED,
        &[
            Wanted([2, 4, 19, 4], None, None),
            Wanted([4, 6, 21, 7], None, None),
            Wanted([2, 5, 19, 5], None, None),
        ],
    ),
    (
        RECEIVED,
        &[
            Wanted([2, 4, 21, 4], None, None),
            Wanted([4, 7, 23, 7], None, None),
            Wanted([2, 5, 21, 5], Some(500), None),
        ],
    ),
    (
        &[(&[0x76, 0x75], 100), (&[0x51, 0x75], 1)],
        &[Wanted([1, 1, 201, 2], None, None)],
    ),
    (&[(&[0x51], 1000)], &[]),
    (
        &[(&[0x63, 0x67, 0x68], 6)],
        &[Wanted([7, 7, 18, 7], None, None); 64],
    ),
];

#[test]
fn lists_the_paths_of_scripts(rt: HostRuntime) {
    for (parts, wanted) in &LISTINGS {
        assert!(rt; lists(&rt, rt.alloc(), parts, wanted));
    }
}

// The number of the refusal of a script of these parts; `None` if it is listed.
fn refusal_of(rt: &impl Abort, alloc: Global, parts: Parts) -> Option<u8> {
    match listed(rt, alloc, parts) {
        Ok(_) => None,
        Err(refusal) => Some(refusal.number()),
    }
}

// Scripts and the numbers of their refusals, of which three are just beyond a limit.
const REFUSALS: [(Parts, u8); 5] = [
    (&[(&[0x51, 0x63, 0x67, 0x67, 0x68], 1)], 1),
    (&[(&[0x76, 0x75], 101)], 2),
    (
        &[
            (&[0x63, 0x82, 0x82, 0x67], 1),
            (&[0x63, 0x67, 0x68], 7),
            (&[0x68], 1),
        ],
        3,
    ),
    (&[(&[0x63, 0x67, 0x68], 7)], 4),
    (&[(&[0x51], 1001)], 5),
];

#[test]
fn names_the_first_refusal(rt: HostRuntime) {
    for (parts, number) in &REFUSALS {
        assert!(rt; refusal_of(&rt, rt.alloc(), parts) == Some(*number));
    }
}
