// Channels between the sides with the seeds 0a..0a and 0b..0b. Programs, points
// and the id of the first grant are from an independent script (Python's hashlib).

use crate::worlds::{SEEDS, terms};
use book::{Book, Opening};
use chain::{Coins, Index};
use std::alloc::Global;
use std::process::Abort;
use tx::{OutPoint, TxOut};
use world::openings::{Both, funding_output, open_both};

// The program of the first channel's funding output. Of the two funding keys B's is the lesser.
const PROGRAM: [u8; 34] = [
    0x00, 0x20, 0xd5, 0x08, 0x39, 0xa4, 0x94, 0xba, 0xf9, 0x7c, 0xf0, 0x0b, 0x68, 0x09, 0xd1, 0x45,
    0x31, 0xb5, 0xcf, 0x29, 0x54, 0x7a, 0x3d, 0xce, 0xe4, 0xeb, 0x1f, 0x5c, 0xe7, 0x02, 0xab, 0xe3,
    0x57, 0xea,
];

// The id of a chain's first grant.
const TXID: [u8; 32] = [
    0x0f, 0x08, 0xd5, 0xbf, 0x45, 0x16, 0x89, 0xd6, 0xa1, 0x43, 0x48, 0xeb, 0xa5, 0x9a, 0x28, 0x1e,
    0x3b, 0xc3, 0xc7, 0x21, 0xde, 0x72, 0x51, 0xec, 0xec, 0x2f, 0xb9, 0x15, 0x45, 0xfa, 0x1e, 0xb5,
];

// The funding output of a channel.
fn funding(rt: &impl Abort, alloc: Global, channel: u32) -> TxOut {
    let proposed = terms(80_000_000, 20_000_000);
    let funded = funding_output(alloc, &SEEDS, channel, &proposed).expect(rt, "memory");
    funded.expect(rt, "an output")
}

// Whether the program of a channel's funding output begins with these bytes, and its value is the channel's capacity.
fn funds(rt: &impl Abort, alloc: Global, channel: u32, front: &[u8]) -> bool {
    let output = funding(rt, alloc, channel);
    output.value() == 100_000 && output.script().bytes().starts_with(front)
}

// In the third one A's funding key is the lesser one.
const PROGRAMS: [(u32, &[u8], bool); 3] = [
    (0, &PROGRAM, true),
    (1, &PROGRAM, false),
    (0x0102_0304, &[0x00, 0x20, 0xda, 0x04, 0xad, 0x7b], true),
];

#[test]
fn funds_by_the_keys_of_a_channel(rt: HostRuntime) {
    for (channel, front, wanted) in &PROGRAMS {
        assert!(rt; funds(&rt, rt.alloc(), *channel, front) == *wanted);
    }
}

// The first grant of a chain, to the funding output of the first channel.
fn granted(rt: &impl Abort, alloc: Global) -> OutPoint {
    let mut chain = Index::new(alloc).expect(rt, "memory");
    chain.grant(funding(rt, alloc, 0)).expect(rt, "memory")
}

// How both sides open the first channel.
fn opened(rt: &impl Abort, alloc: Global, outpoint: OutPoint) -> Both {
    let proposed = terms(80_000_000, 20_000_000);
    let both = open_both(alloc, &SEEDS, 0, outpoint, &proposed).expect(rt, "memory");
    both.expect(rt, "agreed")
}

// Whether a new book takes an opening.
fn is_taken(alloc: Global, opening: Opening) -> bool {
    Book::new(alloc).open(0, opening) == Ok(0)
}

// Whether both sides' books take their openings.
fn are_taken(alloc: Global, both: Both) -> bool {
    let of_a = is_taken(alloc, both.a);
    let of_b = is_taken(alloc, both.b);
    of_a && of_b
}

#[test]
fn opens_the_first_channel(rt: HostRuntime) {
    let outpoint = granted(&rt, rt.alloc());
    assert!(rt; outpoint.txid == TXID);
    assert!(rt; are_taken(rt.alloc(), opened(&rt, rt.alloc(), outpoint)));
}

// Whether an opening has the peer's two points, which begin with these bytes.
fn has_points(opening: &Opening, first: &[u8], next: &[u8]) -> bool {
    opening.first_point.bytes.starts_with(first) && opening.next_point.bytes.starts_with(next)
}

const OUTPOINT: OutPoint = OutPoint {
    txid: TXID,
    index: 0,
};

#[test]
fn hands_over_the_peers_points(rt: HostRuntime) {
    let both = opened(&rt, rt.alloc(), OUTPOINT);
    assert!(rt;
        has_points(
            &both.a,
            &[0x02, 0x1e, 0xd3, 0x3f],
            &[0x02, 0xee, 0x00, 0xb6]
        )
    );
    assert!(rt;
        has_points(
            &both.b,
            &[0x02, 0x23, 0xd9, 0x28],
            &[0x02, 0xbf, 0x5b, 0xeb]
        )
    );
}
