// What takes, on the chain of a run, the outputs of a revoked commitment that its owner's peer can claim: each case of the theorem's `IsTaker`, and one that equal seeds allow.

use crate::plays::{
    BLOCK, DELIVER_A, DELIVER_B, FULFIL, KEEP_A, KEEP_B, KEEP_B_NEXT, LOOK_A, LOOK_B, OFFER,
    OFFERED, Round, SIGN_A, SIGN_B, goes,
};
use crate::worlds::{SEEDS, terms};
use book::Call;
use chain::{Block, Coins};
use claim::Claim;
use scenario::{Event, Seeds};
use std::alloc::Global;
use std::process::Abort;
use terms::{ProposedTerms, Side};
use tx::{OutPoint, Tx};
use world::World;

// What takes an output: a filling of the peer's, the transaction of the HTLC whose output it is, a filling of the owner's in a block of this height, or another transaction.
#[derive(Clone, Copy, Debug, PartialEq)]
enum Taker {
    Peer,
    HtlcTransaction,
    Owner(u64),
    Other,
}

fn is_claimed(claims: &[Claim], outpoint: &OutPoint) -> bool {
    for claim in claims {
        if claim.outpoint() == *outpoint {
            return true;
        }
    }
    false
}

// Whether the inputs spend the outputs of these claims, in order.
fn spends(tx: &Tx, claims: &[Claim]) -> bool {
    for (input, claim) in tx.inputs().iter().zip(claims) {
        if input.outpoint != claim.outpoint() {
            return false;
        }
    }
    tx.inputs().len() == claims.len()
}

// Whether a side released claims on what the transaction spends.
fn has_released(world: &World, side: Side, tx: &Tx) -> bool {
    for entry in world.book(side).entries() {
        match &entry.call {
            Call::Release { channel: _, batch } => {
                if spends(tx, batch.claims.values()) {
                    return true;
                }
            }
            _ => {}
        }
    }
    false
}

// What a transaction with this id is that takes one of the outputs that a side claims.
fn taker_by(
    world: &World,
    side: Side,
    claims: &[Claim],
    txid: &[u8; 32],
    tx: &Tx,
    height: u64,
) -> Taker {
    let first = OutPoint {
        txid: *txid,
        index: 0,
    };
    if is_claimed(claims, &first) {
        Taker::HtlcTransaction
    } else if has_released(world, side, tx) {
        Taker::Peer
    } else if has_released(world, side.other(), tx) {
        Taker::Owner(height)
    } else {
        Taker::Other
    }
}

fn has_input(tx: &Tx, outpoint: &OutPoint) -> bool {
    for input in tx.inputs() {
        if input.outpoint == *outpoint {
            return true;
        }
    }
    false
}

// What takes the output in a block of this height.
fn taker_in(
    world: &World,
    side: Side,
    claims: &[Claim],
    outpoint: &OutPoint,
    block: &Block,
    height: u64,
) -> Option<Taker> {
    for confirmed in block.transactions() {
        let tx = confirmed.tx();
        if has_input(tx, outpoint) {
            return Some(taker_by(world, side, claims, confirmed.id(), tx, height));
        }
    }
    None
}

// What takes the output on the chain.
fn taker_of(world: &World, side: Side, claims: &[Claim], outpoint: &OutPoint) -> Option<Taker> {
    for height in 0..=world.chain().height() {
        match world.chain().block_at(height) {
            Some(block) => {
                let taker = taker_in(world, side, claims, outpoint, block, height);
                if taker.is_some() {
                    return taker;
                }
            }
            None => {}
        }
    }
    None
}

// Whether these take the outputs of a side's claims, in order.
fn are_taken(world: &World, side: Side, claims: &[Claim], takers: &[Option<Taker>]) -> bool {
    for (claim, taker) in claims.iter().zip(takers) {
        if taker_of(world, side, claims, &claim.outpoint()) != *taker {
            return false;
        }
    }
    claims.len() == takers.len()
}

// Whether these take the outputs that a side can claim by the peer's commitment of this number, of which it keeps the claims.
fn are_takers(world: &World, side: Side, number: u64, takers: &[Option<Taker>]) -> bool {
    for entry in world.book(side).entries() {
        match &entry.call {
            Call::Keep {
                channel: _,
                number: kept,
                claims,
            } => {
                if *kept == number {
                    return are_taken(world, side, claims.values(), takers);
                }
            }
            _ => {}
        }
    }
    false
}

// A world of one channel in which the rounds were played.
fn played(
    rt: &impl Abort,
    alloc: Global,
    seeds: &Seeds,
    proposed: ProposedTerms,
    rounds: &[Round],
) -> World {
    let mut all = Vec::new(alloc);
    all.push(proposed).expect(rt, "memory");
    let mut world = World::new(alloc, seeds, &all).expect(rt, "a world");
    for (index, round) in rounds.iter().enumerate() {
        assert!(rt; goes(rt, alloc, &mut world, round), "round {index}");
    }
    world
}

const RELEASE_A: Event = Event::Release {
    side: Side::A,
    count: 1,
};

const RELEASE_B: Event = Event::Release {
    side: Side::B,
    count: 1,
};

// A broadcasts its commitment 1, takes what it can claim by it, and then revokes it.
const CHEATED: Round = Round::Play(
    &[
        KEEP_A,
        KEEP_B,
        FULFIL,
        DELIVER_A,
        Event::Broadcast {
            side: Side::A,
            channel: 0,
            number: 1,
        },
        BLOCK,
        LOOK_A,
        Event::Take {
            side: Side::A,
            count: 3,
        },
        SIGN_B,
        DELIVER_A,
        DELIVER_B,
        KEEP_B_NEXT,
    ],
    &[
        "ok",
        "ok",
        "ok",
        "ok",
        "ok",
        "ok height 1 txs 1",
        "ok claims 3",
        "ok",
        "ok",
        "ok",
        "ok",
        "ok",
    ],
);

// B sleeps until the delay is over.
const SLEPT: [Round; 3] = [
    OFFERED,
    CHEATED,
    Round::Play(
        &[
            Event::Blocks { count: 143 },
            RELEASE_A,
            RELEASE_A,
            RELEASE_A,
            BLOCK,
        ],
        &[
            "ok height 144 txs 0",
            "ok",
            "ok",
            "ok",
            "ok height 145 txs 2",
        ],
    ),
];

// The outputs of A's commitment 1 that B can claim: the HTLC's, that of its transaction, to_remote and to_local.
#[test]
fn takes_late_what_the_peer_slept_on(rt: HostRuntime) {
    let world = played(
        &rt,
        rt.alloc(),
        &SEEDS,
        terms(80_000_000, 20_000_000),
        &SLEPT,
    );
    let takers = [
        Some(Taker::HtlcTransaction),
        None,
        None,
        Some(Taker::Owner(1 + 144)),
    ];
    assert!(rt; are_takers(&world, Side::B, 1, &takers));
}

// A releases at once, and B a block later.
const IN_VAIN: [Round; 3] = [
    OFFERED,
    CHEATED,
    Round::Play(
        &[
            RELEASE_A,
            RELEASE_A,
            RELEASE_A,
            LOOK_B,
            Event::Take {
                side: Side::B,
                count: 4,
            },
            RELEASE_B,
            RELEASE_B,
            RELEASE_B,
            RELEASE_B,
            BLOCK,
        ],
        &[
            "ok",
            "ok",
            "ok",
            "ok claims 4",
            "ok",
            "ok",
            "ok",
            "ok",
            "ok",
            "ok height 2 txs 3",
        ],
    ),
];

#[test]
fn takes_nothing_from_a_peer_that_looks(rt: HostRuntime) {
    let world = played(
        &rt,
        rt.alloc(),
        &SEEDS,
        terms(80_000_000, 20_000_000),
        &IN_VAIN,
    );
    let takers = [
        Some(Taker::Peer),
        None,
        Some(Taker::Peer),
        Some(Taker::Peer),
    ];
    assert!(rt; are_takers(&world, Side::B, 1, &takers));
}

// B revokes its commitment 0, which is one transaction with A's commitment 0. A broadcasts that, and B takes its to_remote at once.
const ALIKE: [Round; 1] = [Round::Play(
    &[
        OFFER,
        DELIVER_B,
        SIGN_A,
        DELIVER_B,
        DELIVER_A,
        KEEP_A,
        Event::Broadcast {
            side: Side::A,
            channel: 0,
            number: 0,
        },
        BLOCK,
        LOOK_B,
        Event::Take {
            side: Side::B,
            count: 1,
        },
        RELEASE_B,
        BLOCK,
    ],
    &[
        "ok",
        "ok",
        "ok",
        "ok",
        "ok",
        "ok",
        "ok",
        "ok height 1 txs 1",
        "ok claims 1",
        "ok",
        "ok",
        "ok height 2 txs 1",
    ],
)];

// With one seed, and as much left to either side, `taken` is false without its premise: the owner takes what the peer can claim, before the delay and on another form than to_local's.
#[test]
fn takes_at_once_with_one_seed(rt: HostRuntime) {
    let seeds = Seeds {
        a: SEEDS.a,
        b: SEEDS.a,
    };
    let alike = terms(50_362_000, 49_638_000);
    let world = played(&rt, rt.alloc(), &seeds, alike, &ALIKE);
    let first = [None, Some(Taker::Owner(2))];
    let second = [Some(Taker::Owner(2)), None];
    assert!(rt; are_takers(&world, Side::A, 0, &first) || are_takers(&world, Side::A, 0, &second));
}
