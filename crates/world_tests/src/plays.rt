// Events between two sides with one channel: an HTLC is offered, signed, fulfilled and signed again, with penalties kept in between.

use crate::worlds::begun;
use scenario::Event;
use std::alloc::Global;
use std::process::Abort;
use terms::Side;
use updates::OwnUpdate;
use world::{Outcome, World};

// SHA-256 of 32 zero bytes (Python's hashlib).
const HASH: [u8; 32] = [
    0x66, 0x68, 0x7a, 0xad, 0xf8, 0x62, 0xbd, 0x77, 0x6c, 0x8f, 0xc1, 0x8b, 0x8e, 0x9f, 0x8e, 0x20,
    0x08, 0x97, 0x14, 0x85, 0x6e, 0xe2, 0x33, 0xb3, 0x90, 0x2a, 0x59, 0x1d, 0x0d, 0x5f, 0x29, 0x25,
];

pub(crate) const OFFER: Event = Event::Own {
    side: Side::A,
    channel: 0,
    update: OwnUpdate::Offer {
        amount_msat: 10_000_000,
        hash: HASH,
        expiry_height: 5,
    },
};

pub(crate) const SIGN_A: Event = Event::Sign {
    side: Side::A,
    channel: 0,
};

pub(crate) const SIGN_B: Event = Event::Sign {
    side: Side::B,
    channel: 0,
};

pub(crate) const DELIVER_A: Event = Event::Deliver {
    side: Side::A,
    channel: 0,
};

pub(crate) const DELIVER_B: Event = Event::Deliver {
    side: Side::B,
    channel: 0,
};

pub(crate) const LOOK_A: Event = Event::Look { side: Side::A };

pub(crate) const LOOK_B: Event = Event::Look { side: Side::B };

pub(crate) const BLOCK: Event = Event::Blocks { count: 1 };

pub(crate) const KEEP_A: Event = Event::Keep {
    side: Side::A,
    channel: 0,
    number: 0,
};

pub(crate) const FULFIL: Event = Event::Own {
    side: Side::B,
    channel: 0,
    update: OwnUpdate::Fulfil {
        id: 0,
        preimage: [0; 32],
    },
};

pub(crate) const KEEP_B: Event = Event::Keep {
    side: Side::B,
    channel: 0,
    number: 0,
};

pub(crate) const KEEP_B_NEXT: Event = Event::Keep {
    side: Side::B,
    channel: 0,
    number: 1,
};

const CLOSE_A: Event = Event::Close {
    side: Side::A,
    channel: 0,
};

const CLOSE_B: Event = Event::Close {
    side: Side::B,
    channel: 0,
};

const CLOSE_B_FAR: Event = Event::Close {
    side: Side::B,
    channel: 1,
};

const FEE_A: Event = Event::Own {
    side: Side::A,
    channel: 0,
    update: OwnUpdate::SetFee {
        feerate_per_kw: 1500,
    },
};

const FAIL_B: Event = Event::Own {
    side: Side::B,
    channel: 0,
    update: OwnUpdate::Fail { id: 0 },
};

const KEEP_B_EARLY: Event = Event::Keep {
    side: Side::B,
    channel: 0,
    number: 2,
};

// Events that are played in one call, and how each outcome is printed; or the number of entries of both books then.
#[derive(Clone, Copy)]
pub(crate) enum Round {
    Play(&'static [Event], &'static [&'static str]),
    Entries(usize, usize),
}

// From the offer until both sides have commitments with the HTLC, and revoked the ones before.
pub(crate) const OFFERED: Round = Round::Play(
    &[
        OFFER, DELIVER_B, SIGN_A, DELIVER_B, DELIVER_A, SIGN_B, DELIVER_A, DELIVER_B,
    ],
    &["ok"; 8],
);

// The penalties of both revoked commitments are kept, and the HTLC is fulfilled.
const FULFILLED: Round = Round::Play(
    &[
        KEEP_A,
        KEEP_B,
        FULFIL,
        DELIVER_A,
        SIGN_B,
        DELIVER_A,
        DELIVER_B,
        KEEP_B_NEXT,
    ],
    &["ok"; 8],
);

// A's commitment 1 is mined in the next block.
const CLOSED: Round = Round::Play(
    &[
        Event::Broadcast {
            side: Side::A,
            channel: 0,
            number: 1,
        },
        BLOCK,
    ],
    &["ok", "ok height 1 txs 1"],
);

fn is_printed(rt: &impl Abort, alloc: Global, outcome: &Outcome, text: &str) -> bool {
    let printed = format!(in alloc; "{outcome}").expect(rt, "memory");
    printed.as_str() == text
}

// Whether these are all the outcomes.
fn are_printed(rt: &impl Abort, alloc: Global, outcomes: &[Outcome], texts: &[&str]) -> bool {
    for (outcome, text) in outcomes.iter().zip(texts) {
        if !is_printed(rt, alloc, outcome, text) {
            return false;
        }
    }
    outcomes.len() == texts.len()
}

// Whether a round goes as it says.
pub(crate) fn goes(rt: &impl Abort, alloc: Global, world: &mut World, round: &Round) -> bool {
    match *round {
        Round::Play(events, texts) => {
            let outcomes = world.play(events).expect(rt, "memory");
            are_printed(rt, alloc, &outcomes, texts)
        }
        Round::Entries(a, b) => {
            world.book(Side::A).entries().len() == a && world.book(Side::B).entries().len() == b
        }
    }
}

// Plays the rounds in a world of one channel.
fn plays(rt: &impl Abort, alloc: Global, rounds: &[Round]) {
    let mut world = begun(rt, alloc, 1);
    for (index, round) in rounds.iter().enumerate() {
        assert!(rt; goes(rt, alloc, &mut world, round), "round {index}");
    }
}

const REFUSED: [Round; 1] = [Round::Play(
    &[
        Event::Deliver {
            side: Side::A,
            channel: 1,
        },
        DELIVER_A,
        Event::Blocks { count: 2 },
        LOOK_B,
        Event::Reorg {
            depth: 2,
            forgotten: 0,
        },
    ],
    &[
        "refused NoSuchChannel",
        "refused NoMessage",
        "ok height 2 txs 0",
        "ok claims 0",
        "ok height 3 txs 0",
    ],
)];

#[test]
fn plays_on_after_a_refusal(rt: HostRuntime) {
    plays(&rt, rt.alloc(), &REFUSED);
}

const KEPT: [Round; 4] = [
    OFFERED,
    FULFILLED,
    Round::Entries(8, 10),
    Round::Play(
        &[KEEP_B_NEXT, KEEP_B_EARLY],
        &["refused AlreadyKept", "refused NotRevoked"],
    ),
];

#[test]
fn fulfils_an_htlc(rt: HostRuntime) {
    plays(&rt, rt.alloc(), &KEPT);
}

// A broadcasts a revoked commitment. Both sides' outputs, the HTLC, and the output of the HTLC's second stage are B's to claim. B finds them again after a reorganisation of that block.
const CHEATED: [Round; 6] = [
    OFFERED,
    FULFILLED,
    Round::Play(&[LOOK_B], &["ok claims 0"]),
    CLOSED,
    Round::Play(
        &[LOOK_A, LOOK_B, LOOK_B, BLOCK, LOOK_B],
        &[
            "ok claims 0",
            "ok claims 4",
            "ok claims 0",
            "ok height 2 txs 0",
            "ok claims 0",
        ],
    ),
    Round::Play(
        &[
            Event::Reorg {
                depth: 1,
                forgotten: 0,
            },
            LOOK_B,
            Event::Reorg {
                depth: 3,
                forgotten: 0,
            },
            LOOK_B,
        ],
        &[
            "ok height 3 txs 0",
            "ok claims 0",
            "ok height 4 txs 1",
            "ok claims 4",
        ],
    ),
];

#[test]
fn finds_a_penalty_set(rt: HostRuntime) {
    plays(&rt, rt.alloc(), &CHEATED);
}

// A broadcasts its newest commitment, with an HTLC that B fulfils after it looked. With the preimage, B finds the HTLC's claim in the next block, and releases both claims.
const CLAIMED: [Round; 3] = [
    OFFERED,
    CLOSED,
    Round::Play(
        &[
            LOOK_A,
            LOOK_B,
            FULFIL,
            LOOK_B,
            BLOCK,
            LOOK_B,
            Event::Take {
                side: Side::B,
                count: 2,
            },
            Event::Release {
                side: Side::B,
                count: 2,
            },
            BLOCK,
        ],
        &[
            "ok claims 3",
            "ok claims 1",
            "ok",
            "ok claims 0",
            "ok height 2 txs 0",
            "ok claims 1",
            "ok",
            "ok",
            "ok height 3 txs 1",
        ],
    ),
];

#[test]
fn finds_a_claim_by_a_preimage(rt: HostRuntime) {
    plays(&rt, rt.alloc(), &CLAIMED);
}

// A closes the channel while B's revocation is on its way, and takes that, but no signature of B's, which stays where it is. Its commitment 0 is mined.
const CLOSED_EARLY: [Round; 3] = [
    Round::Play(
        &[
            OFFER, DELIVER_B, SIGN_A, DELIVER_B, CLOSE_A, DELIVER_A, SIGN_B, DELIVER_A, DELIVER_A,
        ],
        &[
            "ok",
            "ok",
            "ok",
            "ok",
            "ok",
            "ok",
            "ok",
            "refused ChannelClosed",
            "refused ChannelClosed",
        ],
    ),
    Round::Play(
        &[OFFER, SIGN_A, FEE_A, CLOSE_B_FAR, BLOCK],
        &[
            "refused ChannelClosed",
            "refused ChannelClosed",
            "refused ChannelClosed",
            "refused NoSuchChannel",
            "ok height 1 txs 1",
        ],
    ),
    Round::Entries(5, 4),
];

#[test]
fn takes_no_signature_after_a_close(rt: HostRuntime) {
    plays(&rt, rt.alloc(), &CLOSED_EARLY);
}

// B closes the channel with an HTLC in its commitment 1, which is mined. It takes a further offer, but no signature for it, and fulfils the first HTLC.
const CLOSED_BY_B: [Round; 4] = [
    OFFERED,
    Round::Play(
        &[CLOSE_B, KEEP_A, OFFER, SIGN_A, DELIVER_B, DELIVER_B],
        &["ok", "ok", "ok", "ok", "ok", "refused ChannelClosed"],
    ),
    Round::Play(
        &[SIGN_B, FAIL_B, FULFIL, BLOCK],
        &[
            "refused ChannelClosed",
            "refused ChannelClosed",
            "ok",
            "ok height 1 txs 1",
        ],
    ),
    Round::Entries(8, 8),
];

#[test]
fn fulfils_after_a_close(rt: HostRuntime) {
    plays(&rt, rt.alloc(), &CLOSED_BY_B);
}
