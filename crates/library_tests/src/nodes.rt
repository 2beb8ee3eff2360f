//! Two nodes on a chain: a channel is opened and closed, and what the close leaves to one of them is claimed.

use crate::books::answer;
use crate::openings::{SEAT, agreed, funding_output, greeting, open, token_for};
use crate::reactions::{commitment, read, release};
use book::{Book, Step};
use book_peers::{PREIMAGE, offer};
use chain::{Coins, Index};
use side::ReadParts;
use std::alloc::Global;
use std::process::Abort;
use terms::{Side, Terms};
use tx::Tx;
use updates::OwnUpdate;
use watch::Watch;

// The seeds of A and of B.
const SEED_A: [u8; 32] = [1; 32];

const SEED_B: [u8; 32] = [2; 32];

// The seed of a side.
fn seed_of(side: Side) -> [u8; 32] {
    match side {
        Side::A => SEED_A,
        Side::B => SEED_B,
    }
}

// The terms of a channel whose funding output the chain has.
fn funded(rt: &impl Abort, alloc: Global, chain: &mut Index) -> Terms {
    let (a, _) = greeting(alloc, &SEED_A);
    let (b, _) = greeting(alloc, &SEED_B);
    let output = funding_output(alloc, &a, &b, 100_000).expect(rt, "an output");
    let funding = chain.grant(output).expect(rt, "a grant");
    agreed(funding, a, b).expect(rt, "terms")
}

// A side's book with the channel.
fn opened(rt: &impl Abort, alloc: Global, terms: &Terms, side: Side) -> Book {
    let (own, peer) = (seed_of(side), seed_of(side.other()));
    let (_, points) = greeting(alloc, &own);
    let (_, peers) = greeting(alloc, &peer);
    let token = token_for(alloc, terms, side.other(), &peer, &points).expect(rt, "a token");
    let mut book = Book::new(alloc);
    assert!(rt; open(alloc, &mut book, *terms, side, own, &peers, token).ok() == Some(0));
    book
}

// A book signs, and the other one revokes.
fn sign(rt: &impl Abort, from: &mut Book, to: &mut Book) {
    let signature = from.sign(SEAT, 0).expect(rt, "a signature");
    let revocation = answer(rt, to, signature).expect(rt, "a revocation");
    assert!(rt; answer(rt, from, revocation).is_none());
}

// A offers B 10,000 satoshis, which both commitments then pay. B knows the preimage.
fn pay(rt: &impl Abort, a: &mut Book, b: &mut Book) {
    let sent = a.step(SEAT, 0, Step::Own(offer(10_000_000, 500)));
    let message = sent.expect(rt, "an offer").expect(rt, "a message");
    assert!(rt; answer(rt, b, message).is_none());
    sign(rt, a, b);
    sign(rt, b, a);
    let fulfil = OwnUpdate::Fulfil {
        id: 0,
        preimage: PREIMAGE,
    };
    assert!(rt; b.step(SEAT, 0, Step::Own(fulfil)).is_ok());
}

// A block takes a transaction.
fn mine(rt: &impl Abort, alloc: Global, chain: &mut Index, tx: Tx) {
    let mut txs = Vec::new(alloc);
    txs.push(tx).expect(rt, "memory");
    assert!(rt; chain.connect(txs).is_ok());
}

// A closes the channel, by the block of height 1.
fn close(rt: &impl Abort, alloc: Global, chain: &mut Index, a: &mut Book) {
    let number = a.close(SEAT, 0).expect(rt, "a number");
    let tx = commitment(alloc, a, number).expect(rt, "a commitment");
    mine(rt, alloc, chain, tx);
}

// What falls due for B by that block. B closes the channel too.
fn due(rt: &impl Abort, alloc: Global, chain: &Index, b: &mut Book) -> ReadParts {
    assert!(rt; b.close(SEAT, 0) == Ok(1));
    let mut watches = Vec::new(alloc);
    watches.push(Watch::new(alloc)).expect(rt, "memory");
    let block = chain.block_at(1).expect(rt, "a block");
    read(alloc, b, watches, Vec::new(alloc), 1, block).expect(rt, "what is due")
}

// B takes what is due, each claim for a fee of 300 satoshis, and in a block of its own.
fn take(rt: &impl Abort, alloc: Global, chain: &mut Index, b: &mut Book, parts: &ReadParts) {
    for index in 0..parts.due.len() {
        let tx = release(alloc, b, &parts.due[index], 300).expect(rt, "a transaction");
        mine(rt, alloc, chain, tx);
    }
}

// A's commitment is paid, and B takes what is due.
fn play(rt: &impl Abort, alloc: Global, chain: &mut Index, a: &mut Book, b: &mut Book) -> usize {
    pay(rt, a, b);
    close(rt, alloc, chain, a);
    let parts = due(rt, alloc, chain, b);
    take(rt, alloc, chain, b, &parts);
    parts.due.len()
}

// How many claims are due to B of a new channel on the chain, all of which it takes.
fn taken(rt: &impl Abort, alloc: Global, chain: &mut Index) -> usize {
    let terms = funded(rt, alloc, chain);
    let mut a = opened(rt, alloc, &terms, Side::A);
    let mut b = opened(rt, alloc, &terms, Side::B);
    play(rt, alloc, chain, &mut a, &mut b)
}

// The number of outputs and their satoshis on a chain on which this happened, and the number of B's claims.
fn left(rt: &impl Abort, alloc: Global) -> (u64, u128, usize) {
    let mut chain = Index::new(alloc).expect(rt, "a chain");
    let claims = taken(rt, alloc, &mut chain);
    let unspent = chain.unspent().expect(rt, "memory");
    (unspent.count, unspent.value, claims)
}

// A's commitment costs 896 satoshis, A's. It leaves 69,104 to A, 10,000 to the HTLC and 20,000 to B. B takes the HTLC
// by the preimage, and its own output: 9,700 and 19,700.
#[test]
fn opens_pays_and_claims(rt: HostRuntime) {
    assert!(rt; left(&rt, rt.alloc()) == (3, 98_504, 2));
}
