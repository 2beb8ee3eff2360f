//! What an index does besides the calls that every chain has: blocks of the transactions that pass, marks and copies.

use crate::steps::{Cast, Source, Step, play_with};
use chain::{ChainError, Confirmed, Index, Refused};
use std::alloc::Global;
use std::process::Abort;
use tx::Tx;

// A transaction of two outputs, a spend of the second one, another spend of the grant, and one that waits for block 10.
const SPENDS: [Step; 5] = [
    Step::Grant(1000),
    Step::Make(2, &[(Source::Granted(0), 0)], &[600, 300], 0),
    Step::Make(2, &[(Source::Made(0, 1), 0)], &[250], 0),
    Step::Make(2, &[(Source::Granted(0), 0)], &[1000], 0),
    Step::Make(2, &[(Source::Made(0, 0), 0)], &[1], 9),
];

// They are offered with the spend first, and once more after what it spends.
const OFFERED: [usize; 5] = [1, 0, 1, 2, 3];

const REFUSALS: [Option<ChainError>; 5] = [
    Some(ChainError::Unknown),
    None,
    None,
    Some(ChainError::Spent),
    Some(ChainError::NotFinal),
];

// Why those come back that the block does not take.
const RETURNED: [ChainError; 3] = [ChainError::Unknown, ChainError::Spent, ChainError::NotFinal];

// Whether a transaction is on a chain, by its id.
fn stands(rt: &impl Abort, cast: &Cast, chain: &Index, place: usize) -> bool {
    chain.has_id(&tx::txid(cast.made(rt, place)))
}

// The number of transactions in the block at a height.
fn count_at(chain: &Index, height: u64) -> Option<usize> {
    let block = chain.block_at(height)?;
    Some(block.transactions().len())
}

#[test]
fn takes_what_passes(rt: HostRuntime) {
    let mut chain = Index::new(rt.alloc()).expect(&rt, "memory");
    let mut cast = Cast::new(rt.alloc());
    play_with(&rt, &mut cast, &mut chain, &SPENDS);
    let txs = cast.block(&rt, &OFFERED);
    let refusals = chain.connect_some(txs).expect(&rt, "memory");
    assert!(rt; refusals.as_slice() == REFUSALS.as_slice());
    assert!(rt; count_at(&chain, 1) == Some(2));
    assert!(rt; count_at(&chain, 2).is_none());
    assert!(rt; stands(&rt, &cast, &chain, 1));
    assert!(rt; !stands(&rt, &cast, &chain, 2));
    play_with(&rt, &mut cast, &mut chain, &[Step::Hold(2, 850, 150)]);
}

// Transactions with their ids.
fn with_ids(rt: &impl Abort, alloc: Global, txs: Vec<Tx>) -> Vec<Confirmed> {
    let mut confirmed = Vec::new(alloc);
    for tx in txs {
        confirmed.push(Confirmed::new(tx)).expect(rt, "memory");
    }
    confirmed
}

// What came back at an index, and why.
fn came_back(rt: &impl Abort, cast: &Cast, back: &[Refused], index: usize, place: usize) {
    let refused = back.get(index).expect(rt, "a refused transaction");
    assert_eq!(rt; *refused.confirmed.id(), tx::txid(cast.made(rt, place)));
}

fn refusals(rt: &impl Abort, alloc: Global, back: &[Refused]) -> Vec<ChainError> {
    let mut refusals = Vec::new(alloc);
    for refused in back {
        refusals.push(refused.refusal).expect(rt, "memory");
    }
    refusals
}

// What the block does not take comes back in order, with the same refusals.
#[test]
fn gives_back_what_waits(rt: HostRuntime) {
    let mut chain = Index::new(rt.alloc()).expect(&rt, "memory");
    let mut cast = Cast::new(rt.alloc());
    play_with(&rt, &mut cast, &mut chain, &SPENDS);
    let offered = with_ids(&rt, rt.alloc(), cast.block(&rt, &OFFERED));
    let back = chain.connect_waiting(offered).expect(&rt, "memory");
    let why = refusals(&rt, rt.alloc(), &back);
    assert_eq!(rt; why.as_slice(), RETURNED.as_slice());
    came_back(&rt, &cast, &back, 0, 1);
    came_back(&rt, &cast, &back, 1, 2);
    came_back(&rt, &cast, &back, 2, 3);
    assert_eq!(rt; count_at(&chain, 1), Some(2));
}

// Makes a block of the transactions that pass, and undoes it.
fn offer_and_undo(rt: &impl Abort, chain: &mut Index, txs: Vec<Tx>) {
    let mark = chain.mark();
    chain.connect_some(txs).expect(rt, "memory");
    chain.undo(mark);
}

// Once a block is undone, what it spent is unspent, and six blocks may still be taken off.
#[test]
fn goes_back_to_a_mark(rt: HostRuntime) {
    let mut chain = Index::new(rt.alloc()).expect(&rt, "memory");
    let mut cast = Cast::new(rt.alloc());
    play_with(&rt, &mut cast, &mut chain, &SPENDS);
    play_with(&rt, &mut cast, &mut chain, &[Step::Raise(6)]);
    offer_and_undo(&rt, &mut chain, cast.block(&rt, &OFFERED));
    let after = [
        Step::Hold(1, 1000, 0),
        Step::Check(0, 0, Ok(())),
        Step::Check(1, 0, Err(ChainError::Unknown)),
        Step::Disconnect(6, &[]),
    ];
    play_with(&rt, &mut cast, &mut chain, &after);
}

const OF_COPY: [Step; 4] = [
    Step::Connect(&[1], 2),
    Step::Hold(2, 850, 150),
    Step::Disconnect(2, &[0, 1]),
    Step::Hold(1, 1000, 0),
];

const OF_CHAIN: [Step; 2] = [
    Step::Hold(2, 900, 100),
    Step::Check(0, 0, Err(ChainError::Spent)),
];

// A copy is independent of its original.
#[test]
fn copies_a_chain(rt: HostRuntime) {
    let mut chain = Index::new(rt.alloc()).expect(&rt, "memory");
    let mut cast = Cast::new(rt.alloc());
    play_with(&rt, &mut cast, &mut chain, &SPENDS);
    play_with(&rt, &mut cast, &mut chain, &[Step::Connect(&[0], 1)]);
    let mut copy = chain.copy().expect(&rt, "memory");
    play_with(&rt, &mut cast, &mut copy, &OF_COPY);
    play_with(&rt, &mut cast, &mut chain, &OF_CHAIN);
}
