//! Blocks that take what waits in a pool, and blocks that are replaced by others.

use crate::fixtures::{GRANTED, TRUE_PROGRAM, output, transaction};
use chain::{Coins, Index};
use mempool::{ReorgError, mine, reorganise};
use std::alloc::{AllocError, Global};
use std::mem::replace;
use std::process::Abort;
use tx::{OutPoint, Tx, txid};

// A chain with two grants of 1,000 satoshis at height 0.
fn granted_chain(rt: &impl Abort, alloc: Global) -> Index {
    let mut chain = Index::new(alloc).expect(rt, "memory");
    for _grant in 0..2 {
        let granted = chain.grant(output(rt, alloc, 1000, &TRUE_PROGRAM));
        granted.expect(rt, "a grant");
    }
    chain
}

// A transaction that spends an output into one output of this value, with this lock time.
fn spend(rt: &impl Abort, alloc: Global, outpoint: OutPoint, value: u64, lock_time: u32) -> Tx {
    transaction(rt, alloc, 2, &[(outpoint, 0)], &[value], lock_time)
}

// A spend of the first grant.
fn parent(rt: &impl Abort, alloc: Global) -> Tx {
    spend(rt, alloc, GRANTED[0], 900, 0)
}

// A spend of the output that the first one creates.
fn child(rt: &impl Abort, alloc: Global) -> Tx {
    let txid = txid(&parent(rt, alloc));
    spend(rt, alloc, OutPoint { txid, index: 0 }, 800, 0)
}

// A spend of the second grant, allowed from block 3 on.
fn locked(rt: &impl Abort, alloc: Global) -> Tx {
    spend(rt, alloc, GRANTED[1], 600, 2)
}

// The pool: the child, the parent, a second spend of the first grant, and the locked one.
fn waiting(rt: &impl Abort, alloc: Global) -> Vec<Tx> {
    let (child, parent) = (child(rt, alloc), parent(rt, alloc));
    let second = spend(rt, alloc, GRANTED[0], 700, 0);
    let locked = locked(rt, alloc);
    vec![in alloc; child, parent, second, locked].expect(rt, "memory")
}

// Makes this number of blocks of the pool; gives how many transactions they have, and how many still wait.
fn mine_on(
    rt: &impl Abort,
    alloc: Global,
    chain: &mut Index,
    pool: &mut Vec<Tx>,
    count: u64,
) -> (u64, usize) {
    let mined = mine(alloc, chain, pool, count).expect(rt, "memory");
    let txs = mined.txs;
    drop(replace(pool, mined.waiting));
    (txs, pool.len())
}

// Block 1 has the parent: the child comes before it and waits, the second spend is dropped, and the locked one waits. Block 2 has the child, block 3 the
// locked one.
#[test]
fn blocks_take_what_waits(rt: HostRuntime) {
    let alloc = rt.alloc();
    let mut chain = granted_chain(&rt, alloc);
    let mut pool = waiting(&rt, alloc);
    assert!(rt; mine_on(&rt, alloc, &mut chain, &mut pool, 1) == (1, 2));
    assert!(rt; mine_on(&rt, alloc, &mut chain, &mut pool, 1) == (1, 1));
    assert!(rt; mine_on(&rt, alloc, &mut chain, &mut pool, 2) == (1, 0));
    assert!(rt; chain.height() == 4);
    assert!(rt; chain.fees() == Ok(600));
}

// The result of a reorganisation: the height, the number of transactions in the new blocks, and how many still wait.
fn ended(
    alloc: Global,
    chain: &Index,
    released: &[Tx],
    depth: u64,
    forgotten: u64,
) -> Result<(u64, u64, usize), ReorgError> {
    let new = reorganise(alloc, chain, &[], released, depth, forgotten)?;
    Ok((new.chain.height(), new.txs, new.pool.len()))
}

// How many blocks are replaced, how many transactions are forgotten, and the result.
const ENDS: [(u64, u64, Result<(u64, u64, usize), ReorgError>); 5] = [
    (3, 0, Ok((4, 3, 0))),
    (3, 1, Ok((4, 2, 0))),
    (3, 4, Err(ReorgError::NoSuchTx)),
    (0, 0, Err(ReorgError::TooDeep)),
    (4, 0, Err(ReorgError::TooDeep)),
];

// Three blocks with one transaction each are replaced by four. With the last transaction forgotten only the others come back; where it was released too, all
// do.
#[test]
fn blocks_give_way(rt: HostRuntime) {
    let alloc = rt.alloc();
    let mut chain = granted_chain(&rt, alloc);
    let mined = mine_on(&rt, alloc, &mut chain, &mut waiting(&rt, alloc), 3);
    assert!(rt; mined == (3, 0));
    for (depth, forgotten, wanted) in &ENDS {
        assert!(rt; ended(alloc, &chain, &[], *depth, *forgotten) == *wanted);
    }
    let released = [locked(&rt, alloc)];
    assert!(rt; ended(alloc, &chain, &released, 3, 1) == Ok((4, 3, 0)));
    assert!(rt; chain.height() == 3);
}

// The example in the documentation of `mempool`.
fn taken_by_the_next(alloc: Global, chain: &mut Index, pool: &[Tx]) -> Result<u64, AllocError> {
    let mined = mine(alloc, chain, pool, 1)?;
    Ok(mined.txs)
}

#[test]
fn the_next_block_takes_one(rt: HostRuntime) {
    let alloc = rt.alloc();
    let mut chain = granted_chain(&rt, alloc);
    let taken = taken_by_the_next(alloc, &mut chain, &waiting(&rt, alloc));
    assert!(rt; taken == Ok(1));
}
