//! New blocks from the pool.

ghost use Rattle.std.specs.Prelude.{◌≡◌, Some, IfOk, OnErr};
ghost use Rattle.chain.specs.Marking.{IsGrown};
ghost use Rattle.mempool.specs.Mining.{waits as waits_for, waiting_among, IsNextBlock, AreNewBlocks};

use chain::{ChainError, Confirmed, Index, Refused};
use std::alloc::{AllocError, Global};
use tx::Tx;

/// What new blocks leave.
#[derive(Drop)]
pub struct Mined {
    /// The transactions that still wait for a block, in the order of the pool.
    pub waiting: Vec<Tx>,
    /// The number of transactions in the new blocks.
    pub txs: u64,
}

// What the next block leaves: the transactions that still wait, with their ids.
#[derive(Drop)]
struct Left {
    waiting: Vec<Confirmed>,
    txs: u64,
}

// Whether a transaction that the chain refuses for this reason waits for a later block: its lock is not reached, or nothing created an output that it spends.
fn waits(refusal: ChainError) -> bool
    ensures { result ≡ waits_for (Some refusal) }
{
    match refusal {
        ChainError::NotFinal | ChainError::TooYoung | ChainError::Unknown => true,
        _ => false,
    }
}

// Copies of transactions, with their ids. The only error is that memory ran out.
fn with_ids(alloc: Global, txs: &[Tx]) -> Result<Vec<Confirmed>, AllocError>
    ensures { IfOk result (λ copies. copies.items ≡ txs.now) }
{
    let mut copies = Vec::with_capacity(alloc, txs.len())?;
    for tx in txs {
        copies.push(Confirmed::new(tx.copy()?))?;
    }
    Ok(copies)
}

// The transactions alone. The only error is that memory ran out.
fn without_ids(alloc: Global, waiting: Vec<Confirmed>) -> Result<Vec<Tx>, AllocError>
    ensures { IfOk result (λ txs. txs.items ≡ waiting.items) }
{
    let mut txs = Vec::with_capacity(alloc, waiting.len())?;
    for confirmed in waiting {
        txs.push(confirmed.into_tx())?;
    }
    Ok(txs)
}

// Those that still wait, by the reason of each refusal. The only error is that memory ran out.
fn waiting_of(alloc: Global, refused: Vec<Refused>) -> Result<Vec<Confirmed>, AllocError>
    ensures { IfOk result (λ left. left.items ≡ waiting_among refused.items) }
{
    let mut left = Vec::with_capacity(alloc, refused.len())?;
    for back in refused {
        let Refused { confirmed, refusal } = back;
        if waits(refusal) {
            left.push(confirmed)?;
        }
    }
    Ok(left)
}

// One more block, of the transactions that the chain allows, in their order. Where memory ran out, the chain may have the block or not.
#[tactic(auto, using(crate::proofs::Blocks::not_grown))]
fn mine_one(alloc: Global, chain: &mut Index, waiting: Vec<Confirmed>) -> Result<Left, AllocError>
    ensures ok { IfOk result (λ m. IsNextBlock chain.old waiting.items chain.new m.waiting.items
        m.txs) }
    ensures grown { IsGrown chain.old chain.new }
{
    let offered = waiting.len();
    let refused = chain.connect_waiting(waiting)?;
    let txs = (offered - refused.len()) as u64;
    let waiting = waiting_of(alloc, refused)?;
    Ok(Left { waiting, txs })
}

// `count` more blocks. Where memory ran out, the chain has some of them.
#[tactic(auto, using(crate::proofs::Blocks::not_grown, crate::proofs::Blocks::grown_on))]
fn mine_all(alloc: Global, chain: &mut Index, pool: &[Tx], count: u64) -> Result<Mined, AllocError>
    ensures ok { IfOk result (λ m. AreNewBlocks count chain.old pool.now chain.new m.waiting.items
        m.txs) }
    ensures grown { IsGrown chain.old chain.new }
{
    let mut left = with_ids(alloc, pool)?;
    let mut txs = 0u64;
    for _block in 0..count {
        let mined = mine_one(alloc, chain, left)?;
        left = mined.waiting;
        txs += mined.txs;
    }
    let waiting = without_ids(alloc, left)?;
    Ok(Mined { waiting, txs })
}

/// Makes `count` blocks. Each takes, in the order of the pool, what the chain allows. A transaction that is NotFinal, TooYoung or Unknown waits for the next
/// block; any other refused one is dropped. The only error is that memory ran out, which leaves the chain as it was.
pub fn mine(alloc: Global, chain: &mut Index, pool: &[Tx], count: u64) -> Result<Mined, AllocError>
    ensures ok { IfOk result (λ m. AreNewBlocks count chain.old pool.now chain.new m.waiting.items
        m.txs) }
    ensures err { OnErr result (chain.new ≡ chain.old) }
{
    let mark = chain.mark();
    match mine_all(alloc, chain, pool, count) {
        Ok(mined) => Ok(mined),
        Err(error) => {
            chain.undo(mark);
            Err(error)
        }
    }
}
