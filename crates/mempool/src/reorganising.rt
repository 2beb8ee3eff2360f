//! Replaces the newest blocks by others.

ghost use Rattle.std.specs.Prelude.{◌≡◌, ◌||◌, ℕ, List, length, OnOk, IfOk, IfErr, MatchResult, Ok, Err};
ghost use Rattle.std.specs.List.{list_any};
ghost use Rattle.std.specs.Str.{bytes_eq};
ghost use Rattle.std.specs.Ordering.{nat_cmp};
ghost use Rattle.std.specs.Cmp.Lexicographic.{slice_cmp};
ghost use Rattle.std.specs.BTreeSet.{contains};
ghost use Rattle.tx.specs.Spelling.{transaction_id};
ghost use Rattle.chain.specs.Blocks.{has_id};
ghost use Rattle.mempool.specs.Mining.{with_fillings, has_waiting};
ghost use Rattle.mempool.specs.Reorganising.{IsRefusal, reorg_refusal, IsTakenOff, IsBranch, IsReorganised};

use crate::errors::ReorgError;
use crate::mining::mine;
use chain::{ChainError, Coins, Index};
use std::alloc::{AllocError, Global};
use std::collections::BTreeSet;
use tx::{Tx, txid};

// A chain without its newest blocks, and the transactions that wait for its next one.
#[derive(Drop)]
struct Branch {
    chain: Index,
    pool: Vec<Tx>,
}

/// A chain whose newest blocks were replaced.
#[derive(Drop)]
pub struct Reorganised {
    /// The chain.
    pub chain: Index,
    /// The transactions that still wait for a block.
    pub pool: Vec<Tx>,
    /// The number of transactions in the new blocks.
    pub txs: u64,
}

// Takes off the newest blocks, and gives their transactions without the last `forgotten`. It refuses TooDeep, then NoSuchTx.
fn taken_off(chain: &mut Index, depth: u64, forgotten: u64) -> Result<Vec<Tx>, ReorgError>
    ensures { MatchResult result (λ txs. IsTakenOff chain.old depth forgotten
        (Ok txs.items) chain.new) (λ e. IsTakenOff chain.old depth forgotten (Err e) chain.new) }
{
    if depth == 0 {
        return Err(ReorgError::TooDeep);
    }
    let mut txs = match chain.disconnect(depth) {
        Ok(txs) => txs,
        Err(ChainError::TooDeep) => return Err(ReorgError::TooDeep),
        Err(_) => return Err(ReorgError::NoMemory),
    };
    let count = txs.len() as u64;
    if forgotten > count {
        return Err(ReorgError::NoSuchTx);
    }
    txs.truncate((count - forgotten) as usize);
    Ok(txs)
}

// The ids of transactions.
fn ids_of(alloc: Global, txs: &[Tx]) -> Result<BTreeSet<[u8; 32]>, AllocError>
    ensures { IfOk result (λ ids. (id : List ℕ)
        → contains (slice_cmp nat_cmp) ids id ≡ has_waiting txs.now id) }
{
    let mut ids = BTreeSet::new(alloc);
    for tx in txs {
        let _is_new = ids.insert(txid(tx))?;
    }
    Ok(ids)
}

// Whether a transaction is on the chain, or has one of these ids.
fn is_on(chain: &Index, ids: &BTreeSet<[u8; 32]>, tx: &Tx) -> bool
    ensures { result ≡ (has_id chain.now.blocks (transaction_id tx.now) || contains
        (slice_cmp nat_cmp) ids.now (transaction_id tx.now)) }
{
    let id = txid(tx);
    chain.has_id(&id) || ids.contains(&id)
}

// Adds to the pool each filling that was ever released and is neither on the chain nor in the pool.
fn add_released(
    alloc: Global,
    chain: &Index,
    pool: &mut Vec<Tx>,
    released: &[Tx],
) -> Result<(), AllocError>
    ensures { OnOk result (pool.new.items ≡ with_fillings chain.now.blocks pool.old.items
        released.now) }
{
    let ids = ids_of(alloc, pool)?;
    for tx in released {
        if !is_on(chain, &ids, tx) {
            pool.push(tx.copy()?)?;
        }
    }
    Ok(())
}

// A copy of the chain without its newest blocks, with the resulting pool. It refuses TooDeep, then NoSuchTx.
fn branch_of(
    alloc: Global,
    chain: &Index,
    pool: &[Tx],
    released: &[Tx],
    depth: u64,
    forgotten: u64,
) -> Result<Branch, ReorgError>
    ensures ok { IfOk result (λ b. IsBranch chain.now pool.now released.now depth forgotten b.chain
        b.pool.items) }
    ensures err { IfErr result (λ e. IsRefusal (reorg_refusal chain.now depth forgotten) e) }
{
    let mut chain = chain.copy()?;
    let mut waiting = taken_off(&mut chain, depth, forgotten)?;
    for tx in pool {
        waiting.push(tx.copy()?)?;
    }
    add_released(alloc, &chain, &mut waiting, released)?;
    Ok(Branch {
        chain,
        pool: waiting,
    })
}

/// Replaces the newest `depth` blocks of a copy of the chain by one block more. The last `forgotten` of their transactions are forgotten, and the others wait
/// before those of the pool. Each filling that was ever released and is on neither waits after them. The new blocks then take what the chain allows, as those
/// of [`mine`](crate::mine()) do. The error is TooDeep where `depth` is 0 or that many blocks cannot be taken off, and NoSuchTx where they hold fewer than
/// `forgotten` transactions.
pub fn reorganise(
    alloc: Global,
    chain: &Index,
    pool: &[Tx],
    released: &[Tx],
    depth: u64,
    forgotten: u64,
) -> Result<Reorganised, ReorgError>
    ensures ok { IfOk result (λ r. IsReorganised chain.now pool.now released.now depth forgotten
        r.chain r.pool.items r.txs) }
    ensures err { IfErr result (λ e. IsRefusal (reorg_refusal chain.now depth forgotten) e) }
{
    let Branch {
        chain: mut branch,
        pool: waiting,
    } = branch_of(alloc, chain, pool, released, depth, forgotten)?;
    // The proof learns from the number of blocks that one more can be counted.
    let _count = chain.blocks().len();
    let mined = mine(alloc, &mut branch, &waiting, depth + 1)?;
    Ok(Reorganised {
        chain: branch,
        pool: mined.waiting,
        txs: mined.txs,
    })
}
