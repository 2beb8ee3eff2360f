//! The chain and its pool.

ghost use Rattle.std.specs.Prelude.{◌≡◌, ◌-◌, ◌==◌, ◌&&◌, false, [], ◌∷◌, ◌++◌, length, IfOk, OnOk, OnErr, IfErr};
ghost use Rattle.chain.specs.Blocks.{height_of};
ghost use Rattle.mempool.specs.Mining.{AreNewBlocks};
ghost use Rattle.mempool.specs.Reorganising.{IsRefusal, reorg_refusal, IsReorganised};
ghost use Rattle.node.specs.Forks.{least_since};

use chain::{Coins, Index};
use mempool::{ReorgError, Reorganised, mine, reorganise};
use std::alloc::{AllocError, Global};
use tx::Tx;

/// The simulated chain, and the transactions that wait for a block. Threads share it under a lock.
#[derive(Drop)]
pub struct Pool {
    pub chain: Index,
    /// The transactions that wait for a block, in the order in which they came.
    pub waiting: Vec<Tx>,
    /// The fillings that were ever released, in order.
    pub released: Vec<Tx>,
    /// Of each reorganisation, in order, the height of the block below those that were replaced.
    pub forks: Vec<u64>,
    /// No block follows.
    pub is_over: bool,
}

impl Pool {
    /// A chain with an empty pool, before any reorganisation. It takes no memory.
    pub fn new(alloc: Global, chain: Index) -> Pool
        ensures chain { result.chain ≡ chain }
        ensures waiting { result.waiting.items ≡ [] }
        ensures released { result.released.items ≡ [] }
        ensures forks { result.forks.items ≡ [] }
        ensures goes_on { result.is_over ≡ false }
    {
        Pool {
            chain,
            waiting: Vec::new(alloc),
            released: Vec::new(alloc),
            forks: Vec::new(alloc),
            is_over: false,
        }
    }

    /// Adds a transaction to those that wait. The only error is that memory ran out, which leaves what waits unchanged.
    pub fn broadcast(&mut self, tx: Tx) -> Result<(), AllocError>
        ensures ok { OnOk result (self.new.waiting.items ≡ self.old.waiting.items ++ tx ∷ []) }
        ensures err { OnErr result (self.new.waiting.items ≡ self.old.waiting.items) }
        ensures chain { self.new.chain ≡ self.old.chain }
        ensures released { self.new.released ≡ self.old.released }
        ensures forks { self.new.forks ≡ self.old.forks }
        ensures is_over { self.new.is_over ≡ self.old.is_over }
    {
        match self.waiting.push(tx) {
            Ok(()) => Ok(()),
            Err(_) => Err(AllocError),
        }
    }

    /// Adds a released filling to the transactions that wait, and to the fillings that were ever released. The only error is that memory ran out, which leaves the pool unchanged.
    pub fn release(&mut self, filling: &Tx) -> Result<(), AllocError>
        ensures chain { self.new.chain ≡ self.old.chain }
        ensures waiting { OnOk result (self.new.waiting.items
            ≡ self.old.waiting.items ++ filling.now ∷ []) }
        ensures released { OnOk result (self.new.released.items
            ≡ self.old.released.items ++ filling.now ∷ []) }
        ensures err_waiting { OnErr result (self.new.waiting.items ≡ self.old.waiting.items) }
        ensures err_released { OnErr result (self.new.released.items ≡ self.old.released.items) }
        ensures forks { self.new.forks ≡ self.old.forks }
        ensures is_over { self.new.is_over ≡ self.old.is_over }
    {
        self.waiting.reserve(1)?;
        self.released.reserve(1)?;
        let copy = filling.copy()?;
        self.waiting.push(filling.copy()?).unwrap();
        self.released.push(copy).unwrap();
        Ok(())
    }

    /// Makes `count` blocks, as [`mempool::mine()`] does, and returns the number of transactions in them. The only error is that memory ran out, which leaves the pool unchanged.
    pub fn mine(&mut self, alloc: Global, count: u64) -> Result<u64, AllocError>
        ensures ok { IfOk result (AreNewBlocks count self.old.chain self.old.waiting.items
            self.new.chain self.new.waiting.items) }
        ensures released { self.new.released ≡ self.old.released }
        ensures forks { self.new.forks ≡ self.old.forks }
        ensures is_over { self.new.is_over ≡ self.old.is_over }
        ensures err { OnErr result (self.new ≡ self.old) }
    {
        let mined = mine(alloc, &mut self.chain, &self.waiting, count)?;
        self.waiting = mined.waiting;
        Ok(mined.txs)
    }

    /// Replaces the newest blocks, as [`mempool::reorganise()`] does, notes the fork, and returns the number of transactions in the new blocks. A refusal leaves the
    /// chain and what waits unchanged.
    pub fn reorganise(
        &mut self,
        alloc: Global,
        depth: u64,
        forgotten: u64,
    ) -> Result<u64, ReorgError>
        ensures ok { IfOk result (IsReorganised self.old.chain self.old.waiting.items
            self.old.released.items depth forgotten self.new.chain self.new.waiting.items) }
        ensures forks { OnOk result (self.new.forks.items
            ≡ self.old.forks.items ++ (height_of self.old.chain.blocks - depth) ∷ []) }
        ensures refused { IfErr result (IsRefusal (reorg_refusal self.old.chain depth forgotten)) }
        ensures err_chain { OnErr result (self.new.chain ≡ self.old.chain) }
        ensures err_waiting { OnErr result (self.new.waiting.items ≡ self.old.waiting.items) }
        ensures released { self.new.released ≡ self.old.released }
        ensures is_over { self.new.is_over ≡ self.old.is_over }
        ensures err_forks { OnErr result (self.new.forks.items ≡ self.old.forks.items) }
    {
        self.forks.reserve(1)?;
        let fork = self.chain.height().saturating_sub(depth);
        let done = reorganise(
            alloc,
            &self.chain,
            &self.waiting,
            &self.released,
            depth,
            forgotten,
        )?;
        let Reorganised { chain, pool, txs } = done;
        self.chain = chain;
        self.waiting = pool;
        self.forks.push(fork).unwrap();
        Ok(txs)
    }

    /// The number of reorganisations so far.
    pub fn round(&self) -> u64
        ensures { result ≡ length self.now.forks.items }
    {
        self.forks.len() as u64
    }

    /// Whether the chain has this height after this number of reorganisations.
    pub fn is_at(&self, round: u64, height: u64) -> bool
        ensures { result
            ≡ (length self.now.forks.items == round && height_of self.now.chain.blocks == height) }
    {
        self.round() == round && self.chain.height() == height
    }

    /// The least of a height and of the forks since a round: up to there the blocks read in that round still stand.
    pub fn fork_since(&self, round: u64, height: u64) -> u64
        ensures { result ≡ least_since round height self.now.forks.items }
    {
        let mut least = height;
        for index in round as usize..self.forks.len() {
            least = least.min(self.forks[index]);
        }
        least
    }
}
