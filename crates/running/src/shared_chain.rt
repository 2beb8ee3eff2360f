//! The chain that all threads share.

use chain::{Coins, Index};
use node::Pool;
use std::alloc::Global;
use std::sync::atomic::{AtomicBool, Ordering};
use std::sync::{Condvar, Mutex, Wait};

/// The chain and its pool behind their lock, and the news of it.
#[derive(Drop)]
pub(crate) struct SharedChain {
    pub(crate) pool: Mutex<Pool>,
    news: Condvar,
    has_failed: AtomicBool,
}

impl SharedChain {
    /// A chain with an empty pool.
    pub(crate) fn new(alloc: Global, chain: Index) -> SharedChain {
        SharedChain {
            pool: Mutex::new(Pool::new(alloc, chain)),
            news: Condvar::new(),
            has_failed: AtomicBool::new(false),
        }
    }

    /// Wakes the threads that wait for a block.
    pub(crate) fn notify(&self) {
        self.news.notify_all();
    }

    /// Tells all threads that no block follows.
    pub(crate) fn end<R: Wait>(&self, rt: &R) {
        self.pool.lock(rt).is_over = true;
        self.notify();
    }

    /// Waits while the chain has this height after this number of reorganisations, and a block may follow. Returns whether the chain still has it.
    pub(crate) fn wait_at<R: Wait>(&self, rt: &R, round: u64, height: u64) -> bool {
        let pool = self.news.wait_while(rt, self.pool.lock(rt), |pool| {
            !pool.is_over && pool.is_at(round, height)
        });
        pool.is_at(round, height)
    }

    /// Notes that a thread gave up, since memory ran out.
    pub(crate) fn fail(&self) {
        self.has_failed.store(true, Ordering::SeqCst);
    }

    /// Whether a thread gave up.
    pub(crate) fn has_failed(&self) -> bool {
        self.has_failed.load(Ordering::SeqCst)
    }

    /// The height of the chain. All threads must have ended.
    pub(crate) fn into_height(self) -> u64 {
        let SharedChain { pool, .. } = self;
        pool.into_inner().chain.height()
    }
}
