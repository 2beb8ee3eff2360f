//! How far the jobs of a side have come.

use std::sync::{Condvar, Mutex, Wait};

/// The jobs of a side, and its workers.
#[derive(Drop)]
struct State {
    /// The jobs that were put, or are about to be.
    put: u64,
    /// Those of them that were done or dropped.
    done: u64,
    /// The workers that have not ended.
    workers: u16,
}

impl State {
    /// Whether no more jobs are done than this, and one may still be.
    fn awaits_more(&self, done: u64) -> bool {
        self.done == done && self.put != self.done && self.workers > 0
    }
}

/// How far the jobs of a side have come. A signature that finds penalties missing waits here.
#[derive(Drop)]
pub(crate) struct Progress {
    state: Mutex<State>,
    changed: Condvar,
}

impl Progress {
    /// No job yet, for a side with this number of workers.
    pub(crate) fn new(workers: u16) -> Progress {
        Progress {
            state: Mutex::new(State {
                put: 0,
                done: 0,
                workers,
            }),
            changed: Condvar::new(),
        }
    }

    /// Counts a job that is about to be put.
    pub(crate) fn expect<R: Wait>(&self, rt: &R) {
        let mut state = self.state.lock(rt);
        state.put = state.put.wrapping_add(1);
    }

    /// Counts a job that is done or dropped, and wakes the threads that wait.
    pub(crate) fn finish<R: Wait>(&self, rt: &R) {
        let mut state = self.state.lock(rt);
        state.done = state.done.wrapping_add(1);
        drop(state);
        self.changed.notify_all();
    }

    /// Counts a worker that has ended, and wakes the threads that wait.
    pub(crate) fn leave<R: Wait>(&self, rt: &R) {
        let mut state = self.state.lock(rt);
        state.workers = state.workers.saturating_sub(1);
        drop(state);
        self.changed.notify_all();
    }

    /// Whether a worker of the side has not ended.
    pub(crate) fn has_worker<R: Wait>(&self, rt: &R) -> bool {
        self.state.lock(rt).workers > 0
    }

    /// How many jobs are done or dropped.
    pub(crate) fn count_done<R: Wait>(&self, rt: &R) -> u64 {
        self.state.lock(rt).done
    }

    /// Waits until more jobs are done than this, and returns how many. `None` if no job is left that a worker may do.
    pub(crate) fn wait_for_more<R: Wait>(&self, rt: &R, done: u64) -> Option<u64> {
        let state = self
            .changed
            .wait_while(rt, self.state.lock(rt), |state| state.awaits_more(done));
        if state.done == done {
            None
        } else {
            Some(state.done)
        }
    }
}
