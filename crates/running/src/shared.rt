//! What the threads of a node share.

use crate::progress::Progress;
use crate::shared_chain::SharedChain;
use board::Board;
use desk::{Desk, Seat};
use forms::SharedPatterns;
use keys::Key;
use std::sync::Mutex;
use tx::OutPoint;

/// What the threads of one side share.
#[derive(Drop)]
pub(crate) struct SideState {
    /// The side's book, behind its lock.
    pub(crate) desk: Desk,
    /// The patterns of the scripts, which the side's channels share.
    pub(crate) patterns: SharedPatterns,
    /// The funding output of each channel.
    pub(crate) fundings: Vec<OutPoint>,
    /// The side's payment key in each channel.
    pub(crate) payments: Vec<Key>,
    /// The preimages that blocks showed to the side's watcher.
    pub(crate) learnt: Mutex<Vec<[u8; 32]>>,
    pub(crate) progress: Progress,
}

/// The two seats that close the desks once all threads have ended. They make no call before.
#[derive(Drop)]
pub(crate) struct ClosingSeats {
    pub(crate) a: Seat,
    pub(crate) b: Seat,
}

/// What all threads share.
#[derive(Drop)]
pub(crate) struct SharedState {
    pub(crate) a: SideState,
    pub(crate) b: SideState,
    pub(crate) board: Board,
    pub(crate) chain: SharedChain,
}
