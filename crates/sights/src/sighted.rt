//! Transactions that were read of a block, and how each was followed.

use chain::Confirmed;

/// How a transaction follows a close.
#[derive(Clone, Copy, Debug, PartialEq, Eq, Drop)]
pub enum Stage {
    /// It takes a funding output.
    Close,
    /// It takes an output of a close by its one input, as an HTLC transaction does (BOLT 3, "HTLC-Timeout and HTLC-Success Transactions").
    SecondStage,
    /// It takes such outputs in another way: what takes its own outputs is not read.
    Spend,
}

/// A transaction that was read of a block.
#[derive(Debug, Drop)]
pub struct Sighted {
    /// The height of its block.
    pub height: u32,
    pub stage: Stage,
    /// The transaction, with its id.
    pub tx: Confirmed,
}
