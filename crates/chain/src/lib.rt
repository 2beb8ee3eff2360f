//! The simulated chain: blocks of transactions, the outputs that they create and spend, time locks, and blocks taken
//! off again.
//!
//! [`Coins`] has the calls. Each speaks of the list of blocks as it is at the time. Barring out-of-memory, an input
//! passes exactly where its output was created and is unspent, its locks are reached (BIP 65, BIP 68), and the
//! output's program runs clean on its witness (BIP 141). A block is connected exactly where each of its transactions
//! passes; else the first at fault is named and nothing changes. [`Scan`] searches its blocks for every answer.
//! [`Index`], which is the [`Chain`], keeps a map of the outputs and a set of the ids as well. Both are proved
//! against the same clauses. [`replay_commands`] makes calls that are values, one after another.
//!
//! `filling` and `publish` make the transactions, and `machine` runs their scripts here. `mempool` makes blocks of
//! the transactions that wait, and `watch` reads the blocks.
//!
//! ```rust
//! /// Grants an output, and spends it in the next block.
//! fn spend<C: Coins>(chain: &mut C, output: TxOut, tx: Vec<Tx>) -> Result<u64, BlockError> {
//!     let _ = chain.grant(output);
//!     chain.connect(tx)
//! }
//! ```
//!
//! The test `spends_a_grant` of `chain_tests` calls this function.
#![tactic(auto)]

mod blocks;
mod chain_blocks;
mod checking;
mod coin_map;
mod coins;
mod commands;
mod connecting;
mod copies;
mod errors;
mod given;
mod index;
mod indexing;
pub mod laws;
mod locks;
mod program;
mod refused;
mod scan;
mod store;
mod totals;

pub use blocks::{Block, Confirmed};
pub use coins::Coins;
pub use commands::{Answer, Command, replay_commands};
pub use errors::{BlockError, ChainError};
pub use given::{Given, ProgramFault, given_of};
pub use index::{Index, Mark};
pub use program::run_program;
pub use refused::Refused;
pub use scan::Scan;
pub use totals::Unspent;

/// The chain for callers: the one with an index.
pub type Chain = Index;
