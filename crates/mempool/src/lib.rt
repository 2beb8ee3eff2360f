//! The transactions that wait for a block of the simulated chain, and the blocks that take them.
//!
//! [`mine`] makes blocks. Each takes, in the order of the pool, exactly what the chain allows. Each other transaction
//! waits or is dropped, by the reason of its refusal. [`reorganise`] replaces the newest blocks by others. Where
//! memory ran out, the chain is as it was.
//!
//! `chain` checks and connects the transactions. `world` keeps the pool, adds broadcasts and released claims to it,
//! and mines.
//!
//! ```rust
//! /// How many of the waiting transactions the next block takes.
//! fn taken_by_the_next(alloc: Global, chain: &mut Index, pool: &[Tx]) -> Result<u64, AllocError> {
//!     let mined = mine(alloc, chain, pool, 1)?;
//!     Ok(mined.txs)
//! }
//! ```
//!
//! The test `the_next_block_takes_one` of `chain_tests` calls this function.
#![tactic(auto)]

mod errors;
mod mining;
mod reorganising;

pub use errors::ReorgError;
pub use mining::{Mined, mine};
pub use reorganising::{Reorganised, reorganise};
