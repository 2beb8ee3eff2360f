//! What a watcher finds in blocks: which commitment closed a channel, what is due by it, and the preimages that
//! spends of its HTLCs show.
//!
//! [`verdict`] names the known commitment that a transaction is, by its id. A [`Watch`] serves one channel.
//! [`Watch::look`] reads a block and gives a [`Sight`]: the due claims that it hasn't given yet, and the preimages that
//! it learnt. [`Watch::due`] gives all that is due, whatever was given before. [`Watch::back`] forgets blocks that were
//! taken off. A [`Lookout`] is a watch with what is known of its channel. It reads many blocks by the same knowledge,
//! and works out once what no block changes.
//!
//! `chain` hands it blocks, and `resolve` says what is due. `side` has a watch for each channel of a node. What is
//! known of the channel comes from `book`.
//!
//! ```rust
//! /// Reads the block at a height, and tells how many claims are to be filled after it.
//! fn count(alloc: Global, watch: &mut Watch, height: u64, block: &Block, known: &Known) -> Result<usize, AllocError> {
//!     Ok(watch.look(alloc, height, block, known)?.claims.len())
//! }
//! ```
//!
//! The test `copies_what_it_read` of `resolve_tests` calls this function.
#![tactic(auto)]

pub mod laws;
mod learning;
mod lookout;
mod spends;
mod unclaimed;
mod verdicts;
mod watching;

pub use lookout::Lookout;
pub use resolve::Verdict;
pub use spends::Spend;
pub use unclaimed::Given;
pub use verdicts::verdict;
pub use watching::{Sight, Watch};
