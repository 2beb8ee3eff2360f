//! What blocks show of closes: which outputs were made and taken, and from which block on somebody else can take them.
//!
//! A [`Sights`] reads blocks for the channels of a node, by names of outpoints alone. It keeps each transaction that
//! takes a funding output, and each that takes an output of such a one, or of one that does so by its only input, as
//! an HTLC transaction does. The main contract is that what it keeps is what the chain shows ([`laws::sights_follow`]).
//! [`Sights::told`] tells each claim that is due in a channel ([`Told`]): whether its output stands, from which block
//! on it can be filled, and from which one on somebody else can take the output.
//!
//! A second stage inside a transaction of several inputs is not followed: what takes its outputs is not read. No claim
//! is on these, since HTLC transactions have one input (BOLT 3), so nothing is told of them.
//!
//! `chain` hands it blocks, `watch` names the commitment that closed a channel, and `resolve` says what is due by it.
//!
//! ```rust
//! /// Reads the block at a height, and tells how many claims are due after it.
//! fn count_due(alloc: Global, sights: &mut Sights, height: u32, block: &Block, known: &Known) -> Result<usize, AllocError> {
//!     sights.block(height, block)?;
//!     Ok(sights.told(alloc, known)?.len())
//! }
//! ```
//!
//! The test `tells_what_is_due` of `resolve_tests` calls this function.
#![tactic(auto)]

mod deadlines;
mod fundings;
pub mod laws;
mod marks;
mod origins;
mod records;
mod sighted;
mod sights;
mod telling;

pub use sighted::{Sighted, Stage};
pub use sights::Sights;
pub use telling::Told;
