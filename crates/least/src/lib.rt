//! The least that a side has of a channel, whichever commitment closes it: a number that can be read before a close.
//!
//! [`at_least_sat`] sums up, of each commitment that may close a channel now, the outputs on which the side counts, less what HTLC transactions can cost there, and gives the least sum. That
//! the claims on whichever commitment closes the channel are worth at least this, and what is taken off on the way there from the side's
//! balance, is said by [`worth_laws::laws::whichever_closes`].
//!
//! `channel` has the commitments, `commit` their amounts, and `resolve` the known preimages. `book` lends the channel,
//! and tells what is known of it. [`at_least_sat_with`] takes preimages as the book lends them.
//!
//! ```rust
//! /// The least that the node has of a channel of its book, in satoshis, whichever commitment closes it. `None` if there is no such channel.
//! fn least_in(alloc: Global, book: &Book, channel: u64) -> Result<Option<u64>> {
//!     let Some(open) = book.channel(channel) else {
//!         return Ok(None);
//!     };
//!     let preimages = Vec::from_slice(alloc, book.preimages(channel))?;
//!     let mut known = KnownPreimages::from_vec(preimages);
//!     known.index()?;
//!     Ok(Some(at_least_sat(alloc, open, &known)?))
//! }
//! ```
//!
//! The test `tells_the_least_of_a_channel` of `library_tests` calls this function.
#![tactic(auto)]

mod channels;
mod shares;
mod sums;

pub use channels::{at_least_sat, at_least_sat_with};
pub use resolve::KnownPreimages;
