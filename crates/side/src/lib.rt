//! What one node does between its book and the chain.
//!
//! A [`Reader`] reads blocks for all channels of a node. Before each block, [`Reader::to_ask`] says of which channels
//! more has to be known, and [`Reader::answer`] takes it; then [`Reader::read`] reads the block. The main contract is
//! that of `read`: barring out-of-memory, it finds exactly what each channel's watch finds with what is known
//! (`IsRead`). [`DueClaim`] is a claim that fell due, with the preimages that its slots need. [`worth_of`] and
//! [`batch_of`] make the batch by which due claims of a channel are released.
//!
//! It has two callers: `world`, which owns its books, and threads, which reach theirs through a lock. So its
//! signatures have no book, no channel and no seat.
//!
//! A block comes from `chain` to a `watch` for each channel; what these find goes to `book` as a batch to release.
//!
//! ```rust
//! let asked = reader.to_ask(alloc, block)?;
//! assert_eq!(rt; asked.len(), 0); // the funding output stands
//! reader.answer(0, known)?;
//! let parts = reader.read(alloc, 0, block)?.into_parts()?;
//! assert_eq!(rt; parts.due.len(), 0);
//! ```
//!
//! The test `reads_a_block` of `resolve_tests` has these calls.
#![tactic(auto)]

pub mod batches;
mod due;
mod following;
mod fundings;
mod marks;
mod reading;
mod spent;

pub use batches::{BatchError, batch_of, worth_of};
pub use due::DueClaim;
pub use reading::{ReadParts, Reader};
