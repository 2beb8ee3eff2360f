//! What a revoked commitment lets its owner's peer claim of any transaction (BOLT 5, "Revoked Transaction Close
//! Handling").
//!
//! A watchtower has a transaction and keys, and knows nothing else of the channel but its type. [`Revoked`] keeps the
//! keys of a revoked commitment, its delay and its HTLCs, with the programs of its outputs in a table. [`claims_in`]
//! compares each output of a transaction with these programs. It gives an accepted claim on each output that has one of them,
//! and the indices of the others. So the same call reads the commitment, its HTLC transactions, and any transaction
//! that has some of these outputs among others. Running out of memory is the only error. [`Revoked::owner_height`] is the first block in which the
//! owner can take such an output.
//!
//! In a channel with anchors its HTLCs and to_local are claimed, and to_remote and the anchors are among the others,
//! since they have scripts that `paths` refuses (`anchor_forms`).
//!
//! `penalty` claims the outputs of a commitment that `commit` builds of a view, without anchors. Its claims on that
//! commitment are those of this crate (`laws`).
//!
//! ```
//! let revoked = Revoked::new(
//!     alloc,
//!     patterns,
//!     parts.channel_type,
//!     parts.keys,
//!     parts.delay_blocks,
//!     htlcs,
//! )?;
//! claims_in(alloc, patterns, &revoked, tx)
//! ```
//!
//! The part `== revoked` of `vectors` has this call. It reads BOLT 3's Appendix C.
#![tactic(auto)]

mod claiming;
mod commitments;
mod deadlines;
pub mod laws;
mod outputs;
mod reading;
mod scripts;

pub use anchor_forms::{ChannelPatterns, ChannelType, channel_patterns};
pub use claiming::claim_on_to_remote;
pub use commit::{CommitmentKeys, Direction};
pub use commitments::Revoked;
pub use forms::Expiry;
pub use outputs::{RevokedHtlc, RevokedOutput};
pub use reading::{Found, claims_in};
pub use scripts::htlc_script;
