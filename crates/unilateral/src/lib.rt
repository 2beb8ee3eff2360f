//! What a commitment that is not revoked lets one claim of any transaction (BOLT 5, "Unilateral Close Handling").
//!
//! A wallet has a transaction and keys, and knows nothing else of the channel but its type. A [`Close`] is the commitment
//! that closed the channel, one's own or the peer's, with the preimages that are known. [`claims_in`] compares each output
//! of a transaction with the commitment's programs. It gives accepted claims on each output that has one of them and that
//! one can claim, and the indices of the others. Running out of memory is the only error. [`from_height`] is the first block
//! that can have a claim's transaction, and [`Close::deadline_height`] the first in which the other side can take the output.
//!
//! [`name_of`] says what an output without a claim is. `revoked` has the programs of a commitment in a table, and answers
//! where it is revoked. `resolve` claims the outputs of a commitment that `commit` builds of a view.
//!
//! ```
//! let close = Close {
//!     commitment,
//!     whose: Whose::Theirs,
//!     feerate_per_kw: 0,
//!     preimages,
//! };
//! claims_in(alloc, patterns, &close, tx)
//! ```
//!
//! The program `spend` has this call. Its tests ask it of the commitments of BOLT 3's Appendix C.
#![tactic(auto)]

mod claiming;
mod closes;
mod heights;
mod htlc_txs;
pub mod laws;
mod names;
mod reading;

pub use closes::{Close, Whose};
pub use heights::from_height;
pub use names::{FundingKeys, OutputName, name_of, names_at};
pub use reading::claims_in;
pub use resolve::KnownPreimages;
pub use revoked::{
    ChannelPatterns, ChannelType, CommitmentKeys, Direction, Expiry, Found, Revoked, RevokedHtlc,
    RevokedOutput, channel_patterns,
};
