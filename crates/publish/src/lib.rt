//! The transactions that one side of a channel can broadcast: its commitments with both signatures, and their HTLC
//! transactions (BOLT 3).
//!
//! [`signed_commitment`] gives this side's commitment of a number, and [`signed_htlc_tx`] the HTLC transaction of its
//! `k`-th HTLC that isn't trimmed. That is HTLC-timeout for an HTLC that this side offered. For one that was offered
//! to it, it is HTLC-success, if the preimage is among those given. Barring out-of-memory, each is exactly that of
//! the definitions `signed_commitment_of` and `signed_htlc_tx_of`, witness included. The laws say
//! when `chain` takes their inputs.
//!
//! `channel` has the commitments with the peer's tokens, and `commit` their HTLC transactions. `world` broadcasts
//! what is made here, and `desk` makes it of a book that threads share.
//!
//! ```rust
//! /// What closes a channel: this side's newest commitment.
//! fn closing_tx(alloc: Global, channel: &Channel) -> Result<Option<Tx>, AllocError> {
//!     signed_commitment(alloc, &patterns(alloc)?, channel, channel.number())
//! }
//! ```
//!
//! The test `closes_with_its_newest_commitment` of `channel_tests` calls this function.
#![tactic(auto)]

pub mod laws;
mod preimages;
mod publishing;
mod recorded;
mod signatures;
mod witnesses;

pub use publishing::{signed_commitment, signed_htlc_tx};
