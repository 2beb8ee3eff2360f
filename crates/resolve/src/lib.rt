//! What is due on the chain: for each commitment that may close a channel, every output that one may claim (BOLT 5).
//!
//! [`due_claims`] takes a [`Verdict`] on the transaction that closed the channel, and what is [`Known`] of the
//! channel. Barring out-of-memory, it gives exactly the claims of the definition `due_of`, in the order of the
//! commitment's outputs, each accepted. The types of `Known` guarantee that the commitments can be paid. They also
//! guarantee that one's own have the peer's tokens on them ([`SignedCommitment`]), and that the i-th revoked one has
//! number i ([`RevokedCommitments`]). [`KnownPreimages`] finds a preimage by its hash, once they are indexed.
//! [`preimage_in`] reads a preimage off a spend of an HTLC, and [`is_final`] tells what is buried deep enough.
//!
//! `penalty` hands it the claims of a revoked commitment. `book` makes the `Known` of each channel, and `watch` asks
//! what is due by its verdict on what it saw.
//!
//! ```rust
//! // A channel with one HTLC, which the peer's newest commitment pays beside to_remote.
//! let claims = due_claims(alloc, &known, Verdict::Theirs)?;
//! assert_eq!(rt; claims.len(), 2);
//! ```
//!
//! The test `a_copy_knows_the_same` of `resolve_tests` counts these claims.
#![tactic(auto)]

mod claiming;
mod due;
mod errors;
mod known;
mod known_preimages;
mod numbers;
mod preimages;
mod revoked;
mod tokens;
mod verdicts;

pub use due::{due_claims, revoked_at};
pub use errors::{KnownError, RevokedError};
pub use known::{Known, KnownCommitment, RevokedCommitment, SignedCommitment};
pub use known_preimages::KnownPreimages;
pub use numbers::MAX_NUMBER;
pub use preimages::{is_final, preimage_in};
pub use revoked::RevokedCommitments;
pub use verdicts::Verdict;
