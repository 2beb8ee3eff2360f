//! What the two sides of a channel agreed on, and the words that its updates and its commitments share (BOLT 2,
//! BOLT 3).
//!
//! [`Terms`] are the values of `open_channel` and `accept_channel`, the funding outpoint and both sides' base keys.
//! Their type guarantees what all crates above rely on: the capacity is at most 21,000,000 bitcoins, the two starting
//! balances sum to it, and each delay is below 2^16. [`ProposedTerms`], with a [`ProposedParty`] for each side, are the
//! terms that are proposed before there are a funding output and keys; two sides may be unable to agree on them. A
//! [`View`] is what one commitment pays: each side's balance, its HTLCs, and the feerate. [`mask`], [`obscure`] and
//! [`number_of`] handle the number of a commitment and the fields of its transaction that carry it.
//! `specs/Scripts.antt` has the opcodes of BOLT 3's five scripts, which `commit` spells and `forms` lists.
//!
//! `keys` provides the base keys. `updates` makes the views, `commit` the commitment of a view, and `texts` reads and
//! writes proposed terms.
//!
//! ```rust
//! /// Whether a transaction is commitment number `n` of the channel.
//! fn is_commitment(terms: &Terms, tx: &Tx, n: u64) -> bool {
//!     number_of(terms, tx) == Some(n)
//! }
//! ```
//!
//! The test `commitments_have_numbers` of `tx_tests` calls this function.
#![tactic(auto)]

mod agreement;
mod amounts;
mod errors;
mod htlcs;
pub mod laws;
mod numbers;
mod proposals;
mod sides;
mod views;

pub use agreement::{BaseKeys, Party, Terms};
pub use amounts::MSAT_PER_SAT;
pub use errors::TermsError;
pub use htlcs::Htlc;
pub use numbers::{Obscured, mask, number_of, obscure};
pub use proposals::{ProposedParty, ProposedTerms};
pub use sides::Side;
pub use views::{Share, View};
