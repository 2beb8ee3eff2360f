//! Penalties: all that a revoked commitment lets its owner's peer claim (BOLT 5, "Revoked Transaction Close
//! Handling").
//!
//! [`penalties`] gives one accepted claim for each output of the commitment, to_local, to_remote and each HTLC. After
//! each HTLC's claim comes one on the output of its HTLC transaction, because the cheater may confirm that
//! transaction first. The type [`PenaltySet`] guarantees that the claims are on exactly the outputs of the definition
//! `claimable_of`, in its order. Running out of memory is the only error.
//!
//! `commit` builds the revoked commitment, and `claim` accepts each claim. `resolve` gives the set as what is due,
//! `side` builds it for a node, and `book` keeps it.
//!
//! ```rust
//! let state = RevokedState::new(terms, view, Side::A, 7, secret)?; // of a view with one HTLC
//! let set = penalties(alloc, &patterns(alloc)?, &state)?;
//! assert_eq!(rt; set.claims().len(), 4);
//! ```
//!
//! The test `claims_all_that_a_commitment_pays` of `channel_tests` builds this set.
#![tactic(auto)]

mod building;
pub mod claiming;
mod errors;
pub mod laws;
pub mod places;
mod sets;
mod states;

pub use building::{payable_commitment, penalties, revoked_commitment};
pub use errors::StateError;
pub use sets::PenaltySet;
pub use states::{MAX_STATE_HTLCS, RevokedState, refusal};
pub use terms::{Htlc, Side, Terms, View};
