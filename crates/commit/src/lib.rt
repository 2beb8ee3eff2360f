//! Commitments, and the transactions that spend their HTLCs (BOLT 3).
//!
//! A commitment belongs to one of the two sides, its owner. Barring out-of-memory, [`build`] gives the owner's
//! commitment of a view, exactly that of the definition `commitment_of`. It has the sorted outputs with their
//! scripts, the transaction and its id. [`funding_script`] gives the script of the output that the commitment
//! spends, [`htlc_tx`] the HTLC transaction of each HTLC, and [`signing_digests`] what the owner's peer signs.
//! [`commitment_amounts`] is what the commitment pays, before any script.
//!
//! `terms` has the view and what the sides agreed on, `keys` derives the commitment's keys. `channel` signs what is
//! built here, `penalty` and `resolve` claim its outputs, and `publish` adds both signatures.
//!
//! ```
//! let amounts = commitment_amounts(rt.alloc(), &terms, &view, Side::B)?;
//! assert_eq!(rt; amounts.fee, commitment_fee(13 * count, 1000));
//! assert_eq!(rt; amounts.to_local, Some(3_000_000));
//! ```
//!
//! The test `every_count_of_htlcs_has_amounts` of `channel_tests` has these lines.
#![tactic(auto)]

mod amounts;
mod building;
mod commitments;
mod derived;
mod errors;
mod fees;
pub mod laws;
mod ordering;
mod outputs;
mod scripts;
mod signing;

pub use amounts::{Amounts, commitment_amounts};
pub use building::build;
pub use commitments::{Commitment, htlc_tx};
pub use derived::{CommitmentKeys, commitment_keys};
pub use errors::BuildError;
pub use fees::{Direction, commitment_fee, htlc_fee, is_trimmed, satoshis};
pub use outputs::{CommitmentOutput, HtlcOutput, OutputKind};
pub use signing::{Digests, funding_script, signing_digests};
pub use terms::{Htlc, Side, Terms, View, mask, number_of, obscure};
