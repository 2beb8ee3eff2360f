//! Fillings: transactions that spend the outputs of accepted claims.
//!
//! [`fill`] makes one transaction of 1 to 4,000 claims, exactly that of the definition `filling_of`. Otherwise it
//! names the first refusal that holds, barring out-of-memory. Each input of the [`Filled`] fits its claim, and so
//! runs clean.
//!
//! [`unsigned_spend`] makes the same transaction for signers elsewhere: the empty item stands in the place of each
//! signature, and each [`MissingSignature`] says which key signs what, and where the signature goes. With the tokens in
//! their places it is the filling. So whatever the keys are, it lacks nothing but valid signatures.
//!
//! `claim` hands it the claims, and `keys` the signer that fills the slots of keys. `book` releases claims by it, and
//! `chain` takes the transaction.
//!
//! ```rust
//! let filled = fill(alloc, &[&claim], outputs, &signer, &[])?;
//! assert_eq!(rt; filled.tx().inputs().len(), 1);
//! ```
//!
//! The test `fills_a_claim` of `claim_tests` has these lines.
#![tactic(auto)]

mod blanks;
pub mod errors;
mod exclusions;
pub mod filled;
pub mod filling;
pub mod laws;
pub mod missing;
mod preimages;
pub mod spends;
mod unsigned;
mod witnesses;

pub use errors::{FillError, SpendError};
pub use exclusions::total_claimed;
pub use filled::Filled;
pub use filling::fill;
pub use missing::MissingSignature;
pub use spends::{UnsignedSpend, unsigned_spend};
