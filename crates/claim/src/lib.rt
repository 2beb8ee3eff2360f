//! Claims on outputs, accepted before use.
//!
//! A [`Claim`] is a path through a checked script on an output (its [`Place`]), with what fills each slot of the
//! path. That is a signature, a preimage, or given bytes ([`Slot`]). Its [`Shell`] is either open, for any
//! transaction of version 2 with a lock time that the claim allows, or one fixed transaction. Only [`accept`] makes
//! a claim. It refuses one unless the place's program is the script's and the slots meet the path. Whatever fits an
//! accepted claim meets its path, and so runs the script clean.
//!
//! `paths` hands it the checked script; `penalty` and `resolve` accept their claims with the slots of `forms`.
//! `filling` makes the transaction that spends the outputs.
//!
//! ```rust
//! let script = Script::parse(alloc, &[0xac])?; // CHECKSIG
//! let checked = check(alloc, script)?;
//! let slots = vec![in alloc; Slot::Exact(WitnessItem::new(key)?), Slot::Sig(signer)]?; // the top first
//! let claim = accept(alloc, checked, 0, slots, place, Shell::Open)?;
//! assert_eq!(rt; claim.needs_age(), 0);
//! ```
//!
//! The test `claims_a_checksig` of `claim_tests` makes this claim.
#![tactic(auto)]

pub mod accepting;
pub mod claims;
mod copies;
pub mod errors;
mod evidence;
mod judgement;
pub mod laws;
pub mod parts;

pub use accepting::accept;
pub use claims::Claim;
pub use errors::AcceptError;
/// A compressed public key, from the crate `keys`.
pub use keys::Key;
pub use parts::{Place, Shell, Slot, WitnessItem};
pub use tx::OutPoint;
