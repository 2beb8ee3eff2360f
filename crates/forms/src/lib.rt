//! The scripts of BOLT 3, checked for all parameters, and the slots with which claims on them are accepted.
//!
//! [`patterns`] lists the ways through each script once, and [`SharedPatterns`] shares them. From these, [`funding`], [`to_local`], [`key_hash`] (the
//! script of to_remote), [`offered`] and [`received`] give the script of an output with exactly its ways. The ways
//! are in the text order of their branches. [`accepted_slots`] fills the slots of a [`ClaimKind`], with which
//! `claim::accept` takes a claim on any output of that kind's form. The only error of these calls is that memory ran
//! out.
//!
//! `paths` lists the patterns, and `terms` has the opcodes of the scripts. `penalty` and `resolve` make their claims
//! of these forms, and `publish` the witnesses of one's own commitments.
//!
//! ```
//! let patterns = patterns(alloc)?;
//! let checked = to_local(alloc, &patterns, &revocation, 144, &delayed)?;
//! let kind = ClaimKind::Delayed { delayed };
//! let slots = accepted_slots(alloc, &kind)?;
//! let claim = accept(alloc, checked, kind.path(), slots, place, Shell::Open)?;
//! assert_eq!(rt; claim.needs_age(), 144);
//! ```
//!
//! The test `claims_after_a_delay` of `claim_tests` makes such a claim, with another delay.
#![tactic(auto)]

mod checking;
mod htlc_scripts;
mod instances;
mod kinds;
mod parameters;
mod pattern_set;
mod scripts;
mod shared;

pub use checking::{htlc_beginning, listed_pattern, patterns};
pub use htlc_scripts::{offered, received};
pub use instances::instance_of;
pub use kinds::{ClaimKind, accepted_slots};
pub use parameters::{Expiry, HtlcKeys};
pub use pattern_set::Patterns;
pub use scripts::{funding, key_hash, to_local};
pub use shared::SharedPatterns;
