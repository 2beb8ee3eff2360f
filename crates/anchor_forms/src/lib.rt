//! The scripts of HTLCs in channels with anchors, beside those without (BOLT 3, `option_anchors`), and the penalty on
//! both.
//!
//! `forms` has the scripts of channels without anchors. With anchors an HTLC's script waits for one block on all paths
//! but that of the revocation key: `1 CHECKSEQUENCEVERIFY DROP` stands before its last ENDIF. [`channel_patterns`] lists
//! the ways through the scripts of both types once. [`offered`] and [`received`] give the script of an HTLC's output in
//! a channel of a [`ChannelType`], with exactly its ways, and [`htlc_penalty`] claims such an output by the revocation
//! key. The only error of these calls is that memory ran out.
//!
//! to_local, and with it the output of an HTLC transaction, has one script in both types. The scripts of to_remote and
//! of the anchors are not here: `paths` refuses their opcodes.
//!
//! ```
//! let patterns = channel_patterns(alloc)?;
//! let checked = offered(alloc, &patterns, ChannelType::Anchors, &keys, &payment_hash)?;
//! let claim = htlc_penalty(alloc, &keys.revocation, checked, place)?;
//! ```
//!
//! `revoked` makes its claims on HTLCs of these calls. The program `vectors` tests them with it.
#![tactic(auto)]

mod channel_types;
mod checking;
mod htlc_scripts;
mod pattern_set;
mod penalties;

pub use channel_types::ChannelType;
pub use checking::channel_patterns;
pub use forms::{Expiry, HtlcKeys};
pub use htlc_scripts::{offered, received};
pub use pattern_set::ChannelPatterns;
pub use penalties::htlc_penalty;
