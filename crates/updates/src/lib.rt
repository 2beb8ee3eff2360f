//! The updates of a channel, how far each has come, and what a commitment pays by them (BOLT 2, "Normal Operation";
//! BOLT 3).
//!
//! [`OwnUpdate`] is what a side decides: it offers, fulfils or fails an HTLC, or sets the feerate. [`Update`] is what
//! it tells its peer. A [`PeerStep`] is what comes of the peer: an update, or the [`Tokens`] of a signature, which a
//! [`Revocation`] answers. A [`Ledger`] holds both sides' updates as one side knows them. Barring out-of-memory, each call
//! names the first refusal that holds, in the order that it states, and each view is exactly that of the updates in a
//! commitment. Whatever the peer sends, in each view no balance is below 0, and balances and HTLCs sum to the
//! capacity. The time of a call grows with the number of pending HTLCs, not with the number that there ever were; no
//! clause says so.
//!
//! `terms` defines HTLCs and views. `channel` keeps a ledger, sends its updates, and lets `commit` build the
//! commitments of its views.
//!
//! ```rust
//! /// Offers an HTLC, and says what this side has in the commitment that it signs next.
//! fn offer_and_see(ledger: &mut Ledger, amount_msat: u64, hash: [u8; 32], expiry_height: u32) -> Result<u64, ChannelError> {
//!     ledger.offer(amount_msat, hash, expiry_height)?;
//!     Ok(ledger.view_to_sign()?.share(ledger.side()).balance_msat)
//! }
//! ```
//!
//! The test `an_offer_lowers_the_balance` of `tx_tests` calls this function.
#![tactic(auto)]

mod adding;
mod changes;
mod checking;
mod errors;
mod fates;
pub mod laws;
mod ledger;
mod limits;
mod messages;
mod pending;
mod shares;
mod stages;

pub use changes::{OwnUpdate, Update};
pub use errors::ChannelError;
pub use ledger::Ledger;
pub use limits::{EXPIRY_HEIGHT_END, MAX_HTLCS};
pub use messages::{PeerStep, Revocation, Tokens};
