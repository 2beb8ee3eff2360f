//! The states of a payment channel, and two peers that always agree (BOLT 2, "Normal Operation").
//!
//! A [`Channel`] is one side. For each call and each message, the definitions say when it is refused, the side's state after it, what is
//! sent and what answers it. Each call of a channel does exactly that, barring out-of-memory, and a refusal leaves the channel as it
//! was. Over these definitions, [`laws::peers_agree`] proves that two honest peers agree over every interleaving of their steps, and
//! [`laws::peers_still_agree`] that they do whatever is cut, and wherever one of them starts again since which it gave nothing out.
//! [`laws::sides_are_sound`] proves what one side can rely on, whatever its peer sends. A [`Pair`] plays two channels with a queue each
//! way, so that what it plays is such an interleaving, with cuts.
//!
//! Once a connection is cut, each side calls [`Channel::forget`], says [`Channel::hello`] first on the next one, and sends what
//! [`Channel::resend`] gives to its peer's hello (BOLT 2, "Message Retransmission"). [`laws::nothing_new_goes_out`] says that this went out before.
//!
//! To follow a message, begin here. `updates` and `secrets` say what it may do, and `commit` what its tokens sign. `book` takes it by a
//! call of the channel, `side` turns it into that call, and `world` delivers it to the peer.
//!
//! ```rust
//! /// Offers an HTLC of `amount_msat` millisatoshis, and signs the peer's commitment with it. Both messages are to be sent, the offer first.
//! fn offer_and_sign(channel: &mut Channel, amount_msat: u64, hash: [u8; 32], expiry_height: u32) -> Result<(Message, Message), ChannelError> {
//!     let offer = channel.offer(amount_msat, hash, expiry_height)?;
//!     let signature = channel.signed()?;
//!     Ok((offer, signature))
//! }
//! ```
//!
//! The tests of `channel_tests` call this function.
#![tactic(auto)]

mod channel;
mod commitments;
pub mod laws;
mod limits;
mod messages;
mod opening;
mod pair;
mod plays;
mod reestablish;
mod tokens;

pub use channel::Channel;
pub use commitments::CommitmentState;
pub use limits::LAST_NUMBER;
pub use messages::Message;
pub use opening::{OpeningPoints, opening_points, opening_token};
pub use pair::Pair;
pub use plays::{Action, Outcome, PairStep};
pub use reestablish::{Again, Parcel, Reestablish};
