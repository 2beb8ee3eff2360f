//! Messages between the two sides of a channel.

use updates::{PeerStep, Revocation};

/// A message of a channel (BOLT 2, "Normal Operation").
#[derive(Debug, Drop)]
pub enum Message {
    /// An update or a `commitment_signed`.
    Step(PeerStep),
    /// `revoke_and_ack`, which answers a `commitment_signed`.
    RevokeAndAck(Revocation),
}
