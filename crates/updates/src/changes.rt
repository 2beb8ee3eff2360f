//! Updates.

use terms::Htlc;

/// An update of a channel (BOLT 2, "Normal Operation"), and no message yet: its sender's is `Message::Step(PeerStep::Update(..))`.
#[derive(Clone, Copy, Debug, PartialEq, Eq, Drop)]
pub enum Update {
    /// `update_add_htlc`: offers an HTLC.
    Add(Htlc),
    /// `update_fulfill_htlc`: removes an HTLC of the peer and takes its amount.
    Fulfil { id: u64, preimage: [u8; 32] },
    /// `update_fail_htlc`: removes an HTLC of the peer and leaves its amount to the peer.
    Fail { id: u64 },
    /// `update_fee`: changes the feerate, in satoshis per 1,000 units of weight.
    Fee { feerate_per_kw: u32 },
}

/// An update as the side that makes it decides on it, and not as it is sent: an offer becomes `Update::Add`, to which the channel gives an id, and a feerate `Update::Fee`.
#[derive(Clone, Copy, Debug, PartialEq, Eq, Drop)]
pub enum OwnUpdate {
    /// Offers an HTLC.
    Offer {
        /// The amount in millisatoshis.
        amount_msat: u64,
        /// SHA-256 of the payment preimage.
        hash: [u8; 32],
        /// The block height from which it can be timed out (`cltv_expiry`).
        expiry_height: u32,
    },
    /// Fulfils an HTLC of the peer.
    Fulfil {
        id: u64,
        preimage: [u8; 32],
    },
    /// Fails an HTLC of the peer.
    Fail {
        id: u64,
    },
    /// Changes the feerate, in satoshis per 1,000 units of weight.
    SetFee {
        feerate_per_kw: u32,
    },
}
