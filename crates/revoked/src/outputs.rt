//! The outputs of a revoked commitment.

use commit::Direction;
use forms::Expiry;

/// An HTLC of a revoked commitment, by what the script of its output is made of.
#[derive(Clone, Copy, Debug, PartialEq, Eq)]
pub struct RevokedHtlc {
    /// Whether the commitment's owner offered it or received it.
    pub direction: Direction,
    /// SHA-256 of the payment preimage.
    pub hash: [u8; 32],
    /// The block height from which it can be timed out (`cltv_expiry`). The script of an offered HTLC does not have it.
    pub expiry: Expiry,
}

/// An output of a revoked commitment, or of one of its HTLC transactions.
#[derive(Clone, Copy, Debug, PartialEq, Eq)]
pub enum RevokedOutput {
    /// To the owner, after the delay. The output of an HTLC transaction has the same script.
    ToLocal,
    /// To the owner's peer: the hash of its payment key. With anchors to_remote has another script, which is not known.
    ToRemote,
    /// An HTLC that isn't trimmed.
    ToHtlc(RevokedHtlc),
}
