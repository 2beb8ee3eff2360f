//! HTLCs.

/// An HTLC, as in its `update_add_htlc` (BOLT 2).
#[derive(Clone, Copy, Debug, PartialEq, Eq, Drop)]
pub struct Htlc {
    /// The number of HTLCs that the same side offered before it.
    pub id: u64,
    /// The amount in millisatoshis.
    pub amount_msat: u64,
    /// SHA-256 of the payment preimage.
    pub hash: [u8; 32],
    /// The block height from which it can be timed out (`cltv_expiry`).
    pub expiry_height: u32,
}
