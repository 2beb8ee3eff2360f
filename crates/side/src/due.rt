//! Claims that are due.

use claim::Claim;
use lists::List;

/// A claim that fell due on an output of a commitment or HTLC transaction, not yet filled.
#[derive(Drop)]
pub struct DueClaim {
    /// The index of the channel.
    pub channel: u64,
    pub claim: Claim,
    /// The known preimages that the claim's slots need, in the order of the slots.
    pub preimages: List<[u8; 32]>,
}
