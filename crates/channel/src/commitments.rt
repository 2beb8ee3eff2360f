//! What a commitment depends on.

use keys::Key;
use terms::{Side, View};

/// What a commitment transaction depends on besides the terms of its channel (BOLT
/// 3).
#[derive(Debug, Drop)]
pub struct CommitmentState {
    pub view: View,
    /// Who holds it, signed by its peer.
    pub owner: Side,
    pub number: u64,
    /// The owner's per-commitment point for the number.
    pub point: Key,
}
