//! The keys of one commitment.

ghost use Rattle.commit.specs.Keys.{AreKeysOf};

use keys::{Key, derive, revocation};
use terms::{Side, Terms};

/// The keys of one commitment's outputs (BOLT 3, "Key Derivation").
#[derive(Clone, Copy, Debug, PartialEq, Eq)]
pub struct CommitmentKeys {
    /// `revocationpubkey`: of the peer, once the commitment is revoked.
    pub revocation: Key,
    /// `local_delayedpubkey`: of the owner, after the delay.
    pub delayed: Key,
    /// `local_htlcpubkey`: of the owner.
    pub local_htlc: Key,
    /// `remote_htlcpubkey`: of the peer.
    pub remote_htlc: Key,
    /// `remotepubkey`: the peer's payment base key itself.
    pub remote: Key,
}

/// The keys of the owner's commitment with this per-commitment point.
pub fn commitment_keys(terms: &Terms, owner: Side, point: &Key) -> CommitmentKeys
    ensures { AreKeysOf terms.now owner point.now.bytes result }
{
    let own = terms.party(owner).bases;
    let theirs = terms.party(owner.other()).bases;
    CommitmentKeys {
        revocation: revocation(&theirs.revocation, point),
        delayed: derive(&own.delayed, point),
        local_htlc: derive(&own.htlc, point),
        remote_htlc: derive(&theirs.htlc, point),
        remote: theirs.payment,
    }
}
