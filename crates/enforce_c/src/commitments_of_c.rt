// Commitments, from rows that the caller gives.

ghost use Rattle.std.specs.Prelude.{◌≡◌, ℕ, true, None, Some, MatchResult};
ghost use Rattle.commit.specs.Keys.{bytes_of};
ghost use Rattle.enforce_c.specs.Spent.{UnlessMemory};
ghost use Rattle.enforce_c.specs.Commitments.{channel_type_of, key_fault, keys_fault, key_bytes_of, funding_fault, IsFundingOf, whose_of, direction_fault, IsDirection, htlc_fault, htlcs_fault, IsHtlcOf, AreHtlcsOf};

use crate::commitment_rows::{
    CHANNEL_ANCHORS, CHANNEL_STATIC_REMOTE_KEY, CLOSE_OWN, CLOSE_PEERS, Commitment,
    DIRECTION_OFFERED, DIRECTION_RECEIVED, HtlcRow,
};
use crate::statuses::Refusal;
use keys::Key;
use revoked::{ChannelType, CommitmentKeys, Direction, Expiry, RevokedHtlc};
use std::alloc::Global;
use unilateral::{FundingKeys, Whose};

/// The type of a channel.
pub(crate) fn channel_type_of(kind: u32) -> Result<ChannelType, Refusal>
    ensures { channel_type_of kind ≡ result }
{
    match kind {
        CHANNEL_STATIC_REMOTE_KEY => Ok(ChannelType::StaticRemoteKey),
        CHANNEL_ANCHORS => Ok(ChannelType::Anchors),
        _ => Err(Refusal::NoSuchChannelType),
    }
}

// The key with these bytes, which is the one of this number.
fn numbered_key(bytes: &[u8; 33], number: usize) -> Result<Key, Refusal>
    ensures { MatchResult result (λ k. (k.bytes ≡ bytes.now) × (key_fault bytes.now number ≡ None)) (λ e. key_fault bytes.now number ≡ Some e) }
{
    match Key::read(bytes) {
        Some(key) => Ok(key),
        None => Err(Refusal::NotACommitmentKey(number)),
    }
}

/// The keys of a commitment, in the order of the fields.
pub(crate) fn keys_of(commitment: &Commitment) -> Result<CommitmentKeys, Refusal>
    ensures { MatchResult result (λ k. (bytes_of k ≡ key_bytes_of commitment.now) × (keys_fault commitment.now ≡ None))
        (λ e. keys_fault commitment.now ≡ Some e) }
{
    Ok(CommitmentKeys {
        revocation: numbered_key(&commitment.revocation, 0)?,
        delayed: numbered_key(&commitment.delayed, 1)?,
        local_htlc: numbered_key(&commitment.local_htlc, 2)?,
        remote_htlc: numbered_key(&commitment.remote_htlc, 3)?,
        remote: numbered_key(&commitment.remote, 4)?,
    })
}

// The keys of the funding output.
fn both_funding_keys(commitment: &Commitment) -> Result<FundingKeys, Refusal>
    requires { commitment.now.has_funding_keys ≡ true }
    ensures { MatchResult result (λ f. IsFundingOf commitment.now (Some f) × (funding_fault commitment.now ≡ None))
        (λ e. funding_fault commitment.now ≡ Some e) }
{
    Ok(FundingKeys {
        ours: numbered_key(&commitment.own_funding, 5)?,
        peers: numbered_key(&commitment.peers_funding, 6)?,
    })
}

/// The keys of the funding output, if they are told.
pub(crate) fn funding_of(commitment: &Commitment) -> Result<Option<FundingKeys>, Refusal>
    ensures { MatchResult result (λ f. IsFundingOf commitment.now f × (funding_fault commitment.now ≡ None))
        (λ e. funding_fault commitment.now ≡ Some e) }
{
    if !commitment.has_funding_keys {
        return Ok(None);
    }
    Ok(Some(both_funding_keys(commitment)?))
}

/// Whose commitment it is.
pub(crate) fn whose_of(kind: u32) -> Result<Whose, Refusal>
    ensures { whose_of kind ≡ result }
{
    match kind {
        CLOSE_OWN => Ok(Whose::Ours),
        CLOSE_PEERS => Ok(Whose::Theirs),
        _ => Err(Refusal::NoSuchClose),
    }
}

// The direction of the HTLC of an index.
fn direction_of(kind: u32, index: usize) -> Result<Direction, Refusal>
    ensures { MatchResult result (λ d. (direction_fault kind index ≡ None) × IsDirection kind d) (λ e. direction_fault kind index ≡ Some e) }
{
    match kind {
        DIRECTION_OFFERED => Ok(Direction::Offered),
        DIRECTION_RECEIVED => Ok(Direction::Received),
        _ => Err(Refusal::NoSuchDirection(index)),
    }
}

// The HTLC of a row, which has this index.
#[tactic(auto, using(crate::proofs::Commitments::no_direction, crate::proofs::Commitments::no_expiry, crate::proofs::Commitments::is_htlc))]
fn htlc_of(row: &HtlcRow, index: usize) -> Result<RevokedHtlc, Refusal>
    ensures { MatchResult result (λ h. (htlc_fault row.now index ≡ None) × IsHtlcOf row.now h) (λ e. htlc_fault row.now index ≡ Some e) }
{
    let direction = direction_of(row.direction, index)?;
    match Expiry::new(row.expiry_height) {
        Some(expiry) => Ok(RevokedHtlc {
            direction,
            hash: row.hash,
            expiry,
        }),
        None => Err(Refusal::ExpiryTooLarge(index)),
    }
}

/// The HTLCs of rows, one by one.
#[tactic(auto, using(crate::proofs::Commitments::htlcs_next, crate::proofs::Commitments::htlcs_all, crate::proofs::Commitments::faultless_next, crate::proofs::Commitments::fault_here))]
pub(crate) fn htlcs_of(alloc: Global, rows: &[HtlcRow]) -> Result<Vec<RevokedHtlc>, Refusal>
    ensures { MatchResult result (λ v. (htlcs_fault 0 rows.now ≡ None) × AreHtlcsOf rows.now v.items)
        (λ e. UnlessMemory e (htlcs_fault 0 rows.now ≡ Some e)) }
{
    let mut htlcs = Vec::new(alloc);
    for (index, row) in rows.iter().enumerate() {
        htlcs.push(htlc_of(row, index)?)?;
    }
    Ok(htlcs)
}
