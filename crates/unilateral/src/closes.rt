//! Commitments that closed a channel and are not revoked.

ghost use Rattle.std.specs.Prelude.{◌≡◌};
ghost use Rattle.commit.specs.Keys.{bytes_of};
ghost use Rattle.resolve.specs.Due.{can_time_out};
ghost use Rattle.resolve.specs.Preimages.{is_known};
ghost use Rattle.unilateral.specs.Claims.{can_pay_with, is_owners, is_peers, has_fixed_htlc_txs, has_second_stage, is_claimed_of};

use digest::{hash160, ripemd160};
use resolve::KnownPreimages;
use revoked::{ChannelType, CommitmentKeys, Direction, Revoked, RevokedHtlc, RevokedOutput};

/// Whose commitment closed a channel.
#[derive(Clone, Copy, Debug, PartialEq, Eq)]
pub enum Whose {
    /// One's own newest commitment.
    Ours,
    /// The peer's newest commitment, or the one after it, while the newest is not revoked.
    Theirs,
}

/// A commitment that closed a channel and is not revoked, as far as a wallet has to know it.
#[derive(Drop)]
pub struct Close {
    /// The type of the channel, the commitment's keys, its delay and its HTLCs, as its owner sees them.
    pub commitment: Revoked,
    /// Whose it is.
    pub whose: Whose,
    /// Its feerate, by which one's own HTLC transactions pay in a channel without anchors.
    pub feerate_per_kw: u32,
    /// The preimages that are known, of any payments. Once they are indexed, each is hashed once.
    pub preimages: KnownPreimages,
}

// Whether a preimage of a hash is known.
#[tactic(auto, using(crate::proofs::Known::found_is_known))]
fn is_known(preimages: &KnownPreimages, hash: &[u8; 32]) -> bool
    ensures { result ≡ is_known preimages.now hash.now }
{
    preimages.first_of(hash).is_some()
}

// Whether a known preimage pays an HTLC.
fn can_pay_with(preimages: &KnownPreimages, keys: &CommitmentKeys, hash: &[u8; 32]) -> bool
    ensures { result ≡ can_pay_with preimages.now (bytes_of keys.now) hash.now }
{
    is_known(preimages, hash) && hash160(&keys.revocation.bytes) != ripemd160(hash)
}

// Whether an HTLC that timed out can be taken.
fn can_time_out(keys: &CommitmentKeys) -> bool
    ensures { result ≡ can_time_out (bytes_of keys.now) }
{
    hash160(&keys.revocation.bytes) != hash160(&[])
}

// Whether the owner of a commitment can claim an HTLC of it.
fn is_owners(preimages: &KnownPreimages, keys: &CommitmentKeys, htlc: &RevokedHtlc) -> bool
    ensures { result ≡ is_owners preimages.now (bytes_of keys.now) htlc.now.direction htlc.now.hash }
{
    match htlc.direction {
        Direction::Offered => can_time_out(keys),
        Direction::Received => can_pay_with(preimages, keys, &htlc.hash),
    }
}

// Whether the owner's peer can claim an HTLC.
fn is_peers(preimages: &KnownPreimages, keys: &CommitmentKeys, htlc: &RevokedHtlc) -> bool
    ensures { result ≡ is_peers preimages.now (bytes_of keys.now) htlc.now.direction htlc.now.hash }
{
    match htlc.direction {
        Direction::Offered => can_pay_with(preimages, keys, &htlc.hash),
        Direction::Received => can_time_out(keys),
    }
}

// Whether the HTLC transactions of a channel are fixed by the peer's signature.
fn has_fixed_htlc_txs(channel_type: ChannelType) -> bool
    ensures { result ≡ has_fixed_htlc_txs channel_type }
{
    match channel_type {
        ChannelType::StaticRemoteKey => true,
        ChannelType::Anchors => false,
    }
}

/// Whether an HTLC of one's own commitment can be taken by its HTLC transaction.
pub(crate) fn has_second_stage(
    preimages: &KnownPreimages,
    commitment: &Revoked,
    htlc: &RevokedHtlc,
) -> bool
    ensures { result ≡ has_second_stage preimages.now commitment.now htlc.now }
{
    let keys = commitment.keys();
    has_fixed_htlc_txs(commitment.channel_type()) && is_owners(preimages, keys, htlc)
}

/// Whether an HTLC of the peer's commitment can be taken.
pub(crate) fn is_direct(
    preimages: &KnownPreimages,
    commitment: &Revoked,
    htlc: &RevokedHtlc,
) -> bool
    ensures { result ≡ is_peers preimages.now commitment.now.keys htlc.now.direction htlc.now.hash }
{
    let keys = commitment.keys();
    is_peers(preimages, keys, htlc)
}

// Whether one's own commitment lets one claim an output of it.
fn is_ours(preimages: &KnownPreimages, commitment: &Revoked, output: &RevokedOutput) -> bool
    ensures { result ≡ is_claimed_of Whose.Ours preimages.now commitment.now output.now }
{
    match output {
        RevokedOutput::ToLocal => true,
        RevokedOutput::ToRemote => false,
        RevokedOutput::ToHtlc(htlc) => has_second_stage(preimages, commitment, htlc),
    }
}

// Whether the peer's commitment lets one claim an output of it.
fn is_theirs(preimages: &KnownPreimages, commitment: &Revoked, output: &RevokedOutput) -> bool
    ensures { result ≡ is_claimed_of Whose.Theirs preimages.now commitment.now output.now }
{
    match output {
        RevokedOutput::ToLocal => false,
        RevokedOutput::ToRemote => true,
        RevokedOutput::ToHtlc(htlc) => is_direct(preimages, commitment, htlc),
    }
}

impl Close {
    ghost use Rattle.std.specs.Prelude.{◌≡◌};
    ghost use Rattle.unilateral.specs.Claims.{is_claimed};

    /// Whether one can claim an output of the commitment.
    pub fn claims(&self, output: &RevokedOutput) -> bool
        ensures { result ≡ is_claimed self.now output.now }
    {
        match self.whose {
            Whose::Ours => is_ours(&self.preimages, &self.commitment, output),
            Whose::Theirs => is_theirs(&self.preimages, &self.commitment, output),
        }
    }
}
