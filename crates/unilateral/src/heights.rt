//! From which block on one can take an output, and from which block on somebody else can.

ghost use Rattle.std.specs.Prelude.{◌≡◌, ◌<◌, ◌^◌};
ghost use Rattle.revoked.specs.Deadlines.{wait_of};
ghost use Rattle.unilateral.specs.Heights.{height_above, from_height, peers_htlc_height, peers_height};

use crate::closes::{Close, Whose};
use claim::Claim;
use revoked::{ChannelType, Direction, Revoked, RevokedOutput};

// The least height of a block that can have a transaction with this lock time.
fn height_above(lock_time: u64) -> u64
    requires { lock_time < 2 ^ 33 }
    ensures { result ≡ height_above lock_time }
{
    if lock_time == 0 { 0 } else { lock_time + 1 }
}

/// The least height of a block that can have a transaction with a claim, where a block of this height has the claimed output: its path's age in blocks has passed
/// (BIP 68), and the block is above its lock time (BIP 65).
pub fn from_height(claim: &Claim, confirmed_height: u32) -> u64
    ensures { result ≡ from_height claim.now confirmed_height }
{
    let aged = u64::from(confirmed_height) + u64::from(claim.needs_age());
    aged.max(height_above(claim.needs_height()))
}

// The blocks for which the paths of HTLCs wait in a channel of this type.
fn wait_of(channel_type: ChannelType) -> u64
    ensures { result ≡ wait_of channel_type }
{
    match channel_type {
        ChannelType::StaticRemoteKey => 0,
        ChannelType::Anchors => 1,
    }
}

// The least height of a block in which the peer of a commitment's owner can take an HTLC of it, which waits for `least` too.
fn peers_htlc_height(direction: Direction, least: u64, expiry_height: u32) -> u64
    requires { least < 2 ^ 33 }
    ensures { result ≡ peers_htlc_height direction least expiry_height }
{
    match direction {
        Direction::Offered => least,
        Direction::Received => least.max(u64::from(expiry_height) + 1),
    }
}

// The least height of a block in which the peer of a commitment's owner can take an output of it.
fn peers_height(commitment: &Revoked, output: &RevokedOutput, confirmed_height: u32) -> Option<u64>
    ensures { result ≡ peers_height commitment.now output.now confirmed_height }
{
    let confirmed = u64::from(confirmed_height);
    match output {
        RevokedOutput::ToLocal => None,
        RevokedOutput::ToRemote => Some(confirmed),
        RevokedOutput::ToHtlc(htlc) => Some(peers_htlc_height(
            htlc.direction,
            confirmed + wait_of(commitment.channel_type()),
            htlc.expiry.height,
        )),
    }
}

impl Close {
    ghost use Rattle.std.specs.Prelude.{◌≡◌};
    ghost use Rattle.unilateral.specs.Heights.{deadline_height};

    /// The least height of a block in which the other side can take an output, where a block of this height has the transaction with it: the owner's peer of one's own commitment,
    /// the owner of the peer's. `None` where it can't. A transaction that takes the output is safe in all blocks below (BOLT 5).
    pub fn deadline_height(&self, output: &RevokedOutput, confirmed_height: u32) -> Option<u64>
        ensures { result ≡ deadline_height self.now output.now confirmed_height }
    {
        match self.whose {
            Whose::Ours => peers_height(&self.commitment, output, confirmed_height),
            Whose::Theirs => self.commitment.owner_height(output, confirmed_height),
        }
    }
}
