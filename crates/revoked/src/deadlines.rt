//! When the owner of a revoked commitment can take its outputs.

ghost use Rattle.std.specs.Prelude.{◌≡◌, ◌<◌, ◌^◌};
ghost use Rattle.revoked.specs.Deadlines.{wait_of, htlc_height, is_offered_with, least_expiry_height};

use crate::commitments::Revoked;
use crate::outputs::{RevokedHtlc, RevokedOutput};
use anchor_forms::ChannelType;
use commit::Direction;

// The blocks for which HTLC transactions wait in a channel of this type.
fn wait_of(channel_type: ChannelType) -> u64
    ensures { result ≡ wait_of channel_type }
{
    match channel_type {
        ChannelType::StaticRemoteKey => 0,
        ChannelType::Anchors => 1,
    }
}

// The least height of a block that can have the HTLC transaction, which waits for `least` too.
fn htlc_height(direction: Direction, least: u64, expiry_height: u32) -> u64
    requires { least < 2 ^ 33 }
    ensures { result ≡ htlc_height direction least expiry_height }
{
    match direction {
        Direction::Offered => least.max(u64::from(expiry_height) + 1),
        Direction::Received => least,
    }
}

// Whether an HTLC is offered, and has this hash.
fn is_offered_with(hash: &[u8], htlc: &RevokedHtlc) -> bool
    ensures { result ≡ is_offered_with hash.now htlc.now }
{
    match htlc.direction {
        Direction::Offered => htlc.hash.as_slice() == hash,
        Direction::Received => false,
    }
}

// The least expiry of an HTLC and of the offered ones with its hash. The scripts of offered ones do not have it, so nothing tells which of their outputs is whose.
fn least_expiry_height(htlcs: &[RevokedHtlc], htlc: &RevokedHtlc) -> u32
    ensures { result ≡ least_expiry_height htlc.now htlcs.now }
{
    let mut least = htlc.expiry.height;
    for other in htlcs.iter().rev() {
        if is_offered_with(htlc.hash.as_slice(), other) {
            least = other.expiry.height.min(least);
        }
    }
    least
}

impl Revoked {
    ghost use Rattle.std.specs.Prelude.{◌≡◌};
    ghost use Rattle.revoked.specs.Deadlines.{owner_height};

    /// The least height of a block in which the owner can take an output, where a block of this height has the transaction with it. `None` where the owner can't: to_remote
    /// is its peer's. Of offered HTLCs with one hash it is that of the one that expires first. A transaction that takes the output for the peer is safe in all blocks below (BOLT 5).
    pub fn owner_height(&self, output: &RevokedOutput, confirmed_height: u32) -> Option<u64>
        ensures { result ≡ owner_height self.now output.now confirmed_height }
    {
        let confirmed = u64::from(confirmed_height);
        match output {
            RevokedOutput::ToLocal => Some(confirmed + u64::from(self.delay_blocks())),
            RevokedOutput::ToRemote => None,
            RevokedOutput::ToHtlc(htlc) => Some(htlc_height(
                htlc.direction,
                confirmed + wait_of(self.channel_type()),
                least_expiry_height(self.htlcs(), htlc),
            )),
        }
    }
}
