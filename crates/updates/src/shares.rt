//! What a commitment gives to each side, by what is kept of the HTLCs.

ghost use Rattle.std.specs.Prelude.{◌≡◌, ◌*◌, ◌^◌, ◌≤◌, length, IfOk, Some, None, Option};
ghost use Rattle.updates.specs.Pending.{IsBounded};
ghost use Rattle.updates.specs.Shares.{amounts_msat, share_at, IsPayable, feerate_per_kw_at, view_from};

use crate::pending::Pending;
use lists::List;
use std::alloc::AllocError;
use terms::{Htlc, Share, Side, View};

// The sum of HTLCs in millisatoshis.
fn amounts_msat(htlcs: &[Htlc]) -> u128
    ensures { result ≡ amounts_msat htlcs.now }
{
    let mut sum: u128 = 0;
    for htlc in htlcs {
        sum += u128::from(htlc.amount_msat);
    }
    sum
}

/// The share of a side with this starting balance in millisatoshis: its balance, and the HTLCs that it offered. Its own first `own`
/// updates and the first `theirs` of its peer count. The only error is that memory ran out.
pub(crate) fn share_at(
    start_msat: u64,
    htlcs: &Pending,
    peers: &Pending,
    own: usize,
    theirs: usize,
) -> Result<Share, AllocError>
    requires htlcs { IsBounded htlcs.now }
    requires peers { IsBounded peers.now }
    requires payable { IsPayable start_msat htlcs.now peers.now own theirs }
    ensures { IfOk result (λ s. s ≡ share_at start_msat htlcs.now peers.now own theirs) }
{
    let offered = htlcs.live_at(own, theirs)?;
    let had = u128::from(start_msat) + peers.fulfilled_at(theirs, own);
    let left = had - htlcs.fulfilled_at(own, theirs) - amounts_msat(&offered);
    Ok(Share {
        balance_msat: left as u64,
        offered: List::from_vec(offered),
    })
}

/// The feerate by the opener's newest feerate; `feerate_per_kw` where it has none.
pub(crate) fn feerate_per_kw_at(
    side: Side,
    opener: Side,
    feerate_per_kw: u32,
    own: Option<u32>,
    theirs: Option<u32>,
) -> u32
    ensures { result ≡ feerate_per_kw_at side opener feerate_per_kw own theirs }
{
    if side == opener {
        own.unwrap_or(feerate_per_kw)
    } else {
        theirs.unwrap_or(feerate_per_kw)
    }
}

/// The view of this side's share and its peer's.
pub(crate) fn view_from(side: Side, mine: Share, peers: Share, feerate_per_kw: u32) -> View
    ensures { result ≡ view_from side mine peers feerate_per_kw }
{
    match side {
        Side::A => View {
            a: mine,
            b: peers,
            feerate_per_kw,
        },
        Side::B => View {
            a: peers,
            b: mine,
            feerate_per_kw,
        },
    }
}
