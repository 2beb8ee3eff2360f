//! The amounts of a commitment.

ghost use Rattle.std.specs.Prelude.{◌≡◌, ◌++◌, IfOk, Option};
ghost use Rattle.commit.specs.Amounts.{untrimmed, owed_sat_by, left_sat_to, unless_dust, amounts_of};

use crate::fees::{Direction, commitment_fee, is_trimmed, satoshis};
use lists::List;
use std::alloc::{AllocError, Global};
use terms::{Htlc, Side, Terms, View};

/// The amounts of one side's commitment, before its outputs are sorted.
#[derive(Debug, Drop)]
pub struct Amounts {
    /// The HTLCs with an output that the owner offered, in the view's order.
    pub offered: List<Htlc>,
    /// The HTLCs with an output that the owner's peer offered, in the view's order.
    pub received: List<Htlc>,
    /// The fee of the transaction in satoshis. The opener pays it as far as its balance goes.
    pub fee: u128,
    /// Satoshis of the output to the owner, if there is one.
    pub to_local: Option<u64>,
    /// Satoshis of the output to the owner's peer, if there is one.
    pub to_remote: Option<u64>,
}

// The HTLCs that have an output.
fn untrimmed(
    alloc: Global,
    dust_sat: u64,
    feerate_per_kw: u32,
    direction: Direction,
    htlcs: &[Htlc],
) -> Result<List<Htlc>, AllocError>
    ensures { IfOk result (λ kept. kept ≡ untrimmed dust_sat feerate_per_kw direction htlcs.now) }
{
    let mut kept = Vec::new(alloc);
    for htlc in htlcs {
        if !is_trimmed(dust_sat, feerate_per_kw, direction, htlc) {
            kept.push(*htlc)?;
        }
    }
    Ok(List::from_vec(kept))
}

// What a side owes of the fee.
fn owed_sat_by(side: Side, opener: Side, fee: u128) -> u128
    ensures { result ≡ owed_sat_by side opener fee }
{
    if side == opener { fee } else { 0 }
}

// What a side has left in satoshis after paying its part of the fee.
fn left_sat_to(side: Side, opener: Side, fee: u128, view: &View) -> u64
    ensures { result ≡ left_sat_to side opener fee view.now }
{
    let balance_sat = satoshis(view.share(side).balance_msat);
    match u64::try_from(owed_sat_by(side, opener, fee)) {
        Ok(owed) => balance_sat.saturating_sub(owed),
        Err(_) => 0,
    }
}

// An output's value, or `None` if it is below the dust limit.
fn unless_dust(dust_sat: u64, value: u64) -> Option<u64>
    ensures { result ≡ unless_dust dust_sat value }
{
    if value < dust_sat { None } else { Some(value) }
}

/// The amounts of the owner's commitment of a view (BOLT 3, "Commitment Transaction Outputs" and "Fees"). The dust limit is the owner's, and
/// the opener pays the fee. The only error is that memory ran out.
pub fn commitment_amounts(
    alloc: Global,
    terms: &Terms,
    view: &View,
    owner: Side,
) -> Result<Amounts, AllocError>
    ensures { IfOk result (λ a. a ≡ amounts_of terms.now view.now owner) }
{
    let peer = owner.other();
    let dust_sat = terms.party(owner).dust_sat;
    let feerate_per_kw = view.feerate_per_kw;
    let own = view.share(owner).offered.values();
    let theirs = view.share(peer).offered.values();
    let offered = untrimmed(alloc, dust_sat, feerate_per_kw, Direction::Offered, own)?;
    let received = untrimmed(alloc, dust_sat, feerate_per_kw, Direction::Received, theirs)?;
    let fee = commitment_fee(offered.len() + received.len(), feerate_per_kw);
    Ok(Amounts {
        offered,
        received,
        fee,
        to_local: unless_dust(dust_sat, left_sat_to(owner, terms.opener, fee, view)),
        to_remote: unless_dust(dust_sat, left_sat_to(peer, terms.opener, fee, view)),
    })
}
