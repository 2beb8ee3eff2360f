//! Revoked states.

ghost use Rattle.std.specs.Prelude.{◌≡◌, ◌+◌, ◌*◌, ◌<◌, ◌≤◌, ◌^◌, length, IsTrue, IfNone};
ghost use Rattle.terms.specs.declared.amounts.TheConstants.{MSAT_PER_SAT};
ghost use Rattle.commit.specs.Sums.{millisatoshis_of, total_msat_of};
ghost use Rattle.penalty.specs.Views.{expire_at_heights, has_heights, htlc_count};
ghost use Rattle.penalty.specs.Paying.{CanPay, refusal_of};

use crate::errors::StateError;
use script::limits::LOCKTIME_THRESHOLD;
use std::alloc::AllocError;
use terms::{Htlc, MSAT_PER_SAT, Share, Side, Terms, View};

/// The greatest number of HTLCs of a state. It leaves room for to_local and to_remote in the same transaction.
pub const MAX_STATE_HTLCS: usize = 3998;

/// A commitment that its owner revoked, by what it pays and by the secret. The type guarantees that a commitment can pay the view.
#[derive(Debug, Drop)]
pub struct RevokedState {
    pub terms: Terms,
    /// What the commitment pays.
    pub view: View,
    /// Whose commitment it is: the side that revoked it.
    pub owner: Side,
    /// The commitment's number, of which only the low 48 bits count.
    pub number: u64,
    /// The commitment's per-commitment secret, which its owner gave away (BOLT 2, `revoke_and_ack`).
    pub secret: [u8; 32],
    pub ghost few: { htlc_count view ≤ 3998 },
    pub ghost heights: { IsTrue (has_heights view) },
    pub ghost whole: { total_msat_of view ≡ MSAT_PER_SAT * terms.capacity_sat },
}

// Whether each HTLC expires at a height.
fn expire_at_heights(htlcs: &[Htlc]) -> bool
    ensures { result ≡ expire_at_heights htlcs.now }
{
    htlcs
        .iter()
        .all(|htlc| u64::from(htlc.expiry_height) < LOCKTIME_THRESHOLD)
}

// The millisatoshis of HTLCs. The sum never overflows.
fn millisatoshis(htlcs: &[Htlc]) -> u128
    ensures value { result ≡ millisatoshis_of htlcs.now }
    ensures bound { result ≤ length htlcs.now * 2 ^ 64 }
{
    let mut total = 0;
    for htlc in htlcs {
        let amount_msat = htlc.amount_msat;
        total += u128::from(amount_msat);
    }
    total
}

// The millisatoshis of what a view gives to one side.
fn share_total(share: &Share) -> u128
    requires { length share.now.offered ≤ 3998 }
    ensures value { result ≡ share.now.balance_msat + millisatoshis_of share.now.offered }
    ensures bound { result < 2 ^ 100 }
{
    let balance_msat = share.balance_msat;
    u128::from(balance_msat) + millisatoshis(share.offered.values())
}

// The millisatoshis of a view.
fn total(view: &View) -> u128
    requires { htlc_count view.now ≤ 3998 }
    ensures { result ≡ total_msat_of view.now }
{
    share_total(&view.a) + share_total(&view.b)
}

/// Why no commitment of the terms can pay a view; `None` if one can. Checked in this order:
/// - TooManyHtlcs if there are more than 3,998 HTLCs;
/// - ExpiryTooLarge if one expires at a time instead of a height;
/// - WrongTotal if balances and HTLCs do not sum to the capacity.
pub fn refusal(terms: &Terms, view: &View) -> Option<StateError>
    ensures value { result ≡ refusal_of terms.now view.now }
    ensures passed { IfNone result (CanPay terms.now view.now) }
{
    let a = view.a.offered.values();
    let b = view.b.offered.values();
    if a.len() > MAX_STATE_HTLCS || b.len() > MAX_STATE_HTLCS - a.len() {
        return Some(StateError::TooManyHtlcs);
    }
    if !(expire_at_heights(a) && expire_at_heights(b)) {
        return Some(StateError::ExpiryTooLarge);
    }
    if total(view) != u128::from(MSAT_PER_SAT) * u128::from(terms.capacity_sat) {
        return Some(StateError::WrongTotal);
    }
    None
}

impl RevokedState {
    ghost use Rattle.std.specs.Prelude.{◌≡◌, IfOk};
    ghost use Rattle.terms.specs.Refusals.{OkUnless, IsFirst};
    ghost use Rattle.penalty.specs.States.{HasParts};
    ghost use Rattle.penalty.specs.Paying.{refusal_of};

    /// The state of these values, or why there is none, as by `refusal`.
    pub fn new(
        terms: Terms,
        view: View,
        owner: Side,
        number: u64,
        secret: [u8; 32],
    ) -> Result<RevokedState, StateError>
        ensures ok { OkUnless result (refusal_of terms view) IsFirst }
        ensures parts { IfOk result (HasParts terms view owner number secret) }
    {
        if let Some(refusal) = refusal(&terms, &view) {
            return Err(refusal);
        }
        Ok(RevokedState {
            terms,
            view,
            owner,
            number,
            secret,
        })
    }

    /// A copy. The only error is that memory ran out.
    pub fn copy(&self) -> Result<RevokedState, AllocError>
        ensures { IfOk result (λ s. s ≡ self.now) }
    {
        let view = self.view.copy()?;
        Ok(RevokedState {
            terms: self.terms,
            view,
            owner: self.owner,
            number: self.number,
            secret: self.secret,
        })
    }
}
