//! Tests of updates, the same for their sender and their receiver.

ghost use Rattle.std.specs.Prelude.{◌≡◌, ◌+◌, ◌*◌, ◌^◌, ◌≤◌, length, Some, None};
ghost use Rattle.updates.specs.Views.{start_msat_of};
ghost use Rattle.updates.specs.Pending.{total_amount_msat, kept_tests, IsBounded};
ghost use Rattle.terms.specs.Refusals.{OkUnless, IsFirst};
ghost use Rattle.updates.specs.Refusals.{first_refusal, add_tests, fulfil_tests, fail_tests};

use crate::changes::Update;
use crate::errors::ChannelError;
use crate::limits::{EXPIRY_HEIGHT_END, MAX_HTLCS};
use crate::pending::Pending;
use digest::sha256;
use terms::{Htlc, Side, Terms};

// Whether `by` may offer an HTLC, judged by the HTLCs of both directions.
fn check_add(
    terms: &Terms,
    by: Side,
    sender: &Pending,
    others: &Pending,
    htlc: &Htlc,
) -> Result<(), ChannelError>
    requires sender { IsBounded sender.now }
    requires others { IsBounded others.now }
    ensures { OkUnless result
        (first_refusal (add_tests terms.now by sender.now.offered (length sender.now.htlcs.items)
        (start_msat_of by terms.now + others.now.fulfilled) (sender.now.fulfilled + total_amount_msat
        sender.now.htlcs.items) htlc.now)) IsFirst }
{
    if htlc.id != sender.offered {
        return Err(ChannelError::WrongId);
    }
    if htlc.amount_msat == 0 {
        return Err(ChannelError::AmountZero);
    }
    if htlc.amount_msat < terms.party(by.other()).minimum_msat {
        return Err(ChannelError::BelowMinimum);
    }
    if htlc.expiry_height >= EXPIRY_HEIGHT_END {
        return Err(ChannelError::ExpiryTooLarge);
    }
    if sender.htlcs.len() >= MAX_HTLCS {
        return Err(ChannelError::TooManyHtlcs);
    }
    let had = u128::from(terms.party(by).start_msat) + others.fulfilled;
    let out = sender.fulfilled + sender.total_amount_msat();
    if had < u128::from(htlc.amount_msat) + out {
        return Err(ChannelError::OverBalance);
    }
    Ok(())
}

// Whether there is an HTLC to remove, and its hash is that of the preimage.
fn check_fulfil(found: Option<Htlc>, preimage: &[u8; 32]) -> Result<(), ChannelError>
    ensures { OkUnless result (first_refusal (fulfil_tests found preimage.now)) IsFirst }
{
    let Some(htlc) = found else {
        return Err(ChannelError::UnknownHtlc);
    };
    if sha256(preimage) != htlc.hash {
        return Err(ChannelError::WrongPreimage);
    }
    Ok(())
}

/// Whether `by` may make an update, judged by the HTLCs that it offered and those of its peer. `settled` is the number of the peer's updates
/// that passed all stages, and `known` the number of its own that are known.
pub(crate) fn check_update(
    terms: &Terms,
    by: Side,
    sender: &Pending,
    others: &Pending,
    settled: usize,
    known: usize,
    update: &Update,
) -> Result<(), ChannelError>
    requires sender { IsBounded sender.now }
    requires others { IsBounded others.now }
    ensures { OkUnless result
        (first_refusal (kept_tests terms.now by sender.now others.now settled known update.now))
        IsFirst }
{
    match update {
        Update::Add(htlc) => check_add(terms, by, sender, others, htlc),
        Update::Fulfil { id, preimage } => check_fulfil(others.find(*id, settled, known), preimage),
        Update::Fail { id } => match others.find(*id, settled, known) {
            Some(_) => Ok(()),
            None => Err(ChannelError::UnknownHtlc),
        },
        Update::Fee { .. } => {
            if by == terms.opener {
                Ok(())
            } else {
                Err(ChannelError::NotOpener)
            }
        }
    }
}
