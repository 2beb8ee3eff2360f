//! What the commitments of a channel are worth to one of its sides.

ghost use Rattle.std.specs.Prelude.{◌≡◌, true, false, IfOk};
ghost use Rattle.channel.specs.Tokens.{contents_of};
ghost use Rattle.penalty.specs.Worth.{staged, value_of};
ghost use Rattle.worth_laws.specs.Counted.{counted, known_by};
ghost use Rattle.worth_laws.specs.Shares.{counted_sat};

use crate::sums::{all_left_sat, owners_left_sat, peers_sat};
use channel::CommitmentState;
use commit::{Terms, commitment_amounts};
use resolve::KnownPreimages;
use std::alloc::{AllocError, Global};
use worth_laws::laws::{left_is_placed, shares_are_placed};

/// What a side can claim of its own commitment, in satoshis, whichever HTLC transactions stand. The only error is that memory ran out.
pub(crate) fn own_left_sat(
    alloc: Global,
    terms: &Terms,
    commitment: &CommitmentState,
    known: &KnownPreimages,
) -> Result<u128, AllocError>
    ensures { IfOk result (λ sat. sat ≡ value_of (counted true (known_by known.now) (λ _. true)
        (contents_of terms.now commitment.now))) }
{
    left_is_placed();
    let amounts = commitment_amounts(alloc, terms, &commitment.view, commitment.owner)?;
    Ok(owners_left_sat(&amounts, known, commitment.view.feerate_per_kw))
}

/// What its peer's commitment gives it, in satoshis. The only error is that memory ran out.
pub(crate) fn theirs_sat(
    alloc: Global,
    terms: &Terms,
    commitment: &CommitmentState,
    known: &KnownPreimages,
) -> Result<u128, AllocError>
    ensures { IfOk result (λ sat. sat ≡ counted_sat false (known_by known.now)
        (contents_of terms.now commitment.now).outputs) }
{
    shares_are_placed();
    let amounts = commitment_amounts(alloc, terms, &commitment.view, commitment.owner)?;
    Ok(peers_sat(&amounts, known))
}

/// What it can claim of a commitment that its peer revoked, in satoshis, whichever HTLC transactions stand. The only error is that memory ran out.
pub(crate) fn revoked_left_sat(
    alloc: Global,
    terms: &Terms,
    commitment: &CommitmentState,
) -> Result<u128, AllocError>
    ensures { IfOk result (λ sat. sat ≡ value_of (staged (λ _. true)
        (contents_of terms.now commitment.now))) }
{
    left_is_placed();
    let amounts = commitment_amounts(alloc, terms, &commitment.view, commitment.owner)?;
    Ok(all_left_sat(&amounts, commitment.view.feerate_per_kw))
}
