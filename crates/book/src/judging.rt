// Whether claims are the penalties of a revoked commitment.

ghost use Rattle.std.specs.Prelude.{◌≡◌, None, IfOk};
ghost use Rattle.commit.specs.Commitments.{commitment_of};
ghost use Rattle.penalty.specs.Paying.{refusal_of};
ghost use Rattle.penalty.specs.States.{HasParts};
ghost use Rattle.keys.specs.Derivation.{point_of};
ghost use Rattle.book.specs.Penalties.{claimable_in, are_claims_on};

use crate::matching::is_set;
use channel::CommitmentState;
use claim::Claim;
use forms::Patterns;
use penalty::{PenaltySet, RevokedState, penalties};
use std::alloc::{AllocError, Global};
use terms::{Side, Terms};

// The penalties of a commitment that this secret revokes. The only error is that memory ran out.
fn penalties_of(
    alloc: Global,
    patterns: &Patterns,
    terms: &Terms,
    owner: Side,
    commitment: &CommitmentState,
    secret: [u8; 32],
) -> Result<PenaltySet, AllocError>
    requires { refusal_of terms.now commitment.now.view ≡ None }
    ensures { IfOk result (λ p. HasParts terms.now commitment.now.view owner commitment.now.number
        secret p.state) }
{
    let view = commitment.view.copy()?;
    match RevokedState::new(*terms, view, owner, commitment.number, secret) {
        Ok(state) => penalties(alloc, patterns, &state),
        Err(_) => unreachable!(),
    }
}

/// Whether the claims are the penalties, in order, of a commitment that this secret revokes. The only error is that memory ran out.
pub(crate) fn are_penalties(
    alloc: Global,
    patterns: &Patterns,
    terms: &Terms,
    owner: Side,
    commitment: &CommitmentState,
    secret: [u8; 32],
    claims: &[Claim],
) -> Result<bool, AllocError>
    requires { refusal_of terms.now commitment.now.view ≡ None }
    ensures { IfOk result (λ b. b ≡ are_claims_on
        (claimable_in (commitment_of terms.now commitment.now.view owner commitment.now.number
        (point_of secret))) claims.now) }
{
    let set = penalties_of(alloc, patterns, terms, owner, commitment, secret)?;
    Ok(is_set(&set, claims))
}
