//! Sets of penalties.

ghost use Rattle.std.specs.Prelude.{◌≡◌, IfOk};

use crate::states::RevokedState;
use claim::Claim;
use lists::List;
use std::alloc::{AllocError, Global};
use std::marker::Model;

/// All that a revoked state lets the owner's peer claim: accepted claims on exactly the outputs of `claimable_of`, in its order. Only `penalties` makes
/// one.
#[derive(Drop)]
pub struct PenaltySet {
    state: RevokedState,
    claims: List<Claim>,
}

impl Model for PenaltySet {
    ghost use Rattle.penalty.specs.Sets.{Penalties, AreClaimsOn};
    ghost use Rattle.penalty.specs.Claimable.{claimable_of};

    ghost Value = { Penalties };

    ghost view = { λ s. record { state = s.state; claims = s.claims } };

    ghost invariant = { λ s. AreClaimsOn (claimable_of s.state) s.claims };
}

// Copies of claims.
fn copied_claims(alloc: Global, claims: &[Claim]) -> Result<Vec<Claim>, AllocError>
    ensures { IfOk result (λ v. v.items ≡ claims.now) }
{
    let mut copies = Vec::new(alloc);
    for claim in claims {
        copies.push(claim.copy()?)?;
    }
    Ok(copies)
}

impl PenaltySet {
    ghost use Rattle.std.specs.Prelude.{◌≡◌, IfOk};
    ghost use Rattle.penalty.specs.Claimable.{claimable_of};
    ghost use Rattle.penalty.specs.Sets.{AreClaimsOn};

    // The claims of a state.
    pub(crate) fn new(state: RevokedState, claims: List<Claim>) -> PenaltySet
        requires { AreClaimsOn (claimable_of state) claims }
        ensures { result ≡ record { state = state; claims = claims } }
    {
        PenaltySet { state, claims }
    }

    /// The revoked state.
    pub fn state(&self) -> &RevokedState
        ensures { result.now ≡ self.now.state }
    {
        &self.state
    }

    /// The claims, in the order of the commitment's outputs. Each HTLC's claim is followed by the one on the output of its HTLC transaction.
    pub fn claims(&self) -> &[Claim]
        ensures value { result.now ≡ self.now.claims }
        ensures full { AreClaimsOn (claimable_of self.now.state) self.now.claims }
    {
        // Borrowing both fields gives the prover the invariant.
        let _state = &self.state;
        self.claims.values()
    }

    /// A copy, made without building it again. The only error is that memory ran out.
    pub fn copy(&self) -> Result<PenaltySet, AllocError>
        ensures { IfOk result (λ p. p ≡ self.now) }
    {
        let state = self.state.copy()?;
        let claims = copied_claims(self.claims.allocator(), self.claims.values())?;
        Ok(PenaltySet {
            state,
            claims: List::from_vec(claims),
        })
    }

    /// The claims, taken out of the set. It allocates nothing.
    pub fn into_claims(self) -> Vec<Claim>
        ensures value { result.items ≡ self.claims }
        ensures full { AreClaimsOn (claimable_of self.state) self.claims }
    {
        let PenaltySet {
            state: _state,
            claims,
        } = self;
        claims.into_vec()
    }
}
