// The penalty set of a revoked state.

ghost use Rattle.std.specs.Prelude.{ℕ, ◌≡◌, ◌≤◌, ◌<◌, ◌++◌, [], length, Some, IsSome, IfOk, OnOk, List as Values, slice_get};
ghost use Rattle.std.specs.List.{cons_option};
ghost use Rattle.tx.specs.Parts.{Output};
ghost use Rattle.commit.specs.declared.outputs.HtlcOutput.{HtlcOutput};
ghost use Rattle.commit.specs.Commitments.{commitment_of, tx_output, transaction_of, htlc_at, htlcs_of};
ghost use Rattle.penalty.specs.Claimable.{Claimable, place_in, claims_on, claims_from, claimable_of, commitment_in, second_stage_penalty};
ghost use Rattle.penalty.specs.Sets.{IsClaimOn, AreClaimsOn};
ghost use Rattle.penalty.specs.Outputs.{IsOutput, AreOutputs};
ghost use Rattle.penalty.specs.Paying.{CanPay};

use crate::claiming::{htlc_penalty_on, payment_on, penalty_on};
use crate::places::{first_place, htlc_count, place_of};
use crate::sets::PenaltySet;
use crate::states::RevokedState;
use claim::{Claim, Place};
use commit::{BuildError, Commitment, CommitmentOutput, OutputKind, build, htlc_tx};
use forms::Patterns;
use keys::{Key, point};
use lists::List;
use std::alloc::{AllocError, Global};
use terms::{Side, Terms, View};

// The penalty on the output of the HTLC transaction of the k-th HTLC.
fn second_stage_penalty(
    alloc: Global,
    patterns: &Patterns,
    commitment: &Commitment,
    k: usize,
) -> Result<Claim, AllocError>
    requires { IsSome (slice_get (htlcs_of commitment.now) k) }
    ensures { (h : HtlcOutput) → slice_get (htlcs_of commitment.now) k ≡ Some h
        → IfOk result (IsClaimOn (second_stage_penalty commitment.now h)) }
{
    match htlc_tx(alloc, commitment, k)? {
        None => unreachable!(),
        Some(tx) => penalty_on(alloc, patterns, commitment, first_place(&tx)?),
    }
}

// Appends what an output lets the peer claim. If the output is an HTLC's, that HTLC is the k-th.
fn push_claims_on(
    alloc: Global,
    patterns: &Patterns,
    commitment: &Commitment,
    index: u32,
    k: usize,
    output: &CommitmentOutput,
    claims: &mut Vec<Claim>,
) -> Result<(), AllocError>
    requires output { IsOutput commitment.now.delay_blocks commitment.now.keys output.now }
    requires htlc { (h : HtlcOutput) → htlc_at index output.now.kind ≡ Some h
        → slice_get (htlcs_of commitment.now) k ≡ Some h }
    ensures { OnOk result ((done : Values Claimable) → AreClaimsOn done claims.old.items
        → AreClaimsOn (done ++ claims_on commitment.now index
        (place_in (transaction_of commitment.now) index (tx_output output.now)) output.now.kind)
        claims.new.items) }
{
    let place = place_of(commitment, index, output)?;
    match &output.kind {
        OutputKind::ToLocal => {
            claims.push(penalty_on(alloc, patterns, commitment, place)?)?;
            Ok(())
        }
        OutputKind::ToRemote => {
            claims.push(payment_on(alloc, patterns, commitment, place)?)?;
            Ok(())
        }
        OutputKind::ToHtlc(direction, htlc) => {
            claims.push(htlc_penalty_on(alloc, patterns, commitment, *direction, htlc, place)?)?;
            claims.push(second_stage_penalty(alloc, patterns, commitment, k)?)?;
            Ok(())
        }
    }
}

// The claims on all outputs.
fn claims_of(
    alloc: Global,
    patterns: &Patterns,
    commitment: &Commitment,
) -> Result<List<Claim>, AllocError>
    requires { AreOutputs commitment.now }
    ensures { IfOk result (AreClaimsOn (claims_from commitment.now 0 commitment.now.outputs)) }
{
    let mut claims = Vec::new(alloc);
    let mut htlcs = 0;
    let outputs = commitment.outputs();
    for (index, output) in outputs.iter().enumerate() {
        push_claims_on(
            alloc,
            patterns,
            commitment,
            index as u32,
            htlcs,
            output,
            &mut claims,
        )?;
        htlcs += htlc_count(&output.kind);
    }
    // They may be kept for as long as the channel lives.
    claims.shrink_to_fit();
    Ok(List::from_vec(claims))
}

/// The owner's commitment of a view that the terms can pay, as `commit::build` gives it. The only error is that memory ran out.
pub fn payable_commitment(
    alloc: Global,
    terms: &Terms,
    view: &View,
    owner: Side,
    number: u64,
    point: &Key,
) -> Result<Commitment, AllocError>
    requires { CanPay terms.now view.now }
    ensures value { IfOk result (λ c. c ≡ commitment_of terms.now view.now owner number
        point.now.bytes) }
    ensures outputs { IfOk result AreOutputs }
{
    match build(alloc, terms, view, owner, number, point) {
        Ok(commitment) => Ok(commitment),
        Err(refusal) => match refusal {
            BuildError::NoMemory => Err(AllocError),
            BuildError::TooManyOutputs => unreachable!(),
            BuildError::ValueTooLarge => unreachable!(),
        },
    }
}

/// The revoked commitment. The only error is that memory ran out.
pub fn revoked_commitment(alloc: Global, state: &RevokedState) -> Result<Commitment, AllocError>
    ensures value { IfOk result (λ c. c ≡ commitment_in state.now) }
    ensures outputs { IfOk result AreOutputs }
{
    let point = point(&state.secret);
    payable_commitment(
        alloc,
        &state.terms,
        &state.view,
        state.owner,
        state.number,
        &point,
    )
}

// The claims on all outputs of the revoked commitment.
#[tactic(auto, unfolding(crate::specs::Claimable::claimable_of))]
fn revoked_claims(
    alloc: Global,
    patterns: &Patterns,
    state: &RevokedState,
) -> Result<List<Claim>, AllocError>
    ensures { IfOk result (AreClaimsOn (claimable_of state.now)) }
{
    let commitment = revoked_commitment(alloc, state)?;
    claims_of(alloc, patterns, &commitment)
}

/// All that a revoked state lets the owner's peer claim (BOLT 5, "Revoked Transaction Close Handling"). These are accepted claims on to_local and to_remote if they
/// are outputs, and on each HTLC that isn't trimmed. For each such HTLC there is another claim, on the output of the HTLC transaction that the peer signed for it.
/// That is HTLC-timeout where the owner offered the HTLC, and HTLC-success where it was offered to the owner. They are in the order of the outputs, and each HTLC's
/// claim is followed by that on its HTLC transaction. The only error is that memory ran out.
pub fn penalties(
    alloc: Global,
    patterns: &Patterns,
    state: &RevokedState,
) -> Result<PenaltySet, AllocError>
    ensures state { IfOk result (λ p. p.state ≡ state.now) }
    ensures claims { IfOk result (λ p. AreClaimsOn (claimable_of state.now) p.claims) }
{
    let claims = revoked_claims(alloc, patterns, state)?;
    Ok(PenaltySet::new(state.copy()?, claims))
}
