//! What is due by a verdict.

ghost use Rattle.std.specs.Prelude.{ℕ, ◌≡◌, ◌<◌, ◌++◌, ◌∷◌, [], Some, IfOk, OnOk, List as Values, slice_get, option_map};
ghost use Rattle.script.specs.declared.limits.TheConstants.{LOCKTIME_THRESHOLD as locktime_threshold};
ghost use Rattle.commit.specs.declared.outputs.HtlcOutput.{HtlcOutput as HtlcParts};
ghost use Rattle.commit.specs.Commitments.{tx_output, transaction_of, htlc_at, htlcs_of, IsOutputOf};
ghost use Rattle.penalty.specs.Claimable.{Claimable, place_in};
ghost use Rattle.penalty.specs.Sets.{AreClaimsOn};
ghost use Rattle.penalty.specs.Outputs.{IsOutput};
ghost use Rattle.resolve.specs.Kinds.{IsSecondStage, IsHtlcPlace};
ghost use Rattle.resolve.specs.Due.{owners_on, peers_on, owners_due, peers_due, penalties_if, revoked_at, second_stage_on, delayed_second_stage, due_of};

use crate::claiming::{delayed_on, direct_on, is_owners, is_peers, second_stage_on};
use crate::known::{Known, KnownCommitment, RevokedCommitment, SignedCommitment};
use crate::known_preimages::KnownPreimages;
use crate::verdicts::Verdict;
use claim::{Claim, Place};
use commit::{CommitmentOutput, HtlcOutput, OutputKind, htlc_tx};
use forms::Patterns;
use penalty::claiming::payment_on;
use penalty::penalties;
use penalty::places::{first_place, htlc_count, place_of};
use std::alloc::{AllocError, Global};

// Appends the claims on the output of the k-th HTLC and on that of its HTLC transaction.
fn push_second_stage(
    alloc: Global,
    patterns: &Patterns,
    own: &SignedCommitment,
    k: usize,
    htlc: &HtlcOutput,
    place: Place,
    claims: &mut Vec<Claim>,
) -> Result<(), AllocError>
    requires kth { slice_get (htlcs_of own.now.commitment) k ≡ Some htlc.now }
    requires open { IsSecondStage own.now.commitment.keys htlc.now.direction htlc.now.htlc }
    requires height { htlc.now.htlc.expiry_height < locktime_threshold }
    requires place { IsHtlcPlace own.now.commitment htlc.now place }
    ensures { OnOk result ((done : Values Claimable) → AreClaimsOn done claims.old.items
        → AreClaimsOn (done ++ second_stage_on own.now.commitment htlc.now place
        ∷ delayed_second_stage own.now.commitment htlc.now ∷ []) claims.new.items) }
{
    let commitment = own.commitment.commitment();
    let token = own.htlc_tokens.values()[k];
    let Some(tx) = htlc_tx(alloc, commitment, k)? else {
        unreachable!();
    };
    let second = first_place(&tx)?;
    claims.push(second_stage_on(alloc, patterns, commitment, htlc, token, tx, place)?)?;
    claims.push(delayed_on(alloc, patterns, commitment, second)?)?;
    Ok(())
}

// Appends what an output of one's own commitment lets its owner claim. If the output is an HTLC's, that HTLC is the k-th.
fn push_owners(
    alloc: Global,
    patterns: &Patterns,
    own: &SignedCommitment,
    known: &KnownPreimages,
    index: u32,
    k: usize,
    output: &CommitmentOutput,
    claims: &mut Vec<Claim>,
) -> Result<(), AllocError>
    requires output { IsOutput own.now.commitment.delay_blocks own.now.commitment.keys output.now }
    requires value { IsOutputOf own.now.commitment.keys output.now }
    requires htlc { (h : HtlcParts) → htlc_at index output.now.kind ≡ Some h
        → slice_get (htlcs_of own.now.commitment) k ≡ Some h }
    ensures { OnOk result ((done : Values Claimable) → AreClaimsOn done claims.old.items
        → AreClaimsOn (done ++ owners_on known.now own.now.commitment index
        (place_in (transaction_of own.now.commitment) index (tx_output output.now)) output.now.kind)
        claims.new.items) }
{
    let commitment = own.commitment.commitment();
    let place = place_of(commitment, index, output)?;
    match &output.kind {
        OutputKind::ToLocal => {
            claims.push(delayed_on(alloc, patterns, commitment, place)?)?;
            Ok(())
        }
        OutputKind::ToRemote => Ok(()),
        OutputKind::ToHtlc(direction, htlc) => {
            if is_owners(known, commitment.keys(), *direction, htlc) {
                let output = HtlcOutput {
                    index,
                    direction: *direction,
                    htlc: *htlc,
                };
                push_second_stage(alloc, patterns, own, k, &output, place, claims)?;
            }
            Ok(())
        }
    }
}

// What one's own commitment lets its owner claim.
#[tactic(auto, unfolding(crate::specs::Due::owners_due))]
fn owners_due(
    alloc: Global,
    patterns: &Patterns,
    own: &SignedCommitment,
    known: &KnownPreimages,
) -> Result<Vec<Claim>, AllocError>
    ensures { IfOk result (λ v. AreClaimsOn (owners_due known.now own.now.commitment) v.items) }
{
    let mut claims = Vec::new(alloc);
    let mut htlcs = 0;
    let commitment = own.commitment.commitment();
    let outputs = commitment.outputs();
    for (index, output) in outputs.iter().enumerate() {
        push_owners(
            alloc,
            patterns,
            own,
            known,
            index as u32,
            htlcs,
            output,
            &mut claims,
        )?;
        htlcs += htlc_count(&output.kind);
    }
    Ok(claims)
}

// Appends what an output of the peer's commitment lets one claim.
fn push_peers(
    alloc: Global,
    patterns: &Patterns,
    theirs: &KnownCommitment,
    known: &KnownPreimages,
    index: u32,
    output: &CommitmentOutput,
    claims: &mut Vec<Claim>,
) -> Result<(), AllocError>
    requires { IsOutput theirs.now.delay_blocks theirs.now.keys output.now }
    ensures { OnOk result ((done : Values Claimable) → AreClaimsOn done claims.old.items
        → AreClaimsOn (done ++ peers_on known.now theirs.now index
        (place_in (transaction_of theirs.now) index (tx_output output.now)) output.now.kind)
        claims.new.items) }
{
    let commitment = theirs.commitment();
    let place = place_of(commitment, index, output)?;
    match &output.kind {
        OutputKind::ToLocal => Ok(()),
        OutputKind::ToRemote => {
            claims.push(payment_on(alloc, patterns, commitment, place)?)?;
            Ok(())
        }
        OutputKind::ToHtlc(direction, htlc) => {
            if is_peers(known, commitment.keys(), *direction, htlc) {
                claims.push(direct_on(alloc, patterns, commitment, *direction, htlc, place)?)?;
            }
            Ok(())
        }
    }
}

// What a commitment of the peer lets one claim.
#[tactic(auto, unfolding(crate::specs::Due::peers_due))]
fn peers_due(
    alloc: Global,
    patterns: &Patterns,
    theirs: &KnownCommitment,
    known: &KnownPreimages,
) -> Result<Vec<Claim>, AllocError>
    ensures { IfOk result (λ v. AreClaimsOn (peers_due known.now theirs.now) v.items) }
{
    let mut claims = Vec::new(alloc);
    let commitment = theirs.commitment();
    let outputs = commitment.outputs();
    for (index, output) in outputs.iter().enumerate() {
        push_peers(
            alloc,
            patterns,
            theirs,
            known,
            index as u32,
            output,
            &mut claims,
        )?;
    }
    Ok(claims)
}

/// The commitment of a number among those that the peer revoked: one look-up. It allocates nothing.
pub fn revoked_at(known: &Known, n: u64) -> Option<&RevokedCommitment>
    ensures { option_map (λ r. r.now) result ≡ revoked_at known.now n }
{
    known.revoked.get(n)
}

// The penalty set of the revoked commitment of a number.
fn revoked_due(
    alloc: Global,
    patterns: &Patterns,
    known: &Known,
    n: u64,
) -> Result<Vec<Claim>, AllocError>
    ensures { IfOk result (λ v. AreClaimsOn (penalties_if (revoked_at known.now n)) v.items) }
{
    match revoked_at(known, n) {
        None => Ok(Vec::new(alloc)),
        Some(revoked) => Ok(penalties(alloc, patterns, &revoked.state)?.into_claims()),
    }
}

// What one's own commitment lets its owner claim. Preimages that aren't indexed are copied and indexed, so that each is hashed once.
fn due_on_own(
    alloc: Global,
    patterns: &Patterns,
    own: &SignedCommitment,
    known: &KnownPreimages,
) -> Result<Vec<Claim>, AllocError>
    ensures { IfOk result (λ v. AreClaimsOn (owners_due known.now own.now.commitment) v.items) }
{
    if known.is_indexed() {
        return owners_due(alloc, patterns, own, known);
    }
    let indexed = known.to_indexed()?;
    owners_due(alloc, patterns, own, &indexed)
}

// What a commitment of the peer lets one claim, in the same way.
fn due_on_theirs(
    alloc: Global,
    patterns: &Patterns,
    theirs: &KnownCommitment,
    known: &KnownPreimages,
) -> Result<Vec<Claim>, AllocError>
    ensures { IfOk result (λ v. AreClaimsOn (peers_due known.now theirs.now) v.items) }
{
    if known.is_indexed() {
        return peers_due(alloc, patterns, theirs, known);
    }
    let indexed = known.to_indexed()?;
    peers_due(alloc, patterns, theirs, &indexed)
}

/// The claims that are due by a verdict, each accepted, in the order of the commitment's outputs (BOLT 5):
/// - `Ours`: the delayed claim on to_local, the HTLC-timeout transaction of each offered HTLC, and the HTLC-success transaction of each received HTLC whose
///   preimage is known. Each HTLC transaction is followed by the delayed claim on its output.
/// - `Theirs` and `TheirsNext`: the key hash claim on to_remote and the direct timeout of each HTLC that this side offered. Also the direct preimage claim of
///   each other HTLC whose preimage is known.
/// - `Revoked(n)`: the penalty set of n.
/// - `Unknown`: none.
///
/// The two claims that `accept` refuses are not due, nor is the delayed claim after one of them. These are a timeout where the revocation key's HASH160 is that
/// of the empty item, and a preimage where it is the RIPEMD-160 of the payment hash. The only error is that memory ran out.
#[tactic(auto, unfolding(crate::specs::Due::due_of))]
pub fn due_claims(alloc: Global, known: &Known, verdict: Verdict) -> Result<Vec<Claim>, AllocError>
    ensures { IfOk result (λ v. AreClaimsOn (due_of known.now verdict) v.items) }
{
    let patterns = known.patterns.get();
    let preimages = &known.preimages;
    match verdict {
        Verdict::Ours => due_on_own(alloc, patterns, &known.own, preimages),
        Verdict::Theirs => due_on_theirs(alloc, patterns, &known.theirs, preimages),
        Verdict::TheirsNext => match &known.next {
            None => Ok(Vec::new(alloc)),
            Some(next) => due_on_theirs(alloc, patterns, next, preimages),
        },
        Verdict::Revoked(n) => revoked_due(alloc, patterns, known, n),
        Verdict::Unknown => Ok(Vec::new(alloc)),
    }
}
