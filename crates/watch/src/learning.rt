//! The preimages that a block shows.

ghost use Rattle.std.specs.Prelude.{◌≡◌, ◌++◌, ◌∷◌, [], IfOk, OnOk, Some, ◌==◌, ◌&&◌, slice_get, option_map};
ghost use Rattle.std.specs.List.{list_any};
ghost use Rattle.std.specs.Str.{bytes_eq};
ghost use Rattle.sha2.specs.Sha256.{sha256};
ghost use Rattle.penalty.specs.Claimable.{commitment_in};
ghost use Rattle.watch.specs.Learning.{commitment_by, htlcs_in, htlcs_by, is_paid_by, learnt_by, learnt_from, learnt_in};

use crate::spends::Spend;
use crate::verdicts::verdict;
use chain::Confirmed;
use commit::{Commitment, HtlcOutput};
use digest::sha256;
use lists::List;
use penalty::{RevokedState, revoked_commitment};
use resolve::{Known, Verdict, preimage_in, revoked_at};
use std::alloc::{AllocError, Global};
use tx::{OutPoint, Tx, TxIn};

/// The HTLCs of a commitment, in the order of its outputs.
#[derive(Debug, Drop)]
pub(crate) struct CommitmentHtlcs {
    /// The commitment's id.
    pub(crate) id: [u8; 32],
    pub(crate) htlcs: List<HtlcOutput>,
}

// The HTLCs of a commitment. The only error is that memory ran out.
fn htlcs_in(alloc: Global, commitment: &Commitment) -> Result<CommitmentHtlcs, AllocError>
    ensures { IfOk result (λ h. h ≡ htlcs_in commitment.now) }
{
    let htlcs = Vec::from_slice(alloc, commitment.htlcs())?;
    Ok(CommitmentHtlcs {
        id: *commitment.id(),
        htlcs: List::from_vec(htlcs),
    })
}

// The HTLCs of a commitment that may be there.
fn some_htlcs_in(
    alloc: Global,
    commitment: &Commitment,
) -> Result<Option<CommitmentHtlcs>, AllocError>
    ensures { IfOk result (λ h. h ≡ Some (htlcs_in commitment.now)) }
{
    Ok(Some(htlcs_in(alloc, commitment)?))
}

// The HTLCs of a commitment that was revoked.
fn some_htlcs_of(alloc: Global, state: &RevokedState) -> Result<Option<CommitmentHtlcs>, AllocError>
    ensures { IfOk result (λ h. h ≡ Some (htlcs_in (commitment_in state.now))) }
{
    let commitment = revoked_commitment(alloc, state)?;
    some_htlcs_in(alloc, &commitment)
}

// The HTLCs of the commitment that a verdict names.
fn htlcs_of_verdict(
    alloc: Global,
    known: &Known,
    verdict: Verdict,
) -> Result<Option<CommitmentHtlcs>, AllocError>
    ensures { IfOk result (λ h. h ≡ option_map htlcs_in (commitment_by known.now verdict)) }
{
    match verdict {
        Verdict::Ours => some_htlcs_in(alloc, known.own.commitment.commitment()),
        Verdict::Theirs => some_htlcs_in(alloc, known.theirs.commitment()),
        Verdict::TheirsNext => match &known.next {
            None => Ok(None),
            Some(next) => some_htlcs_in(alloc, next.commitment()),
        },
        Verdict::Revoked(n) => match revoked_at(known, n) {
            None => Ok(None),
            Some(revoked) => some_htlcs_of(alloc, &revoked.state),
        },
        Verdict::Unknown => Ok(None),
    }
}

// Appends the HTLCs of the commitment that a transaction is.
fn push_htlcs(
    alloc: Global,
    known: &Known,
    spend: &Spend,
    commitments: &mut Vec<CommitmentHtlcs>,
) -> Result<(), AllocError>
    ensures { OnOk result (commitments.new.items ≡ commitments.old.items ++ htlcs_by known.now
        (spend.now ∷ [])) }
{
    let verdict = verdict(known, &spend.tx);
    if let Some(htlcs) = htlcs_of_verdict(alloc, known, verdict)? {
        commitments.push(htlcs)?;
    }
    Ok(())
}

/// The HTLCs of the known commitments among transactions. The only error is that memory ran out.
pub(crate) fn htlcs_by(
    alloc: Global,
    known: &Known,
    spends: &[Spend],
) -> Result<Vec<CommitmentHtlcs>, AllocError>
    ensures { IfOk result (λ v. v.items ≡ htlcs_by known.now spends.now) }
{
    let mut commitments = Vec::new(alloc);
    for spend in spends {
        push_htlcs(alloc, known, spend, &mut commitments)?;
    }
    Ok(commitments)
}

// Whether the HTLC is at this index and has this preimage's hash.
fn is_preimage_of(preimage: &[u8; 32], index: u32, htlc: &HtlcOutput) -> bool
    ensures { result ≡ (htlc.now.index == index && bytes_eq
        (sha256 preimage.now) htlc.now.htlc.hash) }
{
    htlc.index == index && sha256(preimage) == htlc.htlc.hash
}

// Whether this holds of one of the HTLCs.
fn some_is_preimage_of(preimage: &[u8; 32], index: u32, htlcs: &[HtlcOutput]) -> bool
    ensures { result ≡ list_any (λ h. h.index == index && bytes_eq
        (sha256 preimage.now) h.htlc.hash) htlcs.now }
{
    htlcs
        .iter()
        .any(|htlc| is_preimage_of(preimage, index, htlc))
}

// Whether an HTLC of the commitment is at this outpoint and has this preimage's hash.
fn is_paid_by(preimage: &[u8; 32], outpoint: &OutPoint, commitment: &CommitmentHtlcs) -> bool
    ensures { result ≡ is_paid_by preimage.now outpoint.now commitment.now }
{
    commitment.id == outpoint.txid
        && some_is_preimage_of(preimage, outpoint.index, commitment.htlcs.values())
}

// Whether one of the commitments has such an HTLC.
fn some_is_paid_by(
    preimage: &[u8; 32],
    outpoint: &OutPoint,
    commitments: &[CommitmentHtlcs],
) -> bool
    ensures { result ≡ list_any (is_paid_by preimage.now outpoint.now) commitments.now }
{
    commitments
        .iter()
        .any(|commitment| is_paid_by(preimage, outpoint, commitment))
}

// What the input at an index shows.
fn learnt_by(
    commitments: &[CommitmentHtlcs],
    tx: &Tx,
    index: usize,
    input: &TxIn,
) -> Option<[u8; 32]>
    requires { slice_get tx.now.inputs index ≡ Some input.now }
    ensures { result ≡ learnt_by commitments.now input.now }
{
    let preimage = preimage_in(tx, index)?;
    if some_is_paid_by(&preimage, &input.outpoint, commitments) {
        Some(preimage)
    } else {
        None
    }
}

// Appends what an input shows.
fn push_learnt(
    commitments: &[CommitmentHtlcs],
    tx: &Tx,
    index: usize,
    input: &TxIn,
    learnt: &mut Vec<[u8; 32]>,
) -> Result<(), AllocError>
    requires { slice_get tx.now.inputs index ≡ Some input.now }
    ensures { OnOk result (learnt.new.items ≡ learnt.old.items ++ learnt_from commitments.now
        (input.now ∷ [])) }
{
    if let Some(preimage) = learnt_by(commitments, tx, index, input) {
        learnt.push(preimage)?;
    }
    Ok(())
}

// Appends what the inputs of a transaction show.
fn learn_from(
    commitments: &[CommitmentHtlcs],
    tx: &Tx,
    learnt: &mut Vec<[u8; 32]>,
) -> Result<(), AllocError>
    ensures { OnOk result (learnt.new.items ≡ learnt.old.items
        ++ learnt_from commitments.now tx.now.inputs) }
{
    for (index, input) in tx.inputs().iter().enumerate() {
        push_learnt(commitments, tx, index, input, learnt)?;
    }
    Ok(())
}

/// The preimages that the inputs of transactions show, where they spend HTLCs of these commitments. The only error is that memory ran out.
pub(crate) fn learnt_in(
    alloc: Global,
    commitments: &[CommitmentHtlcs],
    txs: &[Confirmed],
) -> Result<Vec<[u8; 32]>, AllocError>
    ensures { IfOk result (λ v. v.items ≡ learnt_in commitments.now txs.now) }
{
    let mut learnt = Vec::new(alloc);
    for confirmed in txs {
        learn_from(commitments, confirmed.tx(), &mut learnt)?;
    }
    Ok(learnt)
}
