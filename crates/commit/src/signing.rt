//! What the owner's peer signs of a commitment (BOLT 2, `commitment_signed`; BIP 143).

ghost use Rattle.std.specs.Prelude.{◌≡◌, ◌≤◌, ◌++◌, [], map, IfOk, OnOk};
ghost use Rattle.std.specs.List.{cons_option};
ghost use Rattle.script.specs.Spelling.{spelling};
ghost use Rattle.terms.specs.Scripts.{funding};
ghost use Rattle.tx.specs.declared.limits.TheConstants.{MAX_VALUE as max_value};
ghost use Rattle.commit.specs.Fees.{satoshis_of};
ghost use Rattle.commit.specs.Outputs.{htlc_script};
ghost use Rattle.commit.specs.Commitments.{IsOutputOf, htlc_at};
ghost use Rattle.commit.specs.Signing.{funding_script as funding_script_of, commitment_digest as commitment_digest_of, htlc_digest as htlc_digest_of, htlc_digests as htlc_digests_of};

use crate::commitments::{Commitment, htlc_at};
use crate::fees::satoshis;
use crate::outputs::{CommitmentOutput, HtlcOutput};
use crate::scripts::two_of_two;
use keys::Key;
use lists::List;
use sighash::digest_of;
use std::alloc::{AllocError, Global};
use std::cmp::Ordering;
use terms::Terms;

/// What the signatures on a commitment and on its HTLC transactions are for.
#[derive(Debug, Drop)]
pub struct Digests {
    /// The digest of the commitment, for the funding output.
    pub commitment: [u8; 32],
    /// The digest of each HTLC transaction, in the order of the commitment's outputs.
    pub htlcs: List<[u8; 32]>,
}

/// The bytes of the script of the output that two funding keys share (BOLT 3, "Funding Transaction Output"): both keys sign, the lesser one first. The only error is that memory ran out.
pub fn funding_script(alloc: Global, key: &Key, other: &Key) -> Result<Vec<u8>, AllocError>
    ensures { IfOk result (λ v. v.items ≡ spelling (funding key.now.bytes other.now.bytes)) }
{
    if other.bytes.cmp(&key.bytes) == Ordering::Less {
        two_of_two(alloc, other, key)
    } else {
        two_of_two(alloc, key, other)
    }
}

// The script of the funding output of these terms.
#[tactic(auto, unfolding(crate::specs::Signing::funding_script))]
fn funding_script_in(alloc: Global, terms: &Terms) -> Result<Vec<u8>, AllocError>
    ensures { IfOk result (λ v. v.items ≡ funding_script_of terms.now) }
{
    funding_script(alloc, &terms.a.bases.funding, &terms.b.bases.funding)
}

// The digest of the commitment.
#[tactic(auto, unfolding(crate::specs::Signing::commitment_digest, crate::specs::Commitments::transaction_of))]
fn commitment_digest(
    alloc: Global,
    terms: &Terms,
    commitment: &Commitment,
) -> Result<[u8; 32], AllocError>
    ensures { IfOk result (λ d. d ≡ commitment_digest_of terms.now commitment.now) }
{
    let script = funding_script_in(alloc, terms)?;
    match digest_of(commitment.tx(), 0, script.as_slice(), terms.capacity_sat) {
        Ok(digest) => Ok(digest),
        Err(_) => unreachable!(),
    }
}

// The digest of the HTLC transaction of an output with this script.
#[tactic(auto, unfolding(crate::specs::Signing::htlc_digest, crate::specs::Commitments::htlc_tx_of))]
fn htlc_digest(
    alloc: Global,
    commitment: &Commitment,
    htlc: &HtlcOutput,
    script: &[u8],
) -> Result<[u8; 32], AllocError>
    requires low { satoshis_of htlc.now.htlc.amount_msat ≤ max_value }
    requires its_script { script.now ≡ htlc_script commitment.now.keys htlc.now.direction
        htlc.now.htlc }
    ensures { IfOk result (λ d. d ≡ htlc_digest_of commitment.now htlc.now) }
{
    let tx = commitment.htlc_tx_of(alloc, htlc)?;
    match digest_of(&tx, 0, script, satoshis(htlc.htlc.amount_msat)) {
        Ok(digest) => Ok(digest),
        Err(_) => unreachable!(),
    }
}

// Appends the digest of an output's HTLC transaction, if it is an HTLC output.
fn push_digest(
    alloc: Global,
    commitment: &Commitment,
    index: u32,
    output: &CommitmentOutput,
    digests: &mut Vec<[u8; 32]>,
) -> Result<(), AllocError>
    requires { IsOutputOf commitment.now.keys output.now }
    ensures { OnOk result (digests.new.items ≡ digests.old.items ++ map
        (htlc_digest_of commitment.now) (cons_option (htlc_at index output.now.kind) [])) }
{
    if let Some(htlc) = htlc_at(index, &output.kind) {
        digests.push(htlc_digest(alloc, commitment, &htlc, output.script.bytes())?)?;
    }
    Ok(())
}

// The digests of all HTLC transactions.
fn htlc_digests(alloc: Global, commitment: &Commitment) -> Result<List<[u8; 32]>, AllocError>
    ensures { IfOk result (λ ds. ds ≡ htlc_digests_of commitment.now) }
{
    let mut digests = Vec::with_capacity(alloc, commitment.htlcs().len())?;
    let outputs = commitment.outputs();
    for (index, output) in outputs.iter().enumerate() {
        push_digest(alloc, commitment, index as u32, output, &mut digests)?;
    }
    Ok(List::from_vec(digests))
}

/// What a `commitment_signed` for the owner's commitment covers. The owner's peer signs the first digest with its funding key. It signs the others
/// with its HTLC key, derived at the commitment's per-commitment point. The only error is that memory ran out.
pub fn signing_digests(
    alloc: Global,
    terms: &Terms,
    commitment: &Commitment,
) -> Result<Digests, AllocError>
    ensures commitment { IfOk result (λ d. d.commitment
        ≡ commitment_digest_of terms.now commitment.now) }
    ensures htlcs { IfOk result (λ d. d.htlcs ≡ htlc_digests_of commitment.now) }
{
    let first = commitment_digest(alloc, terms, commitment)?;
    let htlcs = htlc_digests(alloc, commitment)?;
    Ok(Digests {
        commitment: first,
        htlcs,
    })
}
