// Commitments and HTLC transactions with both signatures: that of their owner, if its signer has the right, and its peer's.

ghost use Rattle.std.specs.Prelude.{◌≡◌, ◌≤◌, Some, length, slice_get, IfOk, IfSome};
ghost use Rattle.script.specs.Token.{token_of};
ghost use Rattle.tx.specs.Fields.{transaction_with_witness};
ghost use Rattle.keys.specs.Rights.{MaySign};
ghost use Rattle.terms.specs.Agreement.{party};
ghost use Rattle.commit.specs.Commitments.{htlcs_of};
ghost use Rattle.commit.specs.Signing.{commitment_digest, htlc_digest as htlc_digest_of};
ghost use Rattle.penalty.specs.Outputs.{AreOutputs};
ghost use Rattle.resolve.specs.Signed.{IsCommitmentToken, AreHtlcTokens};
ghost use Rattle.publish.specs.Published.{signed_transaction, branch_item, signed_htlc_tx_with, signed_htlc_of};
ghost use Rattle.publish.specs.Signed.{IsSignedWhere};

use crate::preimages::preimage_among;
use crate::witnesses::{funding_witness, htlc_witness};
use commit::{Commitment, Direction, HtlcOutput, htlc_tx, signing_digests};
use forms::Patterns;
use keys::Signer;
use lists::ByteString;
use sighash::Token;
use std::alloc::{AllocError, Global};
use terms::{Htlc, Side, Terms};
use tx::{Tx, Witness};

// The transaction with this witness of its only input.
fn with_witness(tx: Tx, witness: Witness) -> Tx
    ensures { result ≡ transaction_with_witness tx 0 witness }
{
    // The proof learns that there is an input.
    let _some = tx.inputs();
    let mut tx = tx;
    tx.set_witness(0, witness);
    tx
}

// A commitment with the token of each side.
fn commitment_with(
    alloc: Global,
    patterns: &Patterns,
    terms: &Terms,
    commitment: &Commitment,
    of_a: &Token,
    of_b: &Token,
) -> Result<Tx, AllocError>
    requires of_a { of_a.now ≡ token_of terms.now.a.bases.funding.bytes
        (commitment_digest terms.now commitment.now) }
    requires of_b { of_b.now ≡ token_of terms.now.b.bases.funding.bytes
        (commitment_digest terms.now commitment.now) }
    ensures { IfOk result (λ t. t ≡ signed_transaction terms.now commitment.now) }
{
    let tx = commitment.tx().copy()?;
    let witness = funding_witness(alloc, patterns, terms, of_a, of_b)?;
    Ok(with_witness(tx, witness))
}

// A commitment with the token of its owner and that of the owner's peer.
fn commitment_by_both(
    alloc: Global,
    patterns: &Patterns,
    terms: &Terms,
    owner: Side,
    commitment: &Commitment,
    own: &Token,
    peers: &Token,
) -> Result<Tx, AllocError>
    requires own { own.now ≡ token_of (party owner terms.now).bases.funding.bytes
        (commitment_digest terms.now commitment.now) }
    requires peers { IsCommitmentToken terms.now owner commitment.now peers.now }
    ensures { IfOk result (λ t. t ≡ signed_transaction terms.now commitment.now) }
{
    match owner {
        Side::A => commitment_with(alloc, patterns, terms, commitment, own, peers),
        Side::B => commitment_with(alloc, patterns, terms, commitment, peers, own),
    }
}

/// An owner's commitment with the token of its peer and the signer's. `None` exactly if the signer may not sign for the owner's funding key. The only error is that memory ran out.
pub(crate) fn signed_by_both(
    alloc: Global,
    patterns: &Patterns,
    terms: &Terms,
    owner: Side,
    signer: &Signer,
    commitment: &Commitment,
    peers: &Token,
) -> Result<Option<Tx>, AllocError>
    requires { IsCommitmentToken terms.now owner commitment.now peers.now }
    ensures { IfOk result (IsSignedWhere
        (MaySign signer.now (party owner terms.now).bases.funding.bytes)
        (Some (signed_transaction terms.now commitment.now))) }
{
    let key = terms.party(owner).bases.funding;
    let digest = signing_digests(alloc, terms, commitment)?.commitment;
    match signer.sign(&key, &digest) {
        Ok(own) => Ok(Some(commitment_by_both(
            alloc, patterns, terms, owner, commitment, &own, peers,
        )?)),
        Err(_) => Ok(None),
    }
}

// The item above the signatures: the empty item for HTLC-timeout, and the preimage for HTLC-success, if it is given.
fn branch_item(
    alloc: Global,
    direction: Direction,
    htlc: &Htlc,
    preimages: &[[u8; 32]],
) -> Result<Option<ByteString>, AllocError>
    ensures value { IfOk result (λ b. b ≡ branch_item preimages.now direction htlc.now) }
    ensures short { IfOk result (λ b. IfSome b (λ x. length x ≤ 32)) }
{
    match direction {
        Direction::Offered => Ok(Some(ByteString::new(alloc))),
        Direction::Received => match preimage_among(preimages, &htlc.hash) {
            None => Ok(None),
            Some(preimage) => Ok(Some(ByteString::from_slice(alloc, &preimage)?)),
        },
    }
}

// The HTLC transaction of the `k`-th HTLC of a commitment, with both tokens and what its branch takes.
fn htlc_tx_with(
    alloc: Global,
    patterns: &Patterns,
    commitment: &Commitment,
    k: usize,
    htlc: &HtlcOutput,
    remote: &Token,
    local: &Token,
    item: ByteString,
) -> Result<Tx, AllocError>
    requires outputs { AreOutputs commitment.now }
    requires kth { slice_get (htlcs_of commitment.now) k ≡ Some htlc.now }
    requires remote { remote.now ≡ token_of commitment.now.keys.remote_htlc
        (htlc_digest_of commitment.now htlc.now) }
    requires local { local.now ≡ token_of commitment.now.keys.local_htlc
        (htlc_digest_of commitment.now htlc.now) }
    requires short { length item ≤ 32 }
    ensures { IfOk result (λ t. t ≡ signed_htlc_tx_with commitment.now htlc.now item) }
{
    let witness = htlc_witness(
        alloc,
        patterns,
        commitment.keys(),
        htlc,
        remote,
        local,
        item,
    )?;
    match htlc_tx(alloc, commitment, k)? {
        Some(tx) => Ok(with_witness(tx, witness)),
        None => unreachable!(),
    }
}

// The digest of the HTLC transaction of the `k`-th HTLC.
fn htlc_digest(
    alloc: Global,
    terms: &Terms,
    commitment: &Commitment,
    k: usize,
    htlc: &HtlcOutput,
) -> Result<[u8; 32], AllocError>
    requires { slice_get (htlcs_of commitment.now) k ≡ Some htlc.now }
    ensures { IfOk result (λ d. d ≡ htlc_digest_of commitment.now htlc.now) }
{
    let digests = signing_digests(alloc, terms, commitment)?;
    Ok(digests.htlcs.values()[k])
}

// The HTLC transaction of the `k`-th HTLC of a commitment, with its peer's token and the owner's, if what its branch takes is known.
fn htlc_tx_by(
    alloc: Global,
    patterns: &Patterns,
    commitment: &Commitment,
    k: usize,
    htlc: &HtlcOutput,
    peers: &[Token],
    local: &Token,
    preimages: &[[u8; 32]],
) -> Result<Option<Tx>, AllocError>
    requires outputs { AreOutputs commitment.now }
    requires kth { slice_get (htlcs_of commitment.now) k ≡ Some htlc.now }
    requires peers { AreHtlcTokens commitment.now peers.now }
    requires local { local.now ≡ token_of commitment.now.keys.local_htlc
        (htlc_digest_of commitment.now htlc.now) }
    ensures { IfOk result (λ t. t ≡ signed_htlc_of commitment.now k preimages.now) }
{
    let Some(item) = branch_item(alloc, htlc.direction, &htlc.htlc, preimages)? else {
        return Ok(None);
    };
    let remote = peers[k];
    Ok(Some(htlc_tx_with(alloc, patterns, commitment, k, htlc, &remote, local, item)?))
}

/// The HTLC transaction of the `k`-th HTLC of an owner's commitment, with the token of its peer and the signer's. `None` exactly if there is no such HTLC, or no such preimage, or if the
/// signer may not sign for the owner's HTLC key. The only error is that memory ran out.
pub(crate) fn htlc_tx_by_both(
    alloc: Global,
    patterns: &Patterns,
    terms: &Terms,
    signer: &Signer,
    commitment: &Commitment,
    peers: &[Token],
    k: usize,
    preimages: &[[u8; 32]],
) -> Result<Option<Tx>, AllocError>
    requires outputs { AreOutputs commitment.now }
    requires peers { AreHtlcTokens commitment.now peers.now }
    ensures { IfOk result (IsSignedWhere
        (MaySign signer.now commitment.now.keys.local_htlc)
        (signed_htlc_of commitment.now k preimages.now)) }
{
    let Some(htlc) = commitment.htlcs().get(k) else {
        return Ok(None);
    };
    let digest = htlc_digest(alloc, terms, commitment, k, htlc)?;
    match signer.sign(&commitment.keys().local_htlc, &digest) {
        Ok(local) => htlc_tx_by(
            alloc, patterns, commitment, k, htlc, peers, &local, preimages,
        ),
        Err(_) => Ok(None),
    }
}
