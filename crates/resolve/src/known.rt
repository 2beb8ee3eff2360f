//! What one side knows of a channel.

ghost use Rattle.std.specs.Prelude.{◌≡◌, ◌↔◌, IsTrue, IfOk};
ghost use Rattle.commit.specs.Commitments.{id_of};
ghost use Rattle.penalty.specs.Claimable.{commitment_in};
ghost use Rattle.resolve.specs.Signed.{IsCommitmentToken, AreHtlcTokens};

use crate::errors::{KnownError, of_view};
use crate::known_preimages::KnownPreimages;
use crate::numbers::MAX_NUMBER;
use crate::revoked::RevokedCommitments;
use crate::tokens::{are_tokens, is_token};
use commit::{Commitment, signing_digests};
use forms::SharedPatterns;
use keys::{Key, Signer};
use lists::List;
use penalty::{RevokedState, payable_commitment, refusal, revoked_commitment};
use sighash::Token;
use std::alloc::{AllocError, Global};
use std::marker::Model;
use terms::{Side, Terms, View};

/// A commitment of a view of the channel. A contract sees it as the commitment's contents.
#[derive(Debug, Drop)]
pub struct KnownCommitment {
    commitment: Commitment,
}

impl Model for KnownCommitment {
    ghost use Rattle.commit.specs.Commitments.{Contents};
    ghost use Rattle.penalty.specs.Outputs.{AreOutputs};

    ghost Value = { Contents };

    ghost view = { λ k. k.commitment };

    ghost invariant = { λ k. AreOutputs k.commitment };
}

impl KnownCommitment {
    ghost use Rattle.std.specs.Prelude.{◌≡◌, None, IfOk, IfErr};
    ghost use Rattle.commit.specs.Commitments.{commitment_of};
    ghost use Rattle.penalty.specs.Outputs.{AreOutputs};
    ghost use Rattle.resolve.specs.Known.{refusal_of, IsNamed};

    /// The owner's commitment of a view, with its number and the owner's per-commitment point for it. Checked in this order: NumberTooLarge if the number is above `MAX_NUMBER`,
    /// then what `penalty::refusal` says of the view, and memory last.
    pub fn new(
        alloc: Global,
        terms: &Terms,
        view: &View,
        owner: Side,
        number: u64,
        point: &Key,
    ) -> Result<KnownCommitment, KnownError>
        ensures value { IfOk result (λ k. k ≡ commitment_of terms.now view.now owner number
            point.now.bytes) }
        ensures ok { IfOk result (λ _. refusal_of terms.now view.now number ≡ None) }
        ensures err { IfErr result (IsNamed (refusal_of terms.now view.now number)) }
    {
        if number > MAX_NUMBER {
            return Err(KnownError::NumberTooLarge);
        }
        if let Some(refusal) = refusal(terms, view) {
            return Err(of_view(refusal));
        }
        match payable_commitment(alloc, terms, view, owner, number, point) {
            Ok(commitment) => Ok(KnownCommitment { commitment }),
            Err(_) => Err(KnownError::NoMemory),
        }
    }

    /// A copy. The only error is that memory ran out.
    pub fn copy(&self) -> Result<KnownCommitment, AllocError>
        ensures { IfOk result (λ k. k ≡ self.now) }
    {
        let commitment = self.commitment().copy()?;
        Ok(KnownCommitment { commitment })
    }

    /// The commitment.
    pub fn commitment(&self) -> &Commitment
        ensures value { result.now ≡ self.now }
        ensures outputs { AreOutputs result.now }
    {
        &self.commitment
    }
}

/// One's own commitment, with the peer's tokens on it and on its HTLC transactions. The type guarantees that these are the right ones.
#[derive(Debug, Drop)]
pub struct SignedCommitment {
    pub commitment: KnownCommitment,
    /// The terms that the token on the commitment is for.
    pub terms: Terms,
    /// Whose commitment it is.
    pub owner: Side,
    /// The token on the commitment: that of the peer's funding key.
    pub token: Token,
    /// The tokens on the HTLC transactions, in the order of the commitment's outputs.
    pub htlc_tokens: List<Token>,
    pub ghost funding: { IsCommitmentToken terms owner commitment token },
    pub ghost signed: { AreHtlcTokens commitment htlc_tokens },
}

// Whether tokens are those of the owner's peer on a commitment and on its HTLC transactions. The only error is that memory ran out.
fn is_signed_by_peer(
    alloc: Global,
    terms: &Terms,
    owner: Side,
    commitment: &Commitment,
    token: &Token,
    htlc_tokens: &[Token],
) -> Result<bool, AllocError>
    ensures { IfOk result (λ is. IsTrue is
        ↔ (IsCommitmentToken terms.now owner commitment.now token.now
        × AreHtlcTokens commitment.now htlc_tokens.now)) }
{
    let digests = signing_digests(alloc, terms, commitment)?;
    let funding = terms.party(owner.other()).bases.funding;
    let key = commitment.keys().remote_htlc;
    Ok(
        is_token(&funding, &digests.commitment, token)
            && are_tokens(&key, digests.htlcs.values(), htlc_tokens),
    )
}

impl SignedCommitment {
    ghost use Rattle.std.specs.Prelude.{◌≡◌, IfOk, IfErr};
    ghost use Rattle.resolve.specs.Known.{HasTokens, IsTokenRefusal};

    /// The owner's commitment with tokens. BadSignature if the token on it is not that of the funding key of the owner's peer over the commitment's digest. BadSignature too if
    /// those on the HTLC transactions are not the tokens of the commitment's `remote_htlcpubkey`, in the order of outputs. NoMemory if memory ran out before that was decided.
    pub fn new(
        alloc: Global,
        terms: &Terms,
        owner: Side,
        commitment: KnownCommitment,
        token: Token,
        htlc_tokens: List<Token>,
    ) -> Result<SignedCommitment, KnownError>
        ensures parts { IfOk result (HasTokens terms.now owner commitment token htlc_tokens) }
        ensures err { IfErr result (IsTokenRefusal terms.now owner commitment token htlc_tokens) }
    {
        let is_signed = is_signed_by_peer(
            alloc,
            terms,
            owner,
            commitment.commitment(),
            &token,
            htlc_tokens.values(),
        )?;
        if !is_signed {
            return Err(KnownError::BadSignature);
        }
        Ok(SignedCommitment {
            commitment,
            terms: *terms,
            owner,
            token,
            htlc_tokens,
        })
    }

    /// A copy, with its tokens. The only error is that memory ran out.
    pub fn copy(&self) -> Result<SignedCommitment, AllocError>
        ensures { IfOk result (λ s. s ≡ self.now) }
    {
        let commitment = self.commitment.copy()?;
        let alloc = self.htlc_tokens.allocator();
        let htlc_tokens = Vec::from_slice(alloc, self.htlc_tokens.values())?;
        Ok(SignedCommitment {
            commitment,
            terms: self.terms,
            owner: self.owner,
            token: self.token,
            htlc_tokens: List::from_vec(htlc_tokens),
        })
    }
}

/// A commitment that the peer revoked.
#[derive(Debug, Drop)]
pub struct RevokedCommitment {
    pub state: RevokedState,
    /// The id of the commitment transaction, in the byte order of the hash (not reversed as for display).
    pub id: [u8; 32],
    /// Whether its penalties are kept.
    pub is_kept: bool,
    pub ghost id_is: { id ≡ id_of (commitment_in state) },
}

impl RevokedCommitment {
    ghost use Rattle.std.specs.Prelude.{◌≡◌, IfOk};
    ghost use Rattle.resolve.specs.Known.{HasState, as_kept};

    /// A revoked state with its transaction's id. The only error is that memory ran out.
    pub fn new(
        alloc: Global,
        state: RevokedState,
        is_kept: bool,
    ) -> Result<RevokedCommitment, AllocError>
        ensures { IfOk result (HasState state is_kept) }
    {
        let commitment = revoked_commitment(alloc, &state)?;
        let id = *commitment.id();
        Ok(RevokedCommitment { state, id, is_kept })
    }

    // Marks its penalties as kept.
    pub(crate) fn keep(&mut self)
        ensures { self.new ≡ as_kept self.old }
    {
        self.is_kept = true;
    }

    /// A copy, made without building it again. The only error is that memory ran out.
    pub fn copy(&self) -> Result<RevokedCommitment, AllocError>
        ensures { IfOk result (λ r. r ≡ self.now) }
    {
        let state = self.state.copy()?;
        Ok(RevokedCommitment {
            state,
            id: self.id,
            is_kept: self.is_kept,
        })
    }
}

/// What one side knows of a channel, with the patterns that it shares with other channels.
#[derive(Drop)]
pub struct Known {
    /// The patterns of the scripts, by which its claims are made.
    pub patterns: SharedPatterns,
    pub terms: Terms,
    /// Which side it is.
    pub side: Side,
    /// What it may sign with.
    pub signer: Signer,
    /// Its own newest commitment.
    pub own: SignedCommitment,
    /// Its own older commitments, only for broadcasts.
    pub older: List<SignedCommitment>,
    /// The peer's newest commitment.
    pub theirs: KnownCommitment,
    /// The peer's commitment after that, if it is signed and the newest isn't revoked yet.
    pub next: Option<KnownCommitment>,
    /// The commitments that the peer revoked.
    pub revoked: RevokedCommitments,
    /// Preimages of HTLCs.
    pub preimages: KnownPreimages,
}

// Copies of commitments with their tokens.
fn copied_signed(
    alloc: Global,
    commitments: &[SignedCommitment],
) -> Result<Vec<SignedCommitment>, AllocError>
    ensures { IfOk result (λ v. v.items ≡ commitments.now) }
{
    let mut copies = Vec::new(alloc);
    for commitment in commitments {
        copies.push(commitment.copy()?)?;
    }
    Ok(copies)
}

// A copy of the peer's next commitment, if there is one.
fn copied_next(next: &Option<KnownCommitment>) -> Result<Option<KnownCommitment>, AllocError>
    ensures { IfOk result (λ n. n ≡ next.now) }
{
    match next {
        None => Ok(None),
        Some(known) => Ok(Some(known.copy()?)),
    }
}

// What a side knows of its own commitments, with its signer.
#[derive(Drop)]
struct OwnCommitments {
    signer: Signer,
    newest: SignedCommitment,
    older: List<SignedCommitment>,
}

// What a side knows of the peer's commitments.
#[derive(Drop)]
struct PeersCommitments {
    newest: KnownCommitment,
    next: Option<KnownCommitment>,
    revoked: RevokedCommitments,
}

// A copy of what is known of its own commitments. The only error is that memory ran out.
fn copied_own(known: &Known) -> Result<OwnCommitments, AllocError>
    ensures { IfOk result (λ o. o ≡ record {
      signer = known.now.signer;
      newest = known.now.own;
      older = known.now.older;
    }) }
{
    let older = copied_signed(known.older.allocator(), known.older.values())?;
    let signer = known.signer.copy()?;
    let newest = known.own.copy()?;
    Ok(OwnCommitments {
        signer,
        newest,
        older: List::from_vec(older),
    })
}

// A copy of what is known of the peer's commitments. The only error is that memory ran out.
fn copied_peers(known: &Known) -> Result<PeersCommitments, AllocError>
    ensures { IfOk result (λ p. p ≡ record {
      newest = known.now.theirs;
      next = known.now.next;
      revoked = known.now.revoked;
    }) }
{
    let revoked = known.revoked.copy()?;
    let newest = known.theirs.copy()?;
    let next = copied_next(&known.next)?;
    Ok(PeersCommitments {
        newest,
        next,
        revoked,
    })
}

impl Known {
    ghost use Rattle.std.specs.Prelude.{◌≡◌, IfOk};

    /// A copy. The only error is that memory ran out.
    pub fn copy(&self) -> Result<Known, AllocError>
        ensures { IfOk result (λ k. k ≡ self.now) }
    {
        let patterns = self.patterns.share()?;
        let preimages = self.preimages.copy()?;
        let own = copied_own(self)?;
        let peers = copied_peers(self)?;
        Ok(Known {
            patterns,
            terms: self.terms,
            side: self.side,
            signer: own.signer,
            own: own.newest,
            older: own.older,
            theirs: peers.newest,
            next: peers.next,
            revoked: peers.revoked,
            preimages,
        })
    }
}
