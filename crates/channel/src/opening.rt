//! What a side gives its peer when a channel opens.

ghost use Rattle.std.specs.Prelude.{◌≡◌, ◌^◌, ◌<◌, [], ◌∷◌, IfOk, IfErr, not};
ghost use Rattle.std.specs.Str.{bytes_eq};
ghost use Rattle.updates.specs.declared.errors.ChannelError.TheVariants.{NoMemory, BadSignature};
ghost use Rattle.terms.specs.Sides.{other};
ghost use Rattle.channel.specs.Points.{secret_at, point_at};
ghost use Rattle.channel.specs.States.{first_of};
ghost use Rattle.terms.specs.Refusals.{OkUnless};
ghost use Rattle.updates.specs.Refusals.{first_refusal, IsRefusal};
ghost use Rattle.channel.specs.Tokens.{peer_tokens, opening_tests, IsBuilt};
ghost use Rattle.terms.specs.Agreement.{party};
ghost use Rattle.keys.specs.declared.bases.Base.TheVariants.{Funding};
ghost use Rattle.keys.specs.Derivation.{base_key};

use crate::commitments::CommitmentState;
use crate::tokens::{peer_tokens, sign_commitment};
use keys::{Key, Signer, point};
use secrets::from_seed;
use sighash::Token;
use std::alloc::{AllocError, Global};
use terms::{Side, Terms};
use updates::{ChannelError, Ledger, Tokens};

// The index of the secret of commitment number 0.
pub(crate) const FIRST_INDEX: u64 = 281_474_976_710_655;

/// A side's per-commitment points that its peer has from the beginning (BOLT 2, `first_per_commitment_point` and `second_per_commitment_point`).
#[derive(Clone, Copy, Debug, PartialEq, Eq, Drop)]
pub struct OpeningPoints {
    /// For commitment 0.
    pub first: Key,
    /// For commitment 1.
    pub second: Key,
}

/// The points of a signer for commitments 0 and 1.
pub fn opening_points(signer: &Signer) -> OpeningPoints
    ensures first { result.first ≡ point_at signer.now.seed 0 }
    ensures second { result.second ≡ point_at signer.now.seed 1 }
{
    OpeningPoints {
        first: own_point(signer, 0),
        second: own_point(signer, 1),
    }
}

/// A new signer with the points that it knows when a channel opens: the peer's two, and its own.
pub(crate) fn with_opening_points(
    signer: Signer,
    first: &Key,
    next: &Key,
) -> Result<Signer, AllocError>
    requires { signer.points ≡ [] }
    ensures seed { IfOk result (λ s. s.seed ≡ signer.seed) }
    ensures points { IfOk result (λ s. s.points ≡ first.now.bytes ∷ next.now.bytes
        ∷ (point_at signer.seed 0).bytes ∷ (point_at signer.seed 1).bytes ∷ []) }
    ensures secrets { IfOk result (λ s. s.secrets ≡ signer.secrets) }
{
    let own = opening_points(&signer);
    let mut signer = signer;
    signer.learn_point(first)?;
    signer.learn_point(next)?;
    signer.learn_point(&own.first)?;
    signer.learn_point(&own.second)?;
    Ok(signer)
}

/// The token of a side on commitment 0 of its peer, whose point for it is `point` (BOLT 2, `funding_created` and `funding_signed`). The signer's funding
/// base key stands in the terms. The only error is that memory ran out.
pub fn opening_token(
    alloc: Global,
    terms: &Terms,
    side: Side,
    signer: &Signer,
    point: &Key,
) -> Result<Token, ChannelError>
    requires { (party side terms.now).bases.funding.bytes ≡ base_key signer.now.seed Funding }
    ensures ok { IfOk result (λ t. t ≡ (peer_tokens terms.now
        (first_of terms.now (other side) point.now)).commitment) }
    ensures err { IfErr result (λ e. e ≡ NoMemory) }
{
    match first_commitment(alloc, *terms, side.other(), *point) {
        Ok(first) => sign_commitment(alloc, signer, terms, &first),
        Err(refusal) => Err(refusal),
    }
}

// A signer's secret of a commitment number.
#[tactic(auto, unfolding(crate::specs::Points::secret_at, crate::specs::Points::index_of))]
pub(crate) fn own_secret(signer: &Signer, number: u64) -> [u8; 32]
    requires { number < 2 ^ 48 }
    ensures { result ≡ secret_at signer.now.seed number }
{
    from_seed(&signer.commitment_seed(), FIRST_INDEX - number)
}

// A signer's point for a commitment number.
#[tactic(auto, using(crate::proofs::SameKeys::key_of_point))]
pub(crate) fn own_point(signer: &Signer, number: u64) -> Key
    requires { number < 2 ^ 48 }
    ensures { result ≡ point_at signer.now.seed number }
{
    point(&own_secret(signer, number))
}

// Commitment 0 of an owner, which pays the balances at the start.
#[tactic(auto, using(crate::proofs::Built::built_view))]
pub(crate) fn first_commitment(
    alloc: Global,
    terms: Terms,
    owner: Side,
    point: Key,
) -> Result<CommitmentState, ChannelError>
    ensures ok { IfOk result (λ c. c ≡ first_of terms owner point) }
    ensures built { IfOk result (λ c. IsBuilt terms c) }
    ensures err { IfErr result (λ e. e ≡ NoMemory) }
{
    match Ledger::new(alloc, terms, owner).view_to_receive() {
        Ok(view) => Ok(CommitmentState {
            view,
            owner,
            number: 0,
            point,
        }),
        Err(_) => Err(ChannelError::NoMemory),
    }
}

// Commitment 0 of each side, as a channel's lists begin, and the peer's tokens on this side's.
#[derive(Drop)]
pub(crate) struct FirstCommitments {
    pub(crate) own: OwnFirst,
    pub(crate) signed: Vec<CommitmentState>,
}

// This side's commitment 0, and the peer's tokens on it.
#[derive(Drop)]
pub(crate) struct OwnFirst {
    pub(crate) mine: Vec<CommitmentState>,
    pub(crate) tokens: Vec<Tokens>,
}

// The tokens of the owner's peer on a commitment: BadSignature unless this token is the one on the commitment itself.
fn tokens_by_peer(
    alloc: Global,
    terms: &Terms,
    commitment: &CommitmentState,
    token: &Token,
) -> Result<Tokens, ChannelError>
    requires { IsBuilt terms.now commitment.now }
    ensures ok { IfOk result (λ t. t ≡ peer_tokens terms.now commitment.now) }
    ensures tested { OkUnless result
        (first_refusal ((
          not (bytes_eq token.now (peer_tokens terms.now commitment.now).commitment),
          BadSignature,
        ) ∷ [])) IsRefusal }
{
    match peer_tokens(alloc, terms, commitment) {
        Ok(expected) => {
            if token.bytes() == expected.commitment.bytes() {
                Ok(expected)
            } else {
                Err(ChannelError::BadSignature)
            }
        }
        Err(_) => Err(ChannelError::NoMemory),
    }
}

// A list with only this commitment.
fn alone(alloc: Global, commitment: CommitmentState) -> Result<Vec<CommitmentState>, AllocError>
    ensures { IfOk result (λ v. v.items ≡ commitment ∷ []) }
{
    let mut list = Vec::new(alloc);
    list.push(commitment)?;
    Ok(list)
}

// A list with only these tokens.
fn tokens_alone(alloc: Global, tokens: Tokens) -> Result<Vec<Tokens>, AllocError>
    ensures { IfOk result (λ v. v.items ≡ tokens ∷ []) }
{
    let mut list = Vec::new(alloc);
    list.push(tokens)?;
    Ok(list)
}

// A list of a side's commitment 0, and one of the peer's tokens on it. The token must be the one on the commitment itself.
fn first_of_own(
    alloc: Global,
    terms: Terms,
    side: Side,
    signer: &Signer,
    token: &Token,
) -> Result<OwnFirst, ChannelError>
    ensures mine { IfOk result (λ f. f.mine.items ≡ first_of terms side (point_at signer.now.seed 0)
        ∷ []) }
    ensures tokens { IfOk result (λ f. f.tokens.items ≡ peer_tokens terms
        (first_of terms side (point_at signer.now.seed 0)) ∷ []) }
    ensures tested { OkUnless result
        (first_refusal (opening_tests terms side signer.now.seed token.now)) IsRefusal }
{
    let first = match first_commitment(alloc, terms, side, own_point(signer, 0)) {
        Ok(first) => first,
        Err(_) => return Err(ChannelError::NoMemory),
    };
    let tokens = tokens_by_peer(alloc, &terms, &first, token)?;
    let tokens = tokens_alone(alloc, tokens)?;
    let mine = alone(alloc, first)?;
    Ok(OwnFirst { mine, tokens })
}

// The list of the peer's commitment 0.
fn first_of_peer(
    alloc: Global,
    terms: Terms,
    peer: Side,
    point: Key,
) -> Result<Vec<CommitmentState>, AllocError>
    ensures { IfOk result (λ v. v.items ≡ first_of terms peer point ∷ []) }
{
    match first_commitment(alloc, terms, peer, point) {
        Ok(first) => alone(alloc, first),
        Err(_) => Err(AllocError),
    }
}

/// Commitment 0 of the signer's side with the peer's tokens, and of the peer by its point. BadSignature unless the token is the peer's on the first.
pub(crate) fn first_commitments(
    alloc: Global,
    terms: Terms,
    side: Side,
    signer: &Signer,
    peers: Key,
    token: &Token,
) -> Result<FirstCommitments, ChannelError>
    ensures mine { IfOk result (λ f. f.own.mine.items ≡ first_of terms side
        (point_at signer.now.seed 0) ∷ []) }
    ensures tokens { IfOk result (λ f. f.own.tokens.items ≡ peer_tokens terms
        (first_of terms side (point_at signer.now.seed 0)) ∷ []) }
    ensures signed { IfOk result (λ f. f.signed.items ≡ first_of terms (other side) peers ∷ []) }
    ensures tested { OkUnless result
        (first_refusal (opening_tests terms side signer.now.seed token.now)) IsRefusal }
{
    let own = first_of_own(alloc, terms, side, signer, token)?;
    let signed = first_of_peer(alloc, terms, side.other(), peers)?;
    Ok(FirstCommitments { own, signed })
}
