// What a side knows of its channel.

ghost use Rattle.std.specs.Prelude.{◌≡◌, ◌↔◌, ◌≤◌, ◌<◌, ◌+◌, ◌∷◌, ◌++◌, [], ℕ, List as Values, None, Some, true, false, map, length, slice_get, unwrap_or, IfOk, IfSome, IsSome, OnOk};
ghost use Rattle.std.specs.List.{cons_option};
ghost use Rattle.keys.specs.Rights.{MaySign};
ghost use Rattle.channel.specs.Rights.{rights_of};
ghost use Rattle.channel.specs.Tokens.{contents_of, peer_tokens};
ghost use Rattle.penalty.specs.Paying.{refusal_of as view_refusal_of};
ghost use Rattle.resolve.specs.Known.{refusal_of};
ghost use Rattle.resolve.specs.Numbered.{is_next};
ghost use Rattle.book.specs.Knowing.{below, signed_parts, signed_by_peer, own_at, theirs_at, revoked_parts, revoked_by, revoked_at, flag_at, IsKnownOf};

use channel::{Channel, CommitmentState};
use forms::SharedPatterns;
use keys::Signer;
use lists::List;
use penalty::RevokedState;
use resolve::{
    Known, KnownCommitment, KnownError, KnownPreimages, RevokedCommitment, RevokedCommitments,
    RevokedError, SignedCommitment,
};
use std::alloc::{AllocError, Global};
use terms::Terms;
use updates::Tokens;

// A commitment that the channel recorded.
fn known_commitment(
    alloc: Global,
    terms: &Terms,
    state: &CommitmentState,
) -> Result<KnownCommitment, AllocError>
    requires { refusal_of terms.now state.now.view state.now.number ≡ None }
    ensures { IfOk result (λ k. k ≡ contents_of terms.now state.now) }
{
    match KnownCommitment::new(
        alloc,
        terms,
        &state.view,
        state.owner,
        state.number,
        &state.point,
    ) {
        Ok(known) => Ok(known),
        Err(error) => match error {
            KnownError::NoMemory => Err(AllocError),
            _ => unreachable!(),
        },
    }
}

// A commitment that the channel recorded, with the tokens of its owner's peer. They are the right ones by what is required, so no digest is worked out.
fn signed_by(
    alloc: Global,
    terms: &Terms,
    state: &CommitmentState,
    tokens: Tokens,
) -> Result<SignedCommitment, AllocError>
    requires passed { refusal_of terms.now state.now.view state.now.number ≡ None }
    requires tokens { tokens ≡ peer_tokens terms.now state.now }
    ensures { IfOk result (λ s. signed_parts s ≡ signed_by_peer terms.now state.now) }
{
    let commitment = known_commitment(alloc, terms, state)?;
    Ok(SignedCommitment {
        commitment,
        terms: *terms,
        owner: state.owner,
        token: tokens.commitment,
        htlc_tokens: tokens.htlcs,
    })
}

// This side's commitment of a number, with the peer's tokens.
fn own_commitment(
    alloc: Global,
    channel: &Channel,
    number: u64,
) -> Result<SignedCommitment, AllocError>
    requires { number ≤ channel.now.number }
    ensures { IfOk result (λ s. Some (signed_parts s) ≡ own_at channel.now number) }
{
    let _last = channel.number();
    match channel.own_commitments().get(number as usize) {
        Some(state) => match channel.own_tokens(number) {
            Ok(tokens) => match tokens {
                Some(tokens) => signed_by(alloc, channel.terms(), state, tokens),
                None => unreachable!(),
            },
            Err(error) => Err(error),
        },
        None => unreachable!(),
    }
}

// This side's commitments before its newest one, with the peer's tokens.
#[tactic(auto, using(crate::proofs::Recorded::one_more))]
fn older_commitments(alloc: Global, channel: &Channel) -> Result<Vec<SignedCommitment>, AllocError>
    ensures { IfOk result (λ v. map signed_parts v.items ≡ below
        (own_at channel.now) channel.now.number) }
{
    let mut older = Vec::new(alloc);
    for number in 0..channel.number() {
        older.push(own_commitment(alloc, channel, number)?)?;
    }
    Ok(older)
}

// The peer's commitment of a number, if it was signed.
fn peers_commitment(
    alloc: Global,
    channel: &Channel,
    number: u64,
) -> Result<Option<KnownCommitment>, AllocError>
    ensures value { IfOk result (λ k. k ≡ theirs_at channel.now number) }
    ensures there { IfOk result (λ k. number ≤ channel.now.peer_number → IsSome k) }
{
    let _last = channel.peer_number();
    match channel.peers_commitments().get(number as usize) {
        Some(state) => match known_commitment(alloc, channel.terms(), state) {
            Ok(known) => Ok(Some(known)),
            Err(error) => Err(error),
        },
        None => Ok(None),
    }
}

// A commitment of the peer, with the secret that revokes it.
fn revoked_commitment(
    alloc: Global,
    channel: &Channel,
    state: &CommitmentState,
    secret: [u8; 32],
    is_kept: bool,
) -> Result<RevokedCommitment, AllocError>
    requires { view_refusal_of channel.now.held.terms state.now.view ≡ None }
    ensures { IfOk result (λ r. revoked_parts r ≡ revoked_by channel.now state.now secret is_kept) }
{
    let view = state.view.copy()?;
    match RevokedState::new(
        *channel.terms(),
        view,
        channel.side().other(),
        state.number,
        secret,
    ) {
        Ok(state) => RevokedCommitment::new(alloc, state, is_kept),
        Err(_) => unreachable!(),
    }
}

// Whether the penalties of this number are kept.
fn is_kept(flags: &[bool], number: u64) -> bool
    ensures { result ≡ flag_at flags.now number }
{
    match flags.get(number as usize) {
        Some(is_kept) => *is_kept,
        None => false,
    }
}

// The peer's revoked commitment of a number.
fn revoked_of(
    alloc: Global,
    channel: &Channel,
    number: u64,
    flags: &[bool],
) -> Result<RevokedCommitment, AllocError>
    requires { number < channel.now.peer_number }
    ensures value { IfOk result (λ r. Some (revoked_parts r) ≡ revoked_at channel.now
        (flag_at flags.now) number) }
    ensures number { IfOk result (λ r. r.state.number ≡ number) }
{
    let _count = channel.peer_number();
    let is_kept = is_kept(flags, number);
    let state = &channel.peers_commitments()[number as usize];
    match channel.peers_secret(number) {
        Some(secret) => revoked_commitment(alloc, channel, state, secret, is_kept),
        None => unreachable!(),
    }
}

// Appends the commitment of the next number.
fn push_next(
    revoked: &mut RevokedCommitments,
    commitment: RevokedCommitment,
) -> Result<(), AllocError>
    requires { is_next revoked.old commitment.state.number ≡ true }
    ensures { OnOk result (revoked.new ≡ revoked.old ++ commitment ∷ []) }
{
    match revoked.push(commitment) {
        Ok(()) => Ok(()),
        Err(error) => match error {
            RevokedError::NoMemory => Err(AllocError),
            _ => unreachable!(),
        },
    }
}

// The peer's revoked commitments. By number, a flag says whether the penalties are kept.
fn revoked_commitments(
    alloc: Global,
    channel: &Channel,
    flags: &[bool],
) -> Result<RevokedCommitments, AllocError>
    ensures { IfOk result (λ r. map revoked_parts r ≡ below
        (revoked_at channel.now (flag_at flags.now)) (length channel.now.secrets)) }
{
    let mut revoked = RevokedCommitments::new(alloc);
    for number in 0..channel.peer_number() {
        let commitment = revoked_of(alloc, channel, number, flags)?;
        push_next(&mut revoked, commitment)?;
    }
    Ok(revoked)
}

// What the side knows of its own commitments, and what it may sign with.
#[derive(Drop)]
struct OwnCommitments {
    signer: Signer,
    newest: SignedCommitment,
    older: List<SignedCommitment>,
}

// What the side knows of the peer's commitments.
#[derive(Drop)]
struct PeersCommitments {
    newest: KnownCommitment,
    next: Option<KnownCommitment>,
    revoked: RevokedCommitments,
}

// Gathers what the side knows of its own commitments.
fn own_of(alloc: Global, channel: &Channel) -> Result<OwnCommitments, AllocError>
    ensures seed { IfOk result (λ o. o.signer.seed ≡ channel.now.seed) }
    ensures rights { IfOk result (λ o. (key : Values ℕ) → MaySign o.signer key
        ↔ MaySign (rights_of channel.now) key) }
    ensures newest { IfOk result (λ o. Some
        (signed_parts o.newest) ≡ own_at channel.now channel.now.number) }
    ensures older { IfOk result (λ o. map signed_parts o.older ≡ below
        (own_at channel.now) channel.now.number) }
{
    let older = older_commitments(alloc, channel)?;
    let signer = channel.signer().copy()?;
    let newest = own_commitment(alloc, channel, channel.number())?;
    Ok(OwnCommitments {
        signer,
        newest,
        older: List::from_vec(older),
    })
}

// The peer's newest commitment.
fn peers_newest(alloc: Global, channel: &Channel) -> Result<KnownCommitment, AllocError>
    ensures { IfOk result (λ k. Some k ≡ theirs_at channel.now channel.now.peer_number) }
{
    match peers_commitment(alloc, channel, channel.peer_number())? {
        Some(newest) => Ok(newest),
        None => unreachable!(),
    }
}

// Gathers what the side knows of the peer's commitments. By number, a flag says whether the penalties of a revoked one are kept.
fn peers_of(
    alloc: Global,
    channel: &Channel,
    flags: &[bool],
) -> Result<PeersCommitments, AllocError>
    ensures newest { IfOk result (λ p. Some p.newest
        ≡ theirs_at channel.now channel.now.peer_number) }
    ensures next { IfOk result (λ p. p.next ≡ theirs_at channel.now (channel.now.peer_number + 1)) }
    ensures revoked { IfOk result (λ p. map revoked_parts p.revoked ≡ below
        (revoked_at channel.now (flag_at flags.now)) (length channel.now.secrets)) }
{
    let number = channel.peer_number();
    let revoked = revoked_commitments(alloc, channel, flags)?;
    let newest = peers_newest(alloc, channel)?;
    let next = peers_commitment(alloc, channel, number + 1)?;
    Ok(PeersCommitments {
        newest,
        next,
        revoked,
    })
}

/// What the side knows of its channel. By number, a flag says whether the penalties of a revoked commitment of the peer are kept; `preimages` are those that came.
/// The only error is that memory ran out.
pub(crate) fn known_of(
    alloc: Global,
    patterns: SharedPatterns,
    channel: &Channel,
    flags: &[bool],
    preimages: Vec<[u8; 32]>,
) -> Result<Known, AllocError>
    ensures { IfOk result (IsKnownOf channel.now (flag_at flags.now) preimages.items) }
{
    let own = own_of(alloc, channel)?;
    let peers = peers_of(alloc, channel, flags)?;
    Ok(Known {
        patterns,
        terms: *channel.terms(),
        side: channel.side(),
        signer: own.signer,
        own: own.newest,
        older: own.older,
        theirs: peers.newest,
        next: peers.next,
        revoked: peers.revoked,
        preimages: KnownPreimages::from_vec(preimages),
    })
}
