//! Tokens on commitments.

ghost use Rattle.std.specs.Prelude.{◌≡◌, map, IfOk, IfErr};
ghost use Rattle.script.specs.Token.{token_of};
ghost use Rattle.updates.specs.declared.errors.ChannelError.TheVariants.{NoMemory};
ghost use Rattle.keys.specs.Rights.{MaySign};
ghost use Rattle.commit.specs.Signing.{commitment_digest, htlc_digests};
ghost use Rattle.channel.specs.States.{all_eq, same_tokens};
ghost use Rattle.channel.specs.Tokens.{contents_of, funding_key, htlc_key, peer_tokens, IsBuilt};

use crate::commitments::CommitmentState;
use commit::{BuildError, Commitment, Digests, build, signing_digests};
use keys::{Key, Signer};
use lists::List;
use sighash::Token;
use std::alloc::{AllocError, Global};
use terms::Terms;
use updates::{ChannelError, Tokens};

// What the owner's peer signs, and its keys for it.
#[derive(Drop)]
struct Signable {
    digests: Digests,
    funding_key: Key,
    htlc_key: Key,
}

// The commitment, whose transaction is within the limits.
fn build_whole(
    alloc: Global,
    terms: &Terms,
    state: &CommitmentState,
) -> Result<Commitment, ChannelError>
    requires { IsBuilt terms.now state.now }
    ensures ok { IfOk result (λ c. c ≡ contents_of terms.now state.now) }
    ensures err { IfErr result (λ e. e ≡ NoMemory) }
{
    match build(
        alloc,
        terms,
        &state.view,
        state.owner,
        state.number,
        &state.point,
    ) {
        Ok(commitment) => Ok(commitment),
        Err(BuildError::NoMemory) => Err(ChannelError::NoMemory),
        Err(_) => unreachable!(),
    }
}

// What the owner's peer signs of a commitment.
fn make_signable(
    alloc: Global,
    terms: &Terms,
    state: &CommitmentState,
) -> Result<Signable, ChannelError>
    requires { IsBuilt terms.now state.now }
    ensures commitment { IfOk result (λ s. s.digests.commitment ≡ commitment_digest terms.now
        (contents_of terms.now state.now)) }
    ensures htlcs { IfOk result (λ s. s.digests.htlcs ≡ htlc_digests
        (contents_of terms.now state.now)) }
    ensures funding_key { IfOk result (λ s. s.funding_key.bytes ≡ funding_key terms.now state.now) }
    ensures htlc_key { IfOk result (λ s. s.htlc_key.bytes ≡ htlc_key terms.now state.now) }
    ensures err { IfErr result (λ e. e ≡ NoMemory) }
{
    let commitment = match build_whole(alloc, terms, state) {
        Ok(commitment) => commitment,
        Err(_) => return Err(ChannelError::NoMemory),
    };
    let htlc_key = commitment.keys().remote_htlc;
    match signing_digests(alloc, terms, &commitment) {
        Ok(digests) => Ok(Signable {
            digests,
            funding_key: terms.party(state.owner.other()).bases.funding,
            htlc_key,
        }),
        Err(_) => Err(ChannelError::NoMemory),
    }
}

// The tokens of a key on digests.
fn tokens_by(alloc: Global, key: &Key, digests: &[[u8; 32]]) -> Result<Vec<Token>, AllocError>
    ensures { IfOk result (λ v. v.items ≡ map (token_of key.now.bytes) digests.now) }
{
    let mut tokens = Vec::with_capacity(alloc, digests.len())?;
    for digest in digests {
        tokens.push(Token::new(&key.bytes, digest))?;
    }
    Ok(tokens)
}

/// The tokens that the owner's peer gives for a commitment. The only error is that memory ran out.
pub(crate) fn peer_tokens(
    alloc: Global,
    terms: &Terms,
    state: &CommitmentState,
) -> Result<Tokens, ChannelError>
    requires { IsBuilt terms.now state.now }
    ensures ok { IfOk result (λ t. t ≡ peer_tokens terms.now state.now) }
    ensures err { IfErr result (λ e. e ≡ NoMemory) }
{
    let signable = match make_signable(alloc, terms, state) {
        Ok(signable) => signable,
        Err(_) => return Err(ChannelError::NoMemory),
    };
    let digests = signable.digests;
    match tokens_by(alloc, &signable.htlc_key, digests.htlcs.values()) {
        Ok(htlcs) => Ok(Tokens {
            commitment: Token::new(&signable.funding_key.bytes, &digests.commitment),
            htlcs: List::from_vec(htlcs),
        }),
        Err(_) => Err(ChannelError::NoMemory),
    }
}

// The signer's token on a digest.
fn sign_one(signer: &Signer, key: &Key, digest: &[u8; 32]) -> Token
    requires { MaySign signer.now key.now.bytes }
    ensures { result ≡ token_of key.now.bytes digest.now }
{
    match signer.sign(key, digest) {
        Ok(token) => token,
        Err(_) => unreachable!(),
    }
}

/// The token on a commitment of a signer who is the owner's peer. The only error is that memory ran out.
pub(crate) fn sign_commitment(
    alloc: Global,
    signer: &Signer,
    terms: &Terms,
    state: &CommitmentState,
) -> Result<Token, ChannelError>
    requires built { IsBuilt terms.now state.now }
    requires funding { MaySign signer.now (funding_key terms.now state.now) }
    ensures ok { IfOk result (λ t. t ≡ (peer_tokens terms.now state.now).commitment) }
    ensures err { IfErr result (λ e. e ≡ NoMemory) }
{
    match make_signable(alloc, terms, state) {
        Ok(signable) => Ok(sign_one(signer, &signable.funding_key, &signable.digests.commitment)),
        Err(_) => Err(ChannelError::NoMemory),
    }
}

// The signer's tokens of a key on digests.
fn sign_all(
    alloc: Global,
    signer: &Signer,
    key: &Key,
    digests: &[[u8; 32]],
) -> Result<Vec<Token>, AllocError>
    requires { MaySign signer.now key.now.bytes }
    ensures { IfOk result (λ v. v.items ≡ map (token_of key.now.bytes) digests.now) }
{
    let mut tokens = Vec::with_capacity(alloc, digests.len())?;
    for digest in digests {
        tokens.push(sign_one(signer, key, digest))?;
    }
    Ok(tokens)
}

/// The tokens of a signer who is the owner's peer. The only error is that memory ran out.
pub(crate) fn sign_tokens(
    alloc: Global,
    signer: &Signer,
    terms: &Terms,
    state: &CommitmentState,
) -> Result<Tokens, ChannelError>
    requires built { IsBuilt terms.now state.now }
    requires funding { MaySign signer.now (funding_key terms.now state.now) }
    requires htlc { MaySign signer.now (htlc_key terms.now state.now) }
    ensures ok { IfOk result (λ t. t ≡ peer_tokens terms.now state.now) }
    ensures err { IfErr result (λ e. e ≡ NoMemory) }
{
    let signable = match make_signable(alloc, terms, state) {
        Ok(signable) => signable,
        Err(_) => return Err(ChannelError::NoMemory),
    };
    let digests = signable.digests;
    match sign_all(alloc, signer, &signable.htlc_key, digests.htlcs.values()) {
        Ok(htlcs) => Ok(Tokens {
            commitment: sign_one(signer, &signable.funding_key, &digests.commitment),
            htlcs: List::from_vec(htlcs),
        }),
        Err(_) => Err(ChannelError::NoMemory),
    }
}

// Whether two lists of tokens are the same.
fn same_list(first: &[Token], second: &[Token]) -> bool
    ensures { result ≡ all_eq first.now second.now }
{
    if first.len() != second.len() {
        return false;
    }
    for i in 0..first.len() {
        if first[i].bytes() != second[i].bytes() {
            return false;
        }
    }
    true
}

/// Whether the tokens are the same, and the same number of them.
pub(crate) fn same_tokens(first: &Tokens, second: &Tokens) -> bool
    ensures { result ≡ same_tokens first.now second.now }
{
    first.commitment.bytes() == second.commitment.bytes()
        && same_list(first.htlcs.values(), second.htlcs.values())
}
