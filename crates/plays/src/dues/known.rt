// What a side knows of the channel. All values of the type `Known` in this program are made here.

use crate::dues::settings::Setting;
use crate::dues::sides::{informed_signer, point_of, secret_of};
use commit::signing_digests;
use forms::SharedPatterns;
use keys::{Key, Signer};
use lists::List;
use penalty::RevokedState;
use resolve::{
    Known, KnownCommitment, KnownPreimages, RevokedCommitment, RevokedCommitments, SignedCommitment,
};
use sighash::Token;
use std::alloc::Global;
use terms::{Side, Terms};
use updates::Tokens;

/// The commitment of a number.
fn commitment(
    alloc: Global,
    setting: &Setting,
    owner: Side,
    number: u64,
) -> Option<KnownCommitment> {
    let point = point_of(alloc, owner, number);
    KnownCommitment::new(alloc, &setting.terms, &setting.view, owner, number, &point).ok()
}

/// The tokens of a key over digests.
fn tokens_over(alloc: Global, key: &Key, digests: &[[u8; 32]]) -> Option<List<Token>> {
    let mut tokens = Vec::new(alloc);
    for digest in digests {
        if tokens.push(Token::new(&key.bytes, digest)).is_err() {
            return None;
        }
    }
    Some(List::from_vec(tokens))
}

/// The peer's tokens on an owner's commitment.
fn tokens_on(alloc: Global, terms: &Terms, owner: Side, known: &KnownCommitment) -> Option<Tokens> {
    let digests = signing_digests(alloc, terms, known.commitment()).ok()?;
    let key = known.commitment().keys().remote_htlc;
    let funding = terms.party(owner.other()).bases.funding;
    Some(Tokens {
        commitment: Token::new(&funding.bytes, &digests.commitment),
        htlcs: tokens_over(alloc, &key, digests.htlcs.values())?,
    })
}

/// A commitment with the peer's tokens.
fn with_tokens(
    alloc: Global,
    terms: &Terms,
    owner: Side,
    own: KnownCommitment,
    tokens: Tokens,
) -> Option<SignedCommitment> {
    let Tokens { commitment, htlcs } = tokens;
    SignedCommitment::new(alloc, terms, owner, own, commitment, htlcs).ok()
}

/// The commitment of a number with the peer's tokens.
fn signed(alloc: Global, setting: &Setting, owner: Side, number: u64) -> Option<SignedCommitment> {
    let own = commitment(alloc, setting, owner, number)?;
    match tokens_on(alloc, &setting.terms, owner, &own) {
        Some(tokens) => with_tokens(alloc, &setting.terms, owner, own, tokens),
        None => None,
    }
}

/// The state of a revoked commitment.
fn revoked_state(
    alloc: Global,
    setting: &Setting,
    owner: Side,
    number: u64,
) -> Option<RevokedState> {
    let secret = secret_of(alloc, owner, number);
    let view = setting.view.copy().ok()?;
    RevokedState::new(setting.terms, view, owner, number, secret).ok()
}

/// A revoked commitment, whose penalties are kept.
fn revoked(
    alloc: Global,
    setting: &Setting,
    owner: Side,
    number: u64,
) -> Option<RevokedCommitment> {
    let state = revoked_state(alloc, setting, owner, number)?;
    RevokedCommitment::new(alloc, state, true).ok()
}

/// Adds the first commitments, which are revoked. Returns whether that can be done.
fn push_revoked(
    alloc: Global,
    setting: &Setting,
    owner: Side,
    count: u64,
    list: &mut RevokedCommitments,
) -> bool {
    for number in 0..count {
        match revoked(alloc, setting, owner, number) {
            Some(revoked) => {
                if list.push(revoked).is_err() {
                    return false;
                }
            }
            None => return false,
        }
    }
    true
}

/// The first commitments, which are revoked.
fn all_revoked(
    alloc: Global,
    setting: &Setting,
    owner: Side,
    count: u64,
) -> Option<RevokedCommitments> {
    let mut list = RevokedCommitments::new(alloc);
    if push_revoked(alloc, setting, owner, count, &mut list) {
        Some(list)
    } else {
        None
    }
}

/// The commitments of the peer.
#[derive(Drop)]
struct PeersCommitments {
    newest: KnownCommitment,
    next: KnownCommitment,
    revoked: RevokedCommitments,
}

/// A side's newest and next commitment, and those that it revoked.
fn peers_commitments(
    alloc: Global,
    setting: &Setting,
    peer: Side,
    newest: u64,
) -> Option<PeersCommitments> {
    let revoked = all_revoked(alloc, setting, peer, newest)?;
    let next = commitment(alloc, setting, peer, newest.saturating_add(1))?;
    let newest = commitment(alloc, setting, peer, newest)?;
    Some(PeersCommitments {
        newest,
        next,
        revoked,
    })
}

/// What a side knows on its own.
#[derive(Drop)]
struct Own {
    signer: Signer,
    commitment: SignedCommitment,
    preimages: KnownPreimages,
}

/// What a side knows on its own, and a preimage if it knows one.
fn own_of(
    alloc: Global,
    setting: &Setting,
    side: Side,
    newest: u64,
    preimage: Option<[u8; 32]>,
) -> Option<Own> {
    let preimages = Vec::from_slice(alloc, preimage.as_slice()).ok()?;
    let signer = informed_signer(alloc, side, newest)?;
    let commitment = signed(alloc, setting, side, newest)?;
    Some(Own {
        signer,
        commitment,
        preimages: KnownPreimages::from_vec(preimages),
    })
}

/// Joins what a side knows on its own with the peer's commitments.
fn joined(
    alloc: Global,
    patterns: SharedPatterns,
    terms: &Terms,
    side: Side,
    own: Own,
    theirs: PeersCommitments,
) -> Known {
    let Own {
        signer,
        commitment,
        preimages,
    } = own;
    let PeersCommitments {
        newest,
        next,
        revoked,
    } = theirs;
    Known {
        patterns,
        terms: *terms,
        side,
        signer,
        own: commitment,
        older: List::new(alloc),
        theirs: newest,
        next: Some(next),
        revoked,
        preimages,
    }
}

/// What a side knows if both sides' newest commitments have this number, those before it are revoked, and the peer's next one is signed.
pub fn known(
    alloc: Global,
    setting: &Setting,
    side: Side,
    newest: u64,
    preimage: Option<[u8; 32]>,
) -> Option<Known> {
    let patterns = SharedPatterns::new(alloc).ok()?;
    let own = own_of(alloc, setting, side, newest, preimage)?;
    match peers_commitments(alloc, setting, side.other(), newest) {
        Some(theirs) => Some(joined(alloc, patterns, &setting.terms, side, own, theirs)),
        None => {
            drop(own);
            None
        }
    }
}
