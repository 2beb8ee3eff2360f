//! What is known of a small channel.

use commit::signing_digests;
use forms::SharedPatterns;
use keys::{Key, Signer};
use lists::List;
use parties::{FUNDING, htlc, key_of, one_key, party_with, terms_of, view};
use penalty::RevokedState;
use resolve::{
    Known, KnownCommitment, KnownError, KnownPreimages, MAX_NUMBER, RevokedCommitment,
    RevokedCommitments, SignedCommitment,
};
use sighash::Token;
use std::alloc::Global;
use std::process::Abort;
use terms::{BaseKeys, Party, Side, Terms, View};
use tx::OutPoint;

// A key: 02, and then one byte 32 times.
fn key(rt: &impl Abort, fill: u8) -> Key {
    key_of(fill).expect(rt, "a key")
}

// A side whose funding key has this byte, and whose other keys have the next one.
fn party(rt: &impl Abort, start_msat: u64, fill: u8) -> Party {
    let bases = BaseKeys {
        funding: key(rt, fill),
        ..one_key(key(rt, fill ^ 1))
    };
    party_with(bases, start_msat)
}

/// The terms of a channel of 100,000 satoshis on a funding output.
pub fn terms_on(rt: &impl Abort, funding: OutPoint) -> Terms {
    let (a, b) = (party(rt, 80_000_000, 0xa0), party(rt, 20_000_000, 0xb0));
    terms_of(funding, 100_000, a, b).expect(rt, "terms")
}

// A view with an HTLC that A offered.
fn offered(rt: &impl Abort, alloc: Global) -> View {
    let of_a = [htlc(0, 10_000_000, 9, 500)];
    view(alloc, [70_000_000, 20_000_000], &of_a, &[]).expect(rt, "memory")
}

/// The owner's commitment of a number, to a view.
pub fn commitment_to(
    rt: &impl Abort,
    alloc: Global,
    terms: &Terms,
    view: &View,
    owner: Side,
    number: u64,
) -> KnownCommitment {
    let built = KnownCommitment::new(alloc, terms, view, owner, number, &key(rt, 0xcc));
    built.expect(rt, "a commitment")
}

// The owner's commitment of a number, with an HTLC that A offered.
fn numbered(
    rt: &impl Abort,
    alloc: Global,
    terms: &Terms,
    owner: Side,
    number: u64,
) -> KnownCommitment {
    commitment_to(rt, alloc, terms, &offered(rt, alloc), owner, number)
}

/// Whose tokens come with A's commitment 3: those of B, or one of a wrong key.
#[derive(Clone, Copy)]
pub enum Tokens {
    OfPeer,
    WrongOnCommitment,
    WrongOnHtlc,
}

// The key of the token on the commitment.
fn funding_key(terms: &Terms, tokens: Tokens) -> Key {
    match tokens {
        Tokens::WrongOnCommitment => terms.a.bases.funding,
        _ => terms.b.bases.funding,
    }
}

// The key of the tokens on its HTLC transactions.
fn htlc_key(known: &KnownCommitment, tokens: Tokens) -> Key {
    let keys = known.commitment().keys();
    match tokens {
        Tokens::WrongOnHtlc => keys.local_htlc,
        _ => keys.remote_htlc,
    }
}

// The tokens of a key on the HTLC transactions of a commitment.
fn tokens_on(rt: &impl Abort, alloc: Global, key: &Key, digests: &[[u8; 32]]) -> List<Token> {
    let mut tokens = List::new(alloc);
    for digest in digests {
        let on_htlc = Token::new(&key.bytes, digest);
        tokens.push(on_htlc).expect(rt, "memory");
    }
    tokens
}

// The token on a commitment, and those on its HTLC transactions.
fn tokens_of(
    rt: &impl Abort,
    alloc: Global,
    terms: &Terms,
    known: &KnownCommitment,
    tokens: Tokens,
) -> (Token, List<Token>) {
    let digests = signing_digests(alloc, terms, known.commitment()).expect(rt, "memory");
    let token = Token::new(&funding_key(terms, tokens).bytes, &digests.commitment);
    let key = htlc_key(known, tokens);
    (token, tokens_on(rt, alloc, &key, digests.htlcs.values()))
}

/// A's commitment 3, with these tokens.
pub fn signed_with(
    rt: &impl Abort,
    alloc: Global,
    terms: &Terms,
    tokens: Tokens,
) -> Result<SignedCommitment, KnownError> {
    let known = numbered(rt, alloc, terms, Side::A, 3);
    let (token, on_htlcs) = tokens_of(rt, alloc, terms, &known, tokens);
    SignedCommitment::new(alloc, terms, Side::A, known, token, on_htlcs)
}

// A's commitment 3, with the tokens of B.
fn signed(rt: &impl Abort, alloc: Global, terms: &Terms) -> SignedCommitment {
    signed_with(rt, alloc, terms, Tokens::OfPeer).expect(rt, "the peer's tokens")
}

// A's own older commitment.
fn older(rt: &impl Abort, alloc: Global, terms: &Terms) -> List<SignedCommitment> {
    let mut older = List::new(alloc);
    older.push(signed(rt, alloc, terms)).expect(rt, "memory");
    older
}

// B's revoked commitment of a number.
fn revoked(rt: &impl Abort, alloc: Global, terms: &Terms, number: u64) -> RevokedCommitment {
    let view = offered(rt, alloc);
    let state = RevokedState::new(*terms, view, Side::B, number, [5; 32]).expect(rt, "a state");
    RevokedCommitment::new(alloc, state, false).expect(rt, "memory")
}

// The revoked commitments 0 and 1, with the penalties of 1 kept.
fn two_revoked(rt: &impl Abort, alloc: Global, terms: &Terms) -> RevokedCommitments {
    let mut list = RevokedCommitments::new(alloc);
    for number in 0..2 {
        let revoked = revoked(rt, alloc, terms, number);
        list.push(revoked).expect(rt, "the next number");
    }
    assert!(rt; list.keep(1));
    list
}

/// What A knows on these terms, with two revoked commitments of B. The peer's next commitment has the last number.
pub fn known_with(rt: &impl Abort, alloc: Global, terms: &Terms, theirs: KnownCommitment) -> Known {
    Known {
        patterns: SharedPatterns::new(alloc).expect(rt, "memory"),
        terms: *terms,
        side: Side::A,
        older: older(rt, alloc, terms),
        revoked: two_revoked(rt, alloc, terms),
        preimages: KnownPreimages::from_vec(Vec::new(alloc)),
        signer: Signer::new(alloc, &[1; 32]),
        own: signed(rt, alloc, terms),
        theirs,
        next: Some(numbered(rt, alloc, terms, Side::B, MAX_NUMBER)),
    }
}

/// The same, where the peer's newest commitment has the HTLC too.
pub fn known(rt: &impl Abort, alloc: Global) -> Known {
    let terms = terms_on(rt, FUNDING);
    let theirs = numbered(rt, alloc, &terms, Side::B, 2);
    known_with(rt, alloc, &terms, theirs)
}
