//! The names of refusals, and what is known of a small channel.

use crate::fixtures::{Tokens, known, signed_with, terms_on};
use parties::FUNDING;
use resolve::{Known, KnownError, RevokedError, Verdict, due_claims};
use std::alloc::Global;
use std::fmt::Display;
use std::process::Abort;

// Each refusal is printed as its name.
fn prints<E: Display>(rt: &impl Abort, alloc: Global, rows: &[(E, &str)]) {
    for (refusal, name) in rows {
        let printed = format!(in alloc; "{refusal}").expect(rt, "memory");
        assert!(rt; printed.as_str() == *name);
    }
}

const KNOWN_ERRORS: [(KnownError, &str); 6] = [
    (KnownError::NoMemory, "NoMemory"),
    (KnownError::TooManyHtlcs, "TooManyHtlcs"),
    (KnownError::ExpiryTooLarge, "ExpiryTooLarge"),
    (KnownError::WrongTotal, "WrongTotal"),
    (KnownError::BadSignature, "BadSignature"),
    (KnownError::NumberTooLarge, "NumberTooLarge"),
];

const REVOKED_ERRORS: [(RevokedError, &str); 2] = [
    (RevokedError::NoMemory, "NoMemory"),
    (RevokedError::WrongNumber, "WrongNumber"),
];

#[test]
fn prints_every_refusal(rt: HostRuntime) {
    prints(&rt, rt.alloc(), &KNOWN_ERRORS);
    prints(&rt, rt.alloc(), &REVOKED_ERRORS);
}

// Whether A's commitment is refused with these tokens.
fn refuses(rt: &impl Abort, alloc: Global, tokens: Tokens) -> bool {
    let refusal = signed_with(rt, alloc, &terms_on(rt, FUNDING), tokens).err();
    matches!(&refusal, Some(KnownError::BadSignature))
}

#[test]
fn a_signed_commitment_has_the_peers_tokens(rt: HostRuntime) {
    for tokens in &[Tokens::WrongOnCommitment, Tokens::WrongOnHtlc] {
        assert!(rt; refuses(&rt, rt.alloc(), *tokens));
    }
}

// One's own: to_local, and the HTLC with its HTLC transaction. The peer's: to_remote, and the timeout of the HTLC. Revoked: each output, and the HTLC transaction's.
const DUE: [(Verdict, usize); 4] = [
    (Verdict::Ours, 3),
    (Verdict::Theirs, 2),
    (Verdict::TheirsNext, 2),
    (Verdict::Revoked(1), 4),
];

// The number of claims that are due.
fn due(rt: &impl Abort, alloc: Global, known: &Known, verdict: Verdict) -> usize {
    due_claims(alloc, known, verdict).expect(rt, "memory").len()
}

// Whether as many claims are due by each verdict as the table says, and one older commitment is there.
fn knows_what_is_due(rt: &impl Abort, alloc: Global, known: &Known) -> bool {
    for (verdict, wanted) in &DUE {
        if due(rt, alloc, known, *verdict) != *wanted {
            return false;
        }
    }
    known.older.len() == 1
}

// Whether the copy of all that is known does so: of its own commitments, which have the peer's tokens, of the peer's,
// one of which has the last number, and of those that the peer revoked.
fn has_a_copy(rt: &impl Abort, alloc: Global, known: &Known) -> bool {
    let copy = known.copy().expect(rt, "memory");
    let is_same = knows_what_is_due(rt, alloc, &copy);
    drop(copy);
    is_same
}

#[test]
fn a_copy_knows_the_same(rt: HostRuntime) {
    let known = known(&rt, rt.alloc());
    let is_same = has_a_copy(&rt, rt.alloc(), &known);
    drop(known);
    assert!(rt; is_same);
}
