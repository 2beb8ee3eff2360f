//! The penalty set of a small state. The contents of sets are tested with the vectors of penalties.

use crate::fixtures::{key, one_key_party};
use forms::patterns;
use parties::{FUNDING, htlc, terms_of, view};
use penalty::{
    PenaltySet, RevokedState, Side, StateError, Terms, View, payable_commitment, penalties, refusal,
};
use std::alloc::Global;
use std::process::Abort;

fn terms(rt: &impl Abort) -> Terms {
    let (a, b) = (one_key_party(rt, 80_000_000), one_key_party(rt, 20_000_000));
    terms_of(FUNDING, 100_000, a, b).expect(rt, "terms")
}

// A view with an HTLC that A offered.
fn offered(rt: &impl Abort, alloc: Global) -> View {
    let of_a = [htlc(0, 10_000_000, 9, 500)];
    view(alloc, [70_000_000, 20_000_000], &of_a, &[]).expect(rt, "memory")
}

// The penalties of A's commitment 7 of this view.
fn set_of_a(rt: &impl Abort, alloc: Global) -> PenaltySet {
    let view = offered(rt, alloc);
    let state = RevokedState::new(terms(rt), view, Side::A, 7, [5; 32]).expect(rt, "a state");
    let patterns = patterns(alloc).expect(rt, "memory");
    penalties(alloc, &patterns, &state).expect(rt, "memory")
}

// The number of outputs of that commitment.
fn outputs_of(rt: &impl Abort, alloc: Global, terms: &Terms, view: &View) -> usize {
    assert!(rt; refusal(terms, view).is_none());
    let built = payable_commitment(alloc, terms, view, Side::A, 7, &key(rt, 0xcc));
    built.expect(rt, "memory").outputs().len()
}

fn outputs_of_a(rt: &impl Abort, alloc: Global) -> usize {
    let view = offered(rt, alloc);
    outputs_of(rt, alloc, &terms(rt), &view)
}

// Whether a set has a claim for each output, and for that of the HTLC transaction.
fn is_whole(set: &PenaltySet) -> bool {
    set.claims().len() == 4 && set.state().number == 7 && set.copy().is_ok()
}

// The example of the crate's page: to_local, to_remote and the HTLC, and the HTLC transaction's output.
#[test]
fn claims_all_that_a_commitment_pays(rt: HostRuntime) {
    assert!(rt; outputs_of_a(&rt, rt.alloc()) == 3);
    let set = set_of_a(&rt, rt.alloc());
    assert!(rt; is_whole(&set));
}

const REFUSALS: [(StateError, &str); 3] = [
    (StateError::TooManyHtlcs, "TooManyHtlcs"),
    (StateError::ExpiryTooLarge, "ExpiryTooLarge"),
    (StateError::WrongTotal, "WrongTotal"),
];

// Whether a refusal is printed as this text.
fn is_printed(alloc: Global, refusal: &StateError, text: &str) -> bool {
    match format!(in alloc; "{refusal}") {
        Ok(printed) => printed.as_str() == text,
        Err(_) => false,
    }
}

#[test]
fn prints_every_refusal(rt: HostRuntime) {
    for (refusal, text) in &REFUSALS {
        assert!(rt; is_printed(rt.alloc(), refusal, text));
    }
}
