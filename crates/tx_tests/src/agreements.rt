//! Terms that can and can't be agreed on, and the fields of commitments, against the values of BOLT 3.

use crate::fixtures::key;
use parties::{FUNDING, htlc, one_key, party_with, terms_of, view};
use std::alloc::Global;
use std::process::Abort;
use terms::{
    Obscured, Party, ProposedParty, ProposedTerms, Side, Terms, TermsError, mask, number_of,
    obscure,
};
use tx::{Inputs, Outputs, Tx, TxIn, Witness};

/// The payment base keys of BOLT 3, appendix C: the opener's, and the accepter's.
const PAYMENT_BASES: [&str; 2] = [
    "034f355bdcb7cc0af728ef3cceb9615d90684bb5b2ca5f859ab0f0b704075871aa",
    "032c0b7cf95324a07d05398b240174dc0c2be444d96b159aa6c7f7b1e668680991",
];

// A side with this payment base key.
fn party(rt: &impl Abort, payment: &str, start_msat: u64) -> Party {
    party_with(one_key(key(rt, payment)), start_msat)
}

// Terms with a capacity of 100,000 satoshis.
fn terms_with(rt: &impl Abort, a: u64, b: u64) -> Result<Terms, TermsError> {
    let a = party(rt, PAYMENT_BASES[0], a);
    let b = party(rt, PAYMENT_BASES[1], b);
    terms_of(FUNDING, 100_000, a, b)
}

// Terms that can be agreed on.
fn good_terms(rt: &impl Abort) -> Terms {
    terms_with(rt, 0, 100_000_000).expect(rt, "terms")
}

// A side's part of proposed terms.
fn proposed_party(start_msat: u64) -> ProposedParty {
    ProposedParty {
        dust_sat: 546,
        delay_blocks: 144,
        minimum_msat: 1000,
        start_msat,
    }
}

// Proposed terms with a capacity of 100,000 satoshis.
fn proposed(a: u64, b: u64) -> ProposedTerms {
    ProposedTerms {
        capacity_sat: 100_000,
        opener: Side::A,
        feerate_per_kw: 1000,
        a: proposed_party(a),
        b: proposed_party(b),
    }
}

// The starting balances sum to the capacity. The terms that two sides agree on are the proposed ones.
#[test]
fn proposed_terms_become_terms(rt: HostRuntime) {
    assert!(rt; terms_with(&rt, 80_000_000, 20_000_001).is_err());
    assert!(rt; TermsError::BadTerms.number() == 1);
    let a = one_key(key(&rt, PAYMENT_BASES[0]));
    let b = one_key(key(&rt, PAYMENT_BASES[1]));
    let agreed = proposed(80_000_000, 20_000_000).agreed(FUNDING, a, b);
    let terms = terms_with(&rt, 80_000_000, 20_000_000).expect(&rt, "terms");
    assert!(rt; agreed == Some(terms));
    assert!(rt; !proposed(80_000_000, 20_000_001).can_agree());
}

// The mask and the number of the commitments in BOLT 3, appendix C. Of a greater number only the low 48 bits
// count.
#[test]
fn numbers_hide_in_the_fields(rt: HostRuntime) {
    assert!(rt; mask(&good_terms(&rt)) == 0x2bb0_3852_1914);
    let of_the_first = Obscured {
        lock_time: 0x2052_193e,
        sequence: 0x802b_b038,
    };
    assert!(rt; obscure(0x2bb0_3852_1914, 42) == of_the_first);
    let of_a_greater = Obscured {
        lock_time: 0x2000_0001,
        sequence: 0x8000_0000,
    };
    assert!(rt; obscure(0, 0x1_0000_0000_0001) == of_a_greater);
}

// The example in the documentation of `terms`.
fn is_commitment(terms: &Terms, tx: &Tx, n: u64) -> bool {
    number_of(terms, tx) == Some(n)
}

// A transaction that spends the funding output, and has no output.
fn spending(rt: &impl Abort, alloc: Global, sequence: u32, lock_time: u32) -> Tx {
    let mut inputs = Inputs::new(alloc);
    let input = TxIn {
        outpoint: FUNDING,
        sequence,
        witness: Witness::new(alloc),
    };
    inputs.push(input).expect(rt, "an input");
    Tx::new(2, inputs, Outputs::new(alloc), lock_time).expect(rt, "an input")
}

#[test]
fn commitments_have_numbers(rt: HostRuntime) {
    let tx = spending(&rt, rt.alloc(), 0x802b_b038, 0x2052_193e);
    assert!(rt; is_commitment(&good_terms(&rt), &tx, 42));
}

#[test]
fn views_are_copied(rt: HostRuntime) {
    let of_a = [htlc(3, 5_000_000, 9, 500), htlc(3, 5_000_000, 9, 500)];
    let view = view(rt.alloc(), [1, 2], &of_a, &[]).expect(&rt, "memory");
    assert!(rt; view.copy().is_ok());
}
