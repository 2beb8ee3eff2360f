//! Commitments with any number of HTLCs, and two whole ones against a model in another language.

ghost use Rattle.std.specs.Prelude.{◌≤◌};

use crate::fixtures::{is_hash, key, one_key_party};
use commit::{
    Amounts, Commitment, OutputKind, Side, Terms, View, build, commitment_amounts, commitment_fee,
    htlc_tx, signing_digests,
};
use parties::{FUNDING, party_with, terms_of, view};
use std::alloc::Global;
use std::process::Abort;
use terms::{BaseKeys, Htlc, Party};
use tx::txid;

const HTLCS: [Htlc; 480] = [Htlc {
    id: 0,
    amount_msat: 2_000_000,
    hash: [9; 32],
    expiry_height: 500,
}; 480];

// Whether these are the amounts of B's commitment with `count` HTLCs that A offered, and twelve times as many of B.
fn are_amounts(amounts: &Amounts, count: usize) -> bool
    requires { count ≤ 40 }
{
    amounts.offered.len() == 12 * count
        && amounts.received.len() == count
        && amounts.fee == commitment_fee(13 * count, 1000)
        && amounts.to_local == Some(3_000_000)
}

// Whether a view with this number of HTLCs has these amounts.
fn has_amounts(rt: &impl Abort, alloc: Global, terms: &Terms, view: &View, count: usize) -> bool
    requires { count ≤ 40 }
{
    let amounts = commitment_amounts(alloc, terms, view, Side::B).expect(rt, "memory");
    are_amounts(&amounts, count)
}

fn count_has_amounts(rt: &impl Abort, alloc: Global, terms: &Terms, count: usize) -> bool
    requires { count ≤ 40 }
{
    let balances_msat = [4_000_000_000, 3_000_000_000];
    let view = view(alloc, balances_msat, &HTLCS[..count], &HTLCS[..12 * count]).expect(
        rt, "memory",
    );
    has_amounts(rt, alloc, terms, &view, count)
}

// The example of the crate's page.
#[test]
fn every_count_of_htlcs_has_amounts(rt: HostRuntime) {
    let half = one_key_party(&rt, 5_000_000_000);
    let terms = terms_of(FUNDING, 10_000_000, half, half).expect(&rt, "terms");
    for count in 0usize..=40 {
        assert!(rt;
            count_has_amounts(&rt, rt.alloc(), &terms, count),
            "{count}"
        );
    }
}

fn bases(rt: &impl Abort, fills: [u8; 5]) -> BaseKeys {
    let [funding, payment, delayed, htlc, revocation] = fills;
    BaseKeys {
        funding: key(rt, funding),
        payment: key(rt, payment),
        delayed: key(rt, delayed),
        htlc: key(rt, htlc),
        revocation: key(rt, revocation),
    }
}

// Terms with unlike keys and delays, of 100,000 satoshis that A opened.
fn unlike_terms(rt: &impl Abort) -> Terms {
    let a = party_with(bases(rt, [0xa0, 0xa1, 0xa2, 0xa3, 0xa4]), 80_000_000);
    let b = Party {
        delay_blocks: 40_000,
        ..party_with(bases(rt, [0xb0, 0xb1, 0xb2, 0xb3, 0xb4]), 20_000_000)
    };
    terms_of(FUNDING, 100_000, a, b).expect(rt, "terms")
}

// Two HTLCs of one amount and one hash, and a third.
const OF_A: [Htlc; 3] = [
    Htlc {
        id: 0,
        amount_msat: 10_000_000,
        hash: [9; 32],
        expiry_height: 600,
    },
    Htlc {
        id: 1,
        amount_msat: 10_000_000,
        hash: [9; 32],
        expiry_height: 500,
    },
    Htlc {
        id: 2,
        amount_msat: 3_000_000,
        hash: [8; 32],
        expiry_height: 400_000,
    },
];

const OF_B: [Htlc; 1] = [Htlc {
    id: 0,
    amount_msat: 7_000_000,
    hash: [5; 32],
    expiry_height: 16,
}];

// A offers the first two HTLCs, and all three where B offers one too.
fn unlike_view(rt: &impl Abort, alloc: Global, both: bool) -> View {
    if both {
        view(alloc, [50_000_000, 20_000_000], &OF_A, &OF_B).expect(rt, "memory")
    } else {
        view(alloc, [60_000_000, 20_000_000], &OF_A[..2], &[]).expect(rt, "memory")
    }
}

fn built(rt: &impl Abort, alloc: Global, owner: Side, n: u64, both: bool) -> Commitment {
    let terms = unlike_terms(rt);
    let view = unlike_view(rt, alloc, both);
    build(alloc, &terms, &view, owner, n, &key(rt, 0xcc)).expect(rt, "a commitment")
}

// The value and the expiry of the output at an index; 0 where it has none.
fn output(commitment: &Commitment, index: usize) -> (u64, u32) {
    match commitment.outputs().get(index) {
        None => (0, 0),
        Some(output) => match &output.kind {
            OutputKind::ToLocal => (output.value, 1),
            OutputKind::ToRemote => (output.value, 2),
            OutputKind::ToHtlc(_, htlc) => (output.value, htlc.expiry_height),
        },
    }
}

fn htlc_tx_id(rt: &impl Abort, alloc: Global, commitment: &Commitment, k: usize) -> [u8; 32] {
    match htlc_tx(alloc, commitment, k).expect(rt, "memory") {
        None => [0; 32],
        Some(tx) => txid(&tx),
    }
}

// HTLC outputs of equal scripts and values are sorted by expiry. The id is that of an independent model.
fn is_sorted(commitment: &Commitment) -> bool {
    let id = "0b68fca0a9b008484b31f065a8438e5570c606be55ff503cc436fa7e45f5728e";
    output(commitment, 0) == (10_000, 500)
        && output(commitment, 1) == (10_000, 600)
        && output(commitment, 2) == (20_000, 2)
        && output(commitment, 3) == (58_932, 1)
        && is_hash(commitment.id(), id)
}

#[test]
fn equal_htlcs_stand_by_expiry(rt: HostRuntime) {
    let commitment = built(&rt, rt.alloc(), Side::A, 42, false);
    assert!(rt; is_sorted(&commitment));
}

// The ids of a commitment and of its HTLC transactions, of an independent model; there is no fifth HTLC.
fn has_ids(rt: &impl Abort, alloc: Global, commitment: &Commitment) {
    let id = "395f37e01fda6d719ec41fe55cdbd9dfafcb43d0976636c37be009e40d28c612";
    assert!(rt; is_hash(commitment.id(), id));
    let first = "bab59d72d6c40e7b02e7438f8746940e5f40a9397c8a9fd389241844c9122606";
    assert!(rt; is_hash(&htlc_tx_id(rt, alloc, commitment, 0), first));
    let second = "512833bad453897424bfdffcd5ee2bff11e006bc1994e422d0bb0627a2751666";
    assert!(rt; is_hash(&htlc_tx_id(rt, alloc, commitment, 1), second));
    assert!(rt; htlc_tx_id(rt, alloc, commitment, 4) == [0; 32]);
}

// The digests that its peer signs, of the same model.
fn has_digests(rt: &impl Abort, alloc: Global, commitment: &Commitment) {
    let digests = signing_digests(alloc, &unlike_terms(rt), commitment).expect(rt, "memory");
    let own = "38a5f6f1acee7cbd789414374fd467d818f47264ec6bbbeabea41597f67e37fc";
    assert!(rt; is_hash(&digests.commitment, own));
    let htlcs = digests.htlcs.values();
    assert!(rt; htlcs.len() == 4);
    let first = "77140da4f98ba2601fb531b4bb5b397528622224de921b0787bd015ed9fed149";
    assert!(rt; is_hash(&htlcs[0], first));
    let last = "009783a602b103fe4e80f9fbc21c0179c84b175678fa11971f351961430a7635";
    assert!(rt; is_hash(&htlcs[3], last));
}

fn is_that_of_the_model(rt: &impl Abort, alloc: Global, commitment: &Commitment) {
    has_ids(rt, alloc, commitment);
    has_digests(rt, alloc, commitment);
    assert!(rt; commitment.copy().is_ok());
}

// HTLCs of both directions on the accepter's commitment.
#[test]
fn transactions_are_those_of_the_model(rt: HostRuntime) {
    let commitment = built(&rt, rt.alloc(), Side::B, 43, true);
    is_that_of_the_model(&rt, rt.alloc(), &commitment);
}
