//! Updates between two sides, with a hash from an outside source; that no call is refused under ample memory. What needs no
//! run is proved from the definitions.

use keys::point;
use parties::{FUNDING, one_key, party_with, terms_of};
use std::alloc::{AllocError, Global};
use std::process::Abort;
use terms::{Side, View};
use updates::{ChannelError, Ledger, Update};

/// A preimage, and its SHA-256 (Python's hashlib).
const PREIMAGE: [u8; 32] = [5; 32];

const HASH: [u8; 32] = [
    0xf8, 0x49, 0xd6, 0x73, 0x25, 0xfa, 0xcf, 0x04, 0x17, 0x7b, 0xc6, 0x63, 0xb2, 0xdc, 0x54, 0x40,
    0x51, 0x83, 0x1c, 0x58, 0x9e, 0xf5, 0x81, 0xd4, 0x12, 0xf2, 0xeb, 0xa4, 0x48, 0x34, 0xe7, 0x7c,
];

/// The ledgers of A and of B in a channel of 100,000 satoshis, of which A has 80,000 and B 20,000.
fn open(rt: &impl Abort, alloc: Global) -> (Ledger, Ledger) {
    let bases = one_key(point(&[1; 32]));
    let (a, b) = (party_with(bases, 80_000_000), party_with(bases, 20_000_000));
    let terms = terms_of(FUNDING, 100_000, a, b).expect(rt, "terms");
    let a = Ledger::new(alloc, terms, Side::A);
    let b = Ledger::new(alloc, terms, Side::B);
    (a, b)
}

/// The balances of A and B, the number of A's live HTLCs, and the feerate.
fn seen(rt: &impl Abort, answer: Result<View, AllocError>) -> (u64, u64, usize, u32) {
    let view = answer.expect(rt, "a view");
    let htlcs = view.a.offered.len();
    (
        view.a.balance_msat,
        view.b.balance_msat,
        htlcs,
        view.feerate_per_kw,
    )
}

/// A offers an HTLC, and B receives it.
fn add(rt: &impl Abort, a: &mut Ledger, b: &mut Ledger, amount_msat: u64) {
    let htlc = a.offer(amount_msat, HASH, 500).expect(rt, "an offer");
    assert!(rt; b.receive_update(&Update::Add(htlc)).is_ok());
}

/// A changes the feerate, and B receives it.
fn set_fee(rt: &impl Abort, a: &mut Ledger, b: &mut Ledger, feerate_per_kw: u32) {
    assert!(rt; a.set_fee(feerate_per_kw).is_ok());
    assert!(rt; b.receive_update(&Update::Fee { feerate_per_kw }).is_ok());
}

/// Both sign and revoke, one after the other.
fn settle(first: &mut Ledger, second: &mut Ledger) {
    first.sign();
    second.receive_signature();
    first.receive_revocation();
    second.sign();
    first.receive_signature();
    second.receive_revocation();
}

// An HTLC is fulfilled once it passed all stages, and then its amount is B's.
fn fulfil_one(rt: &impl Abort, a: &mut Ledger, b: &mut Ledger) {
    add(rt, a, b, 3_861_000);
    assert!(rt; b.fulfil(0, PREIMAGE) == Err(ChannelError::UnknownHtlc));
    settle(a, b);
    assert!(rt; b.fulfil(0, HASH) == Err(ChannelError::WrongPreimage));
    assert!(rt; b.fulfil(0, PREIMAGE).is_ok());
    let preimage = PREIMAGE;
    let fulfilment = Update::Fulfil { id: 0, preimage };
    assert!(rt; a.receive_update(&fulfilment).is_ok());
    assert!(rt; b.fail(0) == Err(ChannelError::UnknownHtlc));
}

// Its amount is B's in what is signed next, and once both signed it in what was signed.
fn move_one(rt: &impl Abort, a: &mut Ledger, b: &mut Ledger) {
    let moved = (76_139_000, 23_861_000, 0, 1000);
    assert!(rt; seen(rt, b.view_to_sign()) == moved);
    assert!(rt; seen(rt, a.view_to_receive()) == moved);
    let pending = (76_139_000, 20_000_000, 1, 1000);
    assert!(rt; seen(rt, a.view_of(Side::A)) == pending);
    settle(b, a);
    assert!(rt; seen(rt, a.view_of(Side::A)) == moved);
}

#[test]
fn amounts_change_sides(rt: HostRuntime) {
    let (mut a, mut b) = open(&rt, rt.alloc());
    fulfil_one(&rt, &mut a, &mut b);
    move_one(&rt, &mut a, &mut b);
}

// An HTLC with the number of the feerate is offered and failed, and the feerate changes.
fn offer_and_fail(rt: &impl Abort, a: &mut Ledger, b: &mut Ledger, feerate_per_kw: u32) {
    let id = u64::from(feerate_per_kw);
    add(rt, a, b, 1000);
    set_fee(rt, a, b, feerate_per_kw);
    settle(a, b);
    assert!(rt; b.fail(id).is_ok());
    assert!(rt; a.receive_update(&Update::Fail { id }).is_ok());
    settle(b, a);
    assert!(rt; seen(rt, b.view_of(Side::A)) == (80_000_000, 20_000_000, 0, feerate_per_kw));
}

// Under ample memory no call is refused, however long the lists are; and then as many HTLCs as a commitment may hold.
#[test]
fn long_histories_are_accepted(rt: HostRuntime) {
    let (mut a, mut b) = open(&rt, rt.alloc());
    for feerate_per_kw in 0..200u32 {
        offer_and_fail(&rt, &mut a, &mut b, feerate_per_kw);
    }
    for _htlc in 0..483 {
        add(&rt, &mut a, &mut b, 1000);
    }
    settle(&mut a, &mut b);
    assert!(rt; seen(&rt, b.view_of(Side::B)) == (79_517_000, 20_000_000, 483, 199));
}

// A signed one offer, and made two more updates. They are forgotten on both sides, and the id is given again.
fn forget_two(rt: &impl Abort, a: &mut Ledger, b: &mut Ledger) {
    add(rt, a, b, 1000);
    a.sign();
    b.receive_signature();
    add(rt, a, b, 2000);
    set_fee(rt, a, b, 1500);
    assert!(rt; a.forget().expect(rt, "updates").len() == 2);
    assert!(rt; b.forget().expect(rt, "updates").is_empty());
    let again = a.offer(3000, HASH, 500).expect(rt, "an offer");
    assert!(rt; again.id == 1 && b.receive_update(&Update::Add(again)).is_ok());
    assert!(rt; seen(rt, a.view_to_sign()) == (79_996_000, 20_000_000, 2, 1000));
}

#[test]
fn uncommitted_updates_are_forgotten(rt: HostRuntime) {
    let (mut a, mut b) = open(&rt, rt.alloc());
    forget_two(&rt, &mut a, &mut b);
}

/// The example in the documentation of `updates`.
fn offer_and_see(
    ledger: &mut Ledger,
    amount_msat: u64,
    hash: [u8; 32],
    expiry_height: u32,
) -> Result<u64, ChannelError> {
    ledger.offer(amount_msat, hash, expiry_height)?;
    Ok(ledger.view_to_sign()?.share(ledger.side()).balance_msat)
}

#[test]
fn an_offer_lowers_the_balance(rt: HostRuntime) {
    let (mut a, _) = open(&rt, rt.alloc());
    assert!(rt; offer_and_see(&mut a, 1000, HASH, 500) == Ok(79_999_000));
}
