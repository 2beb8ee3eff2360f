//! Connections that are cut: what goes out again, in its order, and what is refused. What is computed from the definitions alone is no test.

use crate::opening::{deliver, offered, opened};
use channel::{Again, Channel, Message, Reestablish};
use std::process::Abort;
use terms::Side;
use updates::{ChannelError, PeerStep, Update};

/// A preimage, and its SHA-256 (Python's hashlib).
const PREIMAGE: [u8; 32] = [5; 32];

const HASH: [u8; 32] = [
    0xf8, 0x49, 0xd6, 0x73, 0x25, 0xfa, 0xcf, 0x04, 0x17, 0x7b, 0xc6, 0x63, 0xb2, 0xdc, 0x54, 0x40,
    0x51, 0x83, 0x1c, 0x58, 0x9e, 0xf5, 0x81, 0xd4, 0x12, 0xf2, 0xeb, 0xa4, 0x48, 0x34, 0xe7, 0x7c,
];

// What a side gives again after its peer's hello.
fn again(rt: &impl Abort, channel: &Channel, hello: &Reestablish) -> Vec<Message> {
    match channel.resend(hello) {
        Ok(Again::Send(messages)) => messages,
        _ => rt.abort(),
    }
}

// The kinds of messages, a letter each.
fn kinds(messages: &[Message]) -> u64 {
    let mut kinds: u64 = 0;
    for message in messages {
        let kind = match message {
            Message::Step(PeerStep::Update(_)) => 1,
            Message::Step(PeerStep::CommitmentSigned(_)) => 2,
            Message::RevokeAndAck(_) => 3,
        };
        kinds = kinds.wrapping_mul(10).wrapping_add(kind);
    }
    kinds
}

// Both forget, and each gets what it lacks. `a_gives` and `b_gives` are the kinds.
fn cut(rt: &impl Abort, a: &mut Channel, b: &mut Channel, a_gives: u64, b_gives: u64) {
    assert!(rt; a.forget().is_ok() && b.forget().is_ok());
    let (of_a, of_b) = (again(rt, a, &b.hello()), again(rt, b, &a.hello()));
    assert!(rt; kinds(of_a.as_slice()) == a_gives && kinds(of_b.as_slice()) == b_gives);
    for message in of_a.as_slice() {
        deliver(rt, a, b, message);
    }
    for message in of_b.as_slice() {
        deliver(rt, b, a, message);
    }
}

// A's offer and signature are lost with B's offer, which nothing covers, and go out again. Then B's offer has its id again.
fn lose_a_signature(rt: &impl Abort, a: &mut Channel, b: &mut Channel) {
    assert!(rt; a.offer(20_000_000, HASH, 500).is_ok() && a.signed().is_ok());
    assert!(rt; b.offer(1_000_000, HASH, 500).is_ok());
    cut(rt, a, b, 12, 0);
    assert!(rt; b.number() == 1 && a.peer_number() == 1);
}

// B's signature and revocation are lost, in this order, and go out again in it.
fn lose_both(rt: &impl Abort, a: &mut Channel, b: &mut Channel) {
    let offer = a.offer(1_000_000, HASH, 500).expect(rt, "an offer");
    let tokens = a.signed().expect(rt, "tokens");
    assert!(rt; b.receive(&offer).is_ok());
    assert!(rt; b.signed().is_ok());
    assert!(rt; b.receive(&tokens).is_ok());
    cut(rt, a, b, 0, 23);
    assert!(rt; a.peer_number() == 2 && b.peer_number() == 1);
}

#[test]
fn what_is_lost_goes_out_again(rt: HostRuntime) {
    let mut a = opened(&rt, rt.alloc(), Side::A);
    let mut b = opened(&rt, rt.alloc(), Side::B);
    lose_a_signature(&rt, &mut a, &mut b);
    lose_both(&rt, &mut a, &mut b);
}

// Whether these are one fulfilment of the first HTLC.
fn is_fulfilment(updates: &[Update]) -> bool {
    match updates {
        [Update::Fulfil { id, .. }] => *id == 0,
        _ => false,
    }
}

// B fulfils an HTLC of A, and forgets it. It may fulfil the HTLC again, and not fail it.
fn fulfil_twice(rt: &impl Abort, a: &mut Channel, b: &mut Channel) {
    lose_a_signature(rt, a, b);
    let tokens = b.signed().expect(rt, "tokens");
    deliver(rt, b, a, &tokens);
    assert!(rt; b.fulfil(0, PREIMAGE).is_ok());
    let forgotten = b.forget().expect(rt, "updates");
    assert!(rt; is_fulfilment(forgotten.as_slice()));
    assert!(rt; matches!(b.fail(0), Err(ChannelError::AlreadyFulfilled)));
    assert!(rt; b.fulfil(0, PREIMAGE).is_ok());
}

#[test]
fn what_was_fulfilled_is_not_failed(rt: HostRuntime) {
    let mut a = opened(&rt, rt.alloc(), Side::A);
    let mut b = opened(&rt, rt.alloc(), Side::B);
    fulfil_twice(&rt, &mut a, &mut b);
}

// Whether a hello tells a side that it is behind.
fn is_behind(channel: &Channel, hello: &Reestablish) -> bool {
    matches!(channel.resend(hello), Ok(Again::Behind))
}

// B's first commitment is revoked to A. A B that begins again is told so, and not by whoever lacks the secret.
fn put_back(rt: &impl Abort, a: &mut Channel, b: &mut Channel, old: &Channel) {
    offered(rt, a, b);
    let hello = a.hello();
    assert!(rt; is_behind(old, &hello) && !is_behind(b, &hello));
    let liar = Reestablish {
        last_secret: PREIMAGE,
        ..hello
    };
    assert!(rt; matches!(old.resend(&liar), Err(ChannelError::WrongSecret)));
    assert!(rt; matches!(a.resend(&old.hello()), Err(ChannelError::PeerBehind)));
}

#[test]
fn who_is_behind_is_told(rt: HostRuntime) {
    let mut a = opened(&rt, rt.alloc(), Side::A);
    let mut b = opened(&rt, rt.alloc(), Side::B);
    let old = opened(&rt, rt.alloc(), Side::B);
    put_back(&rt, &mut a, &mut b, &old);
}
