//! The calls of a channel on their happy path, with memory to spare. Their contracts say what each refuses.

use crate::opening::{deliver, offered, open, opened};
use channel::{Channel, Message, opening_points};
use keys::{Base, Key, Signer, point, revocation};
use std::process::Abort;
use terms::Side;
use updates::{ChannelError, OwnUpdate, PeerStep, Tokens};

// A new channel needs the peer's token on its commitment 0.
#[test]
fn opens_with_the_peers_token(rt: HostRuntime) {
    let refused = open(&rt, rt.alloc(), Side::A, 1);
    assert!(rt; matches!(&refused, Err(ChannelError::BadSignature)));
}

// The number of tokens on HTLC transactions in a message, if it is a `commitment_signed`.
fn htlc_tokens(message: &Message) -> Option<usize> {
    match message {
        Message::Step(PeerStep::CommitmentSigned(tokens)) => Some(tokens.htlcs.values().len()),
        _ => None,
    }
}

// Whether a call was refused so.
fn is_refused(call: Result<Message, ChannelError>, wanted: ChannelError) -> bool {
    match call {
        Ok(_) => false,
        Err(refusal) => refusal == wanted,
    }
}

// The number, the feerate and A's balance of the commitment that a side signs next.
fn next(rt: &impl Abort, channel: &Channel) -> (u64, u32, u64) {
    let next = channel.ready().expect(rt, "a commitment");
    (
        next.number,
        next.view.feerate_per_kw,
        next.view.a.balance_msat,
    )
}

// The one token on an HTLC transaction with which a side signs.
fn signed(rt: &impl Abort, channel: &mut Channel) -> Message {
    let message = channel.signed().expect(rt, "tokens");
    assert!(rt; htlc_tokens(&message) == Some(1));
    message
}

// A side with nothing to sign, and with less than the offer in its balance, is refused both. An offer is signed once.
#[test]
fn offers_and_signs(rt: HostRuntime) {
    let mut channel = opened(&rt, rt.alloc(), Side::A);
    assert!(rt; is_refused(channel.signed(), ChannelError::NoUpdates));
    let refused = channel.offer(80_000_001, [9; 32], 500);
    assert!(rt; is_refused(refused, ChannelError::OverBalance));
    assert!(rt; channel.offer(80_000_000, [9; 32], 500).is_ok());
    assert!(rt; next(&rt, &channel) == (1, 1000, 0));
    signed(&rt, &mut channel);
    assert!(rt; is_refused(channel.signed(), ChannelError::NotYourTurn));
}

const FEE: OwnUpdate = OwnUpdate::SetFee {
    feerate_per_kw: 2000,
};

const OFFER: OwnUpdate = OwnUpdate::Offer {
    amount_msat: 1000,
    hash: [9; 32],
    expiry_height: 500,
};

// An own update is the same as the call of its kind.
fn makes(rt: &impl Abort, channel: &mut Channel) {
    assert!(rt; channel.set_fee(1500).is_ok());
    assert!(rt; next(rt, channel) == (1, 1500, 80_000_000));
    assert!(rt; channel.make(&FEE).is_ok());
    assert!(rt; channel.make(&OFFER).is_ok());
    assert!(rt; next(rt, channel) == (1, 2000, 79_999_000));
    let failed = channel.make(&OwnUpdate::Fail { id: 0 });
    assert!(rt; is_refused(failed, ChannelError::UnknownHtlc));
}

#[test]
fn makes_its_own_updates(rt: HostRuntime) {
    let mut channel = opened(&rt, rt.alloc(), Side::A);
    makes(&rt, &mut channel);
}

// Whether these are the tokens of a message.
fn has_tokens(message: &Message, tokens: &Tokens) -> bool {
    match message {
        Message::Step(PeerStep::CommitmentSigned(sent)) => {
            sent.commitment == tokens.commitment && sent.htlcs.values() == tokens.htlcs.values()
        }
        _ => false,
    }
}

// A sets a feerate and offers an HTLC. The tokens on B's commitment are those that it received.
fn sign_an_offer(rt: &impl Abort, a: &mut Channel, b: &mut Channel) {
    let rate = a.set_fee(2000).expect(rt, "a feerate");
    deliver(rt, a, b, &rate);
    let signature = offered(rt, a, b);
    let tokens = b.own_tokens(1).expect(rt, "memory");
    assert!(rt; has_tokens(&signature, &tokens.expect(rt, "tokens")));
    assert!(rt; b.own_tokens(2).expect(rt, "memory").is_none());
}

// B signs A's commitment with the HTLC, and fails it.
fn sign_and_fail(rt: &impl Abort, b: &mut Channel, a: &mut Channel) {
    let tokens = signed(rt, b);
    deliver(rt, b, a, &tokens);
    let failure = b.fail(0).expect(rt, "a failure");
    deliver(rt, b, a, &failure);
}

// An offer and its failure, signed by both sides. Once B revoked its commitment 0, A shows its secret, and may sign for
// what the commitment would pay B. `first` is B's first point.
fn agree(rt: &impl Abort, a: &mut Channel, b: &mut Channel, first: &Key) {
    let key = revocation(&a.signer().base(Base::Revocation), first);
    assert!(rt; !a.signer().can_sign(&key));
    sign_an_offer(rt, a, b);
    assert!(rt; a.signer().can_sign(&key));
    let secret = a.peers_secret(0).expect(rt, "a secret");
    assert!(rt; point(&secret) == *first);
    sign_and_fail(rt, b, a);
    assert!(rt; next(rt, b) == (2, 2000, 80_000_000));
    assert!(rt; b.signed().is_ok());
}

#[test]
fn two_sides_agree(rt: HostRuntime) {
    let first = opening_points(&Signer::new(rt.alloc(), &[2; 32])).first;
    let mut a = opened(&rt, rt.alloc(), Side::A);
    let mut b = opened(&rt, rt.alloc(), Side::B);
    agree(&rt, &mut a, &mut b, &first);
}
