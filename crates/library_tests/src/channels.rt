//! Two channels that take each other's messages.

use book_peers::open_side;
use channel::{Again, Channel, Message, Reestablish};
use std::alloc::Global;
use std::process::Abort;
use terms::Side;
use updates::{ChannelError, Update};

/// Offers an HTLC, and signs the peer's next commitment with it. Both messages are to be sent, the offer first.
fn offer_and_sign(
    channel: &mut Channel,
    amount_msat: u64,
    hash: [u8; 32],
    expiry_height: u32,
) -> Result<(Message, Message), ChannelError> {
    let offer = channel.offer(amount_msat, hash, expiry_height)?;
    let signature = channel.signed()?;
    Ok((offer, signature))
}

// A side of a new channel of 100,000 satoshis, of which A has 80,000.
fn opened(rt: &impl Abort, alloc: Global, side: Side) -> Channel {
    open_side(alloc, 0, side).expect(rt, "a channel").channel
}

// What a channel answers to a message.
fn answer(rt: &impl Abort, channel: &mut Channel, message: &Message) -> Option<Message> {
    channel.receive(message).expect(rt, "received")
}

// B takes the offer, and answers the signature by the revocation of its commitment 0.
fn answered(rt: &impl Abort, alloc: Global, offer: &Message, signature: &Message) -> Message {
    let mut b = opened(rt, alloc, Side::B);
    assert!(rt; answer(rt, &mut b, offer).is_none());
    answer(rt, &mut b, signature).expect(rt, "an answer")
}

// What B answers to an offer of A's and its signature.
fn revocation(rt: &impl Abort, alloc: Global, a: &mut Channel) -> Message {
    let sent = offer_and_sign(a, 1_000_000, [9; 32], 500).expect(rt, "messages");
    answered(rt, alloc, &sent.0, &sent.1)
}

// A takes B's answer to its offer and its signature.
#[test]
fn offers_and_signs(rt: HostRuntime) {
    let mut a = opened(&rt, rt.alloc(), Side::A);
    let revocation = revocation(&rt, rt.alloc(), &mut a);
    assert!(rt; answer(&rt, &mut a, &revocation).is_none());
    assert!(rt; a.peer_number() == 1);
}

/// The connection is cut. Gives what to say first on the next one, and the updates that were forgotten.
fn cut(channel: &mut Channel) -> Result<(Reestablish, Vec<Update>), ChannelError> {
    let forgotten = channel.forget()?;
    Ok((channel.hello(), forgotten))
}

/// The peer's hello came. Gives what is to be sent again, if this side may go on.
fn resume(channel: &Channel, hello: &Reestablish) -> Result<Option<Vec<Message>>, ChannelError> {
    match channel.resend(hello)? {
        Again::Send(messages) => Ok(Some(messages)),
        Again::Behind => Ok(None),
    }
}

/// How many messages a side sends again.
pub fn resent(rt: &impl Abort, channel: &Channel, hello: &Reestablish) -> usize {
    let messages = resume(channel, hello).expect(rt, "an answer");
    messages.expect(rt, "messages").len()
}

// A's offer and its signature are lost, and both go out again. A second offer, which no signature covers, is forgotten.
fn resume_a(rt: &impl Abort, a: &mut Channel, b: &mut Channel) {
    assert!(rt; offer_and_sign(a, 1_000_000, [9; 32], 500).is_ok());
    assert!(rt; a.offer(2_000_000, [9; 32], 500).is_ok());
    let (of_a, forgotten) = cut(a).expect(rt, "a hello");
    let (of_b, none) = cut(b).expect(rt, "a hello");
    assert!(rt; forgotten.len() == 1 && none.is_empty());
    assert!(rt; resent(rt, a, &of_b) == 2 && resent(rt, b, &of_a) == 0);
}

#[test]
fn a_cut_connection_is_resumed(rt: HostRuntime) {
    let mut a = opened(&rt, rt.alloc(), Side::A);
    let mut b = opened(&rt, rt.alloc(), Side::B);
    resume_a(&rt, &mut a, &mut b);
}
