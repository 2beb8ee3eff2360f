//! The sides of a new channel, and the delivery of messages from one to the other.

ghost use Rattle.terms.specs.Sides.{other};
ghost use Rattle.channel.specs.Keeping.{HasBases, CanOpen};

use channel::{Channel, Message, opening_points, opening_token};
use keys::Signer;
use parties::{FUNDING, party, terms_of};
use std::alloc::Global;
use std::process::Abort;
use terms::{Side, Terms};
use updates::ChannelError;

/// A side of this channel, to which its peer gives a token for the commitment of this number.
pub fn open(
    rt: &impl Abort,
    alloc: Global,
    side: Side,
    number: u64,
) -> Result<Channel, ChannelError> {
    let (a, b) = (Signer::new(alloc, &[1; 32]), Signer::new(alloc, &[2; 32]));
    let (of_a, of_b) = (party(&a, 80_000_000), party(&b, 20_000_000));
    let terms = terms_of(FUNDING, 100_000, of_a, of_b).expect(rt, "terms");
    match side {
        Side::A => open_with(rt, alloc, terms, side, a, &b, number),
        Side::B => open_with(rt, alloc, terms, side, b, &a, number),
    }
}

fn open_with(
    rt: &impl Abort,
    alloc: Global,
    terms: Terms,
    side: Side,
    signer: Signer,
    peer: &Signer,
    number: u64,
) -> Result<Channel, ChannelError>
    requires own { CanOpen terms side signer }
    requires peers { HasBases terms (other side) peer.now.seed }
{
    let own = opening_points(&signer);
    let point = if number == 0 { own.first } else { own.second };
    let token = opening_token(alloc, &terms, side.other(), peer, &point).expect(rt, "a token");
    let points = opening_points(peer);
    Channel::new(
        alloc,
        terms,
        side,
        signer,
        points.first,
        points.second,
        &token,
    )
}

/// A side of a new channel.
pub fn opened(rt: &impl Abort, alloc: Global, side: Side) -> Channel {
    open(rt, alloc, side, 0).expect(rt, "a channel")
}

/// The example of the page of `channel`.
fn offer_and_sign(
    channel: &mut Channel,
    amount_msat: u64,
    hash: [u8; 32],
    expiry_height: u32,
) -> Result<(Message, Message), ChannelError> {
    let offer = channel.offer(amount_msat, hash, expiry_height)?;
    let signature = channel.signed()?;
    Ok((offer, signature))
}

/// Delivers a message, and its answer if there is one.
pub fn deliver(rt: &impl Abort, from: &mut Channel, to: &mut Channel, message: &Message) {
    let answer = to.receive(message).expect(rt, "a message");
    if let Some(answer) = answer {
        assert!(rt; matches!(from.receive(&answer), Ok(None)));
    }
}

/// A offers an HTLC of 20,000 satoshis to B, signs B's commitment with it, and waits for B's revocation, which comes.
pub fn offered(rt: &impl Abort, a: &mut Channel, b: &mut Channel) -> Message {
    let sent = offer_and_sign(a, 20_000_000, [9; 32], 500);
    let (offer, tokens) = sent.expect(rt, "an offer and tokens");
    assert!(rt; a.waits_to_sign() && a.peers_secret(0).is_none());
    deliver(rt, a, b, &offer);
    deliver(rt, a, b, &tokens);
    assert!(rt; !a.waits_to_sign());
    tokens
}
