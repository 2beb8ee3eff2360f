//! Books of A's with one channel, with which the tests begin.

use book::{Book, Step};
use book_peers::{offer, open_side};
use channel::{Channel, Message};
use std::alloc::Global;
use std::process::Abort;
use terms::Side;
use updates::Revocation;

/// A book in which this seat opened the channel.
pub(crate) fn opened(rt: &impl Abort, alloc: Global, seat: u32) -> Book {
    let opening = open_side(alloc, 0, Side::A)
        .expect(rt, "an opening")
        .opening;
    let mut book = Book::new(alloc);
    assert!(rt; book.open(seat, opening) == Ok(0));
    book
}

/// A step in which A offers an HTLC.
pub(crate) fn offer_until(expiry_height: u32) -> Step {
    Step::Own(offer(1_000_000, expiry_height))
}

// The book offers an HTLC.
fn offered(rt: &impl Abort, book: &mut Book, expiry_height: u32) -> Message {
    let sent = book
        .step(0, 0, offer_until(expiry_height))
        .expect(rt, "an offer");
    sent.expect(rt, "a message")
}

/// A book in which an HTLC is offered.
pub(crate) fn offering(rt: &impl Abort, alloc: Global) -> Book {
    let mut book = opened(rt, alloc, 0);
    drop(offered(rt, &mut book, 500));
    book
}

fn revocation_in(message: Option<Message>) -> Option<Revocation> {
    match message {
        Some(Message::RevokeAndAck(revocation)) => Some(revocation),
        _ => None,
    }
}

// What a channel answers to a message.
fn answer(rt: &impl Abort, channel: &mut Channel, message: &Message) -> Option<Message> {
    channel.receive(message).expect(rt, "received")
}

// B takes an offer and a signature of A's. What its answer brings.
fn answered(rt: &impl Abort, alloc: Global, offer: &Message, signature: &Message) -> Revocation {
    let mut b = open_side(alloc, 0, Side::B).expect(rt, "a channel").channel;
    assert!(rt; answer(rt, &mut b, offer).is_none());
    revocation_in(answer(rt, &mut b, signature)).expect(rt, "a revocation")
}

/// The book offers an HTLC, signs it, and offers another one. The revocation for which it waits then.
pub(crate) fn awaited(rt: &impl Abort, alloc: Global, book: &mut Book) -> Revocation {
    let offer = offered(rt, book, 500);
    let signature = book.sign(0, 0).expect(rt, "a signature");
    drop(offered(rt, book, 501));
    answered(rt, alloc, &offer, &signature)
}
