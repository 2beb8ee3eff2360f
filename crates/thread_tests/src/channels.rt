//! A desk over a book of A's whose peer has revoked a commitment in each channel.

ghost use Rattle.std.specs.Prelude.{◌<◌, All};
ghost use Rattle.desk.specs.Seats.{IsSeatOf};

use crate::desks;
use book::Book;
use book_peers::{Act, Node, Peers, offer};
use desk::{Desk, Seat};
use std::alloc::Global;
use std::process::Abort;
use std::sync::Wait;
use terms::Side;

// A offers an HTLC and signs, B revokes its commitment 0, and A offers another one, which it has not signed.
fn revoke_first(rt: &impl Abort, peers: &mut Peers, channel: usize) {
    for (side, act) in [
        (Side::A, Act::Update(offer(1_000_000, 500))),
        (Side::B, Act::Deliver),
        (Side::A, Act::Sign),
        (Side::B, Act::Deliver),
        (Side::A, Act::Deliver),
        (Side::A, Act::Update(offer(1_000_000, 501))),
    ] {
        let _reply = peers.act(side, channel, act).expect(rt, "a reply");
    }
}

// Opens this number of channels. In each of them B revokes its commitment 0.
fn begin(rt: &impl Abort, alloc: Global, peers: &mut Peers, channels: u32) {
    peers.open(alloc, channels).expect(rt, "channels");
    for channel in 0..channels {
        revoke_first(rt, peers, channel as usize);
    }
}

// A's book, all of whose calls are of seat 0. In each of its channels B has revoked its commitment 0, and A has an offer to sign.
fn book_of_a(rt: &impl Abort, alloc: Global, channels: u32) -> Book {
    let mut peers = Peers::new(alloc);
    begin(rt, alloc, &mut peers, channels);
    let Peers { a, .. } = peers;
    let Node { book, .. } = a;
    book
}

/// A desk over it, and this number of seats.
pub(crate) fn desk_over<R: Wait + Abort>(
    rt: &R,
    alloc: Global,
    channels: u32,
    seats: u16,
) -> (Desk, Vec<Seat>)
    requires { 0 < seats }
    ensures { All (IsSeatOf result.0) result.1.items }
{
    desks::desk_over(rt, alloc, book_of_a(rt, alloc, channels), seats)
}
