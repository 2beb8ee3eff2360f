//! A desk over a book, from its making to its end.

ghost use Rattle.std.specs.Prelude.{◌<◌, All};
ghost use Rattle.desk.specs.Seats.{IsSeatOf};

use crate::books::{offer_until, offering};
use book::errors::SignError;
use book::{Book, Call, Reply};
use desk::{Desk, DeskError, Seat};
use std::alloc::Global;
use std::process::Abort;
use std::sync::Wait;
use updates::Revocation;

/// Signs by one of two seats of a desk, and closes it. The message is to be sent once the book that comes back is kept.
fn sign_at_desk<R: Wait>(
    rt: &R,
    alloc: Global,
    book: Book,
) -> Result<(Reply, Book), (DeskError, Book)> {
    let (desk, mut seats) = Desk::new(rt, alloc, book, 2)?;
    let mut seat = seats.pop().unwrap();
    let reply = desk.call(rt, &mut seat, Call::Sign { channel: 0 });
    let book = desk.close(rt, &mut seat);
    Ok((reply, book))
}

/// A call in the first channel, with its reply.
#[derive(Clone, Copy)]
pub(crate) enum Row {
    /// An offer up to this height is taken.
    Offer(u32),
    /// A signature is made.
    Sign,
    /// No signature is made before the penalties of the peer's commitment 0 are kept.
    Refuse,
    /// The revocation of that commitment is taken.
    Revoke(Revocation),
    /// The channel is closed with commitment 0.
    Close,
    /// No signature is made in a closed channel.
    ShutOut,
}

fn call_of(row: Row) -> Call {
    match row {
        Row::Offer(expiry_height) => Call::Step {
            channel: 0,
            step: offer_until(expiry_height),
        },
        Row::Revoke(revocation) => Call::Revoke {
            channel: 0,
            revocation,
        },
        Row::Close => Call::Close { channel: 0 },
        _ => Call::Sign { channel: 0 },
    }
}

// Whether a row has this reply.
fn has(row: Row, reply: &Reply) -> bool {
    match reply {
        Reply::Stepped(answer) => matches!(row, Row::Offer(_)) && answer.is_ok(),
        Reply::Revoked(answer) => matches!(row, Row::Revoke(_)) && *answer == Ok(0),
        Reply::Signed(Ok(_)) => matches!(row, Row::Sign),
        Reply::Signed(Err(error)) => match row {
            Row::Refuse => *error == SignError::PenaltiesMissing(0),
            Row::ShutOut => *error == SignError::ChannelClosed,
            _ => false,
        },
        Reply::Closed(answer) => matches!(row, Row::Close) && *answer == Ok(0),
        _ => false,
    }
}

/// Whether a seat's call has the reply of its row.
pub(crate) fn calls<R: Wait>(rt: &R, desk: &Desk, seat: &mut Seat, row: Row) -> bool
    requires { IsSeatOf desk.now seat.old }
    ensures { IsSeatOf desk.now seat.new }
{
    let reply = desk.call(rt, seat, call_of(row));
    has(row, &reply)
}

// Whether a desk over the book signs, and gives the book back with three entries.
fn signs<R: Wait + Abort>(rt: &R, alloc: Global, book: Book) -> bool {
    let Ok((reply, book)) = sign_at_desk(rt, alloc, book) else {
        panic!(rt; "no desk");
    };
    has(Row::Sign, &reply) && book.entries().len() == 3
}

#[test]
fn signs_at_a_desk(rt: HostRuntime) {
    let book = offering(&rt, rt.alloc());
    assert!(rt; signs(&rt, rt.alloc(), book));
}

/// A desk over a book, and this number of seats.
pub(crate) fn desk_over<R: Wait + Abort>(
    rt: &R,
    alloc: Global,
    book: Book,
    seats: u16,
) -> (Desk, Vec<Seat>)
    requires { 0 < seats }
    ensures { All (IsSeatOf result.0) result.1.items }
{
    let Ok(made) = Desk::new(rt, alloc, book, seats) else {
        panic!(rt; "no desk");
    };
    made
}

/// The seat at the end of a list of seats that are all one desk's.
pub(crate) fn next_seat(rt: &impl Abort, desk: &Desk, seats: &mut Vec<Seat>) -> Seat
    requires { All (IsSeatOf desk.now) seats.old.items }
    ensures all { All (IsSeatOf desk.now) seats.new.items }
    ensures seat { IsSeatOf desk.now result }
{
    seats.pop().expect(rt, "a seat")
}
