//! A channel's seat and a worker's: the penalties that the one waits for are kept by the other.

ghost use Rattle.desk.specs.Seats.{IsSeatOf};

use crate::books::{awaited, opened};
use crate::desks::{Row, calls, desk_over, next_seat};
use crate::workers::keep;
use desk::{Desk, Seat};
use std::alloc::Global;
use std::process::Abort;
use std::sync::Wait;
use updates::Revocation;

// Whether the penalties of the peer's commitment 0 are kept in the first channel, by what the desk tells a seat. `None` if it is not revoked.
fn first_revoked<R: Wait + Abort>(rt: &R, desk: &Desk, seat: &mut Seat) -> Option<bool>
    requires { IsSeatOf desk.now seat.old }
    ensures { IsSeatOf desk.now seat.new }
{
    let known = desk.known(rt, seat, 0).expect(rt, "what is known");
    match known.revoked.get(0) {
        Some(revoked) => Some(revoked.is_kept),
        None => None,
    }
}

// Whether the seat signs once the worker kept the penalties, and not before.
fn guards<R: Wait + Abort>(
    rt: &R,
    alloc: Global,
    desk: &Desk,
    seat: &mut Seat,
    worker: &mut Seat,
    came: Revocation,
) -> bool
    requires seat { IsSeatOf desk.now seat.old }
    requires worker { IsSeatOf desk.now worker.old }
    ensures { IsSeatOf desk.now seat.new }
{
    let is_revoked = calls(rt, desk, seat, Row::Revoke(came));
    let is_refused = calls(rt, desk, seat, Row::Refuse);
    let is_kept = keep(rt, alloc, desk, worker).is_ok();
    let is_known = first_revoked(rt, desk, worker) == Some(true);
    let is_signed = calls(rt, desk, seat, Row::Sign);
    is_revoked && is_refused && is_kept && is_known && is_signed
}

// The example of the page of `desk`. The gate holds for calls of the desk as for those of the book.
#[test]
fn keeps_penalties_by_another_seat(rt: HostRuntime) {
    let alloc = rt.alloc();
    let mut book = opened(&rt, alloc, 0);
    let came = awaited(&rt, alloc, &mut book);
    let (desk, mut seats) = desk_over(&rt, alloc, book, 2);
    let mut worker = next_seat(&rt, &desk, &mut seats);
    let mut seat = next_seat(&rt, &desk, &mut seats);
    assert!(rt; guards(&rt, alloc, &desk, &mut seat, &mut worker, came));
    let book = desk.close(&rt, &mut seat);
    assert!(rt; book.entries().len() == 7);
}

// What a seat hands in is known to that same seat at its next call.
#[test]
fn knows_what_it_handed_in(rt: HostRuntime) {
    let alloc = rt.alloc();
    let mut book = opened(&rt, alloc, 0);
    let came = awaited(&rt, alloc, &mut book);
    let (desk, mut seats) = desk_over(&rt, alloc, book, 1);
    let mut seat = next_seat(&rt, &desk, &mut seats);
    assert!(rt; first_revoked(&rt, &desk, &mut seat).is_none());
    assert!(rt; calls(&rt, &desk, &mut seat, Row::Revoke(came)));
    assert!(rt; first_revoked(&rt, &desk, &mut seat) == Some(false));
    let book = desk.close(&rt, &mut seat);
    assert!(rt; book.entries().len() == 5);
}
