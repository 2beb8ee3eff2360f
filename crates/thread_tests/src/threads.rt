//! A desk that two threads share.

ghost use Rattle.desk.specs.Seats.{IsSeatOf};

use crate::books::{offering, opened};
use crate::desks::{Row, calls, desk_over, next_seat};
use desk::{Desk, Seat};
use std::process::Abort;
use std::sync::Wait;
use std::thread;
use std::thread::Threads;

// Offers 20 HTLCs, and gives the seat back.
fn offer_many<R: Wait + Abort>(rt: &R, desk: &Desk, seat: Seat) -> Seat
    requires { IsSeatOf desk.now seat }
    ensures { IsSeatOf desk.now result }
{
    let mut seat = seat;
    for k in 0..20 {
        assert!(rt; calls(rt, desk, &mut seat, Row::Offer(500 + k)));
    }
    seat
}

// Two threads offer 20 HTLCs each, and give their seats back.
fn offer_by_two<R: Threads + Wait + Abort + Sync>(
    rt: &R,
    desk: &Desk,
    first: Seat,
    second: Seat,
) -> (Seat, Seat)
    requires { IsSeatOf desk.now first × IsSeatOf desk.now second }
    ensures { IsSeatOf desk.now result.0 × IsSeatOf desk.now result.1 }
{
    thread::join(
        rt,
        || -> Seat
            requires { IsSeatOf desk.now first }
            ensures { IsSeatOf desk.entry.now result }
        { offer_many(rt, desk, first) },
        || -> Seat
            requires { IsSeatOf desk.now second }
            ensures { IsSeatOf desk.entry.now result }
        { offer_many(rt, desk, second) },
    )
}

// What one seat closes is closed to another one, which may close it again.
#[test]
fn closes_for_all_seats(rt: HostRuntime) {
    let alloc = rt.alloc();
    let (desk, mut seats) = desk_over(&rt, alloc, offering(&rt, alloc), 2);
    let mut first = next_seat(&rt, &desk, &mut seats);
    let mut second = next_seat(&rt, &desk, &mut seats);
    assert!(rt; calls(&rt, &desk, &mut first, Row::Close));
    assert!(rt; calls(&rt, &desk, &mut second, Row::ShutOut));
    assert!(rt; calls(&rt, &desk, &mut second, Row::Close));
    let book = desk.close(&rt, &mut first);
    assert!(rt; book.entries().len() == 4);
}

// Two threads call the book of one channel at once. Their seats come home to a third one, which closes the desk.
#[test]
fn two_threads_call(rt: HostRuntime) {
    let alloc = rt.alloc();
    let (desk, mut seats) = desk_over(&rt, alloc, opened(&rt, alloc, 0), 3);
    let first = next_seat(&rt, &desk, &mut seats);
    let second = next_seat(&rt, &desk, &mut seats);
    let mut last = next_seat(&rt, &desk, &mut seats);
    let (first, second) = offer_by_two(&rt, &desk, first, second);
    desk.absorb(&mut last, first);
    desk.absorb(&mut last, second);
    let book = desk.close(&rt, &mut last);
    assert!(rt; book.entries().len() == 41);
}
