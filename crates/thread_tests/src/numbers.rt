//! The numbers of a desk's seats, up to the last one.

ghost use Rattle.std.specs.Prelude.{◌<◌};

use crate::books::opened;
use crate::desks::{desk_over, next_seat};
use book::Book;
use desk::{Desk, DeskError};
use std::alloc::Global;
use std::process::Abort;
use std::sync::Wait;

// The book that comes back where its desk has no number for one of the seats.
fn refused<R: Wait + Abort>(rt: &R, alloc: Global, book: Book, seats: u16) -> Book
    requires { 0 < seats }
{
    let Err((error, book)) = Desk::new(rt, alloc, book, seats) else {
        panic!(rt; "a desk");
    };
    assert!(rt; error == DeskError::SeatsExhausted);
    book
}

// One number is left, 2^32 - 1. What comes back from the desk of two seats serves for a desk of one.
#[test]
fn numbers_end(rt: HostRuntime) {
    let alloc = rt.alloc();
    let book = refused(&rt, alloc, opened(&rt, alloc, u32::MAX - 1), 2);
    let (desk, mut seats) = desk_over(&rt, alloc, book, 1);
    let seat = next_seat(&rt, &desk, &mut seats);
    assert!(rt; seat.number() == u32::MAX);
}
