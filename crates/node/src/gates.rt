//! Gates, which are asked before and after each job of a worker.

ghost use Rattle.std.specs.Prelude.{◌≡◌, ℕ, false};
ghost use Rattle.desk.specs.Seats.{IsSeatOf, HasSameCalls};

use desk::{Desk, Seat};
use std::sync::Wait;

/// Is asked before and after each job of a worker, and may stop the worker.
///
/// It is lent the worker's desk and seat, and may ask the book with them. It leaves the seat's number and calls unchanged.
pub trait Gate {
    // At which tickets it may stop a worker. By default at any.
    ghost stops: { Self → ℕ → Type 0 } = { λ _ _. Unit {0} };

    /// Called before the job of this ticket.
    fn before<R: Wait>(&self, rt: &R, ticket: u64, desk: &Desk, seat: &mut Seat)
        requires { IsSeatOf desk.now seat.old }
        ensures { HasSameCalls desk.now seat.old seat.new };

    /// Called after the job of this ticket.
    fn after<R: Wait>(&self, rt: &R, ticket: u64, desk: &Desk, seat: &mut Seat)
        requires { IsSeatOf desk.now seat.old }
        ensures { HasSameCalls desk.now seat.old seat.new };

    /// Whether the worker does the job of this ticket and goes on. Called after `before`.
    fn go_on(&self, _ticket: u64) -> bool
        ensures { result ≡ false → stops self.now _ticket }
    {
        true
    }
}
