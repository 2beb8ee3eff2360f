//! The penalties that a worker keeps.

ghost use Rattle.std.specs.Prelude.{◌≡◌, [], ◌∷◌, OnErr};
ghost use Rattle.desk.specs.Seats.{IsSeatOf, IsSameSeat, number_in, calls_in};
ghost use Rattle.node.specs.Tasks.{keeping};
ghost use Rattle.node.specs.Entering.{Adds};

use book::errors::KeepError;
use desk::{Desk, Seat};
use forms::Patterns;
use penalty::{RevokedState, penalties};
use std::alloc::Global;
use std::sync::Wait;
use std::thread;

// Builds the penalty set of a revoked state while other threads may have the book, and keeps it.
fn keep_set_of<R: Wait>(
    rt: &R,
    alloc: Global,
    patterns: &Patterns,
    desk: &Desk,
    seat: &mut Seat,
    channel: u64,
    number: u64,
    state: &RevokedState,
) -> Result<(), KeepError>
    requires { IsSeatOf desk.now seat.old }
    ensures seat { IsSameSeat desk.now seat.old seat.new }
    ensures calls { Adds (number_in seat.old) (keeping channel number ∷ [])
        (calls_in seat.old) (calls_in seat.new) }
    ensures err { OnErr result (calls_in seat.new ≡ calls_in seat.old) }
{
    let set = penalties(alloc, patterns, state)?;
    desk.keep_set(rt, seat, channel, number, set)
}

// Keeps the penalties of the peer's revoked commitment of this number.
fn try_to_keep<R: Wait>(
    rt: &R,
    alloc: Global,
    patterns: &Patterns,
    desk: &Desk,
    seat: &mut Seat,
    channel: u64,
    number: u64,
) -> Result<(), KeepError>
    requires { IsSeatOf desk.now seat.old }
    ensures seat { IsSameSeat desk.now seat.old seat.new }
    ensures calls { Adds (number_in seat.old) (keeping channel number ∷ [])
        (calls_in seat.old) (calls_in seat.new) }
    ensures err { OnErr result (calls_in seat.new ≡ calls_in seat.old) }
{
    let state = desk.revoked(rt, seat, channel, number)?;
    keep_set_of(rt, alloc, patterns, desk, seat, channel, number, &state)
}

/// Keeps the penalties of the peer's revoked commitment of this number, unless the book refuses. Retries until memory suffices.
pub(crate) fn keep<R: Wait>(
    rt: &R,
    alloc: Global,
    patterns: &Patterns,
    desk: &Desk,
    seat: &mut Seat,
    channel: u64,
    number: u64,
)
    requires { IsSeatOf desk.now seat.old }
    ensures seat { IsSameSeat desk.now seat.old seat.new }
    ensures calls { Adds (number_in seat.old) (keeping channel number ∷ [])
        (calls_in seat.old) (calls_in seat.new) }
{
    for _ in rt.forever() {
        match try_to_keep(rt, alloc, patterns, desk, seat, channel, number) {
            Err(KeepError::NoMemory) => thread::yield_now(),
            _ => return,
        }
    }
    unreachable!()
}
