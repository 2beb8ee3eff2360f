//! The gate with which the tests run.

ghost use Rattle.std.specs.Prelude.{◌<◌};
ghost use Rattle.desk.specs.Seats.{IsSeatOf, HasSameCalls};

use book::errors::KeepError;
use desk::{Desk, Seat};
use node::Gate;
use std::sync::Wait;
use std::sync::atomic::{AtomicU64, Ordering};
use std::thread;

/// How often a gate looks at most, before it gives up.
const MOST_LOOKS: u32 = 10_000_000;

/// What a gate does.
#[derive(Clone, Copy, PartialEq, Eq)]
pub(crate) enum Manner {
    /// It is open.
    Open,
    /// It stops a worker at its first ticket.
    Stops,
    /// It holds the job of ticket 0 until that of ticket 1 is done, and then notes in how many of two channels the penalties are kept.
    Holds,
}

/// A gate.
#[derive(Drop)]
pub(crate) struct TestGate {
    manner: Manner,
    /// Whether the job of ticket 1 is done.
    is_done: AtomicU64,
    /// In how many of two channels the penalties are kept.
    kept: AtomicU64,
}

// Whether the penalties of B's commitment 0 are kept in a channel: 1, or else 0.
fn is_kept<R: Wait>(rt: &R, desk: &Desk, seat: &mut Seat, channel: u64) -> u64
    requires { IsSeatOf desk.now seat.old }
    ensures same { HasSameCalls desk.now seat.old seat.new }
    ensures small { result < 2 }
{
    match desk.revoked(rt, seat, channel, 0).err() {
        Some(KeepError::AlreadyKept) => 1,
        _ => 0,
    }
}

impl TestGate {
    pub(crate) fn new(manner: Manner) -> TestGate {
        TestGate {
            manner,
            is_done: AtomicU64::new(0),
            kept: AtomicU64::new(0),
        }
    }

    /// In how many channels the penalties were kept while it held a job.
    pub(crate) fn kept(&self) -> u64 {
        self.kept.load(Ordering::SeqCst)
    }

    // Waits for the job of ticket 1.
    fn wait(&self) {
        for _ in 0..MOST_LOOKS {
            if self.is_done.load(Ordering::SeqCst) != 0 {
                return;
            }
            thread::yield_now();
        }
    }

    // Notes in how many of two channels the penalties are kept.
    #[tactic(auto, using(crate::proofs::Same::same_calls, crate::proofs::Same::still_same))]
    fn note<R: Wait>(&self, rt: &R, desk: &Desk, seat: &mut Seat)
        requires { IsSeatOf desk.now seat.old }
        ensures { HasSameCalls desk.now seat.old seat.new }
    {
        let first = is_kept(rt, desk, seat, 0);
        let second = is_kept(rt, desk, seat, 1);
        self.kept.store(first + second, Ordering::SeqCst);
    }
}

impl Gate for TestGate {
    #[tactic(auto, using(crate::proofs::Same::same_calls, crate::proofs::Same::still_same))]
    fn before<R: Wait>(&self, rt: &R, ticket: u64, desk: &Desk, seat: &mut Seat) {
        if ticket == 0 && self.manner == Manner::Holds {
            self.wait();
            self.note(rt, desk, seat);
        }
    }

    #[tactic(auto, using(crate::proofs::Same::same_calls))]
    fn after<R: Wait>(&self, _rt: &R, ticket: u64, _desk: &Desk, seat: &mut Seat) {
        let _seat = &*seat;
        if ticket == 1 {
            self.is_done.store(1, Ordering::SeqCst);
        }
    }

    fn go_on(&self, _ticket: u64) -> bool {
        self.manner != Manner::Stops
    }
}
