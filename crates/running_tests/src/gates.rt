//! The gate with which the tests run.

ghost use Rattle.desk.specs.Seats.{IsSeatOf, HasSameCalls};

use book::errors::KeepError;
use desk::{Desk, Seat};
use node::Gate;
use std::sync::Wait;
use std::sync::atomic::{AtomicU64, Ordering};
use std::thread;

/// How often a gate looks at most, before it gives up.
const MOST_LOOKS: u32 = 10_000_000;

/// What a gate does.
#[derive(Clone, Copy, PartialEq, Eq)]
pub(crate) enum Manner {
    /// It is open.
    Open,
    /// It holds the job of ticket 0 until that of ticket 1 is done. With one channel both are to keep the penalties of the peer's commitment 0, each at its own side's desk.
    HoldsFirst,
    /// It holds the job of ticket 0 until penalties are kept in one of two channels. Its own are not.
    HoldsForOther,
    /// It stops the worker that takes the job of ticket 0.
    ShutsFirst,
    /// It stops each worker at its first ticket, once the peer has revoked its commitment 0 in both of two channels.
    Shut,
}

/// A gate.
#[derive(Drop)]
pub(crate) struct TestGate {
    manner: Manner,
    /// Whether the job of ticket 1 is done.
    is_done: AtomicU64,
    /// How often what it waited for came.
    came: AtomicU64,
    /// Whether the penalties of the job of ticket 0 were still missing when that of ticket 1 was done.
    is_missing: AtomicU64,
    /// Whether those of the job of ticket 1 were kept when it was done.
    is_kept: AtomicU64,
}

// Why the penalties of the peer's commitment 0 can't be kept in a channel.
fn refusal_in<R: Wait>(rt: &R, desk: &Desk, seat: &mut Seat, channel: u64) -> Option<KeepError>
    requires { IsSeatOf desk.now seat.old }
    ensures { HasSameCalls desk.now seat.old seat.new }
{
    desk.revoked(rt, seat, channel, 0).err()
}

// Lets other threads run for a while.
fn rest() {
    for _ in 0..1000 {
        thread::yield_now();
    }
}

impl TestGate {
    pub(crate) fn new(manner: Manner) -> TestGate {
        TestGate {
            manner,
            is_done: AtomicU64::new(0),
            came: AtomicU64::new(0),
            is_missing: AtomicU64::new(0),
            is_kept: AtomicU64::new(0),
        }
    }

    /// Whether something came for which it waited.
    pub(crate) fn has_come(&self) -> bool {
        self.came.load(Ordering::SeqCst) != 0
    }

    /// Whether the job of ticket 1 kept its penalties while those of ticket 0 were missing.
    pub(crate) fn has_overtaken(&self) -> bool {
        self.is_missing.load(Ordering::SeqCst) != 0 && self.is_kept.load(Ordering::SeqCst) != 0
    }

    // Whether what it waits for is there.
    #[tactic(auto, using(running::proofs::Same::same_calls, running::proofs::Same::still_same))]
    fn is_there<R: Wait>(&self, rt: &R, desk: &Desk, seat: &mut Seat) -> bool
        requires { IsSeatOf desk.now seat.old }
        ensures { HasSameCalls desk.now seat.old seat.new }
    {
        let first = refusal_in(rt, desk, seat, 0);
        let second = refusal_in(rt, desk, seat, 1);
        match self.manner {
            Manner::Open | Manner::ShutsFirst => true,
            Manner::HoldsFirst => self.is_done.load(Ordering::SeqCst) != 0,
            Manner::HoldsForOther => {
                first == Some(KeepError::AlreadyKept) || second == Some(KeepError::AlreadyKept)
            }
            Manner::Shut => {
                first != Some(KeepError::NotRevoked) && second != Some(KeepError::NotRevoked)
            }
        }
    }

    // Waits for it.
    #[tactic(auto, using(running::proofs::Same::same_calls, running::proofs::Same::still_same))]
    fn wait<R: Wait>(&self, rt: &R, desk: &Desk, seat: &mut Seat)
        requires { IsSeatOf desk.now seat.old }
        ensures { HasSameCalls desk.now seat.old seat.new }
    {
        for _ in 0..MOST_LOOKS {
            if self.is_there(rt, desk, seat) {
                self.came.fetch_add(1, Ordering::SeqCst);
                return;
            }
            thread::yield_now();
        }
    }

    // Notes whether the penalties of the job that it holds are still missing.
    fn note_held<R: Wait>(&self, rt: &R, desk: &Desk, seat: &mut Seat)
        requires { IsSeatOf desk.now seat.old }
        ensures { HasSameCalls desk.now seat.old seat.new }
    {
        if refusal_in(rt, desk, seat, 0).is_none() {
            self.is_missing.store(1, Ordering::SeqCst);
        }
    }

    // Notes whether the penalties of a job are kept, which is done.
    fn note_done<R: Wait>(&self, rt: &R, desk: &Desk, seat: &mut Seat)
        requires { IsSeatOf desk.now seat.old }
        ensures { HasSameCalls desk.now seat.old seat.new }
    {
        if refusal_in(rt, desk, seat, 0) == Some(KeepError::AlreadyKept) {
            self.is_kept.store(1, Ordering::SeqCst);
        }
        self.is_done.store(1, Ordering::SeqCst);
    }
}

impl Gate for TestGate {
    #[tactic(auto, using(running::proofs::Same::same_calls, running::proofs::Same::still_same))]
    fn before<R: Wait>(&self, rt: &R, ticket: u64, desk: &Desk, seat: &mut Seat) {
        if ticket == 0 || self.manner == Manner::Shut {
            self.wait(rt, desk, seat);
        }
        if ticket == 0 {
            self.note_held(rt, desk, seat);
        }
        if self.manner == Manner::Shut {
            // a revocation is there before its job
            rest();
        }
    }

    #[tactic(auto, using(running::proofs::Same::same_calls))]
    fn after<R: Wait>(&self, rt: &R, ticket: u64, desk: &Desk, seat: &mut Seat) {
        if ticket == 1 {
            self.note_done(rt, desk, seat);
        }
    }

    fn go_on(&self, ticket: u64) -> bool {
        self.manner != Manner::Shut && (self.manner != Manner::ShutsFirst || ticket != 0)
    }
}
