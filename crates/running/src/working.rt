//! The threads of workers.

ghost use Rattle.std.specs.Prelude.{IfSome};
ghost use Rattle.desk.specs.Seats.{IsSeatOf};
ghost use Rattle.node.specs.Work.{IsWork};
ghost use Rattle.running.specs.Threads.{IsWorker};

use crate::progress::Progress;
use crate::shared::{SharedState, SideState};
use desk::{Desk, Seat};
use jobs::JobTaker;
use node::{Done, Gate, Hands, Job, Shared};
use std::alloc::Global;
use std::sync::Wait;
use std::sync::atomic::{AtomicU64, Ordering};

/// What a worker's thread has of its own.
#[derive(Drop)]
pub(crate) struct Worker {
    pub(crate) taker: JobTaker<Job>,
    pub(crate) hands: Hands,
}

/// The caller's gate, which counts the jobs that a worker did.
struct Counted<'a, G> {
    gate: &'a G,
    progress: &'a Progress,
    jobs: AtomicU64,
}

impl<G: Gate> Gate for Counted<'_, G> {
    ghost stops = { λ counted. G.stops counted.gate.now };

    fn before<R: Wait>(&self, rt: &R, ticket: u64, desk: &Desk, seat: &mut Seat) {
        self.gate.before(rt, ticket, desk, seat);
    }

    fn after<R: Wait>(&self, rt: &R, ticket: u64, desk: &Desk, seat: &mut Seat) {
        self.gate.after(rt, ticket, desk, seat);
        self.jobs.fetch_add(1, Ordering::SeqCst);
        self.progress.finish(rt);
    }

    fn go_on(&self, ticket: u64) -> bool {
        self.gate.go_on(ticket)
    }
}

/// Works for a side until its queue is closed and empty, or the gate stops it.
pub(crate) fn work<R: Wait, G: Gate>(
    rt: &R,
    alloc: Global,
    shared: &SharedState,
    side: &SideState,
    gate: &G,
    mine: Worker,
) -> (Done, Hands)
    requires { IsWorker side.now shared.now.board mine }
    ensures seat { IsSeatOf side.now.desk result.1.seat }
    ensures work { IsWork side.now.payments.items mine.hands result.1 result.0 }
    ensures stopped { IfSome result.0.stopped (G.stops gate.now) }
{
    let Worker { taker, mut hands } = mine;
    let lent = Shared {
        desk: &side.desk,
        board: &shared.board,
        patterns: side.patterns.get(),
        payments: side.payments.as_slice(),
        pool: &shared.chain.pool,
    };
    let counted = Counted {
        gate,
        progress: &side.progress,
        jobs: AtomicU64::new(0),
    };
    let done = node::worker(rt, alloc, &lent, &taker, &mut hands, &counted);
    // A job that it took and did not do is dropped.
    if counted.jobs.load(Ordering::SeqCst) != done.jobs {
        side.progress.finish(rt);
    }
    side.progress.leave(rt);
    let Counted {
        gate: _,
        progress: _,
        jobs: _,
    } = counted;
    drop(taker);
    (done, hands)
}
