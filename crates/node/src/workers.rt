//! Workers: what each does with the jobs that it takes.

ghost use Rattle.std.specs.Prelude.{◌≡◌, IfSome};
ghost use Rattle.desk.specs.Seats.{IsSeatOf, IsSameSeat, number_in, calls_in};
ghost use Rattle.node.specs.Tasks.{tasks_of};
ghost use Rattle.node.specs.Entering.{Adds};
ghost use Rattle.node.specs.Ready.{IsReady};
ghost use Rattle.node.specs.Work.{IsTurn, IsWork, IfStopped};

use crate::gates::Gate;
use crate::hands::{Hands, Shared};
use crate::keeping::keep;
use crate::releasing::release_each;
use crate::work::Job;
use desk::Seat;
use jobs::JobTaker;
use std::alloc::Global;
use std::sync::Wait;

/// What a worker did.
#[derive(Clone, Copy, Debug, Drop, PartialEq, Eq)]
pub struct Done {
    /// The number of jobs that it took, with the dropped one.
    pub jobs: u64,
    /// The ticket at which the gate stopped it.
    pub stopped: Option<u64>,
}

/// How a worker's turn with one job ends.
#[derive(Clone, Copy, Debug, Drop, PartialEq, Eq)]
pub(crate) enum Turn {
    /// The job was done.
    Finished,
    /// The gate stopped the worker at this ticket.
    Stopped(u64),
    /// The worker's seat at the board has drawn 2^32 tickets, and got no more.
    Spent,
}

// Does a job: makes at most one call for each thing that it asks for, in order.
fn do_job<R: Wait>(rt: &R, alloc: Global, shared: &Shared<'_>, seat: &mut Seat, job: &Job)
    requires { IsSeatOf shared.now.desk.now seat.old }
    ensures seat { IsSameSeat shared.now.desk.now seat.old seat.new }
    ensures calls { Adds (number_in seat.old) (tasks_of shared.now.payments.now job.now)
        (calls_in seat.old) (calls_in seat.new) }
{
    match job {
        Job::Keep { channel, number } => keep(
            rt,
            alloc,
            shared.patterns,
            shared.desk,
            seat,
            *channel,
            *number,
        ),
        Job::Claims(due) => release_each(rt, alloc, shared, seat, due),
    }
}

// Draws a ticket, asks the gate, and does a job.
fn take_turn<R: Wait, G: Gate>(
    rt: &R,
    alloc: Global,
    shared: &Shared<'_>,
    taker: &JobTaker<Job>,
    hands: &mut Hands,
    gate: &G,
    job: &Job,
) -> Turn
    requires { IsReady shared.now taker.now hands.old }
    ensures ready { IsReady shared.now taker.now hands.new }
    ensures turn { IsTurn shared.now.payments.now job.now hands.old hands.new result }
    ensures stopped { IfStopped (G.stops gate.now) result }
{
    let _taker = taker;
    let Ok(ticket) = shared.board.draw(&mut hands.place) else {
        return Turn::Spent;
    };
    gate.before(rt, ticket, shared.desk, &mut hands.seat);
    if !gate.go_on(ticket) {
        return Turn::Stopped(ticket);
    }
    do_job(rt, alloc, shared, &mut hands.seat, job);
    gate.after(rt, ticket, shared.desk, &mut hands.seat);
    Turn::Finished
}

/// Takes jobs and does them, until the queue is closed and empty, the gate stops it, or its seat at the board has drawn 2^32 tickets.
///
/// If it is stopped or gets no ticket, it drops the job that it took last, and does not call the desk for it. Blocks while
/// there is no job, and while another thread has the book or the pool.
///
/// Where memory is refused it tries the job again, without a bound: while memory stays refused, it does not return.
pub fn worker<R: Wait, G: Gate>(
    rt: &R,
    alloc: Global,
    shared: &Shared<'_>,
    taker: &JobTaker<Job>,
    hands: &mut Hands,
    gate: &G,
) -> Done
    requires { IsReady shared.now taker.now hands.old }
    ensures ready { IsReady shared.now taker.now hands.new }
    ensures work { IsWork shared.now.payments.now hands.old hands.new result }
    ensures stopped { IfSome result.stopped (G.stops gate.now) }
{
    let mut jobs: u64 = 0;
    for _ in rt.forever() {
        let Some(job) = taker.take(rt, &mut hands.pass) else {
            return Done {
                jobs,
                stopped: None,
            };
        };
        jobs += 1;
        let turn = take_turn(rt, alloc, shared, taker, hands, gate, &job);
        drop(job);
        match turn {
            Turn::Finished => {}
            Turn::Stopped(ticket) => {
                return Done {
                    jobs,
                    stopped: Some(ticket),
                };
            }
            Turn::Spent => {
                return Done {
                    jobs,
                    stopped: None,
                };
            }
        }
    }
    unreachable!()
}
