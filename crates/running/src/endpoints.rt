//! A side's endpoint of a channel, and the jobs that its threads put.

ghost use Rattle.jobs.specs.Ends.{PutsWith, hand_of};
ghost use Rattle.running.specs.Acting.{IsPutOrDropped};

use crate::progress::Progress;
use channel::Message;
use desk::Seat;
use jobs::{JobSender, Pass};
use node::Job;
use std::collections::VecDeque;
use std::sync::Wait;
use std::thread;

/// What a channel's thread has of one of its two sides.
#[derive(Drop)]
pub(crate) struct Endpoint {
    /// Its seat at the side's desk.
    pub(crate) seat: Seat,
    /// Where it puts the side's jobs.
    pub(crate) sender: JobSender<Job>,
    pub(crate) pass: Pass<Job>,
    /// The messages on their way to the side, the oldest first.
    pub(crate) inbox: VecDeque<Message>,
}

/// Puts a job, and drops it if no worker of the side is left. Blocks while the queue is full. Where memory is refused it tries again, without a bound.
pub(crate) fn put<R: Wait>(
    rt: &R,
    progress: &Progress,
    sender: &JobSender<Job>,
    pass: &mut Pass<Job>,
    job: Job,
)
    requires { PutsWith sender.now pass.old }
    ensures pass { PutsWith sender.now pass.new }
    ensures put { IsPutOrDropped job (hand_of pass.old) (hand_of pass.new) }
{
    progress.expect(rt);
    let mut left = job;
    for _ in rt.forever() {
        match sender.put(rt, pass, left) {
            Ok(()) => return,
            Err(back) => left = back,
        }
        if !progress.has_worker(rt) {
            progress.finish(rt);
            return;
        }
        thread::yield_now();
    }
}
