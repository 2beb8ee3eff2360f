// The queue's two ends and its passes.

ghost use Rattle.std.specs.Prelude.{◌≡◌, IfOk, MatchOption, MatchResult};
ghost use Rattle.jobs.specs.Rule.{idle, halved, other_half};
ghost use Rattle.jobs.specs.Ends.{PutsWith, TakesWith, PutIntoOne, TakeFromOne, IsOneQueue, hand_of};
ghost use Rattle.jobs.specs.Steps.{IsPut, IsTake, WasEmpty};

use crate::rule::{Apart, Fair, Hand, Puts, Takes};
use crossbeam_channel::{RuledReceiver, RuledSender, SendError, bounded_with};
use std::alloc::{AllocError, Global};
use std::sync::Wait;

/// The greatest number of jobs that a queue holds.
pub const CAPACITY: usize = 64;

/// A thread's right to use one queue, which takes no bytes. Contracts see the jobs that it put and took, and its share of the queue.
///
/// Keep a pass as long as the queue is used. What a dropped pass put and took still counts, but its view of it is lost.
pub type Pass<J> = crossbeam_channel::Pass<J, Hand<J>>;

/// The end of the queue into which jobs are put.
#[derive(Drop)]
pub struct JobSender<J: Drop> {
    sender: RuledSender<J, Hand<J>, Fair>,
}

/// The end of the queue from which jobs are taken.
#[derive(Drop)]
pub struct JobTaker<J: Drop> {
    taker: RuledReceiver<J, Hand<J>, Fair>,
}

/// An empty queue of at most 64 jobs: its two ends and its first pass, which has the whole share. The only error is that memory ran out.
pub fn job_queue<J: Drop>(alloc: Global) -> Result<(JobSender<J>, JobTaker<J>, Pass<J>), AllocError>
    ensures { IfOk result (λ r. IsOneQueue r.0 r.1 × PutsWith r.0 r.2 × (hand_of r.2 ≡ idle 0)) }
{
    let (sender, taker, pass) = bounded_with(alloc, CAPACITY)?;
    Ok((JobSender { sender }, JobTaker { taker }, pass))
}

impl<J: Drop> JobSender<J> {
    /// A further sender to the same queue. The only error is that memory ran out.
    pub fn copy(&self) -> Result<JobSender<J>, AllocError>
        ensures { IfOk result (λ s. PutIntoOne s self.now) }
    {
        let sender = self.sender.try_clone()?;
        Ok(JobSender { sender })
    }

    /// A further pass to the same queue, which has put and taken nothing. Each of the two passes has half of the share that this one had. So the
    /// passes of a queue are its first one and those that this function returned, and no others.
    pub fn pass(&self, pass: &mut Pass<J>) -> Pass<J>
        requires { PutsWith self.now pass.old }
        ensures half { PutsWith self.now pass.new × (hand_of pass.new ≡ halved (hand_of pass.old)) }
        ensures new { PutsWith self.now result × (hand_of result ≡ other_half (hand_of pass.old)) }
    {
        self.sender.another::<Apart>(pass)
    }

    /// Puts a job at the back, and blocks while the queue holds 64. The job is returned as an error if it was not put, as when all
    /// takers were dropped.
    pub fn put<R: Wait>(&self, rt: &R, pass: &mut Pass<J>, job: J) -> Result<(), J>
        requires { PutsWith self.now pass.old }
        ensures pass { PutsWith self.now pass.new }
        ensures put { MatchResult result (λ _. IsPut (hand_of pass.old) job (hand_of pass.new))
            (λ back. (back ≡ job) × (hand_of pass.new ≡ hand_of pass.old)) }
    {
        match self.sender.send_as::<Puts, R>(rt, pass, job) {
            Ok(()) => Ok(()),
            Err(SendError::Disconnected(job)) => Err(job),
            Err(SendError::OutOfMemory(job)) => Err(job),
        }
    }
}

impl<J: Drop> JobTaker<J> {
    /// A further taker of the same queue. The only error is that memory ran out.
    pub fn copy(&self) -> Result<JobTaker<J>, AllocError>
        ensures { IfOk result (λ t. TakeFromOne t self.now) }
    {
        let taker = self.taker.try_clone()?;
        Ok(JobTaker { taker })
    }

    /// Takes the job at the front, and blocks while the queue is empty and a sender is left. `None` only if the queue was empty at some
    /// moment of the call, and closed. That is tested, not proved, since passes can be made up that meet `WasEmpty`.
    pub fn take<R: Wait>(&self, rt: &R, pass: &mut Pass<J>) -> Option<J>
        requires { TakesWith self.now pass.old }
        ensures pass { TakesWith self.now pass.new }
        ensures taken { MatchOption result ((hand_of pass.new ≡ hand_of pass.old)
            × WasEmpty (hand_of pass.old)) (λ job. IsTake (hand_of pass.old) job
            (hand_of pass.new)) }
    {
        self.taker.recv_as::<Takes, R>(rt, pass).ok()
    }
}
