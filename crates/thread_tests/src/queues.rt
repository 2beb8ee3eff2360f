//! What the clauses of `jobs` do not say: that calls succeed and return, in one thread and in many.

ghost use Rattle.jobs.specs.Ends.{PutsWith, TakesWith, IsOneQueue};

use jobs::{JobSender, JobTaker, Pass, job_queue};
use std::alloc::{AllocError, Global};
use std::process::Abort;
use std::sync::Wait;
use std::thread;
use std::thread::{JoinHandle, Threads};

// Puts `count` jobs, numbered from `first`, and returns how many were put before one came back.
fn put_many<R: Wait>(
    rt: &R,
    sender: &JobSender<u32>,
    pass: &mut Pass<u32>,
    first: u32,
    count: u32,
) -> u32
    requires { PutsWith sender.now pass.old }
    ensures { PutsWith sender.now pass.new }
{
    for k in 0..count {
        if sender.put(rt, pass, first.wrapping_add(k)).is_err() {
            return k;
        }
    }
    count
}

// Takes `count` jobs, or all that come until the queue is closed and empty.
fn take_many<R: Wait>(
    rt: &R,
    alloc: Global,
    taker: &JobTaker<u32>,
    pass: &mut Pass<u32>,
    most: u32,
) -> Result<Vec<u32>, AllocError>
    requires { TakesWith taker.now pass.old }
    ensures { TakesWith taker.now pass.new }
{
    let mut taken = Vec::new(alloc);
    for _ in 0..most {
        let Some(job) = taker.take(rt, pass) else {
            break;
        };
        taken.push(job)?;
    }
    Ok(taken)
}

// The example in the documentation of `jobs`.
#[test]
fn first_in_first_out(rt: HostRuntime) {
    let (sender, taker, mut mine) = job_queue(rt.alloc()).expect(&rt, "memory");
    let mut theirs = sender.pass(&mut mine);
    assert!(rt; sender.put(&rt, &mut mine, 7).is_ok());
    assert!(rt; sender.put(&rt, &mut mine, 5).is_ok());
    drop(sender);
    assert_eq!(rt; taker.take(&rt, &mut theirs), Some(7));
    assert_eq!(rt; taker.take(&rt, &mut theirs), Some(5));
    assert_eq!(rt; taker.take(&rt, &mut theirs), None);
}

// Whether these are 64 jobs, numbered from `first`.
fn are_numbered(taken: &[u32], first: u32) -> bool {
    for (job, next) in taken.iter().zip(first..first.saturating_add(64)) {
        if *job != next {
            return false;
        }
    }
    taken.len() == 64
}

// Puts 64 jobs, each of which must be taken in, and then takes 64, which must be the same in order.
fn fill_and_empty<R: Wait>(
    rt: &R,
    alloc: Global,
    sender: &JobSender<u32>,
    mine: &mut Pass<u32>,
    taker: &JobTaker<u32>,
    theirs: &mut Pass<u32>,
    first: u32,
) -> bool
    requires { PutsWith sender.now mine.old × TakesWith taker.now theirs.old }
    ensures { PutsWith sender.now mine.new × TakesWith taker.now theirs.new }
{
    let puts = put_many(rt, sender, mine, first, 64);
    match take_many(rt, alloc, taker, theirs, puts) {
        Ok(taken) => are_numbered(&taken, first),
        Err(_) => false,
    }
}

// With both ends open, 64 puts of one thread succeed, and then 64 takes
// return the 64 jobs in order. This is done twice, so that the ring wraps.
#[test]
fn sixty_four_jobs(rt: HostRuntime) {
    let alloc = rt.alloc();
    let (sender, taker, mut mine) = job_queue(alloc).expect(&rt, "memory");
    let mut theirs = sender.pass(&mut mine);
    assert!(rt; fill_and_empty(&rt, alloc, &sender, &mut mine, &taker, &mut theirs, 0));
    assert!(rt; fill_and_empty(&rt, alloc, &sender, &mut mine, &taker, &mut theirs, 1000));
}

// If all takers are dropped, a job comes back.
fn no_taker<R: Wait + Abort>(rt: &R, alloc: Global) {
    let (sender, taker, mut mine) = job_queue(alloc).expect(rt, "memory");
    let second = taker.copy().expect(rt, "memory");
    drop(taker);
    assert!(rt; sender.put(rt, &mut mine, 1).is_ok());
    drop(second);
    assert!(rt; sender.put(rt, &mut mine, 2) == Err(2));
}

// If all senders are dropped and the queue is empty, there is no job.
fn no_sender<R: Wait + Abort>(rt: &R, alloc: Global) {
    let (sender, taker, mut mine) = job_queue(alloc).expect(rt, "memory");
    let second = sender.copy().expect(rt, "memory");
    drop(sender);
    assert!(rt; second.put(rt, &mut mine, 3).is_ok());
    drop(second);
    assert!(rt; taker.take(rt, &mut mine) == Some(3));
    assert!(rt; taker.take(rt, &mut mine).is_none());
}

#[test]
fn one_end_gone(rt: HostRuntime) {
    no_taker(&rt, rt.alloc());
    no_sender(&rt, rt.alloc());
}

// Starts a thread that puts 10,000 jobs.
fn start_putter<R: Threads + Wait + Abort + Copy + Send + 'static>(
    rt: R,
    sender: &JobSender<u32>,
    first: &mut Pass<u32>,
    job: u32,
) -> JoinHandle<u32>
    requires { PutsWith sender.now first.old }
    ensures { PutsWith sender.now first.new }
{
    let own = sender.copy().expect(&rt, "memory");
    let mut pass = sender.pass(first);
    thread::spawn(
        &rt,
        move || -> u32
            requires { PutsWith own pass }
        { put_many(&rt, &own, &mut pass, job, 10_000) },
    )
    .expect(&rt, "a thread")
}

// Starts a thread that takes jobs until the queue is closed and empty.
fn start_taker<R: Threads + Wait + Abort + Copy + Send + 'static>(
    rt: R,
    alloc: Global,
    sender: &JobSender<u32>,
    taker: &JobTaker<u32>,
    first: &mut Pass<u32>,
) -> JoinHandle<Result<Vec<u32>, AllocError>>
    requires { PutsWith sender.now first.old × IsOneQueue sender.now taker.now }
    ensures { PutsWith sender.now first.new }
{
    let own = taker.copy().expect(&rt, "memory");
    let mut pass = sender.pass(first);
    thread::spawn(
        &rt,
        move || -> Result<Vec<u32>, AllocError>
            requires { TakesWith own pass }
        { take_many(&rt, alloc, &own, &mut pass, 40_000) },
    )
    .expect(&rt, "a thread")
}

// Marks each job that was taken, and returns whether each was new.
fn mark(seen: &mut Vec<bool>, taken: &[u32]) -> bool {
    for job in taken {
        match seen.get_mut(*job as usize) {
            Some(mark) if !*mark => *mark = true,
            _ => return false,
        }
    }
    true
}

// Asserts that a putter has put its 10,000 jobs.
fn has_put<R: Threads + Abort>(rt: &R, putter: JoinHandle<u32>) {
    assert!(rt; putter.join(rt) == 10_000);
}

// Asserts that each job of a taker is new, and marks it.
fn has_taken<R: Threads + Abort>(
    rt: &R,
    taker: JoinHandle<Result<Vec<u32>, AllocError>>,
    seen: &mut Vec<bool>,
) {
    let taken = taker.join(rt).expect(rt, "memory");
    assert!(rt; mark(seen, &taken));
}

// Whether every job was taken.
fn are_all_taken(seen: &[bool]) -> bool {
    for mark in seen {
        if !*mark {
            return false;
        }
    }
    true
}

// Four putters and four takers of 10,000 jobs each: every job is taken once.
#[test]
fn four_putters_and_four_takers(rt: HostRuntime) {
    let alloc = rt.alloc();
    let (sender, taker, mut first) = job_queue(alloc).expect(&rt, "memory");
    let a = start_taker(rt, alloc, &sender, &taker, &mut first);
    let b = start_taker(rt, alloc, &sender, &taker, &mut first);
    let c = start_taker(rt, alloc, &sender, &taker, &mut first);
    let d = start_taker(rt, alloc, &sender, &taker, &mut first);
    let e = start_putter(rt, &sender, &mut first, 0);
    let f = start_putter(rt, &sender, &mut first, 10_000);
    let g = start_putter(rt, &sender, &mut first, 20_000);
    let h = start_putter(rt, &sender, &mut first, 30_000);
    drop(sender);
    has_put(&rt, e);
    has_put(&rt, f);
    has_put(&rt, g);
    has_put(&rt, h);
    let mut seen = vec![in alloc; false; 40_000].expect(&rt, "memory");
    has_taken(&rt, a, &mut seen);
    has_taken(&rt, b, &mut seen);
    has_taken(&rt, c, &mut seen);
    has_taken(&rt, d, &mut seen);
    assert!(rt; are_all_taken(&seen));
}
