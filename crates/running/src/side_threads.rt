//! The threads of a side's workers and watcher.

ghost use Rattle.std.specs.Prelude.{◌≡◌, ◌≤◌, [], All, Ok, IfOk, length};
ghost use Rattle.std.specs.Vec.{vec_capacity};
ghost use Rattle.running.specs.Threads.{IsSideThread, HasServed};

use crate::shared::{SharedState, SideState};
use crate::watching::{Watcher, watch};
use crate::working::{Worker, work};
use desk::Seat;
use node::{Done, Gate, Hands};
use std::alloc::{AllocError, Global};
use std::sync::Wait;
use std::thread;
use std::thread::{Promise, PromisedHandle, Threads};

/// What the thread of a worker or of a watcher has of its own.
#[derive(Drop)]
pub(crate) enum SideThread {
    Works(Worker),
    Watches(Watcher),
}

/// What such a thread gives back. No end of a queue is in it, since the result of a thread that nobody joins is kept.
#[derive(Drop)]
pub(crate) enum Served {
    Worked(Done, Hands),
    Watched(Seat),
}

// What the result of such a thread keeps, at a side.
#[derive(Drop)]
struct Serving<'a>(&'a SideState);

impl<'a> Promise<Served> for Serving<'a> {
    ghost use Rattle.running.specs.Threads.{HasServed};

    ghost kept_by = { λ serving served. HasServed serving.0.now served };
}

// Works, or watches.
#[tactic(auto, using(crate::proofs::Serving::watched))]
fn serve<R: Wait, G: Gate>(
    rt: &R,
    alloc: Global,
    shared: &SharedState,
    side: &SideState,
    gate: &G,
    mine: SideThread,
) -> Served
    requires { IsSideThread side.now shared.now.board mine }
    ensures { HasServed side.now result }
{
    match mine {
        SideThread::Works(worker) => {
            let (done, hands) = work(rt, alloc, shared, side, gate, worker);
            Served::Worked(done, hands)
        }
        SideThread::Watches(watcher) => Served::Watched(watch(rt, alloc, shared, side, watcher)),
    }
}

// What these threads give back, once each has ended. The list has room for it.
fn join_all<R: Threads>(
    rt: &R,
    side: &SideState,
    threads: Vec<PromisedHandle<Served, Serving<'_>>>,
    served: Vec<Served>,
) -> Vec<Served>
    requires threads { All (λ t. t.promise.0.now ≡ side.now) threads.items }
    requires room { length threads.items ≤ vec_capacity served }
    requires none { served.items ≡ [] }
    ensures each { All (HasServed side.now) result.items }
    ensures many { length result.items ≡ length threads.entry.items }
{
    let _side = side;
    let mut served = served;
    for thread in threads {
        served.push_reserved(thread.join(rt));
    }
    served
}

/// Runs the workers and the watcher of a side beside `f`, and then until each of them has ended. Gives back what `f` and they do. The error is that of `f`, or that memory ran out, or that one
/// of them could not be started; then `f` is not called.
pub(crate) fn run_beside<R, G, T, F>(
    rt: &R,
    alloc: Global,
    shared: &SharedState,
    side: &SideState,
    gate: &G,
    side_threads: Vec<SideThread>,
    f: F,
) -> Result<(T, Vec<Served>), AllocError>
where
    R: Threads + Wait + Sync,
    G: Gate + Sync,
    T: Drop,
    F: FnOnce() -> Result<T, AllocError>,
    requires side_threads { All (IsSideThread side.now shared.now.board) side_threads.items }
    requires callable { F.pre f }
    ensures value { IfOk result (λ r. F.post f (Ok r.0)) }
    ensures each { IfOk result (λ r. All (HasServed side.now) r.1.items) }
    ensures many { IfOk result (λ r. length r.1.items ≡ length side_threads.items) }
{
    thread::scope(
        thread::scope_env(),
        rt,
        move |scope| -> Result<(T, Vec<Served>), AllocError>
            requires { All (IsSideThread side.now shared.now.board) side_threads.items × F.pre f }
            ensures { IfOk result (λ r. F.post f (Ok r.0)
                × All (HasServed side.entry.now) r.1.items
                × (length r.1.items ≡ length side_threads.items)) }
        {
            let many = side_threads.len();
            let mut threads = Vec::with_capacity(alloc, many)?;
            let served = Vec::with_capacity(alloc, many)?;
            for mine in side_threads {
                match scope.spawn_with(
                    Serving(side),
                    move || -> Served
                        requires { IsSideThread side.now shared.now.board mine }
                        ensures { HasServed side.entry.now result }
                    { serve(rt, alloc, shared, side, gate, mine) },
                ) {
                    Ok(thread) => threads.push_reserved(thread),
                    Err(_) => {
                        shared.chain.end(rt);
                        return Err(AllocError);
                    }
                }
            }
            let is_each_started = threads.len() == many;
            prove!(is_each_started);
            let value = f();
            shared.chain.end(rt);
            let served = join_all(rt, side, threads, served);
            Ok((value?, served))
        },
    )
}
