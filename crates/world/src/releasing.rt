//! Jobs that a side takes, and claims that it releases.

ghost use Rattle.std.specs.Prelude.{◌≡◌, ◌+◌, ◌≤◌, ◌++◌, take, drop, map, None, Ok, IfOk, MatchResult};
ghost use Rattle.std.specs.VecDeque.{deque_len, deque_capacity};
ghost use Rattle.book.specs.declared.calls.Call.TheVariants.{Release as Releasing};
ghost use Rattle.book.specs.Replies.{released};
ghost use Rattle.world.specs.Worlds.{answer_to, after_call};
ghost use Rattle.world.specs.Refusing.{refusal_in, IsRefusal, IsEvent};
ghost use Rattle.world.specs.Releasing.{take_refusal, with_taken, release_refusal, without_taken, IsReleased};

use crate::batches::release_of;
use crate::errors::EventError;
use crate::nodes::Node;
use book::{Batch, FilledTwice};
use side::DueClaim;
use std::alloc::{AllocError, Global};
use std::collections::VecDeque;
use tx::Tx;

// Moves the `count` oldest jobs to the end of others.
fn move_oldest(from: &mut VecDeque<DueClaim>, to: &mut VecDeque<DueClaim>, count: usize)
    requires there { count ≤ deque_len from.old }
    requires room { deque_len to.old + count ≤ deque_capacity to.old }
    ensures from { from.new.items ≡ drop count from.old.items }
    ensures to { to.new.items ≡ to.old.items ++ take count from.old.items }
{
    for _job in 0..count {
        match from.pop_front() {
            Some(job) => to.push_back(job).unwrap(),
            None => unreachable!(),
        }
    }
}

/// Takes the `count` oldest jobs of a side: `NoJob` where there are fewer. A refusal leaves the side as it was.
pub(crate) fn take(me: &mut Node, count: u64) -> Result<(), EventError>
    ensures { IsEvent (take_refusal count me.old) result me.old (with_taken count me.old) me.new }
{
    let count = count as usize;
    if count > me.jobs.len() {
        return Err(EventError::NoJob);
    }
    me.taken.reserve(count)?;
    move_oldest(&mut me.jobs, &mut me.taken, count);
    Ok(())
}

// References to the `count` oldest claims. The only error is that memory ran out.
pub(crate) fn oldest_of(
    alloc: Global,
    taken: &VecDeque<DueClaim>,
    count: usize,
) -> Result<Vec<&DueClaim>, AllocError>
    requires { count ≤ deque_len taken.now }
    ensures { IfOk result (λ v. map (λ j. j.now) v.items ≡ take count taken.now.items) }
{
    let mut jobs = Vec::new(alloc);
    for index in 0..count {
        jobs.push(&taken[index])?;
    }
    Ok(jobs)
}

// Drops the oldest taken claim.
fn pop_job(taken: &mut VecDeque<DueClaim>)
    ensures { taken.new.items ≡ drop 1 taken.old.items }
{
    let _job = taken.pop_front();
}

// Drops the `count` oldest taken claims.
fn pop_oldest(taken: &mut VecDeque<DueClaim>, count: usize)
    ensures { taken.new.items ≡ drop count taken.old.items }
{
    for _job in 0..count {
        pop_job(taken);
    }
}

// Drops the `count` oldest claims that a side took.
fn drop_taken(me: &mut Node, count: u64)
    ensures { me.new ≡ without_taken count me.old }
{
    pop_oldest(&mut me.taken, count as usize);
}

// Fills the claims of a batch by the side's book, refused as the book refuses. A refusal leaves the side as it was.
fn filled_by(me: &mut Node, channel: u64, batch: Batch) -> Result<FilledTwice, EventError>
    ensures side { let call = Releasing channel batch in
        IsEvent (refusal_in (answer_to me.old call)) result me.old (after_call call me.old) me.new }
    ensures filled { let call = Releasing channel batch in
        IfOk result (λ f. answer_to me.old call ≡ released (Ok f.filled)) }
    ensures copy { IfOk result (λ f. f.copy ≡ f.filled.tx) }
{
    match me.release(channel, batch) {
        Ok(filled) => Ok(filled),
        Err(error) => Err(EventError::of_release(error)),
    }
}

/// The transaction of a release, in two copies.
#[derive(Drop)]
pub(crate) struct Released {
    pub(crate) tx: Tx,
    pub(crate) copy: Tx,
}

/// Fills the `count` oldest claims that a side took in one transaction, which pays their whole value to the hash of the side's payment key in their channel (P2WPKH). An HTLC transaction stands
/// alone and keeps its own output. Refused, in this order, with `NoJob`, `MixedChannels` and `OverValue`, else as the book refuses. A refusal leaves the side as it was.
pub(crate) fn release(alloc: Global, me: &mut Node, count: u64) -> Result<Released, EventError>
    ensures { let first = release_refusal count me.old in
        MatchResult result
        (λ r. (first ≡ None) × IsReleased count me.old me.new r.tx × (r.copy ≡ r.tx))
        (λ e. IsRefusal first e × (me.new ≡ me.old)) }
{
    let release = release_of(alloc, me, count)?;
    let twice = filled_by(me, release.channel, release.batch)?;
    drop_taken(me, count);
    let FilledTwice { filled, copy } = twice;
    Ok(Released {
        tx: filled.into_tx(),
        copy,
    })
}
