//! The claims that a worker releases.

ghost use Rattle.std.specs.Prelude.{◌≡◌, ◌≤◌, [], ◌∷◌, map, Some, IfSome, OnErr, MatchResult};
ghost use Rattle.tx.specs.declared.limits.TheConstants.{MAX_VALUE as max_value};
ghost use Rattle.book.specs.Calling.{filling_by};
ghost use Rattle.desk.specs.Seats.{IsSeatOf, IsSameSeat, number_in, calls_in};
ghost use Rattle.side.specs.Batches.{value_of};
ghost use Rattle.node.specs.Tasks.{releasing, task_for};
ghost use Rattle.node.specs.Entering.{Adds, by_release};

use crate::hands::Shared;
use crate::pools::Pool;
use book::errors::ReleaseError;
use book::{Batch, Call, Reply};
use desk::{Desk, Seat};
use filling::FillError;
use keys::Key;
use side::{DueClaim, batch_of, worth_of};
use std::alloc::Global;
use std::collections::VecDeque;
use std::sync::{Mutex, Wait};
use std::thread;
use tx::Tx;

// Adds a released filling to the pool. Retries until memory suffices, since its claim is not to be released twice.
fn give<R: Wait>(rt: &R, pool: &Mutex<Pool>, filling: Tx) {
    for _ in rt.forever() {
        if pool.lock(rt).release(&filling).is_ok() {
            return;
        }
        thread::yield_now();
    }
}

// The transaction with which the book fills a batch.
fn filled_by<R: Wait>(
    rt: &R,
    desk: &Desk,
    seat: &mut Seat,
    channel: u64,
    batch: Batch,
) -> Result<Tx, ReleaseError>
    requires { IsSeatOf desk.now seat.old }
    ensures seat { IsSameSeat desk.now seat.old seat.new }
    ensures filled { MatchResult result
        (λ tx. (tx ≡ (filling_by batch).tx) × (calls_in seat.new
        ≡ by_release (number_in seat.old) channel batch (calls_in seat.old)))
        (λ _. calls_in seat.new ≡ calls_in seat.old) }
{
    match desk.call(rt, seat, Call::Release { channel, batch }) {
        Reply::Released(answer) => match answer {
            Ok(filled) => Ok(filled.into_tx()),
            Err(error) => Err(error),
        },
        _ => unreachable!(),
    }
}

// Releases a claim of this value, and returns its transaction.
fn try_to_release<R: Wait>(
    rt: &R,
    alloc: Global,
    desk: &Desk,
    seat: &mut Seat,
    payment: &Key,
    due: &DueClaim,
    value: u64,
) -> Result<Tx, ReleaseError>
    requires seat { IsSeatOf desk.now seat.old }
    requires value { (value ≡ value_of (due.now ∷ [])) × (value ≤ max_value) }
    ensures seat { IsSameSeat desk.now seat.old seat.new }
    ensures calls { Adds (number_in seat.old) (releasing (Some payment.now) due.now ∷ [])
        (calls_in seat.old) (calls_in seat.new) }
    ensures err { OnErr result (calls_in seat.new ≡ calls_in seat.old) }
{
    let one = [due];
    let batch = batch_of(alloc, payment, &one, value)?;
    filled_by(rt, desk, seat, due.channel, batch)
}

// The value of a claim in satoshis, if it can be released.
fn worth(due: &DueClaim) -> Option<u64>
    ensures { IfSome result (λ v. (v ≡ value_of (due.now ∷ [])) × (v ≤ max_value)) }
{
    let one = [due];
    match worth_of(due.channel, &one) {
        Ok(value) => Some(value),
        Err(_) => None,
    }
}

// Releases a claim of this value to a payment key, unless the book refuses. Retries until memory suffices.
fn release_to<R: Wait>(
    rt: &R,
    alloc: Global,
    shared: &Shared<'_>,
    seat: &mut Seat,
    payment: &Key,
    due: &DueClaim,
    value: u64,
)
    requires seat { IsSeatOf shared.now.desk.now seat.old }
    requires value { (value ≡ value_of (due.now ∷ [])) × (value ≤ max_value) }
    ensures seat { IsSameSeat shared.now.desk.now seat.old seat.new }
    ensures calls { Adds (number_in seat.old) (releasing (Some payment.now) due.now ∷ [])
        (calls_in seat.old) (calls_in seat.new) }
{
    for _ in rt.forever() {
        match try_to_release(rt, alloc, shared.desk, seat, payment, due, value) {
            Ok(filling) => return give(rt, shared.pool, filling),
            Err(ReleaseError::Unfilled(FillError::NoMemory)) => thread::yield_now(),
            Err(_) => return,
        }
    }
    unreachable!()
}

// Releases a claim, if its channel has a payment key, unless the book refuses.
fn release<R: Wait>(rt: &R, alloc: Global, shared: &Shared<'_>, seat: &mut Seat, due: &DueClaim)
    requires { IsSeatOf shared.now.desk.now seat.old }
    ensures seat { IsSameSeat shared.now.desk.now seat.old seat.new }
    ensures calls { Adds (number_in seat.old) (task_for shared.now.payments.now due.now ∷ [])
        (calls_in seat.old) (calls_in seat.new) }
{
    let Some(payment) = shared.payments.get(due.channel as usize) else {
        return;
    };
    let Some(value) = worth(due) else {
        return;
    };
    release_to(rt, alloc, shared, seat, payment, due, value)
}

/// Releases each claim in a transaction of its own, and adds the transactions to the pool.
pub(crate) fn release_each<R: Wait>(
    rt: &R,
    alloc: Global,
    shared: &Shared<'_>,
    seat: &mut Seat,
    due: &VecDeque<DueClaim>,
)
    requires { IsSeatOf shared.now.desk.now seat.old }
    ensures seat { IsSameSeat shared.now.desk.now seat.old seat.new }
    ensures calls { Adds (number_in seat.old)
        (map (task_for shared.now.payments.now) due.now.items)
        (calls_in seat.old) (calls_in seat.new) }
{
    for index in 0..due.len() {
        release(rt, alloc, shared, seat, &due[index]);
    }
}
