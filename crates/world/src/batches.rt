//! The batch by which a side releases claims.

ghost use Rattle.std.specs.Prelude.{◌≡◌, ◌≤◌, false, take, map, length, IfOk, IfErr, MatchResult};
ghost use Rattle.tx.specs.declared.limits.TheConstants.{MAX_INPUTS as max_inputs};
ghost use Rattle.world.specs.Refusing.{IsRefusal};
ghost use Rattle.world.specs.Releasing.{is_no_count, refusal_of, release_refusal, IsReady};

use crate::errors::EventError;
use crate::nodes::Node;
use crate::releasing::oldest_of;
use book::Batch;
use keys::Base;
use side::{DueClaim, batch_of, worth_of};
use std::alloc::Global;
use tx::MAX_INPUTS;

/// The call of a book that releases claims.
#[derive(Drop)]
pub(crate) struct Release {
    pub(crate) channel: u64,
    pub(crate) batch: Batch,
}

// Whether this is not a possible number of claims to release: none, more than 4,000, or more than were taken.
fn is_no_count(count: u64, taken: usize) -> bool
    ensures { result ≡ is_no_count count taken }
{
    count == 0 || count > MAX_INPUTS as u64 || count > taken as u64
}

// The call that releases claims of a side. Refused, in this order, with `NoJob` where there is none, `MixedChannels`
// and `OverValue`; the book may still refuse it.
fn release_by(alloc: Global, me: &Node, jobs: &[&DueClaim]) -> Result<Release, EventError>
    requires { length jobs.now ≤ max_inputs }
    ensures { let all = map (λ j. j.now) jobs.now in
        MatchResult result
        (λ r. IsReady all me.now r.channel r.batch)
        (IsRefusal (refusal_of all me.now)) }
{
    let Some(first) = jobs.first() else {
        return Err(EventError::NoJob);
    };
    let channel = first.channel;
    let value = match worth_of(channel, jobs) {
        Ok(value) => value,
        Err(error) => return Err(EventError::of_batch(error)),
    };
    let Some(state) = me.book.channel(channel) else {
        return Err(EventError::NoSuchChannel);
    };
    let payment = state.signer().base(Base::Payment);
    let batch = batch_of(alloc, &payment, jobs, value)?;
    Ok(Release { channel, batch })
}

/// The call that releases the `count` oldest claims that a side took. Refused, in this order, with `NoJob`,
/// `MixedChannels` and `OverValue`; the book may still refuse it.
pub(crate) fn release_of(alloc: Global, me: &Node, count: u64) -> Result<Release, EventError>
    ensures ready { IfOk result (λ r. IsReady (take count me.now.taken) me.now r.channel r.batch) }
    ensures counted { IfOk result (λ _. is_no_count count (length me.now.taken) ≡ false) }
    ensures err { IfErr result (IsRefusal (release_refusal count me.now)) }
{
    if is_no_count(count, me.taken.len()) {
        return Err(EventError::NoJob);
    }
    let jobs = oldest_of(alloc, &me.taken, count as usize)?;
    release_by(alloc, me, &jobs)
}
