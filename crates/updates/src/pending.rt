//! The HTLCs of one direction whose removal has not passed all five stages.

ghost use Rattle.std.specs.Prelude.{◌≡◌};
ghost use Rattle.updates.specs.Pending.{noted_all, unnoted};
ghost use Rattle.std.specs.Prelude.{map};

use crate::changes::Update;
use crate::fates::{End, Fate};
use std::alloc::{AllocError, Global};
use terms::Htlc;

/// An HTLC whose removal has not passed all five stages.
#[derive(Clone, Copy, Debug, Drop)]
pub(crate) struct PendingHtlc {
    pub htlc: Htlc,
    /// The position of its offer among the updates of its side, from 0.
    pub added: usize,
    /// Its removal among the peer's updates.
    pub end: End,
}

/// The HTLCs of one direction. Those whose removal has not passed all five stages are kept in full; of the others only what is still
/// needed.
#[derive(Drop)]
pub(crate) struct Pending {
    /// The number of HTLCs ever offered.
    pub offered: u64,
    /// The sum, in millisatoshis, of those whose fulfilment passed all five stages.
    pub fulfilled: u128,
    /// Those whose removal has not passed all five stages, in the order in which they were offered.
    pub htlcs: Vec<PendingHtlc>,
}

impl PendingHtlc {
    ghost use Rattle.std.specs.Prelude.{◌≡◌};
    ghost use Rattle.updates.specs.Pending.{fate_at, is_left};

    /// What became of it among the first updates of both sides; Failed where it is not offered among them.
    pub(crate) fn fate_at(&self, added: usize, removed: usize) -> Fate
        ensures { result ≡ fate_at added removed self.now }
    {
        if self.added < added {
            self.end.within(removed)
        } else {
            Fate::Failed
        }
    }

    /// Whether the first `removed` updates of the peer do not remove it.
    pub(crate) fn is_left(&self, removed: usize) -> bool
        ensures { result ≡ is_left removed self.now }
    {
        match self.end.within(removed) {
            Fate::Live => true,
            Fate::Fulfilled | Fate::Failed => false,
        }
    }
}

impl Pending {
    ghost use Rattle.std.specs.Prelude.{◌≡◌, ◌+◌, ◌*◌, ◌^◌, ◌≤◌, [], length, filter, map, IfOk};
    ghost use Rattle.updates.specs.Pending.{total_amount_msat, fulfilled_at, live_at, found_in, is_left, unnoted, left_at, IsBounded, IsNoted};

    /// No HTLC yet.
    pub(crate) fn new(alloc: Global) -> Pending
        ensures offered { result.offered ≡ 0 }
        ensures fulfilled { result.fulfilled ≡ 0 }
        ensures htlcs { result.htlcs.items ≡ [] }
    {
        Pending {
            offered: 0,
            fulfilled: 0,
            htlcs: Vec::new(alloc),
        }
    }

    /// The sum of the pending HTLCs in millisatoshis.
    pub(crate) fn total_amount_msat(&self) -> u128
        ensures value { result ≡ total_amount_msat self.now.htlcs.items }
        ensures bound { result ≤ 2 ^ 64 * length self.now.htlcs.items }
    {
        let mut sum: u128 = 0;
        for pending in &self.htlcs {
            sum += u128::from(pending.htlc.amount_msat);
        }
        sum
    }

    /// The sum, in millisatoshis, of those that are fulfilled among the first updates of both sides.
    pub(crate) fn fulfilled_at(&self, added: usize, removed: usize) -> u128
        requires { self.now.fulfilled + 2 ^ 64 * length self.now.htlcs.items ≤ 2 ^ 64
            * self.now.offered }
        ensures value { result ≡ self.now.fulfilled + fulfilled_at added removed
            self.now.htlcs.items }
        ensures bound { result + 2 ^ 64 * length
            (filter (is_left removed) self.now.htlcs.items) ≤ self.now.fulfilled + 2 ^ 64 * length
            self.now.htlcs.items }
    {
        let mut sum = self.fulfilled;
        for pending in &self.htlcs {
            if pending.fate_at(added, removed) == Fate::Fulfilled {
                sum += u128::from(pending.htlc.amount_msat);
            }
        }
        sum
    }

    /// Those that are live among the first updates of both sides.
    pub(crate) fn live_at(&self, added: usize, removed: usize) -> Result<Vec<Htlc>, AllocError>
        ensures { IfOk result (λ v. v.items ≡ live_at added removed self.now.htlcs.items) }
    {
        let mut live = Vec::new(*self.htlcs.allocator());
        for pending in &self.htlcs {
            if pending.fate_at(added, removed) == Fate::Live {
                live.push(pending.htlc)?;
            }
        }
        Ok(live)
    }

    /// The HTLC with this id, if it is live among the first updates of both sides.
    pub(crate) fn find(&self, id: u64, added: usize, removed: usize) -> Option<Htlc>
        ensures { result ≡ found_in id added removed self.now.htlcs.items }
    {
        for pending in &self.htlcs {
            if pending.htlc.id == id {
                return match pending.fate_at(added, removed) {
                    Fate::Live => Some(pending.htlc),
                    _ => None,
                };
            }
        }
        None
    }

    /// Records an update that the peer makes, at this position among its own.
    pub(crate) fn note(&mut self, position: usize, update: &Update)
        ensures { IsNoted self.old self.new position update.now }
    {
        note_all(self.htlcs.as_mut_slice(), position, update);
    }

    /// Records that more of the peer's updates passed all five stages: the first `removed`.
    pub(crate) fn settle(&mut self, added: usize, removed: usize)
        requires { self.old.fulfilled + 2 ^ 64 * length self.old.htlcs.items ≤ 2 ^ 64
            * self.old.offered }
        ensures htlcs { self.new.htlcs.items ≡ filter (is_left removed) self.old.htlcs.items }
        ensures offered { self.new.offered ≡ self.old.offered }
        ensures fulfilled { self.new.fulfilled ≡ self.old.fulfilled + fulfilled_at added removed
            self.old.htlcs.items }
        ensures bound { self.new.fulfilled + 2 ^ 64 * length self.new.htlcs.items ≤ 2 ^ 64
            * self.new.offered }
    {
        self.fulfilled = self.fulfilled_at(added, removed);
        self.htlcs.retain(|pending| pending.is_left(removed));
    }

    /// Forgets the offers after the first `added` updates of this side, none of which is removed, and the removals after the peer's first `removed`.
    pub(crate) fn forget(&mut self, added: usize, removed: usize)
        requires { IsBounded self.old }
        ensures htlcs { self.new.htlcs.items ≡ left_at added removed self.old.htlcs.items }
        ensures offered { self.new.offered + length self.old.htlcs.items ≡ self.old.offered
            + length self.new.htlcs.items }
        ensures fulfilled { self.new.fulfilled ≡ self.old.fulfilled }
    {
        let pending = self.htlcs.len();
        self.htlcs.retain(|pending| pending.added < added);
        self.offered -= (pending - self.htlcs.len()) as u64;
        self.unnote(removed);
    }

    // Forgets the removals after the peer's first `removed`.
    fn unnote(&mut self, removed: usize)
        ensures htlcs { self.new.htlcs.items ≡ map (unnoted removed) self.old.htlcs.items }
        ensures offered { self.new.offered ≡ self.old.offered }
        ensures fulfilled { self.new.fulfilled ≡ self.old.fulfilled }
    {
        unnote_all(self.htlcs.as_mut_slice(), removed);
    }
}

// Records an update of the peer at each HTLC.
fn note_all(htlcs: &mut [PendingHtlc], position: usize, update: &Update)
    ensures { htlcs.new ≡ noted_all position update.now htlcs.old }
{
    for i in 0..htlcs.len() {
        let fate = Fate::by(htlcs[i].htlc.id, update);
        htlcs[i].end = htlcs[i].end.after(position, fate);
    }
}

// Forgets the removals after the peer's first `removed` updates.
fn unnote_all(htlcs: &mut [PendingHtlc], removed: usize)
    ensures { htlcs.new ≡ map (unnoted removed) htlcs.old }
{
    for i in 0..htlcs.len() {
        htlcs[i].end = htlcs[i].end.before(removed);
    }
}
