//! Penalties that a side keeps.

ghost use Rattle.std.specs.Prelude.{◌≡◌, None, IfOk, MatchResult};
ghost use Rattle.penalty.specs.Claimable.{claimable_of};
ghost use Rattle.penalty.specs.Sets.{AreClaimsOn};
ghost use Rattle.world.specs.Worlds.{channel_of};
ghost use Rattle.world.specs.Refusing.{IsRefusal};
ghost use Rattle.world.specs.Keeping.{keep_refusal, IsSetFor, IsKept};

use crate::errors::EventError;
use crate::nodes::Node;
use book::Book;
use penalty::{PenaltySet, RevokedState, penalties};
use std::alloc::{AllocError, Global};

// Builds the penalty set of a revoked commitment by the patterns that a book's channels share. The only error is that memory ran out.
fn set_by(alloc: Global, book: &Book, state: &RevokedState) -> Result<PenaltySet, AllocError>
    ensures { IfOk result (λ set. AreClaimsOn (claimable_of state.now) set.claims) }
{
    let patterns = book.patterns()?;
    penalties(alloc, patterns.get(), state)
}

// The set that a side is to keep for the peer's commitment of a number. Refused, in this order, with `NoSuchChannel`, `NotRevoked` and `AlreadyKept`.
fn set_for(alloc: Global, me: &Node, channel: u64, number: u64) -> Result<PenaltySet, EventError>
    ensures { MatchResult result (λ set. IsSetFor me.now channel number set.claims)
        (IsRefusal (keep_refusal number (channel_of me.now channel))) }
{
    match me.book.revoked(channel, number) {
        Ok(state) => Ok(set_by(alloc, &me.book, &state)?),
        Err(error) => Err(EventError::of_keep(error)),
    }
}

/// Builds the penalty set of the peer's commitment of a number, and keeps it in the side's book. Refused, in this order, with `NoSuchChannel`, `NotRevoked` and
/// `AlreadyKept`. A refusal leaves the side as it was.
#[tactic(auto, using(crate::proofs::Keeps::is_kept_by, crate::proofs::Keeps::unkept_by))]
pub(crate) fn keep(
    alloc: Global,
    me: &mut Node,
    channel: u64,
    number: u64,
) -> Result<(), EventError>
    ensures { let first = keep_refusal number (channel_of me.old channel) in
        MatchResult result (λ _. (first ≡ None) × IsKept me.old channel number me.new)
        (λ e. IsRefusal first e × (me.new ≡ me.old)) }
{
    let set = set_for(alloc, me, channel, number)?;
    match me.keep_set(channel, number, set) {
        Ok(()) => Ok(()),
        Err(error) => Err(EventError::of_keep(error)),
    }
}
