//! The least of what the commitments that may close a channel give.

ghost use Rattle.std.specs.Prelude.{◌≡◌, ◌^◌, ◌<◌, ◌∷◌, [], true, false, map, drop, IfOk};
ghost use Rattle.channel.specs.Tokens.{contents_of};
ghost use Rattle.worth_laws.specs.Counted.{known_by};
ghost use Rattle.penalty.specs.Worth.{staged, value_of};
ghost use Rattle.worth_laws.specs.Shares.{counted_sat};
ghost use Rattle.worth_laws.specs.Least.{least, own_left_sat, at_least_sat};

use crate::shares::{own_left_sat, revoked_left_sat, theirs_sat};
use channel::{Channel, CommitmentState};
use commit::Terms;
use resolve::KnownPreimages;
use std::alloc::{AllocError, Global};
use worth_laws::laws::{left_is_placed, shares_are_placed, shares_are_worth};

// What the side can claim of its own newest commitment, in satoshis, whichever HTLC transactions stand: at most the capacity.
fn newest_sat(alloc: Global, channel: &Channel, known: &KnownPreimages) -> Result<u128, AllocError>
    ensures own { IfOk result (λ sat. map (own_left_sat (known_by known.now) channel.now)
        (drop channel.now.number channel.now.mine) ≡ sat ∷ []) }
    ensures bound { IfOk result (λ sat. sat < 2 ^ 64) }
{
    // By these laws the proof knows that what is left is worth at most the capacity.
    shares_are_worth();
    shares_are_placed();
    left_is_placed();
    let terms = channel.terms();
    let number = channel.number() as usize;
    let commitments = channel.own_commitments();
    own_left_sat(alloc, terms, &commitments[number], known)
}

// The least of an amount and of what each of the peer's commitments gives that are not revoked.
fn least_of_open(
    alloc: Global,
    terms: &Terms,
    commitments: &[CommitmentState],
    known: &KnownPreimages,
    most_sat: u128,
) -> Result<u128, AllocError>
    ensures { IfOk result (λ sat. sat ≡ least (most_sat
        ∷ map (λ k. counted_sat false (known_by known.now) (contents_of terms.now k).outputs)
        commitments.now)) }
{
    let mut least_sat = most_sat;
    for commitment in commitments {
        least_sat = least_sat.min(theirs_sat(alloc, terms, commitment, known)?);
    }
    Ok(least_sat)
}

// The least of an amount and of what can be claimed of each of the peer's revoked commitments, whichever HTLC transactions stand.
fn least_of_revoked(
    alloc: Global,
    terms: &Terms,
    commitments: &[CommitmentState],
    most_sat: u128,
) -> Result<u128, AllocError>
    ensures { IfOk result (λ sat. sat ≡ least (most_sat
        ∷ map (λ k. value_of (staged (λ _. true) (contents_of terms.now k))) commitments.now)) }
{
    let mut least_sat = most_sat;
    for commitment in commitments {
        least_sat = least_sat.min(revoked_left_sat(alloc, terms, commitment)?);
    }
    Ok(least_sat)
}

/// The least that a side has of its channel, in satoshis, whichever commitment closes it now: its own newest, its peer's newest, the one after that while its revocation is awaited, or one that the peer revoked. Of a revoked
/// one these are all outputs. Of the others they are the side's own output and those of the HTLCs that it offered, or that were offered to it and of which a preimage is known. Of a revoked one, and of the side's own, the fee
/// of each HTLC's transaction is taken off, as if all stood. Whoever wants to know what a later commitment
/// would give asks again once it is signed.
///
/// Its time is linear in the number of commitments that the peer revoked and in the HTLCs of all these commitments, whose outputs are neither built nor sorted. Preimages that are not indexed are hashed again for each HTLC.
/// The only error is that memory ran out.
pub fn at_least_sat(
    alloc: Global,
    channel: &Channel,
    known: &KnownPreimages,
) -> Result<u64, AllocError>
    ensures { IfOk result (λ sat. sat ≡ at_least_sat (known_by known.now) channel.now) }
{
    let terms = channel.terms();
    let signed = channel.peers_commitments();
    let (revoked, open) = signed.split_at(channel.peer_number() as usize);
    let newest_sat = newest_sat(alloc, channel, known)?;
    let open_sat = least_of_open(alloc, terms, open, known, newest_sat)?;
    let least_sat = least_of_revoked(alloc, terms, revoked, open_sat)?;
    Ok(least_sat as u64)
}

/// The same with the preimages themselves, each of which is hashed once. The only error is that memory ran out.
pub fn at_least_sat_with(
    alloc: Global,
    channel: &Channel,
    preimages: &[[u8; 32]],
) -> Result<u64, AllocError>
    ensures { IfOk result (λ sat. sat ≡ at_least_sat (known_by preimages.now) channel.now) }
{
    let mut known = KnownPreimages::from_vec(Vec::from_slice(alloc, preimages)?);
    known.index()?;
    at_least_sat(alloc, channel, &known)
}
