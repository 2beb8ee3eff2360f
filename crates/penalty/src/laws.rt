//! Laws over the definitions alone.

ghost use Rattle.penalty.specs.Covering.{EachOutputIsClaimed, EachSecondStageIsClaimed};
ghost use Rattle.penalty.specs.Rights.{PeerCanFill};
ghost use Rattle.penalty.specs.Worth.{FirstStageIsWorthTheCapacity, EachStageIsWorthTheCapacity, EachStageIsClaimable};

/// Nothing is left out: each output of a revoked commitment's transaction is claimed, and so is the output of each of its HTLC transactions.
pub fn nothing_is_left_out()
    ensures outputs { EachOutputIsClaimed }
    ensures second_stages { EachSecondStageIsClaimed }
{}

/// Once the owner's peer has learnt the secret, it has the right to each key in the slots of each claim, and no claim wants a preimage. So no filling is refused for
/// a missing right or preimage.
pub fn peer_can_fill()
    ensures { PeerCanFill }
{}

/// What a revoked commitment lets the owner's peer claim is worth the capacity, with the peer's own to_remote included. The sum has the outputs of the commitment,
/// the fee that the opener paid (at most its balance), what was left out as dust, and what was rounded off. Where HTLC transactions are on the chain, their outputs
/// take the place of the HTLCs' outputs, and the fees of these transactions are added.
pub fn claims_are_worth_the_capacity()
    ensures first { FirstStageIsWorthTheCapacity }
    ensures each { EachStageIsWorthTheCapacity }
    ensures claimable { EachStageIsClaimable }
{}
