// A commitment of this side, with the peer's tokens on it.

ghost use Rattle.std.specs.Prelude.{◌≡◌, Some, slice_get, IfOk};
ghost use Rattle.penalty.specs.Outputs.{AreOutputs};
ghost use Rattle.publish.specs.Recorded.{recorded_of};

use channel::{Channel, CommitmentState};
use commit::Commitment;
use penalty::payable_commitment;
use std::alloc::{AllocError, Global};
use updates::Tokens;

/// A commitment, and the peer's tokens on it and on its HTLC transactions.
#[derive(Drop)]
pub(crate) struct Recorded {
    pub commitment: Commitment,
    pub tokens: Tokens,
}

/// This side's commitment of a number, which the channel recorded. The only error is that memory ran out.
pub(crate) fn recorded_commitment(
    alloc: Global,
    channel: &Channel,
    number: u64,
    state: &CommitmentState,
) -> Result<Recorded, AllocError>
    requires { slice_get channel.now.mine number ≡ Some state.now }
    ensures value { IfOk result (λ r. r ≡ recorded_of channel.now.held.terms state.now) }
    ensures outputs { IfOk result (λ r. AreOutputs r.commitment) }
{
    // The proof learns from the list that the commitment can be paid.
    let _numbered = channel.own_commitments();
    let commitment = payable_commitment(
        alloc,
        channel.terms(),
        &state.view,
        state.owner,
        state.number,
        &state.point,
    )?;
    match channel.own_tokens(number)? {
        Some(tokens) => Ok(Recorded { commitment, tokens }),
        None => unreachable!(),
    }
}
