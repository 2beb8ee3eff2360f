//! What a side can broadcast.

ghost use Rattle.std.specs.Prelude.{◌≡◌, Some, slice_get, IfOk};
ghost use Rattle.channel.specs.Tokens.{contents_of};
ghost use Rattle.publish.specs.Published.{signed_transaction, signed_commitment_of, signed_htlc_of, signed_htlc_tx_of};

use crate::recorded::recorded_commitment;
use crate::signatures::{htlc_tx_by_both, signed_by_both};
use channel::{Channel, CommitmentState};
use forms::Patterns;
use std::alloc::{AllocError, Global};
use tx::Tx;

// A commitment of this side, with both signatures.
fn signed(
    alloc: Global,
    patterns: &Patterns,
    channel: &Channel,
    number: u64,
    state: &CommitmentState,
) -> Result<Option<Tx>, AllocError>
    requires { slice_get channel.now.mine number ≡ Some state.now }
    ensures { IfOk result (λ t. t ≡ Some
        (signed_transaction channel.now.held.terms
        (contents_of channel.now.held.terms state.now))) }
{
    // The proof learns from the list that the commitment is this side's.
    let _numbered = channel.own_commitments();
    let recorded = recorded_commitment(alloc, channel, number, state)?;
    signed_by_both(
        alloc,
        patterns,
        channel.terms(),
        state.owner,
        channel.signer(),
        &recorded.commitment,
        &recorded.tokens.commitment,
    )
}

/// This side's commitment of a number with both signatures, ready to be broadcast (BOLT 3, "Commitment Transaction"). `None` exactly if this side has no commitment of that number
/// that its peer signed. The only error is that memory ran out.
pub fn signed_commitment(
    alloc: Global,
    patterns: &Patterns,
    channel: &Channel,
    number: u64,
) -> Result<Option<Tx>, AllocError>
    ensures { IfOk result (λ t. t ≡ signed_commitment_of channel.now number) }
{
    match channel.own_commitments().get(number as usize) {
        None => Ok(None),
        Some(state) => signed(alloc, patterns, channel, number, state),
    }
}

// The HTLC transaction of the `k`-th HTLC of a commitment of this side, with both signatures.
fn signed_htlc(
    alloc: Global,
    patterns: &Patterns,
    channel: &Channel,
    number: u64,
    state: &CommitmentState,
    k: usize,
    preimages: &[[u8; 32]],
) -> Result<Option<Tx>, AllocError>
    requires { slice_get channel.now.mine number ≡ Some state.now }
    ensures { IfOk result (λ t. t ≡ signed_htlc_of
        (contents_of channel.now.held.terms state.now) k preimages.now) }
{
    // The proof learns from the list that the commitment is this side's.
    let _numbered = channel.own_commitments();
    let recorded = recorded_commitment(alloc, channel, number, state)?;
    htlc_tx_by_both(
        alloc,
        patterns,
        channel.terms(),
        channel.signer(),
        &recorded.commitment,
        recorded.tokens.htlcs.values(),
        k,
        preimages,
    )
}

/// An HTLC transaction of this side's commitment of a number, with both signatures (BOLT 3, "HTLC-Timeout and HTLC-Success Transactions"). It is that of the `k`-th HTLC that
/// isn't trimmed, in the order of outputs, from 0. It is HTLC-timeout if this side offered the HTLC, and else HTLC-success with the first of these preimages that has its hash.
///
/// The only error is that memory ran out. `None` in exactly these cases:
/// - this side has no commitment of that number that its peer signed;
/// - it has no such HTLC;
/// - the HTLC was offered to this side, and none of the preimages is its own.
pub fn signed_htlc_tx(
    alloc: Global,
    patterns: &Patterns,
    channel: &Channel,
    number: u64,
    k: usize,
    preimages: &[[u8; 32]],
) -> Result<Option<Tx>, AllocError>
    ensures { IfOk result (λ t. t ≡ signed_htlc_tx_of channel.now number k preimages.now) }
{
    let Some(state) = channel.own_commitments().get(number as usize) else {
        return Ok(None);
    };
    signed_htlc(alloc, patterns, channel, number, state, k, preimages)
}
