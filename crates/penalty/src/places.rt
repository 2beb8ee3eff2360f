//! The places of the outputs of commitments and of HTLC transactions.

ghost use Rattle.std.specs.Prelude.{ℕ, ◌≡◌, ◌≤◌, ◌<◌, [], length, Some, IfOk, slice_get};
ghost use Rattle.std.specs.List.{cons_option};
ghost use Rattle.tx.specs.Parts.{Output};
ghost use Rattle.commit.specs.Commitments.{tx_output, transaction_of, htlc_at};
ghost use Rattle.penalty.specs.Claimable.{place_in};

use claim::Place;
use commit::{Commitment, CommitmentOutput, OutputKind};
use std::alloc::AllocError;
use tx::hashing::txid;
use tx::{OutPoint, Tx};

/// The place of an output of the commitment. The only error is that memory ran out.
pub fn place_of(
    commitment: &Commitment,
    index: u32,
    output: &CommitmentOutput,
) -> Result<Place, AllocError>
    ensures { IfOk result (λ p. p ≡ place_in (transaction_of commitment.now) index
        (tx_output output.now)) }
{
    let outpoint = OutPoint {
        txid: *commitment.id(),
        index,
    };
    Ok(Place {
        outpoint,
        value: output.value,
        program: output.program.copy()?,
    })
}

/// The place of the first output of a transaction. The only error is that memory ran out.
pub fn first_place(tx: &Tx) -> Result<Place, AllocError>
    requires { 0 < length tx.now.outputs }
    ensures { (o : Output) → slice_get tx.now.outputs 0 ≡ Some o
        → IfOk result (λ p. p ≡ place_in tx.now 0 o) }
{
    let output = &tx.outputs()[0];
    let outpoint = OutPoint {
        txid: txid(tx),
        index: 0,
    };
    Ok(Place {
        outpoint,
        value: output.value(),
        program: output.script().copy()?,
    })
}

/// The number of HTLCs that an output is for: 0 or 1.
pub fn htlc_count(kind: &OutputKind) -> usize
    ensures value { (index : ℕ) → result ≡ length (cons_option (htlc_at index kind.now) []) }
    ensures bound { result ≤ 1 }
{
    match kind {
        OutputKind::ToLocal => 0,
        OutputKind::ToRemote => 0,
        OutputKind::ToHtlc(_, _) => 1,
    }
}
