// The order of a commitment's outputs.

ghost use Rattle.std.specs.Prelude.{◌≡◌, OnOk};
ghost use Rattle.commit.specs.Order.{expiry_height_of, output_cmp, in_order};

use crate::outputs::{CommitmentOutput, OutputKind};
use std::alloc::AllocError;
use std::cmp::Ordering;

// The expiry by which outputs of equal value and program are sorted.
fn expiry_height(kind: &OutputKind) -> u32
    ensures { result ≡ expiry_height_of kind.now }
{
    match kind {
        OutputKind::ToLocal => 0,
        OutputKind::ToRemote => 0,
        OutputKind::ToHtlc(_, htlc) => htlc.expiry_height,
    }
}

// By value, then by the bytes of the program, then by expiry.
#[tactic(auto, unfolding(crate::specs::Order::output_cmp))]
fn compare(x: &CommitmentOutput, y: &CommitmentOutput) -> Ordering
    ensures { result ≡ output_cmp x.now y.now }
{
    match x.value.cmp(&y.value) {
        Ordering::Equal => match x.program.bytes().cmp(y.program.bytes()) {
            Ordering::Equal => expiry_height(&x.kind).cmp(&expiry_height(&y.kind)),
            decided => decided,
        },
        decided => decided,
    }
}

/// Sorts outputs. The only error is that memory ran out.
pub(crate) fn put_in_order(outputs: &mut Vec<CommitmentOutput>) -> Result<(), AllocError>
    ensures { OnOk result (outputs.new.items ≡ in_order outputs.old.items) }
{
    outputs.sort_by(|x, y| compare(x, y))?;
    Ok(())
}
