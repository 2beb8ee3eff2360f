//! From which block on somebody else can take an output of a commitment that closed a channel.

ghost use Rattle.std.specs.Prelude.{◌≡◌, ◌+◌};
ghost use Rattle.sights.specs.Deadlines.{takes_back, ends_on_htlc, ends_on, ends_after, ends_at};

use commit::{Commitment, Direction, OutputKind};
use resolve::Verdict;
use tx::OutPoint;

// When whoever offered an HTLC can take it back, where a block of this height made its output.
fn takes_back(expiry_height: u32, made: u32) -> Option<u64>
    ensures { result ≡ takes_back expiry_height made }
{
    Some(u64::from(made).max(u64::from(expiry_height) + 1))
}

// When the owner of a revoked commitment can take an output after the delay.
fn after_delay(commitment: &Commitment, made: u32) -> u64
    ensures { result ≡ made + commitment.now.delay_blocks }
{
    u64::from(made) + u64::from(commitment.delay_blocks())
}

// Of an HTLC's output.
fn ends_on_htlc(
    verdict: Verdict,
    direction: Direction,
    expiry_height: u32,
    made: u32,
) -> Option<u64>
    ensures { result ≡ ends_on_htlc verdict direction expiry_height made }
{
    match verdict {
        Verdict::Ours => match direction {
            Direction::Offered => None,
            Direction::Received => takes_back(expiry_height, made),
        },
        Verdict::Theirs | Verdict::TheirsNext => match direction {
            Direction::Offered => takes_back(expiry_height, made),
            Direction::Received => None,
        },
        Verdict::Revoked(_) => match direction {
            Direction::Offered => takes_back(expiry_height, made),
            Direction::Received => Some(u64::from(made)),
        },
        Verdict::Unknown => None,
    }
}

// Of an output of a commitment.
fn ends_on(verdict: Verdict, commitment: &Commitment, made: u32, kind: &OutputKind) -> Option<u64>
    ensures { result ≡ ends_on verdict commitment.now made kind.now }
{
    match kind {
        OutputKind::ToLocal => ends_after(verdict, commitment, made),
        OutputKind::ToRemote => None,
        OutputKind::ToHtlc(direction, htlc) => {
            ends_on_htlc(verdict, *direction, htlc.expiry_height, made)
        }
    }
}

// Of the output of an HTLC transaction of a commitment.
fn ends_after(verdict: Verdict, commitment: &Commitment, made: u32) -> Option<u64>
    ensures { result ≡ ends_after verdict commitment.now made }
{
    match verdict {
        Verdict::Revoked(_) => Some(after_delay(commitment, made)),
        _ => None,
    }
}

/// The least height of a block in which somebody else can take an output that is due by a verdict on a commitment, where the block of this height made it. `None` where nobody else can but by a
/// preimage.
pub(crate) fn ends_at(
    verdict: Verdict,
    commitment: &Commitment,
    outpoint: &OutPoint,
    made: u32,
) -> Option<u64>
    ensures { result ≡ ends_at verdict commitment.now outpoint.now made }
{
    if commitment.id() != &outpoint.txid {
        return ends_after(verdict, commitment, made);
    }
    match commitment.outputs().get(outpoint.index as usize) {
        Some(output) => ends_on(verdict, commitment, made, &output.kind),
        None => None,
    }
}
