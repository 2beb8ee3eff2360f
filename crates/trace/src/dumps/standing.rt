// The commitments that the sides may broadcast, and the HTLCs in them; and whether a channel is closed.

ghost use Rattle.std.specs.Prelude.{◌≡◌, option_map};
ghost use Rattle.std.specs.List.{list_any};
ghost use Rattle.trace.specs.Standing.{commitment_of, htlcs_of, stands_in, is_new_in, is_close_of, closed_with};

use book::{Book, Call, Entry};
use channel::{Channel, CommitmentState};
use terms::{Htlc, Side};

/// A commitment that its owner may broadcast without a penalty.
#[derive(Clone, Copy)]
pub enum Source {
    /// This side's newest.
    Ours,
    /// The peer's newest whose predecessor is revoked.
    Theirs,
    /// The peer's after that, while its revocation is awaited.
    Next,
}

/// The commitment of a channel, if there is one.
pub fn commitment(channel: &Channel, source: Source) -> Option<&CommitmentState>
    ensures { option_map (λ c. c.now) result ≡ commitment_of source channel.now }
{
    match source {
        Source::Ours => channel.own_commitment(channel.number()),
        Source::Theirs => channel.peers_commitment(channel.peer_number()),
        Source::Next => channel.peers_commitment(channel.peer_number() + 1),
    }
}

/// The HTLCs of a commitment that a side offered.
pub fn htlcs(channel: &Channel, source: Source, offerer: Side) -> &[Htlc]
    ensures { result.now ≡ htlcs_of source offerer channel.now }
{
    match commitment(channel, source) {
        Some(state) => state.view.share(offerer).offered.values(),
        None => &[],
    }
}

/// Whether an HTLC stands in a commitment.
pub fn stands(channel: &Channel, source: Source, offerer: Side, id: u64) -> bool
    ensures { result ≡ stands_in source offerer channel.now id }
{
    let held = htlcs(channel, source, offerer);
    for htlc in held {
        if htlc.id == id {
            return true;
        }
    }
    false
}

/// Whether an HTLC of a commitment stands in none of the commitments before it.
pub fn is_new(channel: &Channel, source: Source, offerer: Side, id: u64) -> bool
    ensures { result ≡ is_new_in source offerer channel.now id }
{
    match source {
        Source::Ours => true,
        Source::Theirs => !stands(channel, Source::Ours, offerer, id),
        Source::Next => {
            !stands(channel, Source::Ours, offerer, id)
                && !stands(channel, Source::Theirs, offerer, id)
        }
    }
}

// Whether an entry closes the channel of an index.
fn is_close_of(entry: &Entry, index: u64) -> bool
    ensures { result ≡ is_close_of index entry.now.call }
{
    match &entry.call {
        Call::Close { channel } => *channel == index,
        _ => false,
    }
}

// Whether an entry of a book closes the channel of an index.
fn has_close(book: &Book, index: u64) -> bool
    ensures { result ≡ list_any (λ e. is_close_of index e.call) book.now }
{
    let entries = book.entries();
    for entry in entries {
        if is_close_of(entry, index) {
            return true;
        }
    }
    false
}

/// The number of the commitment with which this side closed its channel of an index, if it did.
pub fn closed_with(book: &Book, index: u64, channel: &Channel) -> Option<u64>
    ensures { result ≡ closed_with book.now index channel.now }
{
    if has_close(book, index) {
        Some(channel.number())
    } else {
        None
    }
}
