// The HTLCs that the channels of a book received, and what this side made of them, by its entries.

use book::{Call, Entry, Step};
use std::alloc::{AllocError, Global};
use terms::Htlc;
use updates::{OwnUpdate, PeerStep, Update};

/// An HTLC that a channel received.
#[derive(Clone, Copy)]
pub struct Received {
    pub channel: u64,
    pub htlc: Htlc,
    /// The entry that received it.
    pub entry: usize,
    /// The entry that fulfilled it.
    pub fulfilled: Option<usize>,
    /// The entry that failed it.
    pub failed: Option<usize>,
}

/// The received HTLCs of a book with these entries, in their order.
pub fn received_of(alloc: Global, entries: &[Entry]) -> Result<Vec<Received>, AllocError> {
    let mut received: Vec<Received> = Vec::new(alloc);
    for (at, entry) in entries.iter().enumerate() {
        if let Call::Step { channel, step } = &entry.call {
            match step {
                Step::Peer(PeerStep::Update(Update::Add(htlc))) => {
                    received.push(Received {
                        channel: *channel,
                        htlc: *htlc,
                        entry: at,
                        fulfilled: None,
                        failed: None,
                    })?;
                }
                Step::Own(OwnUpdate::Fulfil { id, .. }) => {
                    remove(&mut received, (*channel, *id), at, true);
                }
                Step::Own(OwnUpdate::Fail { id }) => {
                    remove(&mut received, (*channel, *id), at, false);
                }
                _ => {}
            }
        }
    }
    Ok(received)
}

// Keeps the entry that fulfils or fails the HTLC of a channel with this number.
fn remove(received: &mut Vec<Received>, place: (u64, u64), entry: usize, is_fulfil: bool) {
    for one in received.iter_mut() {
        if (one.channel, one.htlc.id) == place {
            if is_fulfil {
                one.fulfilled = Some(entry);
            } else {
                one.failed = Some(entry);
            }
        }
    }
}

/// Whether this side, which offers nothing by the hash of an HTLC that it failed by an entry, fulfils another one of that hash after it which it had then, and takes less than it was offered before.
pub fn gives_up(received: &[Received], entries: &[Entry], one: &Received, failed: usize) -> bool {
    match fulfilled_after(received, one, failed) {
        Some(end) => {
            offered_before(received, one, end) < offered_before(received, one, failed)
                && !entries.iter().any(|entry| offers(entry, &one.htlc.hash))
        }
        None => false,
    }
}

// The first entry after another one that fulfils an HTLC of this hash which was received before that one.
fn fulfilled_after(received: &[Received], one: &Received, entry: usize) -> Option<usize> {
    let mut first: Option<usize> = None;
    for other in received {
        if let Some(at) = other.fulfilled {
            let is_it = other.htlc.hash == one.htlc.hash && other.entry < entry && entry < at;
            if is_it && at < first.unwrap_or(usize::MAX) {
                first = Some(at);
            }
        }
    }
    first
}

// How many millisatoshis were received by a hash before an entry, and not failed.
fn offered_before(received: &[Received], one: &Received, end: usize) -> u128 {
    let mut sum: u128 = 0;
    for other in received {
        let is_failed = other.failed.unwrap_or(usize::MAX) < end;
        if other.htlc.hash == one.htlc.hash && other.entry < end && !is_failed {
            sum = sum.saturating_add(u128::from(other.htlc.amount_msat));
        }
    }
    sum
}

// Whether an entry offers this hash.
fn offers(entry: &Entry, wanted: &[u8; 32]) -> bool {
    match &entry.call {
        Call::Step {
            step: Step::Own(OwnUpdate::Offer { hash, .. }),
            ..
        } => hash == wanted,
        _ => false,
    }
}
