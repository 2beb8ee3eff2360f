//! What is the same in all runs, whichever thread comes first: what is kept, what is played and what is claimed, and never the height.

use crate::cheaters::CHEATS;
use crate::gates::Manner;
use crate::reports::{Run, report_of, report_of_text};
use crate::scenarios::{TURNS, text_of_learnt_preimage};
use book::{Batch, Book, Call, Entry};
use running::{Counts, Report};
use std::alloc::Global;
use std::process::Abort;
use tx::OutPoint;

// A's revoked commitment comes by a reorganisation of six blocks, and one of two blocks follows. So whoever read the first six and then goes back to the last fork alone never sees it. After A's HTLC transaction a
// reorganisation of one block and one of three follow.
const REORGS: &str =
    "[\"blocks\",6],[\"broadcast\",\"A\",0,1],[\"reorg\",6,0],[\"blocks\",1],[\"reorg\",2,0],[\"broadcast\",\"A\",0,1,0],[\"blocks\",1],[\"reorg\",1,0],[\"blocks\",1],[\"reorg\",3,0]";

// What an entry releases in a channel.
fn released(entry: &Entry, of: u64) -> Option<&Batch> {
    match &entry.call {
        Call::Release { channel, batch } if *channel == of => Some(batch),
        _ => None,
    }
}

// Adds the outputs that a batch claims, each once.
fn push_claimed(rt: &impl Abort, found: &mut Vec<OutPoint>, batch: &Batch) {
    for claim in batch.claims.values() {
        let output = claim.outpoint();
        if !found.contains(&output) {
            found.push(output).expect(rt, "memory");
        }
    }
}

// How many outputs a book claims in a channel.
fn claimed(rt: &impl Abort, alloc: Global, book: &Book, of: u64) -> usize {
    let mut found = Vec::new(alloc);
    for entry in book.entries() {
        if let Some(batch) = released(entry, of) {
            push_claimed(rt, &mut found, batch);
        }
    }
    found.len()
}

// Whether the two books claim that many outputs in a channel.
fn claim(rt: &impl Abort, alloc: Global, report: &Report, of: u64, a: usize, b: usize) -> bool {
    claimed(rt, alloc, &report.a, of) == a && claimed(rt, alloc, &report.b, of) == b
}

// Whether both sides keep the penalties of their peer's commitment 0 in a channel.
fn are_kept(report: &Report, channel: u64) -> bool {
    report.a.keeps(channel, 0) == Some(true) && report.b.keeps(channel, 0) == Some(true)
}

// Whether an entry releases claims in a channel with a preimage of 32 zero bytes.
fn entry_shows(entry: &Entry, of: u64) -> bool {
    match released(entry, of) {
        Some(batch) => batch.preimages.values().contains(&[0; 32]),
        None => false,
    }
}

// Whether a book releases claims with that preimage in one channel, and none in the other.
fn shows_in(book: &Book, of: u64, other: u64) -> bool {
    book.entries().iter().any(|entry| entry_shows(entry, of))
        && !book.entries().iter().any(|entry| entry_shows(entry, other))
}

// Of B's newest commitment A claims its own output and its HTLC by the timeout in channel 0, and its own output and B's HTLC by the preimage in channel 1. B claims in each channel the output to itself, its
// HTLC transaction, and what that makes (BOLT 5).
fn is_learnt(rt: &impl Abort, alloc: Global, report: &Report) -> bool {
    are_kept(report, 0)
        && are_kept(report, 1)
        && claim(rt, alloc, report, 0, 2, 3)
        && claim(rt, alloc, report, 1, 2, 3)
        && shows_in(&report.a, 1, 0)
        && shows_in(&report.b, 0, 1)
}

const fn open(has_two: bool, workers: u16) -> Run {
    Run {
        has_two,
        workers,
        manner: Manner::Open,
    }
}

#[test]
fn learns_in_another_channel(rt: HostRuntime) {
    for workers in [1, 4] {
        let text = text_of_learnt_preimage(&rt, rt.alloc());
        let report = report_of_text(&rt, rt.alloc(), &open(true, workers), text);
        assert!(rt; is_learnt(&rt, rt.alloc(), &report));
    }
}

// B claims all three outputs of the revoked commitment, and the output of its HTLC's transaction.
fn is_punished(rt: &impl Abort, alloc: Global, report: &Report) -> bool {
    are_kept(report, 0) && report.b.keeps(0, 1) == Some(true) && claim(rt, alloc, report, 0, 0, 4)
}

#[test]
fn punishes_through_unlike_reorganisations(rt: HostRuntime) {
    for workers in [1, 4, 1, 4] {
        let report = report_of(&rt, rt.alloc(), &open(false, workers), REORGS);
        assert!(rt; is_punished(&rt, rt.alloc(), &report));
    }
}

// Whether that many turns of the first channel were played, and that many refused.
fn has_counts(report: &Report, played: u64, refused: u64) -> bool {
    report.channels.first() == Some(&Counts { played, refused })
}

// One side does not keep its penalties. If it is A, all is as for any cheater. If it is B, its second signature is refused, and the two deliveries after it find no message: A's commitment 1 stays its newest
// one. Then B claims its own output of it and the HTLC by the preimage, and A its own output, its HTLC transaction, and what that makes.
fn is_without_one(rt: &impl Abort, alloc: Global, report: &Report) -> bool {
    match (report.a.keeps(0, 0), report.b.keeps(0, 0)) {
        (Some(false), Some(true)) => has_counts(report, TURNS, 0)
            && claim(rt, alloc, report, 0, 0, 4),
        (Some(true), Some(false)) => has_counts(report, TURNS - 3, 3)
            && claim(rt, alloc, report, 0, 3, 2),
        _ => false,
    }
}

// The job of ticket 0 is dropped with its worker, and the other worker of that side goes on.
#[test]
fn goes_on_without_one_worker(rt: HostRuntime) {
    let run = Run {
        has_two: false,
        workers: 2,
        manner: Manner::ShutsFirst,
    };
    let report = report_of(&rt, rt.alloc(), &run, CHEATS);
    assert!(rt; is_without_one(&rt, rt.alloc(), &report));
}
