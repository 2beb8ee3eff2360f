//! Runs of a node, and what their reports say.

use crate::gates::{Manner, TestGate};
use crate::scenarios::text_with;
use book::{Batch, Book, Call, Entry};
use digest::hash160;
use keys::{Base, Key};
use running::{Counts, Report, run_node};
use scenario::Scenario;
use std::alloc::Global;
use std::process::Abort;
use std::sync::Wait;
use std::thread::Threads;
use tx::TxOut;

/// A run of a node.
#[derive(Clone, Copy)]
pub(crate) struct Run {
    /// Whether there are two channels; else there is one.
    pub(crate) has_two: bool,
    pub(crate) workers: u16,
    pub(crate) manner: Manner,
}

/// What happens in each channel of a run.
#[derive(Clone, Copy)]
pub(crate) struct Wanted {
    pub(crate) height: u64,
    pub(crate) counts: Counts,
    /// How many calls A's book has.
    pub(crate) calls_of_a: usize,
    /// How many calls B's book has.
    pub(crate) calls_of_b: usize,
    /// How many claims A releases.
    pub(crate) releases_of_a: usize,
    /// How many claims B releases.
    pub(crate) releases_of_b: usize,
    /// Whether each side keeps the penalties of its peer's commitment 0, and B those of A's commitment 1 too.
    pub(crate) is_kept: bool,
}

/// The report of a run with these events after its turns, all of whose gate's waiting ended well.
pub(crate) fn report_of<R: Threads + Wait + Abort + Sync>(
    rt: &R,
    alloc: Global,
    run: &Run,
    chain: &str,
) -> Report {
    report_of_text(rt, alloc, run, text_with(rt, alloc, run.has_two, chain))
}

/// The same of a run of this scenario.
pub(crate) fn report_of_text<R: Threads + Wait + Abort + Sync>(
    rt: &R,
    alloc: Global,
    run: &Run,
    text: String,
) -> Report {
    let workers = run.workers;
    assert!(rt; 0 < workers && workers <= 16);
    let gate = TestGate::new(run.manner);
    let scenario = Scenario::read(alloc, text.as_bytes()).expect(rt, "a scenario");
    let report = run_node(rt, alloc, &scenario, workers, &gate).expect(rt, "memory, and threads");
    assert!(rt; gate.has_come());
    assert!(rt; run.manner != Manner::HoldsFirst || gate.has_overtaken());
    report
}

// Whether a call is what workers do: it keeps penalties or releases claims.
fn is_work(call: &Call) -> bool {
    match call {
        Call::Keep { .. } | Call::Release { .. } => true,
        _ => false,
    }
}

// Whether an output pays to the hash of a key (BIP 141, P2WPKH).
fn pays_to(output: &TxOut, key: &Key) -> bool {
    let program = output.script().bytes();
    program.len() == 22
        && program.starts_with(&[0x00, 0x14])
        && hash160(&key.bytes).as_slice() == &program[2..]
}

// Whether a batch has one output, which pays to the book's own payment key in a channel.
fn pays_itself(book: &Book, channel: u64, batch: &Batch) -> bool {
    match (book.channel(channel), batch.outputs.values()) {
        (Some(state), [output]) => pays_to(output, &state.signer().base(Base::Payment)),
        _ => false,
    }
}

// Whether a call releases claims of a channel to the book's own payment key.
fn is_release(book: &Book, call: &Call, of: u64) -> bool {
    match call {
        Call::Release { channel, batch } => *channel == of && pays_itself(book, of, batch),
        _ => false,
    }
}

// How many such releases a book has in a channel.
fn releases_in(book: &Book, channel: u64) -> usize {
    book.entries()
        .iter()
        .filter(|entry| is_release(book, &entry.call, channel))
        .count()
}

// Whether an entry is of a worker's seat exactly where it is what workers do. The seats before theirs are those of the chain's thread, of the channels' threads and of the watcher.
fn is_by_its_seat(entry: &Entry, before: u32, workers: u16) -> bool {
    let last = before.saturating_add(u32::from(workers));
    is_work(&entry.call) == (entry.seat > before && entry.seat <= last)
}

// Whether a book has this number of calls in each channel, each by a seat whose call it is.
fn is_side(book: &Book, run: &Run, calls: usize) -> bool {
    let (channels, before) = if run.has_two { (2, 4) } else { (1, 3) };
    book.entries().len() == calls.saturating_mul(channels)
        && book
            .entries()
            .iter()
            .all(|entry| is_by_its_seat(entry, before, run.workers))
}

// Whether that happened in a channel.
fn is_channel(report: &Report, channel: u64, wanted: &Wanted) -> bool {
    let last = if wanted.is_kept { Some(true) } else { None };
    report.channels.get(channel as usize) == Some(&wanted.counts)
        && releases_in(&report.a, channel) == wanted.releases_of_a
        && releases_in(&report.b, channel) == wanted.releases_of_b
        && report.a.keeps(channel, 0) == Some(wanted.is_kept)
        && report.a.keeps(channel, 1).is_none()
        && report.b.keeps(channel, 0) == Some(wanted.is_kept)
        && report.b.keeps(channel, 1) == last
}

/// Whether that happened in each channel of a run.
pub(crate) fn is_as(report: &Report, run: &Run, wanted: &Wanted) -> bool {
    let channels = if run.has_two { 2 } else { 1 };
    report.height == wanted.height
        && report.channels.len() == channels
        && is_side(&report.a, run, wanted.calls_of_a)
        && is_side(&report.b, run, wanted.calls_of_b)
        && is_channel(report, 0, wanted)
        && (!run.has_two || is_channel(report, 1, wanted))
}
