//! Histories of random calls.

use crate::books::loading::comes_back;
use crate::books::reply_of;
use book::errors::SignError;
use book::{Book, Call, Step};
use book_peers::{Act, PREIMAGE, Peers, Reply, offer};
use page::Page;
use std::alloc::Global;
use terms::Side;
use updates::OwnUpdate;

/// The number of steps of a history.
const STEPS: u32 = 60;

/// The number of entries of each kind.
#[derive(Clone, Copy)]
struct Tally {
    histories: u64,
    /// Histories whose dump is loaded and dumped again as the same bytes.
    same: u64,
    openings: u64,
    updates: u64,
    received: u64,
    signatures: u64,
    revocations: u64,
    kept: u64,
    released: u64,
    closed: u64,
}

/// Nothing counted.
const NOTHING: Tally = Tally {
    histories: 0,
    same: 0,
    openings: 0,
    updates: 0,
    received: 0,
    signatures: 0,
    revocations: 0,
    kept: 0,
    released: 0,
    closed: 0,
};

impl Tally {
    /// Whether there are at least `least` of each kind that is played.
    fn has(&self, least: u64) -> bool {
        let fewest = self
            .openings
            .min(self.updates)
            .min(self.received)
            .min(self.signatures)
            .min(self.revocations)
            .min(self.kept)
            .min(self.released)
            .min(self.closed);
        fewest >= least
    }
}

/// Adds one.
fn count(number: &mut u64) {
    *number = number.saturating_add(1);
}

/// The next number of a linear congruential generator: its upper 31 bits.
fn next_number(state: &mut u64) -> u64 {
    *state = state
        .wrapping_mul(6_364_136_223_846_793_005)
        .wrapping_add(1_442_695_040_888_963_407);
    *state >> 33
}

/// An update or a call, chosen by a number.
fn act_of(number: u64) -> Act {
    let rest = number >> 4;
    let id = rest % 5;
    match number % 16 {
        0 | 1 => Act::Update(offer(1_000_000 + rest % 4_000_000, 500)),
        2 => Act::Update(OwnUpdate::Fail { id }),
        3 => Act::Update(OwnUpdate::Fulfil {
            id,
            preimage: PREIMAGE,
        }),
        4 => Act::Update(OwnUpdate::SetFee {
            feerate_per_kw: 1000 + (rest % 1000) as u32,
        }),
        5..8 => Act::Sign,
        _ => Act::Deliver,
    }
}

/// A side keeps the penalties of a number, and releases them. Returns whether that can be done.
fn keep_one(peers: &mut Peers, side: Side, channel: usize, number: u64) -> bool {
    reply_of(peers, side, channel, Act::Keep(number)).is_some()
        && reply_of(peers, side, channel, Act::Release(number)).is_some()
}

/// A side acts. If penalties are missing, it keeps them instead, and releases them. Returns whether that can be done.
fn play_one(peers: &mut Peers, side: Side, channel: usize, act: Act) -> bool {
    match reply_of(peers, side, channel, act) {
        Some(Reply::NotSigned(SignError::PenaltiesMissing(number))) => {
            keep_one(peers, side, channel, number)
        }
        Some(_) => true,
        None => false,
    }
}

/// A step, chosen by a number, in one of the channels. Returns whether it can be done.
fn play_step(peers: &mut Peers, channels: u32, number: u64) -> bool {
    let side = if number % 2 == 0 { Side::A } else { Side::B };
    let is_odd = (number >> 1) % 2 == 1;
    let channel = if is_odd && channels > 1 { 1 } else { 0 };
    play_one(peers, side, channel, act_of(number >> 2))
}

/// Counts the entries of a book.
fn tally_entries(tally: &mut Tally, book: &Book) {
    for entry in book.entries() {
        match &entry.call {
            Call::Open(_) => count(&mut tally.openings),
            Call::Step {
                step: Step::Own(_),
                ..
            } => count(&mut tally.updates),
            Call::Step { .. } => count(&mut tally.received),
            Call::Sign { .. } => count(&mut tally.signatures),
            Call::Revoke { .. } => count(&mut tally.revocations),
            Call::Keep { .. } => count(&mut tally.kept),
            Call::Release { .. } => count(&mut tally.released),
            Call::Close { .. } => count(&mut tally.closed),
        }
    }
}

/// Counts a book: dumps it, loads the dump and dumps it again.
fn tally_book(alloc: Global, tally: &mut Tally, book: &Book) {
    count(&mut tally.histories);
    if comes_back(alloc, book) {
        count(&mut tally.same);
    }
    tally_entries(tally, book);
}

/// Plays the steps of a history. Returns whether all can be done.
fn play_steps(peers: &mut Peers, channels: u32, state: &mut u64) -> bool {
    for _ in 0..STEPS {
        if !play_step(peers, channels, next_number(state)) {
            return false;
        }
    }
    true
}

/// A closes the first channel. Returns whether that can be done.
fn close_first(peers: &mut Peers) -> bool {
    reply_of(peers, Side::A, 0, Act::Close).is_some()
}

/// Plays one game of two books, and counts both. Returns whether it can be played.
fn play_game(
    alloc: Global,
    peers: &mut Peers,
    tally: &mut Tally,
    channels: u32,
    state: &mut u64,
) -> bool {
    let is_played = peers.open(alloc, channels).is_ok()
        && play_steps(peers, channels, state)
        && close_first(peers);
    if !is_played {
        return false;
    }
    tally_book(alloc, tally, &peers.a.book);
    tally_book(alloc, tally, &peers.b.book);
    true
}

/// Plays one game of two empty books.
fn play_new(alloc: Global, tally: &mut Tally, channels: u32, state: &mut u64) -> bool {
    let mut peers = Peers::new(alloc);
    play_game(alloc, &mut peers, tally, channels, state)
}

/// Shows what was counted.
fn show_tally(page: &mut Page, tally: &Tally) {
    page.count("random histories: ", tally.histories);
    page.count(", the same dump again: ", tally.same);
    page.push("\n  at least 100 entries of each kind: ");
    page.push(if tally.has(100) { "true\n" } else { "false\n" });
}

/// Plays this number of games, each of two empty books, of one or two channels in turn, and shows how many of their histories are loaded as they were dumped.
pub fn show_games(page: &mut Page, games: u32) {
    let mut tally = NOTHING;
    let mut state = 1;
    for game in 0..games {
        if !play_new(page.alloc(), &mut tally, 1 + game % 2, &mut state) {
            page.fail();
        }
    }
    show_tally(page, &tally);
}
