//! Plays two peers of a channel, as the lines of its input say. `open` opens a new channel of 100,000 satoshis, and `open SATOSHIS` one of this capacity, of which each side
//! has half. `A offer MILLISATOSHIS EXPIRY`, `A fulfil ID`, `A fail ID`, `A fee RATE`, `A sign` and `A deliver`, or the same of B, are steps, and `cut` is one. `random STEPS` plays this
//! number of steps at random, and `repeat TIMES STEP, STEP` plays steps in turn, this number of times.
//!
//! It prints the outcome of each step, and before a signature the outputs of the commitment that is signed. After random steps it prints how many of each kind were done, and
//! after repeated ones how many were done.

mod often;
mod random;
mod steps;

use crate::channel_sides::open_sides;
use channel::{Action, CommitmentState, Pair, PairStep};
use commit::{CommitmentOutput, build};
use often::play_often;
pub use often::play_words;
use page::Page;
use random::play_at_random;
use std::alloc::Global;
use steps::step_of;
use terms::{Side, Terms};

/// The preimage of every HTLC.
const PREIMAGE: [u8; 32] = [9; 32];

/// Two peers of a channel.
#[derive(Drop)]
pub struct Peers {
    terms: Terms,
    pub pair: Pair,
}

/// Opens a channel of this capacity in satoshis, of which A and B have these millisatoshis.
fn open_with(alloc: Global, capacity_sat: u64, starts_msat: [u64; 2]) -> Option<Peers> {
    match open_sides(alloc, capacity_sat, starts_msat) {
        Ok(sides) => Some(Peers {
            terms: sides.terms,
            pair: Pair::new(alloc, sides.a, sides.b),
        }),
        Err(_) => None,
    }
}

/// Opens a channel of 100,000 satoshis, of which A has 80,000.
pub fn open(alloc: Global) -> Option<Peers> {
    open_with(alloc, 100_000, [80_000_000, 20_000_000])
}

/// Writes the values of outputs.
fn write_values(page: &mut Page, outputs: &[CommitmentOutput]) {
    for output in outputs {
        page.count(" ", output.value);
    }
    page.push("\n");
}

/// Shows a commitment: its number, its owner and the values of its outputs.
fn show_commitment(page: &mut Page, terms: &Terms, next: &CommitmentState) {
    page.count("commitment ", next.number);
    page.push(" of ");
    page.debug(&next.owner);
    page.push(":");
    match build(
        page.alloc(),
        terms,
        &next.view,
        next.owner,
        next.number,
        &next.point,
    ) {
        Ok(built) => write_values(page, built.outputs()),
        Err(_) => page.fail(),
    }
}

/// Shows the commitment that a side would sign next, if it may sign.
fn show_next(page: &mut Page, peers: &Peers, side: Side) {
    if let Ok(next) = peers.pair.channel(side).ready() {
        show_commitment(page, &peers.terms, &next);
    }
}

/// Plays a step, and shows its outcome.
fn play_step(page: &mut Page, pair: &mut Pair, step: PairStep, line: &str) {
    match pair.play(&[step]) {
        Ok(outcomes) => {
            for outcome in outcomes.as_slice() {
                page.push(line);
                page.push(": ");
                page.debug(outcome);
                page.push("\n");
            }
        }
        Err(_) => page.fail(),
    }
}

/// Plays the step of a line, and shows its outcome.
fn play_line(page: &mut Page, peers: &mut Peers, line: &str) {
    match step_of(line, &PREIMAGE) {
        Some(step) => {
            if let PairStep::Turn {
                side,
                action: Action::Sign,
            } = step
            {
                show_next(page, peers, side);
            }
            play_step(page, &mut peers.pair, step, line);
        }
        None => page.fail(),
    }
}

/// Plays this number of steps at random, and shows what each side would sign next.
fn play_many(page: &mut Page, peers: &mut Peers, steps: u64) {
    play_at_random(page, &mut peers.pair, steps);
    show_next(page, peers, Side::A);
    show_next(page, peers, Side::B);
}

/// Handles a line.
fn follow(page: &mut Page, peers: &mut Peers, line: &str) {
    if let Some(steps) = line.strip_prefix("random ") {
        play_many(page, peers, steps.parse().unwrap_or(0));
    } else if let Some(words) = line.strip_prefix("repeat ") {
        play_often(page, &mut peers.pair, &PREIMAGE, words);
    } else {
        play_line(page, peers, line);
    }
}

/// Plays the lines of a channel.
fn follow_all(page: &mut Page, peers: &mut Peers, lines: &str) {
    for line in lines.lines() {
        follow(page, peers, line);
    }
}

/// Plays a channel, where it can be opened.
fn play_channel(page: &mut Page, opened: Option<Peers>, lines: &str) {
    match opened {
        Some(mut peers) => follow_all(page, &mut peers, lines),
        None => page.fail(),
    }
}

/// Plays the lines after `open`: the rest of that line has the capacity, if it has any.
fn play_opened(page: &mut Page, rest: &str, lines: &str) {
    let opened = match rest.trim().parse::<u64>() {
        Ok(capacity_sat) => open_with(
            page.alloc(),
            capacity_sat,
            [capacity_sat.saturating_mul(500); 2],
        ),
        Err(_) => open(page.alloc()),
    };
    play_channel(page, opened, lines);
}

/// Plays all lines. Those before the first `open` play in a channel of 100,000 satoshis too.
pub fn show_all(page: &mut Page, lines: &str) {
    let (before, others) = lines.split_once("open").unwrap_or((lines, ""));
    play_opened(page, "", before);
    for group in others.split("open") {
        if let Some((rest, lines)) = group.split_once('\n') {
            play_opened(page, rest, lines);
        }
    }
}
