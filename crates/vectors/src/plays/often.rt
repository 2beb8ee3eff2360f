//! Steps that are played in turn.

use super::steps::step_of;
use channel::{Outcome, Pair, PairStep};
use page::Page;
use std::alloc::Global;

/// Appends the steps that words name, separated by commas. Returns whether all name one.
fn push_steps(steps: &mut Vec<PairStep>, words: &str, preimage: &[u8; 32]) -> bool {
    for step in words.split(", ") {
        match step_of(step, preimage) {
            Some(step) if steps.push(step).is_ok() => {}
            _ => return false,
        }
    }
    true
}

/// The number of steps that were done.
fn count_done(outcomes: &[Outcome]) -> u64 {
    let mut done: u64 = 0;
    for outcome in outcomes {
        if let Outcome::Done = outcome {
            done = done.saturating_add(1);
        }
    }
    done
}

/// Plays steps in turn, and counts those that were done.
fn play_once(pair: &mut Pair, steps: &[PairStep]) -> u64 {
    match pair.play(steps) {
        Ok(outcomes) => count_done(outcomes.as_slice()),
        Err(_) => 0,
    }
}

/// Plays steps in turn, this number of times, and counts those that were done.
fn play_times(pair: &mut Pair, steps: &[PairStep], times: u64) -> u64 {
    let mut done: u64 = 0;
    for _ in 0..times {
        done = done.saturating_add(play_once(pair, steps));
    }
    done
}

/// Plays the steps that words name, this number of times, and counts those that were done. It plays none if some words name no step.
fn play_named(alloc: Global, pair: &mut Pair, preimage: &[u8; 32], words: &str, times: u64) -> u64 {
    let mut steps = Vec::new(alloc);
    if push_steps(&mut steps, words, preimage) {
        play_times(pair, steps.as_slice(), times)
    } else {
        0
    }
}

/// Plays the steps that words name, and counts those that were done.
pub fn play_words(alloc: Global, pair: &mut Pair, preimage: &[u8; 32], words: &str) -> u64 {
    play_named(alloc, pair, preimage, words, 1)
}

/// Plays what the words name, and shows how many steps were done.
pub fn play_often(page: &mut Page, pair: &mut Pair, preimage: &[u8; 32], words: &str) {
    let (times, steps) = words.split_once(' ').unwrap_or((words, ""));
    let times = times.parse().unwrap_or(0);
    let done = play_named(page.alloc(), pair, preimage, steps, times);
    page.push(words);
    page.count(": ", done);
    page.push(" done\n");
}
