//! The word `node` of the program `enforce`: it plays a scenario in threads and prints how things stand at the end.
//!
//! `enforce node N` runs N workers a side, from 1 to 16. [`workers_in`] tells the word, and [`run_word`] does what it says,
//! over any reader and writers. It reads and refuses input as `enforce run` does. Its text is tested in `running_tests`, not proved. It stands
//! apart from the other words, since it alone starts threads and may wait.
//!
//! `enforce_words` reads the scenario and writes the text, and `running` plays it. The program `enforce` calls it.
//!
//! ```text
//! let status = match workers_in(words) {
//!     Some(workers) => run_word(&rt, alloc, workers, &mut input, &mut out, &mut err),
//!     None => run_words(alloc, words, &mut input, &mut out, &mut err),
//! };
//! ```
#![tactic(auto)]

ghost use Rattle.std.specs.Prelude.{◌≡◌, ◌<◌, ◌≤◌, IfSome, bytes_eq, map};
ghost use Rattle.std.specs.List.{position_from};
ghost use Rattle.node_words.specs.Words.{place_of, count_of, workers_of};

mod gates;
mod lines;

use crate::gates::Open;
use crate::lines::{notes_of, text_of};
use enforce_words::{CommandError, finish, say_notes, scenario_in};
use running::run_node;
use std::alloc::Global;
use std::io::{Read, Write};
use std::sync::Wait;
use std::thread::Threads;

/// The numbers of workers that a side may have.
const COUNTS: [&str; 16] = [
    "1", "2", "3", "4", "5", "6", "7", "8", "9", "10", "11", "12", "13", "14", "15", "16",
];

// The place of the first of these texts that is this one.
fn place_in(texts: &[&str], text: &str) -> Option<usize>
    ensures { result ≡ position_from (λ s. bytes_eq s.now text.now) 0 texts.now }
{
    for (place, one) in texts.iter().enumerate() {
        if *one == text {
            return Some(place);
        }
    }
    None
}

// The place of a text among the numbers.
fn place_of(text: &str) -> Option<usize>
    ensures { result ≡ place_of text.now }
{
    place_in(&COUNTS, text)
}

// The number that a text spells, from 1 to 16, without a sign or a leading 0.
fn count_in(text: &str) -> Option<u16>
    ensures few { IfSome result (λ n. (0 < n) × (n ≤ 16)) }
    ensures count { result ≡ count_of text.now }
{
    match place_of(text) {
        Some(index) => Some(index as u16 + 1),
        None => None,
    }
}

/// The number of workers a side, if the words are `node N`.
pub fn workers_in(words: &[String]) -> Option<u16>
    ensures few { IfSome result (λ n. (0 < n) × (n ≤ 16)) }
    ensures workers { result ≡ workers_of (map (λ w. w.bytes.items) words.now) }
{
    match words {
        [name, count] if name.as_str() == "node" => count_in(count.as_str()),
        _ => None,
    }
}

// The text that is printed. The notes on refused events of the chain are appended to `notes`, unless memory runs out in them. Blocks until all threads of the node have ended.
fn answer<R: Threads + Wait + Sync, I: Read>(
    rt: &R,
    alloc: Global,
    workers: u16,
    input: &mut I,
    notes: &mut String,
) -> Result<String, CommandError>
    requires some { 0 < workers }
    requires few { workers ≤ 16 }
{
    let scenario = scenario_in(alloc, input)?;
    let report = run_node(rt, alloc, &scenario, workers, &Open)?;
    let text = text_of(alloc, &report)?;
    if let Ok(lines) = notes_of(alloc, scenario.events.values(), &report) {
        let _ = notes.push_str(lines.as_str());
    }
    Ok(text)
}

/// Plays the scenario in the input with this number of workers a side, and returns the status: 0 when played, 1 where the input is refused, memory ran out, a thread can't be started,
/// or a write fails. A note on each event of the chain that was refused is written to `err` after it; where these notes can't be made or written, nothing else changes.
pub fn run_word<R: Threads + Wait + Sync, I: Read, W: Write, E: Write>(
    rt: &R,
    alloc: Global,
    workers: u16,
    input: &mut I,
    out: &mut W,
    err: &mut E,
) -> u8
    requires some { 0 < workers }
    requires few { workers ≤ 16 }
    ensures { result ≤ 1 }
{
    let mut notes = String::new(alloc);
    let text = answer(rt, alloc, workers, input, &mut notes);
    let status = finish(alloc, out, text);
    say_notes(err, notes.as_str());
    status
}
