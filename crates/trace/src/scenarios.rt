//! The word `scenario` of the program `trace`: it plays a scenario and writes what happens as JSON, event by event.
//!
//! [`run_words`] reads a scenario, plays one event after another, and writes one JSON object a line, each at once: the opening, the outcome of each
//! event and what it changed, and the end. It returns a status of at most 2. Each event is played by `World::play`, so its outcome is the one that
//! `enforce run` prints. The layout of the lines is tested, not proved. A line has what its event changed: new entries of the books, messages,
//! transactions and claims. After `--dump A` or `--dump B` it writes the dump of that side's book in their place, which `trace dump` loads.
//!
//! `world` plays what `scenario` reads, and has the books, the chain and the pool. The program `trace` passes its streams.
//!
//! ```rust
//! let status = run_words(alloc, words, &mut input, &mut out, &mut err);
//! ```
//!
//! Tested by `show/check`, which computes the lines of all examples anew, and by the calls of `oracles/answers.py`.
ghost use Rattle.std.specs.Prelude.{◌≤◌};

mod claims;
mod closing;
mod coins;
mod commitments;
mod dumping;
mod endings;
mod messages;
mod mining;
mod openings;
mod outputs;
mod playing;
mod pool;
mod standing;
mod wishes;

use crate::formats::Form;
use crate::notes::tell_notes;
use crate::replies::WRONG_WORDS;
use crate::scenarios::coins::Told;
use crate::scenarios::dumping::dump_played;
use crate::scenarios::endings::tell_end;
use crate::scenarios::openings::tell_opening;
use crate::scenarios::playing::played;
use crate::scenarios::wishes::Wish;
use chain::Coins as _;
use enforce_notes::{played_notes, repeat_notes, scenario_notes};
use page::Page;
use page::Piece::Count;
use scenario::{Event, Scenario, ScenarioError};
use serde_json::Value;
use std::alloc::Global;
use std::fmt::Display;
use std::io::{Read, Write};
use streams::{InputError, read_all, refuse_memory, write_refusal, write_told};
use world::World;
use world::errors::WorldError;

/// The note after wrong words.
pub const HELP: &str =
    "note: scenario reads the scenario from standard input, and takes --strict, --dump A or --dump B, or no word: trace scenario <FILE\n";

// Plays an event, and writes its line.
fn tell_event(
    alloc: Global,
    line: &mut Page,
    world: &mut World,
    told: &mut Told,
    index: usize,
    event: &Event,
    words: &Value,
) {
    let before = world.chain().height();
    line.write(r#"{"event":%,"words":"#, &[Count(index as u64)]);
    line.show(&words);
    match played(world, event) {
        Ok(outcomes) => {
            told.tell_played(alloc, line, world, before, event, outcomes.as_slice());
            told.note_refused(index, outcomes.as_slice());
        }
        Err(_) => line.fail(),
    }
}

// Writes the lines of a world and its events, by a line and a state that are new, and returns the status.
fn tell_events(
    alloc: Global,
    out: &mut dyn Write,
    line: &mut Page,
    world: &mut World,
    told: &mut Told,
    events: &[Event],
    words: &[Value],
    notes: &str,
) -> u8
    ensures { result ≤ 1 }
{
    tell_opening(line, told, world, events.len(), notes);
    if write_told(out, line, 0) == 1 {
        return 1;
    }
    let mut index = 0usize;
    for event in events {
        if let Some(words) = words.get(index) {
            tell_event(alloc, line, world, told, index, event, words);
            if write_told(out, line, 0) == 1 {
                return 1;
            }
        }
        index = index.saturating_add(1);
    }
    tell_end(line, told, world);
    write_told(out, line, 0)
}

// The events of a scenario as JSON values.
fn words_in(value: &Value) -> &[Value] {
    match value.get("events") {
        Some(events) => match events.as_array() {
            Some(events) => events.as_slice(),
            None => &[],
        },
        None => &[],
    }
}

// Writes what is wished of a world and the events of its scenario, and returns the status: where that is wished, also 1 where an event was refused, which a note names then.
fn tell_world(
    alloc: Global,
    out: &mut dyn Write,
    err: &mut dyn Write,
    world: &mut World,
    told: &mut Told,
    events: &[Event],
    words: &[Value],
    notes: &str,
    wish: Wish,
) -> u8
    ensures { result ≤ 1 }
{
    let mut line = Page::new(alloc);
    if let Wish::Dump(side) = wish {
        dump_played(&mut line, world, told, events, side);
        return write_told(out, &mut line, 0);
    }
    let status = tell_events(alloc, out, &mut line, world, told, events, words, notes);
    match wish {
        Wish::Strictly if !told.first_refused.text().is_empty() => {
            say(err, told.first_refused.text());
            1
        }
        _ => status,
    }
}

// Writes notes on standard error, as `enforce run` does. Where they can't be written, nothing else changes.
fn say(err: &mut dyn Write, notes: &str) {
    let _ = err.write_all(notes.as_bytes());
}

// Reports why these bytes are refused: an object on a line, with the notes on them, of which there may be none. They stand on standard error too. Returns the status.
fn refuse_scenario<D: Display>(
    alloc: Global,
    out: &mut dyn Write,
    err: &mut dyn Write,
    refusal: &D,
    bytes: &[u8],
) -> u8
    ensures { result ≤ 1 }
{
    let mut line = Page::new(alloc);
    line.push(r#"{"refused":""#);
    line.show(refusal);
    line.push("\"");
    let notes = scenario_notes(alloc, bytes);
    match &notes {
        Ok(notes) => tell_notes(&mut line, Form::Json, notes.as_str()),
        Err(_) => line.fail(),
    }
    line.push("}\n");
    let status = write_told(out, &mut line, 1);
    if let Ok(notes) = notes {
        say(err, notes.as_str());
    }
    status
}

// Writes what is wished of a scenario that was read from these bytes, of which `value` is the JSON, by a state that is new, and returns the status.
fn tell_scenario(
    alloc: Global,
    out: &mut dyn Write,
    err: &mut dyn Write,
    told: &mut Told,
    scenario: &Scenario,
    value: &Value,
    notes: &str,
    bytes: &[u8],
    wish: Wish,
) -> u8
    ensures { result ≤ 1 }
{
    match World::new(alloc, &scenario.seeds, scenario.channels.values()) {
        Ok(mut world) => {
            let (events, words) = (scenario.events.values(), words_in(value));
            let status = tell_world(
                alloc, out, err, &mut world, told, events, words, notes, wish,
            );
            world.leak();
            let refused = told.refused.as_slice();
            if let Ok(notes) = played_notes(alloc, false, refused, bytes) {
                say(err, notes.as_str());
            }
            status
        }
        Err(WorldError::NoMemory) => refuse_memory(out),
        Err(error) => refuse_scenario(alloc, out, err, &error, bytes),
    }
}

// Writes what is wished of a scenario that was read from these bytes, on which there are these notes, and returns the status.
fn tell_read(
    alloc: Global,
    out: &mut dyn Write,
    err: &mut dyn Write,
    scenario: &Scenario,
    notes: &str,
    bytes: &[u8],
    wish: Wish,
) -> u8
    ensures { result ≤ 1 }
{
    match Value::from_slice(alloc, bytes) {
        Ok(value) => match Told::new(alloc) {
            Ok(mut told) => tell_scenario(
                alloc, out, err, &mut told, scenario, &value, notes, bytes, wish,
            ),
            Err(_) => refuse_memory(out),
        },
        Err(_) => refuse_memory(out),
    }
}

// Writes what is wished of the scenario in the bytes, and returns the status.
fn tell_bytes(
    alloc: Global,
    out: &mut dyn Write,
    err: &mut dyn Write,
    bytes: &[u8],
    wish: Wish,
) -> u8
    ensures { result ≤ 1 }
{
    match Scenario::read(alloc, bytes) {
        Ok(scenario) => match repeat_notes(alloc, bytes) {
            Ok(notes) => tell_read(alloc, out, err, &scenario, notes.as_str(), bytes, wish),
            Err(_) => refuse_memory(out),
        },
        Err(ScenarioError::NoMemory) => refuse_memory(out),
        Err(error) => refuse_scenario(alloc, out, err, &error, bytes),
    }
}

/// Runs the word `scenario` on the words after it and returns its status: 0 when all is written, 1 for refused input, a failed write, or if memory ran out, 2 for wrong words, which are detected
/// before any input is read. After `--strict` it is 1 also where an event was refused, which a note on standard error names. The notes of `enforce run` stand there too. After `--dump A` or `--dump B` the dump of that side's book is written, and no line of an event.
pub fn run_words(
    alloc: Global,
    words: &[String],
    input: &mut dyn Read,
    out: &mut dyn Write,
    err: &mut dyn Write,
) -> u8
    ensures { result ≤ 2 }
{
    let Some(wish) = Wish::read(words) else {
        return WRONG_WORDS;
    };
    match read_all(alloc, input) {
        Ok(bytes) => tell_bytes(alloc, out, err, bytes.as_slice(), wish),
        Err(InputError::NoMemory) => refuse_memory(out),
        Err(error) => write_refusal(alloc, out, error.text(), None),
    }
}
