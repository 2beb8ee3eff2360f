// Notes on a text that is not a scenario.

use crate::forms::{MEMBERS, Part, TERMS, event_parts};
use crate::names::is_plain;
use crate::proposals::note_scenario;
use crate::repeats::note_repeat;
use json_value::{ReadError, Value};
use page::Page;
use page::Piece::{Count, Text};
use script_notes::text_of;
use serde_json::Error;
use std::alloc::{AllocError, Global};
use streams::MAX_INPUT;
use texts::tag_of;

/// The notes on a text that is refused as a scenario, a line each: where it is invalid JSON, which of its parts does not have its shape, which limit it exceeds, or on which terms the two
/// sides can't agree; and a member that stands twice. The only error is that memory ran out.
pub fn scenario_notes(alloc: Global, input: &[u8]) -> Result<String, AllocError> {
    let mut notes = Page::new(alloc);
    if input.len() <= MAX_INPUT {
        note_text(&mut notes, input);
        note_repeat(&mut notes, input);
    }
    text_of(&notes)
}

fn note_text(notes: &mut Page, input: &[u8]) {
    match Value::from_slice(notes.alloc(), input) {
        Ok(value) => note_fault(notes, &value),
        Err(ReadError::NoMemory) => {}
        Err(ReadError::NotJson) => note_invalid(notes, input),
    }
}

// Notes on a text that is invalid JSON. The toolchain's own reader says where.
fn note_invalid(notes: &mut Page, input: &[u8]) {
    match serde_json::Value::from_slice(notes.alloc(), input) {
        Err(error) if !error.is_memory() => note_place(notes, input, &error),
        _ => {}
    }
}

// Notes where a text is invalid JSON.
fn note_place(notes: &mut Page, input: &[u8], error: &Error) {
    let (line, column) = (error.line(), error.column());
    let byte = byte_of(input, line, column);
    let (text, at) = if error.is_eof() || byte >= input.len() {
        (
            "note: the text ends too early, after byte %: line %, column %\n",
            input.len(),
        )
    } else {
        ("note: invalid JSON at byte %: line %, column %\n", byte)
    };
    let place = [Count(at as u64), Count(line as u64), Count(column as u64)];
    notes.write(text, &place);
}

// The byte at a line and a column, both counted from 1.
fn byte_of(input: &[u8], line: usize, column: usize) -> usize {
    let mut left = line.saturating_sub(1);
    let mut start = 0usize;
    for (at, byte) in input.iter().enumerate() {
        if left == 0 {
            break;
        }
        if *byte == b'\n' {
            left -= 1;
            start = at.saturating_add(1);
        }
    }
    start.saturating_add(column.saturating_sub(1))
}

// Why a value does not have its shape.
#[derive(Clone, Copy)]
enum Fault {
    // It is not an object.
    NoObject,
    // It lacks this member.
    Lacks(&'static str),
    // Its member at this index does not belong to it.
    Unknown(usize),
    // It is not an array whose first item is a name.
    NoEvent,
    // There is no event of this name.
    NoName,
    // It has the first number of items, and should have the second.
    Count(usize, usize),
    // This part has another shape.
    Part(Part),
}

// Notes the first part of a value that does not have its shape, or what else keeps it from being a scenario.
fn note_fault(notes: &mut Page, value: &Value) {
    if let Some(fault) = object_fault(value, &MEMBERS) {
        notes.push("note: the scenario");
        write_fault(notes, &fault, value);
    } else if let Some((channel, terms, fault)) = terms_fault(value) {
        notes.write("note: channel %", &[Count(channel as u64)]);
        write_fault(notes, &fault, terms);
    } else if let Some((index, event, fault)) = events_fault(value) {
        notes.write("note: event %", &[Count(index as u64)]);
        write_fault(notes, &fault, event);
    } else {
        note_scenario(notes, value);
    }
}

// Writes why a value does not have its shape.
fn write_fault(notes: &mut Page, fault: &Fault, value: &Value) {
    match fault {
        Fault::NoObject => notes.push(" is no object\n"),
        Fault::Lacks(name) => notes.write(" has no member %\n", &[Text(name)]),
        Fault::Unknown(index) => write_unknown(notes, value, *index),
        Fault::NoEvent => notes.push(" is no array with a name at its front\n"),
        Fault::NoName => write_unnamed(notes, value),
        Fault::Count(count, wanted) => notes.write(
            " has % items, and not %\n",
            &[Count(*count as u64), Count(*wanted as u64)],
        ),
        Fault::Part(Part(name, kind)) => notes.write(
            ": its % is not %\n",
            &[Text(name), Text(kind.text())],
        ),
    }
}

// Writes which member does not belong to an object.
fn write_unknown(notes: &mut Page, value: &Value, index: usize) {
    notes.push(" has a member that does not belong to it");
    if let Some(members) = value.as_object() {
        if let Some((name, _)) = members.get(index) {
            if is_plain(name.as_str()) {
                notes.push(": ");
                notes.push(name.as_str());
            }
        }
    }
    notes.push("\n");
}

// Writes that an array has the name of no event, and which names there are.
fn write_unnamed(notes: &mut Page, value: &Value) {
    if let Some(name) = tag_of(value) {
        if is_plain(name) {
            notes.push(", ");
            notes.push(name);
            notes.push(",");
        }
    }
    notes.push(
        " has the name of no event: there are offer, fulfil, fail, fee, sign, deliver, keep, broadcast, close, blocks, look, take, release and reorg\n",
    );
}

// What keeps an object from having exactly these members.
fn object_fault(value: &Value, parts: &[Part]) -> Option<Fault> {
    let Some(object) = value.as_object() else {
        return Some(Fault::NoObject);
    };
    for part in parts {
        let Part(name, kind) = *part;
        match value.member(name) {
            None => return Some(Fault::Lacks(name)),
            Some(member) if !kind.fits(member) => return Some(Fault::Part(*part)),
            Some(_) => {}
        }
    }
    unknown_member(object, parts)
}

// The first member of an object that is none of these.
fn unknown_member(object: &[(String, Value)], parts: &[Part]) -> Option<Fault> {
    for (index, member) in object.iter().enumerate() {
        if !parts.iter().any(|part| part.0 == member.0.as_str()) {
            return Some(Fault::Unknown(index));
        }
    }
    None
}

// The first channel whose terms do not have their shape.
fn terms_fault(value: &Value) -> Option<(usize, &Value, Fault)> {
    for (channel, terms) in value.member("channels")?.as_array()?.iter().enumerate() {
        if let Some(fault) = object_fault(terms, &TERMS) {
            return Some((channel, terms, fault));
        }
    }
    None
}

// The first event that does not have its shape.
fn events_fault(value: &Value) -> Option<(usize, &Value, Fault)> {
    for (index, event) in value.member("events")?.as_array()?.iter().enumerate() {
        if let Some(fault) = event_fault(event) {
            return Some((index, event, fault));
        }
    }
    None
}

// What keeps an array from being an event.
fn event_fault(event: &Value) -> Option<Fault> {
    let Some(name) = tag_of(event) else {
        return Some(Fault::NoEvent);
    };
    let count = event.as_array()?.len();
    let Some(parts) = event_parts(name, count) else {
        return Some(Fault::NoName);
    };
    if count != parts.len().saturating_add(1) {
        return Some(Fault::Count(count, parts.len().saturating_add(1)));
    }
    for (index, part) in parts.iter().enumerate() {
        if !part.1.fits(event.item(index.saturating_add(1))?) {
            return Some(Fault::Part(*part));
        }
    }
    None
}
