// Notes on a member that stands twice in an object.

use crate::names::is_plain;
use json_names::{RepeatedMember, first_repeated_member};
use page::Page;
use page::Piece::Count;
use script_notes::text_of;
use std::alloc::{AllocError, Global};
use streams::MAX_INPUT;

/// The note on the first member that stands twice in its object; empty if there is none, or if the text is invalid JSON or too long. The only error is that memory ran out.
pub fn repeat_notes(alloc: Global, input: &[u8]) -> Result<String, AllocError> {
    let mut notes = Page::new(alloc);
    note_repeat(&mut notes, input);
    text_of(&notes)
}

/// Notes the first member that stands twice in its object, if there is one, and the text is not too long.
pub fn note_repeat(notes: &mut Page, input: &[u8]) {
    if input.len() <= MAX_INPUT {
        match first_repeated_member(notes.alloc(), input) {
            Ok(Some(member)) => write_repeat(notes, input, &member),
            Ok(None) => {}
            Err(_) => notes.fail(),
        }
    }
}

// Writes which member stands twice, and where it does so again.
fn write_repeat(notes: &mut Page, input: &[u8], member: &RepeatedMember) {
    let (line, column) = place_of(input, member.at);
    if is_plain(member.name.as_str()) {
        notes.push("note: the member ");
        notes.push(member.name.as_str());
    } else {
        notes.push("note: a member");
    }
    notes.write(
        " stands twice in its object, and the last one counts: again at byte %: line %, column %\n",
        &[
            Count(member.at as u64),
            Count(line as u64),
            Count(column as u64),
        ],
    );
}

// The line and the column of a byte, both counted from 1.
fn place_of(input: &[u8], byte: usize) -> (usize, usize) {
    let (mut line, mut start) = (1usize, 0usize);
    for (at, one) in input.iter().enumerate() {
        if at >= byte {
            break;
        }
        if *one == b'\n' {
            line = line.saturating_add(1);
            start = at.saturating_add(1);
        }
    }
    (line, byte.saturating_sub(start).saturating_add(1))
}
