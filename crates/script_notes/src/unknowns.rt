// Notes on opcodes that are not in the table.

use crate::names::name_of;
use page::Page;
use page::Piece::{Count, Text};
use std::slice;
use warnings::unknown_opcodes;

// The most opcodes that a note names.
const MAX_NAMED: usize = 16;

// The byte of an opcode of tapscript that version 0 does not have (BIP 342).
const CHECKSIGADD: u8 = 0xba;

/// Notes which of Bitcoin's opcodes stands at a byte.
pub fn note_opcode(notes: &mut Page, bytes: &[u8], at: usize) {
    let Some(byte) = bytes.get(at) else {
        return;
    };
    notes.count("note: byte ", at as u64);
    notes.hex(" is ", slice::from_ref(byte));
    match name_of(*byte) {
        Some(name) if *byte == CHECKSIGADD => notes.write(
            ", % in tapscript (BIP 342), which is no opcode of version 0\n",
            &[Text(name)],
        ),
        Some(name) => notes.write(", % in Bitcoin, which is not in the table\n", &[Text(name)]),
        None => notes.push(", which is no opcode of Bitcoin\n"),
    }
}

/// Notes which further opcodes are not in the table, after the one at a byte.
pub fn note_others(notes: &mut Page, bytes: &[u8], at: usize) {
    match unknown_opcodes(notes.alloc(), bytes) {
        Ok(places) => write_others(notes, bytes, places.as_slice(), at),
        Err(_) => notes.fail(),
    }
}

// Writes which of these opcodes stand after a byte.
fn write_others(notes: &mut Page, bytes: &[u8], places: &[usize], at: usize) {
    let mut mark = "note: not in the table either:";
    let mut count: usize = 0;
    for place in places {
        if *place > at {
            if count < MAX_NAMED {
                write_opcode(notes, mark, bytes, *place);
                mark = ",";
            }
            count = count.saturating_add(1);
        }
    }
    if count > MAX_NAMED {
        let rest = count - MAX_NAMED;
        notes.write(", and % more\n", &[Count(rest as u64)]);
    } else if count > 0 {
        notes.push("\n");
    }
}

// Writes which opcode stands at a byte.
fn write_opcode(notes: &mut Page, mark: &str, bytes: &[u8], at: usize) {
    let Some(byte) = bytes.get(at) else {
        return;
    };
    notes.push(mark);
    notes.hex(" ", slice::from_ref(byte));
    if let Some(name) = name_of(*byte) {
        notes.write(" (%)", &[Text(name)]);
    }
    notes.count(" at byte ", at as u64);
}
