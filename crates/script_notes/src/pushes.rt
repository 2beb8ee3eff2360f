// The pushes of a script that was parsed in part.

use crate::sizes::Counted;
use page::Page;
use page::Piece::Count;
use script::{Op, Script};

/// Notes what the opcodes in these bytes push, and at which bytes.
pub fn note_pushes(notes: &mut Page, bytes: &[u8]) {
    // what was read before a fault parses as a script
    if let Ok(script) = Script::parse(notes.alloc(), bytes) {
        write_pushes(notes, script.ops());
    }
}

fn write_pushes(notes: &mut Page, ops: &[Op]) {
    let mut byte = 0u64;
    let mut mark = "note: pushed before it:";
    for op in ops {
        if write_push(notes, mark, op, byte) {
            mark = ",";
        }
        byte = byte
            .saturating_add(op.payload_len() as u64)
            .saturating_add(1);
    }
    notes.push(if mark == "," {
        "\n"
    } else {
        "note: nothing is pushed before it\n"
    });
}

// Writes the opcode if it is a push, and returns whether it is one.
fn write_push(notes: &mut Page, mark: &str, op: &Op, byte: u64) -> bool {
    match op {
        Op::Push(item) => {
            notes.push(mark);
            notes.push(" ");
            notes.show(&Counted(item.bytes()));
        }
        Op::Number(n) => {
            notes.push(mark);
            notes.count(" the number ", u64::from(*n));
        }
        _ => return false,
    }
    notes.count(" at byte ", byte);
    true
}
