// Notes on scripts that are not listed.

use crate::names::name_of;
use crate::operands::{Operand, operand_at};
use crate::sizes::Counted;
use page::Page;
use page::Piece::{Count, Text};
use paths::CheckError;
use script::limits::MAX_OPS_PER_SCRIPT;
use script::{Op, Script};
use std::alloc::{AllocError, Global};

/// Notes why the paths of a script with these bytes are not listed.
pub fn note_refusal(notes: &mut Page, bytes: &[u8], error: CheckError) {
    let Ok(script) = Script::parse(notes.alloc(), bytes) else {
        return;
    };
    match error {
        CheckError::OpenBranch => note_branch(notes, script.ops()),
        CheckError::TooManyOps => note_count(notes, script.counted()),
        CheckError::Undecided(at) => note_undecided(notes, script.ops(), at),
        CheckError::TooManyPaths => {
            notes.push("note: a 65th path begins, and at most 64 are listed\n")
        }
        CheckError::TooTall => notes.push(
            "note: a path needs more than 1000 elements on the stack: no run of it is clean\n",
        ),
        CheckError::NoMemory => {}
    }
}

// Notes how many counted opcodes there are.
fn note_count(notes: &mut Page, counted: usize) {
    let text = if counted > MAX_OPS_PER_SCRIPT {
        "note: the script has % counted opcodes, and at most 201 are allowed\n"
    } else {
        "note: the script has % counted opcodes: with the keys of the CHECKMULTISIGs on a path there are more than 201\n"
    };
    notes.write(text, &[Count(counted as u64)]);
}

// Notes at which opcode the listing gives up.
fn note_undecided(notes: &mut Page, ops: &[Op], at: usize) {
    let Some(op) = ops.get(at) else {
        notes.push(
            "note: no rule decides whether the last entry is true, so the listing gives up: whether anyone can spend, or nobody, is not said\n",
        );
        return;
    };
    let byte = (op.code() % 256) as u8;
    let name = name_of(byte).unwrap_or("a push");
    notes.write(
        "note: opcode % is %: no rule decides it on what stands on the stack there, so the listing gives up: whether anyone can spend, or nobody, is not said\n",
        &[Count(at as u64), Text(name)],
    );
    if let Op::CheckMultiSig = op {
        note_operand(notes, ops, at);
    }
}

// Notes what keeps the CHECKMULTISIG at an opcode from being decided.
fn note_operand(notes: &mut Page, ops: &[Op], at: usize) {
    match operand_at(notes.alloc(), ops, at) {
        Ok(Some(Operand::Constant(bytes))) => {
            notes.push("note: on a branch ");
            notes.show(&Counted(bytes.as_slice()));
            notes.push(" stands there in the place of a signature: is a DROP missing?\n");
        }
        Ok(Some(Operand::Count)) => notes.push(
            "note: where the witness brings the number of signatures, it may be 0, and anyone can spend: compare the number of keys with the keys before it\n",
        ),
        Ok(None) => {}
        Err(_) => notes.fail(),
    }
}

// What is wrong with the branches of a script. Opcodes are counted from 0.
#[derive(Clone, Copy)]
enum OpenEnd {
    // This ELSE or ENDIF has no IF and no NOTIF.
    NoIf(&'static str, usize),
    // This ELSE is the second one of the IF or NOTIF at the second place.
    SecondElse(usize, usize),
    // This IF or NOTIF has no ENDIF.
    NoEndIf(usize),
}

// An IF or NOTIF that is not closed yet.
#[derive(Clone, Copy)]
struct OpenIf {
    at: usize,
    has_else: bool,
}

// Notes what is wrong with the branches of a script.
fn note_branch(notes: &mut Page, ops: &[Op]) {
    match open_end(notes.alloc(), ops) {
        Ok(Some(OpenEnd::NoIf(name, at))) => notes.write(
            "note: the % at opcode % has no IF\n",
            &[Text(name), Count(at as u64)],
        ),
        Ok(Some(OpenEnd::SecondElse(at, begin))) => notes.write(
            "note: the ELSE at opcode % is the second one of the IF or NOTIF at opcode %: consensus takes it, and it can be written as a further IF\n",
            &[Count(at as u64), Count(begin as u64)],
        ),
        Ok(Some(OpenEnd::NoEndIf(at))) => notes.write(
            "note: the IF or NOTIF at opcode % has no ENDIF\n",
            &[Count(at as u64)],
        ),
        Ok(None) => {}
        Err(_) => notes.fail(),
    }
}

// The first thing that is wrong with the branches of a script.
fn open_end(alloc: Global, ops: &[Op]) -> Result<Option<OpenEnd>, AllocError> {
    let mut open = Vec::new(alloc);
    for (at, op) in ops.iter().enumerate() {
        if let Some(end) = follow(&mut open, at, op)? {
            return Ok(Some(end));
        }
    }
    Ok(open.pop().map(|begin: OpenIf| OpenEnd::NoEndIf(begin.at)))
}

// Follows an opcode, with the IFs that are open.
fn follow(open: &mut Vec<OpenIf>, at: usize, op: &Op) -> Result<Option<OpenEnd>, AllocError> {
    match op {
        Op::If | Op::NotIf => {
            open.push(OpenIf {
                at,
                has_else: false,
            })?;
            Ok(None)
        }
        Op::Else => follow_else(open, at),
        Op::EndIf => match open.pop() {
            Some(_) => Ok(None),
            None => Ok(Some(OpenEnd::NoIf("ENDIF", at))),
        },
        _ => Ok(None),
    }
}

// Follows an ELSE.
fn follow_else(open: &mut Vec<OpenIf>, at: usize) -> Result<Option<OpenEnd>, AllocError> {
    let Some(begin) = open.pop() else {
        return Ok(Some(OpenEnd::NoIf("ELSE", at)));
    };
    if begin.has_else {
        return Ok(Some(OpenEnd::SecondElse(at, begin.at)));
    }
    open.push(OpenIf {
        at: begin.at,
        has_else: true,
    })?;
    Ok(None)
}
