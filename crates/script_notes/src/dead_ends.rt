// Notes on the branches by which nobody can spend, in consensus neither.

ghost use Rattle.std.specs.Prelude.{true, All, [], ◌≡◌};
ghost use Rattle.script.specs.Spelling.{IsOp};
ghost use Rattle.strictness.specs.Balance.{is_balanced};
ghost use Rattle.strictness.specs.Ways.{NobodySpendsBy};

use crate::sizes::Counted;
use page::Page;
use page::Piece::{Count, Text};
use script::Op;
use script::num::{Limit, read};
use std::alloc::{AllocError, Global};
use strictness::{Choice, DeadEnd, Fate, Fault, fate_along};

/// A listed script begins at most 64 branches, which split in 63 places.
pub const MAX_FATES: usize = 127;

/// Notes the branches of a listed script by which nobody can spend in consensus either.
pub fn note_dead_ends(notes: &mut Page, alloc: Global, ops: &[Op]) -> Result<(), AllocError>
    requires valid { All IsOp ops.now }
    requires closed { is_balanced ops.now [] ≡ true }
{
    let mut choices = Vec::new(alloc);
    for _turn in 0..MAX_FATES {
        let so_far = choices.as_slice();
        let is_left = match fate_along(alloc, ops, so_far)? {
            Fate::Splits(op) => {
                choices.push(Choice { op, runs: true })?;
                true
            }
            Fate::Dies(end) => {
                note_dead_end(notes, ops, so_far, &end);
                turn_back(&mut choices)?
            }
            Fate::Lives => turn_back(&mut choices)?,
        };
        if !is_left {
            return Ok(());
        }
    }
    Ok(())
}

/// Goes the other way at the last choice that leaves one, and returns whether there is such a choice.
pub fn turn_back(choices: &mut Vec<Choice>) -> Result<bool, AllocError> {
    for _step in 0..choices.len() {
        match choices.pop() {
            Some(last) if last.runs => {
                choices.push(Choice {
                    op: last.op,
                    runs: false,
                })?;
                return Ok(true);
            }
            _ => {}
        }
    }
    Ok(false)
}

// Notes where the branch that makes these choices ends: nobody can spend by it.
fn note_dead_end(notes: &mut Page, ops: &[Op], choices: &[Choice], end: &DeadEnd)
    requires { NobodySpendsBy choices.now ops.now }
{
    let mut mark = "note: nobody can spend by the branch after the";
    for choice in choices {
        let (name, at) = place(ops, *choice);
        notes.write(
            "% % at opcode %",
            &[Text(mark), Text(name), Count(at as u64)],
        );
        mark = ", then the";
    }
    if choices.is_empty() {
        notes.push("note: nobody can spend by the only branch");
    }
    write_end(notes, end);
}

/// The opcode after which a branch goes on, and its name.
pub fn place(ops: &[Op], choice: Choice) -> (&'static str, usize) {
    if choice.runs {
        return match ops.get(choice.op) {
            Some(Op::NotIf) => ("NOTIF", choice.op),
            _ => ("IF", choice.op),
        };
    }
    let mut depth = 0usize;
    for (at, op) in ops.iter().enumerate() {
        if at > choice.op {
            match op {
                Op::If | Op::NotIf => depth = depth.saturating_add(1),
                Op::Else if depth == 0 => return ("ELSE", at),
                Op::EndIf if depth == 0 => return ("ENDIF", at),
                Op::EndIf => depth = depth.saturating_sub(1),
                _ => {}
            }
        }
    }
    ("ENDIF", ops.len())
}

// Writes where a branch ends, and why.
fn write_end(notes: &mut Page, end: &DeadEnd) {
    let bytes = end.bytes.as_slice();
    match end.fault {
        Fault::TwoLeft => {
            notes.push(": after the last opcode it leaves two or more elements");
            if !bytes.is_empty() {
                notes.push(", ");
                notes.show(&Counted(bytes));
                notes.push(" among them");
            }
            notes.push(", and BIP 141 wants one: is a DROP missing?\n");
        }
        Fault::FalseLeft => {
            notes.push(": after the last opcode it leaves ");
            notes.show(&Counted(bytes));
            notes.push(", which is false\n");
        }
        fault => {
            notes.write(": it ends at opcode %, where ", &[Count(end.op as u64)]);
            notes.show(&Counted(bytes));
            write_fault(notes, fault, bytes);
        }
    }
}

// Writes what is wrong with bytes.
fn write_fault(notes: &mut Page, fault: Fault, bytes: &[u8]) {
    match fault {
        Fault::Lock => write_lock(notes, bytes),
        Fault::Count => notes.push(
            " is no number of keys (0 to 20), nor of signatures (0 to that of the keys)\n",
        ),
        Fault::Signature => notes.push(" is no signature in DER (BIP 66): is a DROP missing?\n"),
        Fault::Extra => notes.push(
            " is the extra item of CHECKMULTISIG, which has to be empty (BIP 147)\n",
        ),
        _ if bytes.len() == 32 => notes.push(
            " never equals what it is compared with: a HASH160 has 20 bytes\n",
        ),
        _ => notes.push(" never equals what it is compared with\n"),
    }
}

// Writes why bytes are no lock: those that are minimally encoded are a negative number.
fn write_lock(notes: &mut Page, bytes: &[u8]) {
    match read(bytes, Limit::Lock) {
        Some(number) => notes.write(
            " is -%, and no lock is negative (a number is little-endian)\n",
            &[Count(number.magnitude)],
        ),
        None if bytes.len() > 5 => notes.push(" is no lock, which has at most 5 bytes\n"),
        None => notes.push(" is negative, and no lock is (a number is little-endian)\n"),
    }
}
