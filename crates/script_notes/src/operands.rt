// What a CHECKMULTISIG finds on the stack of a branch where no rule decides it.

use crate::dead_ends::{MAX_FATES, turn_back};
use crate::decided::{after, way_at};
use lists::Stack;
use script::Op;
use script::num::{Limit, read};
use std::alloc::{AllocError, Global};
use strictness::{Bytes, Choice, Entry, Turn, make_turn};

/// What keeps a CHECKMULTISIG from being decided.
#[derive(Clone, Copy)]
pub enum Operand {
    /// These bytes stand in the place of a signature.
    Constant(Bytes),
    /// The witness brings the number of keys, or of signatures.
    Count,
}

// How far a branch comes.
#[derive(Clone, Copy)]
enum Reached {
    // To the opcode, where this keeps it from being decided.
    Opcode(Option<Operand>),
    // To an IF or NOTIF that the witness decides.
    Splits(usize),
    Ends,
}

/// What keeps the CHECKMULTISIG at an opcode from being decided: a constant on some branch, or else a number that the witness brings.
pub(crate) fn operand_at(
    alloc: Global,
    ops: &[Op],
    at: usize,
) -> Result<Option<Operand>, AllocError> {
    let mut choices = Vec::new(alloc);
    let mut found = None;
    for _turn in 0..MAX_FATES {
        let is_left = match follow(alloc, ops, choices.as_slice(), at)? {
            Reached::Splits(op) => {
                choices.push(Choice { op, runs: true })?;
                true
            }
            Reached::Opcode(Some(Operand::Constant(bytes))) => {
                return Ok(Some(Operand::Constant(bytes)));
            }
            Reached::Opcode(operand) => {
                found = operand.or(found);
                turn_back(&mut choices)?
            }
            Reached::Ends => turn_back(&mut choices)?,
        };
        if !is_left {
            break;
        }
    }
    Ok(found)
}

// How far the branch comes that makes these choices, before an opcode.
fn follow(
    alloc: Global,
    ops: &[Op],
    choices: &[Choice],
    end: usize,
) -> Result<Reached, AllocError> {
    let mut stack = Stack::new(alloc);
    let mut next = 0usize;
    for (at, op) in ops.iter().enumerate() {
        if at == end && at >= next {
            return Ok(Reached::Opcode(operand_of(stack.values())));
        }
        if at >= next {
            next = match make_turn(op, &mut stack)? {
                Turn::Next => at,
                Turn::AfterElse | Turn::AfterEndIf => after(ops, at),
                Turn::Splits => match way_at(choices, at) {
                    Some(true) => at,
                    Some(false) => after(ops, at),
                    None => return Ok(Reached::Splits(at)),
                },
                Turn::Ends(_, _) | Turn::EndsStrictly(_, _) | Turn::Lost => {
                    return Ok(Reached::Ends);
                }
            };
        }
    }
    Ok(Reached::Ends)
}

// The entry at a depth below the top.
fn entry_at(stack: &[Entry], depth: usize) -> Option<&Entry> {
    stack.get(stack.len().checked_sub(depth.saturating_add(1))?)
}

// The number at a depth below the top, if the script determines it.
fn count_at(stack: &[Entry], depth: usize) -> Option<usize> {
    match entry_at(stack, depth) {
        Some(Entry::Known(bytes)) => match read(bytes.as_slice(), Limit::Count) {
            Some(number) if !number.negative => Some(number.magnitude as usize),
            _ => None,
        },
        _ => None,
    }
}

// What keeps a CHECKMULTISIG on this stack from being decided.
fn operand_of(stack: &[Entry]) -> Option<Operand> {
    let Some(keys) = count_at(stack, 0) else {
        return Some(Operand::Count);
    };
    let below = keys.saturating_add(1);
    let Some(signatures) = count_at(stack, below) else {
        return Some(Operand::Count);
    };
    for place in 0..signatures.min(stack.len()) {
        let depth = below.saturating_add(1).saturating_add(place);
        if let Some(Entry::Known(bytes)) = entry_at(stack, depth) {
            return Some(Operand::Constant(*bytes));
        }
    }
    None
}
