// The byte at which a script is refused.

use lists::Stack;
use paths::CheckError;
use script::Op;
use script::branches::pass_branch;
use script::limits::MAX_OPS_PER_SCRIPT;
use std::alloc::{AllocError, Global};

/// The byte at which an opcode begins; the end of the script for an index past the last one.
pub fn byte_of(ops: &[Op], index: usize) -> u64 {
    let mut byte = 0u64;
    for (at, op) in ops.iter().enumerate() {
        if at >= index {
            return byte;
        }
        byte = byte
            .saturating_add(op.payload_len() as u64)
            .saturating_add(1);
    }
    byte
}

// The index of the first opcode without its IF, or the number of opcodes.
fn open_at(alloc: Global, ops: &[Op]) -> Result<usize, AllocError> {
    let mut ifs = Stack::new(alloc);
    for (at, op) in ops.iter().enumerate() {
        if !pass_branch(op, &mut ifs)? {
            return Ok(at);
        }
    }
    Ok(ops.len())
}

// The index of the opcode with which more than 201 are counted, if there is one.
fn excess_at(ops: &[Op]) -> Option<usize> {
    let mut counted = 0;
    for (at, op) in ops.iter().enumerate() {
        counted += op.op_count();
        if counted > MAX_OPS_PER_SCRIPT {
            return Some(at);
        }
    }
    None
}

/// The byte at which a script is refused, if the reason is one of its opcodes or its end. The only error is that memory ran out.
pub fn place(alloc: Global, ops: &[Op], error: &CheckError) -> Result<Option<u64>, AllocError> {
    let index = match error {
        CheckError::NoMemory => return Err(AllocError),
        CheckError::Undecided(at) => Some(*at),
        CheckError::OpenBranch => Some(open_at(alloc, ops)?),
        CheckError::TooManyOps => excess_at(ops),
        _ => None,
    };
    match index {
        Some(index) => Ok(Some(byte_of(ops, index))),
        None => Ok(None),
    }
}
