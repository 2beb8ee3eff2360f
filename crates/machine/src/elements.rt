//! The stack elements in the course of a run.

ghost use Rattle.std.specs.Prelude.{◌≡◌, IfOk};
ghost use Rattle.machine.specs.Elements.{elements_at as elements_before};

use crate::halts::Halt;
use crate::progress::Machine;
use crate::runner::load;
use lists::{ByteString, Stack};
use script::{Script, Spend};
use std::alloc::{AllocError, Global};

/// The stack elements before the opcode at an index, or at the end. `None` where the run stops before that, and for an index above the number of opcodes.
/// The only error is that memory ran out.
pub fn elements_at(
    alloc: Global,
    script: &Script,
    witness: &[ByteString],
    spend: &Spend,
    index: usize,
) -> Result<Option<Stack<ByteString>>, AllocError>
    ensures { IfOk result (λ o. o ≡ elements_before spend.now script.now witness.now index) }
{
    let stack = load(alloc, witness)?;
    let height = stack.len();
    let mut machine = Machine {
        stack,
        ifs: Stack::new(alloc),
        skip: None,
        counted: 0,
        height,
    };
    let ops = script.ops();
    for (at, op) in ops.iter().enumerate() {
        if at == index {
            return Ok(Some(machine.stack));
        }
        match machine.pass(alloc, op, spend) {
            Ok(()) => {}
            Err(Halt::NoMemory) => return Err(AllocError),
            Err(Halt::Stop(_)) => return Ok(None),
        }
    }
    Ok(if ops.len() == index {
        Some(machine.stack)
    } else {
        None
    })
}
