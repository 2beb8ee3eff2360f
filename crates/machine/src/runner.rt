//! Runs a script.

ghost use Rattle.std.specs.Prelude.{◌≡◌, reverse, IfOk};
ghost use Rattle.std.specs.List.{list_any};
ghost use Rattle.script.specs.Run.{is_long, outcome, at_end};
ghost use Rattle.machine.specs.Outcomes.{IsOutcome};
ghost use Rattle.machine.specs.Stopping.{IsStopAt};

use crate::ends::{Run, Stop};
use crate::halts::Halt;
use crate::progress::Machine;
use lists::{ByteString, Stack};
use script::limits::MAX_SCRIPT_ELEMENT_SIZE;
use script::truths::is_true;
use script::{Cause, Script, Spend};
use std::alloc::{AllocError, Global};

/// Runs a script on the items of a witness, of which the last is the top of the stack (BIP 141). A run is clean if it ends with one true
/// element and no open IF: `Ok` gives its counted opcodes and its greatest number of elements. `Stop::At` gives the opcode at which the run
/// stops, counted from 0, and why.
pub fn run(
    alloc: Global,
    script: &Script,
    witness: &[ByteString],
    spend: &Spend,
) -> Result<Run, Stop>
    ensures { IsOutcome (outcome spend.now script.now witness.now) result }
{
    if has_long(witness) {
        return Err(Stop::At(Cause::ItemTooLong, 0));
    }
    let stack = load(alloc, witness)?;
    let height = stack.len();
    let mut machine = Machine {
        stack,
        ifs: Stack::new(alloc),
        skip: None,
        counted: 0,
        height,
    };
    let ops = script.ops();
    for (at, op) in ops.iter().enumerate() {
        if let Err(halt) = machine.pass(alloc, op, spend) {
            return Err(stop_at(at, halt));
        }
    }
    finish(&machine, ops.len())
}

// The stop at a position.
fn stop_at(at: usize, halt: Halt) -> Stop
    ensures { IsStopAt at halt result }
{
    match halt {
        Halt::NoMemory => Stop::NoMemory,
        Halt::Stop(cause) => Stop::At(cause, at),
    }
}

// Whether some item has more than 520 bytes.
fn has_long(witness: &[ByteString]) -> bool
    ensures { result ≡ list_any is_long witness.now }
{
    witness.iter().any(|item| is_too_long(item))
}

// Whether an item has more than 520 bytes.
fn is_too_long(item: &ByteString) -> bool
    ensures { result ≡ is_long item.now }
{
    item.len() > MAX_SCRIPT_ELEMENT_SIZE
}

/// The stack that a witness starts with.
pub fn load(alloc: Global, witness: &[ByteString]) -> Result<Stack<ByteString>, AllocError>
    ensures { IfOk result (λ s. s ≡ reverse witness.now) }
{
    let mut stack = Stack::new(alloc);
    for item in witness {
        stack.push(item.copy()?)?;
    }
    Ok(stack)
}

// The end of a run.
fn finish(machine: &Machine, at: usize) -> Result<Run, Stop>
    ensures { IsOutcome (at_end at machine.now.ifs machine.now.stack machine.now.counted
        machine.now.height) result }
{
    if !machine.ifs.is_empty() {
        return Err(Stop::At(Cause::OpenBranch, at));
    }
    let Some(top) = machine.stack.top() else {
        return Err(Stop::At(Cause::NotOneValue, at));
    };
    if machine.stack.len() != 1 {
        return Err(Stop::At(Cause::NotOneValue, at));
    }
    if !is_true(top.bytes()) {
        return Err(Stop::At(Cause::FalseEnd, at));
    }
    Ok(Run {
        counted: machine.counted,
        height: machine.height,
    })
}
