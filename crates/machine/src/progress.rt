//! A run in progress.

ghost use Rattle.std.specs.Prelude.{◌≡◌, ◌≤◌, ◌<◌, ◌+◌, max, length, OnOk, MatchResult};
ghost use Rattle.script.specs.Run.{op_count, open_ifs_after};
ghost use Rattle.machine.specs.Doings.{IfStop};
ghost use Rattle.machine.specs.Skips.{depth_of};
ghost use Rattle.machine.specs.Passing.{IsPassed, IsRun};

use crate::acts::act;
use crate::halts::Halt;
use crate::skips::Skip;
use lists::{ByteString, Stack};
use script::branches::pass_branch;
use script::limits::{MAX_OPS_PER_SCRIPT, MAX_STACK_SIZE};
use script::{Cause, Op, Spend};
use std::alloc::Global;

/// A run in progress.
#[derive(Drop)]
pub struct Machine {
    /// The stack elements.
    pub stack: Stack<ByteString>,
    /// The open IFs, each with whether its ELSE has come.
    pub ifs: Stack<bool>,
    /// The branch that is being jumped over.
    pub skip: Option<Skip>,
    /// The number of opcodes and keys counted so far.
    pub counted: usize,
    /// The greatest number of elements so far.
    pub height: usize,
}

impl Machine {
    /// Passes one opcode.
    pub fn pass(&mut self, alloc: Global, op: &Op, spend: &Spend) -> Result<(), Halt>
        requires few { self.old.counted ≤ MAX_OPS_PER_SCRIPT }
        requires shallow { depth_of self.old.skip ≤ self.old.counted }
        ensures passed { IsPassed spend.now op.now self.old self.new result }
        ensures still_few { OnOk result (self.new.counted ≤ MAX_OPS_PER_SCRIPT) }
        ensures still_shallow { OnOk result (depth_of self.new.skip ≤ self.new.counted) }
    {
        count(op, &mut self.counted)?;
        open(op, &mut self.ifs)?;
        match self.skip {
            Some(skip) => {
                self.skip = skip.after(op);
                Ok(())
            }
            None => self.run_one(alloc, op, spend),
        }
    }

    // Runs an opcode that was counted, and whose branch was entered or ended.
    fn run_one(&mut self, alloc: Global, op: &Op, spend: &Spend) -> Result<(), Halt>
        requires few { self.old.counted ≤ MAX_OPS_PER_SCRIPT }
        ensures run { IsRun spend.now op.now self.old self.new result }
        ensures still_few { OnOk result (self.new.counted ≤ MAX_OPS_PER_SCRIPT) }
        ensures still_shallow { OnOk result (depth_of self.new.skip ≤ self.new.counted) }
    {
        let step = act(alloc, op, spend, self.counted, &mut self.stack)?;
        self.counted += step.keys;
        self.skip = Skip::begin(step.jump);
        settle(self.stack.len(), &mut self.height)
    }
}

// Counts an opcode.
fn count(op: &Op, counted: &mut usize) -> Result<(), Halt>
    requires { counted.old ≤ MAX_OPS_PER_SCRIPT }
    ensures { MatchResult result (λ _. (counted.new ≡ counted.old + op_count op.now)
        × (counted.new ≤ MAX_OPS_PER_SCRIPT)) (λ h. (h ≡ Halt.Stop Cause.TooManyOps)
        × (MAX_OPS_PER_SCRIPT < counted.old + op_count op.now)) }
{
    *counted += op.op_count();
    if *counted > MAX_OPS_PER_SCRIPT {
        return Err(Halt::Stop(Cause::TooManyOps));
    }
    Ok(())
}

// Enters a branch, moves to its ELSE, or ends it.
fn open(op: &Op, ifs: &mut Stack<bool>) -> Result<(), Halt>
    ensures { MatchResult result
        (λ _. open_ifs_after op.now ifs.old ≡ Ok ifs.new)
        (λ h. IfStop h (λ c. open_ifs_after op.now ifs.old ≡ Err c)) }
{
    if !pass_branch(op, ifs)? {
        return Err(Halt::Stop(Cause::OpenBranch));
    }
    Ok(())
}

// Updates the greatest number of elements. More than 1,000 elements stop the run.
fn settle(entries: usize, height: &mut usize) -> Result<(), Halt>
    ensures { MatchResult result
        (λ _. (height.new ≡ max height.old entries) × (entries ≤ MAX_STACK_SIZE))
        (λ h. (h ≡ Halt.Stop Cause.StackTooTall) × (MAX_STACK_SIZE < entries)) }
{
    if entries > MAX_STACK_SIZE {
        return Err(Halt::Stop(Cause::StackTooTall));
    }
    *height = (*height).max(entries);
    Ok(())
}
