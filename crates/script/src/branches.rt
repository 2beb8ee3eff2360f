//! The IFs that are open.

ghost use Rattle.std.specs.Prelude.{IfOk};
ghost use Rattle.script.specs.Run.{IsOpened};

use crate::opcode::Op;
use lists::Stack;
use std::alloc::AllocError;

/// Passes an opcode that enters a branch, moves to its ELSE, ends it, or does none of these. The stack has the open IFs, the innermost on top,
/// each with whether its ELSE has come. `false` means that the opcode has no matching IF; the stack is then unspecified. The only error is that
/// memory ran out.
pub fn pass_branch(op: &Op, ifs: &mut Stack<bool>) -> Result<bool, AllocError>
    ensures { IfOk result (IsOpened op.now ifs.old ifs.new) }
{
    match op {
        Op::If | Op::NotIf => {
            ifs.push(false)?;
            Ok(true)
        }
        Op::Else => match ifs.pop() {
            Some(false) => {
                ifs.push(true)?;
                Ok(true)
            }
            _ => Ok(false),
        },
        Op::EndIf => Ok(ifs.pop().is_some()),
        _ => Ok(true),
    }
}
