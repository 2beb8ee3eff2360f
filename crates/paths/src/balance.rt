// Whether every branch of a script is closed.

ghost use Rattle.std.specs.Prelude.{◌≡◌, [], IfOk};
ghost use Rattle.paths.specs.Listing.{is_balanced as balances};

use lists::Stack;
use script::Op;
use script::branches::pass_branch;
use std::alloc::{AllocError, Global};

/// Whether each IF has its ENDIF, each ELSE and ENDIF its IF, and no IF a second ELSE. The only error is that memory ran out.
pub fn is_balanced(alloc: Global, ops: &[Op]) -> Result<bool, AllocError>
    ensures { IfOk result (λ balanced. balanced ≡ balances ops.now []) }
{
    let mut ifs = Stack::new(alloc);
    for op in ops {
        if !pass_branch(op, &mut ifs)? {
            return Ok(false);
        }
    }
    Ok(ifs.is_empty())
}
