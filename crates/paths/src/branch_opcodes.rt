// IF and NOTIF.

ghost use Rattle.std.specs.Prelude.{◌≡◌, ◌≤◌, Ok, OnOk};
ghost use Rattle.paths.specs.HoleRules.{branch as branched};
ghost use Rattle.paths.specs.Following.{IsRuleOf};
ghost use Rattle.paths.specs.Doing.{IsNear};
ghost use Rattle.paths.specs.Holes.{State as Waiting};

use crate::rules::condition;
use crate::stack_opcodes::pull;
use crate::state::{Condition, Halt, State, SymbolicJump};
use script::Op;
use script::limits::MAX_STACK_SIZE;

/// IF: runs the opcodes after it where the top is true.
#[tactic(auto, unfolding(crate::specs::HoleRules::rule_of))]
pub fn enter_if(state: &mut State) -> Result<SymbolicJump, Halt>
    requires { state.old.slots ≤ MAX_STACK_SIZE }
    ensures exact { IsRuleOf 0 Op.If state.old state.new result }
    ensures near { OnOk result (IsNear 1 state.old state.new) }
{
    let condition = condition(pull(state))?;
    Ok(branch(true, condition))
}

/// NOTIF: runs the opcodes after it where the top is false.
#[tactic(auto, unfolding(crate::specs::HoleRules::rule_of))]
pub fn enter_not_if(state: &mut State) -> Result<SymbolicJump, Halt>
    requires { state.old.slots ≤ MAX_STACK_SIZE }
    ensures exact { IsRuleOf 0 Op.NotIf state.old state.new result }
    ensures near { OnOk result (IsNear 1 state.old state.new) }
{
    let condition = condition(pull(state))?;
    Ok(branch(false, condition))
}

// Where a path goes at an IF or NOTIF whose first branch runs where the
// condition is `runs`.
fn branch(runs: bool, condition: Condition) -> SymbolicJump
    ensures { (s : Waiting) → branched runs condition s ≡ Ok (result, s) }
{
    match condition {
        Condition::Known(holds) => {
            if holds == runs {
                SymbolicJump::Next
            } else {
                SymbolicJump::AfterElse
            }
        }
        Condition::Asked(fact) => SymbolicJump::Splits(fact, runs),
    }
}
