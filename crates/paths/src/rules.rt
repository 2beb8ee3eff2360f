// What an opcode does to a path.

ghost use Rattle.std.specs.Prelude.{◌≡◌, ◌<◌, ◌≤◌, ◌+◌, OnOk, OnErr};
ghost use Rattle.paths.specs.HoleRules.{pop, ask as asked, condition_of, insist as insisted, rule_of};
ghost use Rattle.paths.specs.Following.{IsRuleOf, IsConditionOf, IsInsisted};
ghost use Rattle.paths.specs.declared.state.Halt.TheVariants.{NoMemory};

use crate::branch_opcodes::{enter_if, enter_not_if};
use crate::comparison_opcodes::{equal, equal_verify, hash, size};
use crate::constants::{Fact, Stated, Sym};
use crate::lock_opcodes::{check_lock_time, check_sequence};
use crate::multisig::check_multi_sig;
use crate::signature_opcodes::check_sig;
use crate::stack_opcodes::{discard, double, push_item, push_number, swap};
use crate::state::{Condition, Halt, State, SymbolicJump};
use script::Op;
use script::limits::{MAX_OPS_PER_SCRIPT, MAX_STACK_SIZE};
use std::alloc::{AllocError, Global};

impl From<AllocError> for Halt {
    ghost from_gives = { λ _ e. e ≡ NoMemory };

    fn from(_error: AllocError) -> Halt {
        Halt::NoMemory
    }
}

/// Pops the top symbol. If there is none, it is the next slot of the witness.
pub fn take(state: &mut State) -> Sym
    requires { state.old.slots < usize.MAX }
    ensures { pop state.old ≡ (result, state.new) }
{
    match state.stack.pop() {
        Some(sym) => sym,
        None => {
            let slot = state.slots;
            state.slots += 1;
            Sym::Slot(slot)
        }
    }
}

/// Adds a fact to those that the path asks for. The only error is that memory ran out.
pub fn ask(state: &mut State, fact: Fact, holds: bool) -> Result<(), AllocError>
    ensures { OnOk result (state.new ≡ asked fact holds state.old) }
{
    state.facts.push(Stated { fact, holds })
}

/// What decides whether a symbol counts as true.
pub fn condition(sym: Sym) -> Result<Condition, Halt>
    ensures { IsConditionOf sym result }
{
    match sym {
        Sym::Slot(i) => Ok(Condition::Asked(Fact::Truth(i))),
        Sym::Const(constant) => Ok(Condition::Known(constant.truth()?)),
        Sym::Holds(fact) => Ok(Condition::Asked(fact)),
        _ => Err(Halt::Undecided),
    }
}

/// Goes on only if the condition holds.
pub fn insist(state: &mut State, condition: Condition) -> Result<(), Halt>
    ensures { IsInsisted condition state.old state.new result }
{
    match condition {
        Condition::Known(true) => Ok(()),
        Condition::Known(false) => Err(Halt::Dead),
        Condition::Asked(fact) => {
            ask(state, fact, true)?;
            Ok(())
        }
    }
}

/// Follows an opcode, in a script with `counted` counted opcodes. After an error the path ends, and its state may be anything. `Dead`
/// means that no witness can go on, and `Undecided` that no rule applies and the opcode is not dead. `TooManyOps` means that the keys
/// of a CHECKMULTISIG lift the count above 201, and `NoMemory` that memory ran out.
#[tactic(auto, unfolding(crate::specs::HoleRules::rule_of))]
pub fn follow(
    alloc: Global,
    op: &Op,
    counted: usize,
    state: &mut State,
) -> Result<SymbolicJump, Halt>
    requires slots { state.old.slots ≤ MAX_STACK_SIZE }
    requires keys { counted + state.old.keys ≤ MAX_OPS_PER_SCRIPT }
    ensures exact { IsRuleOf counted op.now state.old state.new result }
    ensures keys_stay { OnOk result (counted + state.new.keys ≤ MAX_OPS_PER_SCRIPT) }
{
    match op {
        Op::Push(item) => push_item(alloc, item, state),
        Op::Number(number) => push_number(alloc, *number, state),
        Op::If => enter_if(state),
        Op::NotIf => enter_not_if(state),
        Op::Else => Ok(SymbolicJump::AfterEndIf),
        Op::EndIf => Ok(SymbolicJump::Next),
        Op::Drop => discard(state),
        Op::Dup => double(alloc, state),
        Op::Swap => swap(state),
        Op::Size => size(alloc, state),
        Op::Equal => equal(alloc, state),
        Op::EqualVerify => equal_verify(alloc, state),
        Op::Hash160 => hash(alloc, state),
        Op::CheckSig => check_sig(state),
        Op::CheckMultiSig => check_multi_sig(alloc, counted, state),
        Op::CheckLockTimeVerify => check_lock_time(state),
        Op::CheckSequenceVerify => check_sequence(state),
    }
}
