// The stack opcodes, which ask for no fact, and the two steps that all opcodes share: `pull` and `put`.

ghost use Rattle.std.specs.Prelude.{◌≡◌, ◌<◌, ◌≤◌, OnOk};
ghost use Rattle.paths.specs.HoleRules.{pop, push as pushed};
ghost use Rattle.paths.specs.Following.{IsRuleOf};
ghost use Rattle.paths.specs.Doing.{IsNear};

use crate::constants::{Constant, Sym, copied_sym};
use crate::rules::take;
use crate::state::{Halt, State, SymbolicJump};
use lists::ByteString;
use script::Op;
use script::limits::MAX_STACK_SIZE;
use std::alloc::{AllocError, Global};

/// Pops the top symbol. If there is none, it is the next slot of the witness.
pub fn pull(state: &mut State) -> Sym
    requires { state.old.slots < usize.MAX }
    ensures top { result ≡ (pop state.old).0 }
    ensures left { state.new ≡ (pop state.old).1 }
    ensures near { IsNear 1 state.old state.new }
{
    take(state)
}

/// Pushes a symbol. The only error is that memory ran out.
pub fn put(state: &mut State, sym: Sym) -> Result<(), AllocError>
    ensures put { OnOk result (state.new ≡ pushed sym state.old) }
{
    state.stack.push(sym)
}

/// A push.
#[tactic(auto, unfolding(crate::specs::HoleRules::rule_of))]
pub fn push_item(alloc: Global, item: &ByteString, state: &mut State) -> Result<SymbolicJump, Halt>
    ensures exact { IsRuleOf 0 (Op.Push item.now) state.old state.new result }
    ensures near { OnOk result (IsNear 0 state.old state.new) }
{
    put(state, Sym::Const(Constant::Known(item.copy()?)))?;
    Ok(SymbolicJump::Next)
}

/// A push of a number from 1 to 16.
#[tactic(auto, unfolding(crate::specs::HoleRules::rule_of))]
pub fn push_number(alloc: Global, number: u8, state: &mut State) -> Result<SymbolicJump, Halt>
    ensures exact { IsRuleOf 0 (Op.Number number) state.old state.new result }
    ensures near { OnOk result (IsNear 0 state.old state.new) }
{
    put(
        state,
        Sym::Const(Constant::Known(ByteString::from_slice(alloc, &[number])?)),
    )?;
    Ok(SymbolicJump::Next)
}

/// DROP.
#[tactic(auto, unfolding(crate::specs::HoleRules::rule_of))]
pub fn discard(state: &mut State) -> Result<SymbolicJump, Halt>
    requires { state.old.slots ≤ MAX_STACK_SIZE }
    ensures exact { IsRuleOf 0 Op.Drop state.old state.new result }
    ensures near { OnOk result (IsNear 1 state.old state.new) }
{
    let _sym = pull(state);
    Ok(SymbolicJump::Next)
}

/// DUP.
#[tactic(auto, unfolding(crate::specs::HoleRules::rule_of))]
pub fn double(alloc: Global, state: &mut State) -> Result<SymbolicJump, Halt>
    requires { state.old.slots ≤ MAX_STACK_SIZE }
    ensures exact { IsRuleOf 0 Op.Dup state.old state.new result }
    ensures near { OnOk result (IsNear 1 state.old state.new) }
{
    let sym = pull(state);
    let other = copied_sym(&sym)?;
    put(state, sym)?;
    put(state, other)?;
    Ok(SymbolicJump::Next)
}

/// SWAP.
#[tactic(auto, unfolding(crate::specs::HoleRules::rule_of))]
pub fn swap(state: &mut State) -> Result<SymbolicJump, Halt>
    requires { state.old.slots ≤ MAX_STACK_SIZE }
    ensures exact { IsRuleOf 0 Op.Swap state.old state.new result }
    ensures near { OnOk result (IsNear 2 state.old state.new) }
{
    let top = pull(state);
    let second = pull(state);
    put(state, top)?;
    put(state, second)?;
    Ok(SymbolicJump::Next)
}
