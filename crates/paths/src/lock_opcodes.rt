// CHECKLOCKTIMEVERIFY and CHECKSEQUENCEVERIFY.

ghost use Rattle.std.specs.Prelude.{◌≡◌, ◌≤◌, OnOk};
ghost use Rattle.paths.specs.Answers.{Answers, IfHalts};
ghost use Rattle.paths.specs.HoleRules.{lock_of as lock_for, ask_age as age_asked};
ghost use Rattle.paths.specs.Following.{IsRuleOf};
ghost use Rattle.paths.specs.Doing.{IsNear};

use crate::constants::{Amount, Fact, Sym, age_bits, is_off};
use crate::rules::ask;
use crate::stack_opcodes::{pull, put};
use crate::state::{Halt, State, SymbolicJump};
use script::Op;
use script::limits::MAX_STACK_SIZE;
use std::alloc::AllocError;

/// CHECKLOCKTIMEVERIFY (BIP 65).
#[tactic(auto, unfolding(crate::specs::HoleRules::rule_of))]
pub fn check_lock_time(state: &mut State) -> Result<SymbolicJump, Halt>
    requires { state.old.slots ≤ MAX_STACK_SIZE }
    ensures exact { IsRuleOf 0 Op.CheckLockTimeVerify state.old state.new result }
    ensures near { OnOk result (IsNear 1 state.old state.new) }
{
    let sym = pull(state);
    let lock = lock_of(&sym)?;
    ask(state, Fact::Lock(lock), true)?;
    put(state, sym)?;
    Ok(SymbolicJump::Next)
}

/// CHECKSEQUENCEVERIFY (BIP 112).
#[tactic(auto, unfolding(crate::specs::HoleRules::rule_of))]
pub fn check_sequence(state: &mut State) -> Result<SymbolicJump, Halt>
    requires { state.old.slots ≤ MAX_STACK_SIZE }
    ensures exact { IsRuleOf 0 Op.CheckSequenceVerify state.old state.new result }
    ensures near { OnOk result (IsNear 1 state.old state.new) }
{
    let sym = pull(state);
    let age = lock_of(&sym)?;
    ask_age(state, &age)?;
    put(state, sym)?;
    Ok(SymbolicJump::Next)
}

// The number of a lock.
fn lock_of(sym: &Sym) -> Result<Amount<u64>, Halt>
    ensures { Answers IfHalts (lock_for sym.now) result }
{
    match sym {
        Sym::Const(constant) => constant.lock(),
        _ => Err(Halt::Undecided),
    }
}

// Asks for a relative lock, unless it is disabled. The only error is that memory ran out.
fn ask_age(state: &mut State, age: &Amount<u64>) -> Result<(), AllocError>
    ensures { OnOk result (state.new ≡ age_asked age.now state.old) }
{
    if is_off(age) {
        return Ok(());
    }
    ask(state, Fact::Age(age_bits(age)), true)
}
