// SIZE, HASH160, EQUAL and EQUALVERIFY over symbols.

ghost use Rattle.std.specs.Prelude.{◌≡◌, ◌≤◌, OnOk};
ghost use Rattle.paths.specs.Answers.{Answers, IfHalts};
ghost use Rattle.paths.specs.HoleRules.{size_of as size_for, hash_of as hash_for, hash_is as hash_asked, size_is as size_asked, equal_of as equal_for};
ghost use Rattle.paths.specs.Following.{IsRuleOf};
ghost use Rattle.paths.specs.Doing.{IsNear};

use crate::constants::{Constant, Fact, Sym};
use crate::rules::{condition, insist};
use crate::stack_opcodes::{pull, put};
use crate::state::{Halt, State, SymbolicJump};
use lists::ByteString;
use script::limits::MAX_STACK_SIZE;
use script::{Op, num};
use std::alloc::Global;

/// SIZE.
#[tactic(auto, unfolding(crate::specs::HoleRules::rule_of))]
pub fn size(alloc: Global, state: &mut State) -> Result<SymbolicJump, Halt>
    requires { state.old.slots ≤ MAX_STACK_SIZE }
    ensures exact { IsRuleOf 0 Op.Size state.old state.new result }
    ensures near { OnOk result (IsNear 1 state.old state.new) }
{
    let sym = pull(state);
    let size = size_of(alloc, &sym)?;
    put(state, sym)?;
    put(state, size)?;
    Ok(SymbolicJump::Next)
}

// The length of a symbol's item.
fn size_of(alloc: Global, sym: &Sym) -> Result<Sym, Halt>
    ensures { Answers IfHalts (size_for sym.now) result }
{
    match sym {
        Sym::Slot(i) => Ok(Sym::SizeOf(*i)),
        Sym::Const(constant) => Ok(Sym::Const(constant.size(alloc)?)),
        Sym::HashOf(_) => Ok(Sym::Const(Constant::Known(num::write(alloc, 20)?))),
        _ => Err(Halt::Undecided),
    }
}

/// HASH160.
#[tactic(auto, unfolding(crate::specs::HoleRules::rule_of))]
pub fn hash(alloc: Global, state: &mut State) -> Result<SymbolicJump, Halt>
    requires { state.old.slots ≤ MAX_STACK_SIZE }
    ensures exact { IsRuleOf 0 Op.Hash160 state.old state.new result }
    ensures near { OnOk result (IsNear 1 state.old state.new) }
{
    let sym = pull(state);
    let hash = hash_of(alloc, &sym)?;
    put(state, hash)?;
    Ok(SymbolicJump::Next)
}

// HASH160 of a symbol's item.
fn hash_of(alloc: Global, sym: &Sym) -> Result<Sym, Halt>
    ensures { Answers IfHalts (hash_for sym.now) result }
{
    match sym {
        Sym::Slot(i) => Ok(Sym::HashOf(*i)),
        Sym::Const(constant) => Ok(Sym::Const(constant.hash(alloc)?)),
        _ => Err(Halt::Undecided),
    }
}

/// EQUAL.
#[tactic(auto, unfolding(crate::specs::HoleRules::rule_of))]
pub fn equal(alloc: Global, state: &mut State) -> Result<SymbolicJump, Halt>
    requires { state.old.slots ≤ MAX_STACK_SIZE }
    ensures exact { IsRuleOf 0 Op.Equal state.old state.new result }
    ensures near { OnOk result (IsNear 2 state.old state.new) }
{
    let top = pull(state);
    let second = pull(state);
    let equal = equal_of(alloc, top, second)?;
    put(state, equal)?;
    Ok(SymbolicJump::Next)
}

/// EQUALVERIFY.
#[tactic(auto, unfolding(crate::specs::HoleRules::rule_of))]
pub fn equal_verify(alloc: Global, state: &mut State) -> Result<SymbolicJump, Halt>
    requires { state.old.slots ≤ MAX_STACK_SIZE }
    ensures exact { IsRuleOf 0 Op.EqualVerify state.old state.new result }
    ensures near { OnOk result (IsNear 2 state.old state.new) }
{
    let top = pull(state);
    let second = pull(state);
    let equal = equal_of(alloc, top, second)?;
    let condition = condition(equal)?;
    insist(state, condition)?;
    Ok(SymbolicJump::Next)
}

// Whether the items of two symbols are equal.
fn equal_of(alloc: Global, top: Sym, second: Sym) -> Result<Sym, Halt>
    ensures { Answers IfHalts (equal_for top second) result }
{
    match (top, second) {
        (Sym::Const(a), Sym::Const(b)) => Ok(Sym::Const(a.equal(&b, alloc)?)),
        (Sym::HashOf(i), Sym::Const(h)) | (Sym::Const(h), Sym::HashOf(i)) => {
            Ok(hash_is(alloc, i, h))
        }
        (Sym::SizeOf(i), Sym::Const(b)) | (Sym::Const(b), Sym::SizeOf(i)) => {
            size_is(alloc, i, &b)
        }
        (Sym::Slot(i), Sym::Const(b)) | (Sym::Const(b), Sym::Slot(i)) => {
            Ok(Sym::Holds(Fact::Is(i, b)))
        }
        _ => Err(Halt::Undecided),
    }
}

// Whether the HASH160 of a slot is this constant.
fn hash_is(alloc: Global, slot: usize, constant: Constant) -> Sym
    ensures { result ≡ hash_asked slot constant }
{
    if constant.is_hash() {
        Sym::Holds(Fact::Hash(slot, constant))
    } else {
        Sym::Const(Constant::Known(ByteString::new(alloc)))
    }
}

// Whether the length of a slot in bytes is the number of this
// constant.
fn size_is(alloc: Global, slot: usize, constant: &Constant) -> Result<Sym, Halt>
    ensures { Answers IfHalts (size_asked slot constant.now) result }
{
    match constant.named_size(alloc)? {
        Some(size) => Ok(Sym::Holds(Fact::Size(slot, size))),
        None => Ok(Sym::Const(Constant::Known(ByteString::new(alloc)))),
    }
}
