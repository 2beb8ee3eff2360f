// CHECKSIG.

ghost use Rattle.std.specs.Prelude.{◌≡◌, ◌≤◌, OnOk};
ghost use Rattle.paths.specs.Answers.{Answers, IfHalts, Leaves};
ghost use Rattle.paths.specs.HoleRules.{source_of as source_for, ask_key as key_asked, is_bad_key as is_bad_key_of, is_bad_signature as is_bad_signature_of, check_sig as checked_sig, signature_rule as signature_rule_of};
ghost use Rattle.paths.specs.Following.{IsRuleOf};
ghost use Rattle.paths.specs.Doing.{IsNear};
ghost use Rattle.facts.specs.declared.symbols.SymOver.TheVariants.{Const};

use crate::constants::{Constant, Fact, KeySource, Sym};
use crate::rules::ask;
use crate::stack_opcodes::{pull, put};
use crate::state::{Halt, State, SymbolicJump};
use script::Op;
use script::limits::MAX_STACK_SIZE;
use std::alloc::AllocError;

/// CHECKSIG.
#[tactic(auto, unfolding(crate::specs::HoleRules::rule_of))]
pub fn check_sig(state: &mut State) -> Result<SymbolicJump, Halt>
    requires { state.old.slots ≤ MAX_STACK_SIZE }
    ensures exact { IsRuleOf 0 Op.CheckSig state.old state.new result }
    ensures near { OnOk result (IsNear 2 state.old state.new) }
{
    let key = pull(state);
    let signature = pull(state);
    check(state, key, signature)?;
    Ok(SymbolicJump::Next)
}

// Checks a signature against a key. A bad form (`Dead`) comes before `Undecided`.
fn check(state: &mut State, key: Sym, signature: Sym) -> Result<(), Halt>
    ensures exact { Leaves IfHalts (checked_sig key signature state.old) state.new result }
    ensures near { OnOk result (IsNear 0 state.old state.new) }
{
    if is_bad_key(&key) || is_bad_signature(&signature) {
        return Err(Halt::Dead);
    }
    let source = source_of(key)?;
    record_check(state, source, signature)
}

// Pushes whether the signature is the token of the key.
fn record_check(state: &mut State, key: KeySource, signature: Sym) -> Result<(), Halt>
    ensures exact { Leaves IfHalts (signature_rule_of key signature state.old) state.new result }
    ensures near { OnOk result (IsNear 0 state.old state.new) }
{
    match signature {
        Sym::Slot(i) => {
            ask_key(state, &key)?;
            ask(state, Fact::Form(i), true)?;
            put(state, Sym::Holds(Fact::Token(i, key)))?;
            Ok(())
        }
        Sym::Const(constant) => record_known_check(state, &key, constant),
        _other => Err(Halt::Undecided),
    }
}

// Pushes the answer for a signature of known bytes: false for the empty one.
fn record_known_check(state: &mut State, key: &KeySource, signature: Constant) -> Result<(), Halt>
    ensures exact { Leaves IfHalts (signature_rule_of key.now (Const signature) state.old) state.new
        result }
    ensures near { OnOk result (IsNear 0 state.old state.new) }
{
    if !signature.is_no_signature() {
        return Err(Halt::Undecided);
    }
    ask_key(state, key)?;
    put(state, Sym::Const(signature))?;
    Ok(())
}

/// Whether every run rejects this symbol as a key.
pub fn is_bad_key(sym: &Sym) -> bool
    ensures { result ≡ is_bad_key_of sym.now }
{
    match sym {
        Sym::Const(constant) => constant.is_bad_key(),
        _ => false,
    }
}

// Whether every run rejects this symbol as a signature.
fn is_bad_signature(sym: &Sym) -> bool
    ensures { result ≡ is_bad_signature_of sym.now }
{
    match sym {
        Sym::Const(constant) => constant.is_bad_signature(),
        _ => false,
    }
}

/// Where a key comes from.
pub fn source_of(sym: Sym) -> Result<KeySource, Halt>
    ensures { Answers IfHalts (source_for sym) result }
{
    match sym {
        Sym::Const(constant) => Ok(KeySource::Const(constant)),
        Sym::Slot(i) => Ok(KeySource::Slot(i)),
        _ => Err(Halt::Undecided),
    }
}

/// Asks for the form of a key if the key is a slot. The only error is that memory ran
/// out.
pub fn ask_key(state: &mut State, key: &KeySource) -> Result<(), AllocError>
    ensures exact { OnOk result (state.new ≡ key_asked key.now state.old) }
    ensures near { OnOk result (IsNear 0 state.old state.new) }
{
    match key {
        KeySource::Const(_) => Ok(()),
        KeySource::Slot(i) => ask(state, Fact::KeyForm(*i), true),
    }
}
