// CHECKMULTISIG.

ghost use Rattle.std.specs.Prelude.{false, ◌≡◌, ◌<◌, ◌≤◌, ◌+◌, reverse, IfOk, OnOk};
ghost use Rattle.std.specs.List.{list_any};
ghost use Rattle.paths.specs.Answers.{Answers, IfHalts, Leaves};
ghost use Rattle.paths.specs.HoleRules.{pops, count_of as count_for, is_bad_key as is_bad_key_of, is_bad_extra as is_bad_extra_of, slots_of as slots_for, sources_of as sources_for, ask_forms as forms_asked, ask_keys as keys_asked, ask_extra as extra_asked, answer_of as answer_for, check_sigs, push};
ghost use Rattle.paths.specs.Following.{IsRuleOf};
ghost use Rattle.paths.specs.Doing.{IsNear, count_keys as keys_counted};

use crate::constants::{Constant, Fact, KeySource, Sym};
use crate::rules::ask;
use crate::signature_opcodes::{ask_key, is_bad_key, source_of};
use crate::stack_opcodes::{pull, put};
use crate::state::{Halt, State, SymbolicJump};
use lists::{ByteString, List, Stack};
use script::Op;
use script::limits::{MAX_OPS_PER_SCRIPT, MAX_PUBKEYS_PER_MULTISIG, MAX_STACK_SIZE};
use script::truths::flag;
use std::alloc::{AllocError, Global};

/// CHECKMULTISIG, in a script with `counted` counted opcodes.
#[tactic(auto, unfolding(crate::specs::HoleRules::rule_of, crate::specs::HoleRules::check_multi_sig), using(crate::proofs::RulePops::pops_keys))]
pub fn check_multi_sig(
    alloc: Global,
    counted: usize,
    state: &mut State,
) -> Result<SymbolicJump, Halt>
    requires slots { state.old.slots ≤ MAX_STACK_SIZE }
    requires keys { counted + state.old.keys ≤ MAX_OPS_PER_SCRIPT }
    ensures exact { IsRuleOf counted Op.CheckMultiSig state.old state.new result }
    ensures keys_stay { OnOk result (counted + state.new.keys ≤ MAX_OPS_PER_SCRIPT) }
{
    let key_count = count_of(MAX_PUBKEYS_PER_MULTISIG, &pull(state))?;
    count_keys(counted, key_count, state)?;
    let keys = pull_many(alloc, key_count, state)?;
    let signature_count = count_of(key_count, &pull(state))?;
    let signatures = pull_many(alloc, signature_count, state)?;
    let extra = pull(state);
    check(alloc, state, keys, signatures, extra)?;
    Ok(SymbolicJump::Next)
}

// A count of keys or signatures, from 0 to a limit.
fn count_of(limit: usize, sym: &Sym) -> Result<usize, Halt>
    ensures exact { Answers IfHalts (count_for limit sym.now) result }
    ensures low { IfOk result (λ n. n ≤ limit) }
{
    match sym {
        Sym::Const(constant) => constant.count(limit),
        _ => Err(Halt::Undecided),
    }
}

// Adds keys to the counted opcodes of the whole script.
fn count_keys(counted: usize, more: usize, state: &mut State) -> Result<(), Halt>
    requires keys { counted + state.old.keys ≤ MAX_OPS_PER_SCRIPT }
    requires more { more ≤ 20 }
    ensures { Leaves IfHalts (keys_counted counted more state.old) state.new result }
{
    state.keys += more;
    if counted + state.keys > MAX_OPS_PER_SCRIPT {
        return Err(Halt::TooManyOps);
    }
    Ok(())
}

// Pops `count` symbols. The deepest of them is the top of the result. The only error is that memory ran out.
fn pull_many(alloc: Global, count: usize, state: &mut State) -> Result<Stack<Sym>, AllocError>
    requires { state.old.slots + count < usize.MAX }
    ensures taken { IfOk result (λ p. p ≡ reverse (pops count state.old).0) }
    ensures left { OnOk result (state.new ≡ (pops count state.old).1) }
    ensures near { OnOk result (IsNear count state.old state.new) }
{
    let mut syms = Stack::new(alloc);
    for _step in 0..count {
        syms.push(pull(state))?;
    }
    Ok(syms)
}

// Checks signatures against keys, the deepest of each on top. A bad form (`Dead`) comes before `Undecided`.
fn check(
    alloc: Global,
    state: &mut State,
    keys: Stack<Sym>,
    signatures: Stack<Sym>,
    extra: Sym,
) -> Result<(), Halt>
    ensures exact { Leaves IfHalts (check_sigs keys signatures extra state.old) state.new result }
    ensures near { OnOk result (IsNear 0 state.old state.new) }
{
    if has_bad_key(&keys) || is_bad_extra(&extra) {
        return Err(Halt::Dead);
    }
    check_forms(alloc, state, keys, signatures, &extra)
}

// Checks signatures against keys, where no form is bad.
fn check_forms(
    alloc: Global,
    state: &mut State,
    keys: Stack<Sym>,
    signatures: Stack<Sym>,
    extra: &Sym,
) -> Result<(), Halt>
    requires keys { list_any is_bad_key_of keys ≡ false }
    requires extra { is_bad_extra_of extra.now ≡ false }
    ensures exact { Leaves IfHalts (check_sigs keys signatures extra.now state.old) state.new
        result }
    ensures near { OnOk result (IsNear 0 state.old state.new) }
{
    let slots = slots_of(alloc, signatures)?;
    let sources = sources_of(alloc, keys)?;
    ask_all(alloc, state, slots.values(), sources.values(), extra)?;
    put_answer(alloc, state, slots, sources)?;
    Ok(())
}

// Asks for the forms of signatures and of keys, and that the extra item be empty.
fn ask_all(
    alloc: Global,
    state: &mut State,
    slots: &[usize],
    sources: &[KeySource],
    extra: &Sym,
) -> Result<(), Halt>
    ensures exact { Leaves IfHalts (extra_asked extra.now
        (keys_asked sources.now (forms_asked slots.now state.old))) state.new result }
    ensures near { OnOk result (IsNear 0 state.old state.new) }
{
    ask_forms(state, slots)?;
    ask_keys(state, sources)?;
    ask_extra(alloc, state, extra)
}

// Pushes the answer. The only error is that memory ran out.
fn put_answer(
    alloc: Global,
    state: &mut State,
    slots: List<usize>,
    sources: List<KeySource>,
) -> Result<(), AllocError>
    ensures { OnOk result (state.new ≡ push (answer_for slots sources) state.old) }
{
    let answer = answer_of(alloc, slots, sources)?;
    put(state, answer)
}

// Whether every run rejects one of these symbols as a key.
#[tactic(auto, using(crate::proofs::RuleLists::any_reversed))]
fn has_bad_key(keys: &Stack<Sym>) -> bool
    ensures { result ≡ list_any is_bad_key_of keys.now }
{
    any_is_bad(keys.values())
}

// Whether every run rejects one of these symbols as a key.
fn any_is_bad(keys: &[Sym]) -> bool
    ensures { result ≡ list_any is_bad_key_of keys.now }
{
    keys.iter().any(|key| is_bad_key(key))
}

// Whether every run rejects this symbol as the extra item.
fn is_bad_extra(extra: &Sym) -> bool
    ensures { result ≡ is_bad_extra_of extra.now }
{
    match extra {
        Sym::Const(constant) => constant.is_bad_extra(),
        _ => false,
    }
}

// The slots of symbols that are all slots, the deepest on top.
fn slots_of(alloc: Global, syms: Stack<Sym>) -> Result<List<usize>, Halt>
    ensures { Answers IfHalts (slots_for syms) result }
{
    let mut syms = syms;
    let mut slots = List::new(alloc);
    while let Some(sym) = syms.pop() {
        let Sym::Slot(i) = sym else {
            return Err(Halt::Undecided);
        };
        slots.push(i)?;
    }
    Ok(slots)
}

// Where keys come from, the deepest on top.
fn sources_of(alloc: Global, keys: Stack<Sym>) -> Result<List<KeySource>, Halt>
    ensures { Answers IfHalts (sources_for keys) result }
{
    let mut keys = keys;
    let mut sources = List::new(alloc);
    while let Some(key) = keys.pop() {
        sources.push(source_of(key)?)?;
    }
    Ok(sources)
}

// Asks for the forms of signatures. The only error is that memory ran out.
fn ask_forms(state: &mut State, slots: &[usize]) -> Result<(), AllocError>
    ensures exact { OnOk result (state.new ≡ forms_asked slots.now state.old) }
    ensures near { OnOk result (IsNear 0 state.old state.new) }
{
    for slot in slots {
        ask(state, Fact::Form(*slot), true)?;
    }
    Ok(())
}

// Asks for the forms of those keys that are slots. The only error is that memory ran out.
fn ask_keys(state: &mut State, keys: &[KeySource]) -> Result<(), AllocError>
    ensures exact { OnOk result (state.new ≡ keys_asked keys.now state.old) }
    ensures near { OnOk result (IsNear 0 state.old state.new) }
{
    for key in keys {
        ask_key(state, key)?;
    }
    Ok(())
}

// Asks that the extra item be empty (BIP 147).
fn ask_extra(alloc: Global, state: &mut State, extra: &Sym) -> Result<(), Halt>
    ensures exact { Leaves IfHalts (extra_asked extra.now state.old) state.new result }
    ensures near { OnOk result (IsNear 0 state.old state.new) }
{
    match extra {
        Sym::Const(constant) => {
            if constant.is_clear_extra() {
                Ok(())
            } else {
                Err(Halt::Undecided)
            }
        }
        Sym::Slot(i) => {
            ask(
                state,
                Fact::Is(*i, Constant::Known(ByteString::new(alloc))),
                true,
            )?;
            Ok(())
        }
        _ => Err(Halt::Undecided),
    }
}

// Whether the slots are tokens of an increasing choice of the keys; true if there are no slots. The only error is that
// memory ran out.
fn answer_of(alloc: Global, slots: List<usize>, keys: List<KeySource>) -> Result<Sym, AllocError>
    ensures { IfOk result (λ s. s ≡ answer_for slots keys) }
{
    if slots.is_empty() {
        return Ok(Sym::Const(Constant::Known(flag(alloc, true)?)));
    }
    Ok(Sym::Holds(Fact::Assigned(slots, keys)))
}
