//! What each opcode does when it runs.

ghost use Rattle.std.specs.Prelude.{◌≡◌, ◌≤◌, ◌+◌, true, false, [], ◌∷◌, IfOk, MatchResult};
ghost use Rattle.script.specs.Step.{effect};
ghost use Rattle.script.specs.declared.spending.Spend.{Spend as Spending};
ghost use Rattle.machine.specs.Doings.{Does, IsEffect, IsKeyless};

use crate::halts::Halt;
use crate::locks::{is_age_reached, is_lock_reached, read_lock};
use crate::multisig::check_multi_sig;
use digest::hash160;
use lists::{ByteString, Stack};
use script::limits::MAX_OPS_PER_SCRIPT;
use script::tokens::{has_key_form, has_signature_form, is_token_of};
use script::truths::{flag, is_true};
use script::{Cause, Jump, Kind, Op, Spend, num};
use std::alloc::Global;

/// What running an opcode gives, apart from the elements.
#[derive(Clone, Copy, Debug, PartialEq, Eq)]
pub struct Step {
    /// Where the run goes.
    pub jump: Jump,
    /// The number of keys that it counted.
    pub keys: usize,
}

/// Runs an opcode. `counted` is the number of opcodes and keys counted so far, this opcode
/// included.
#[tactic(auto, unfolding(script::specs::Step::effect))]
pub fn act(
    alloc: Global,
    op: &Op,
    spend: &Spend,
    counted: usize,
    stack: &mut Stack<ByteString>,
) -> Result<Step, Halt>
    requires { counted ≤ MAX_OPS_PER_SCRIPT }
    ensures does { IsEffect (effect spend.now counted op.now stack.old) stack.new result }
    ensures few { IfOk result (λ step. counted + step.keys ≤ MAX_OPS_PER_SCRIPT) }
{
    if let Op::CheckMultiSig = op {
        return check_multi_sig(alloc, spend, counted, stack);
    }
    let jump = act_keyless(alloc, op, spend, stack)?;
    Ok(Step { jump, keys: 0 })
}

// Runs an opcode that counts no keys.
#[tactic(auto, unfolding(script::specs::Step::effect))]
fn act_keyless(
    alloc: Global,
    op: &Op,
    spend: &Spend,
    stack: &mut Stack<ByteString>,
) -> Result<Jump, Halt>
    requires { IsKeyless op.now }
    ensures { Does spend.now op.now stack.old stack.new result }
{
    match op {
        Op::Push(item) => push(stack, item.copy()?),
        Op::Number(n) => push(stack, ByteString::from_slice(alloc, &[*n])?),
        Op::If => enter(stack, true),
        Op::NotIf => enter(stack, false),
        Op::Else => Ok(Jump::AfterEndIf),
        Op::EndIf => Ok(Jump::Next),
        Op::Drop => discard(stack),
        Op::Dup => duplicate(alloc, stack),
        Op::Swap => swap(stack),
        Op::Size => size(alloc, stack),
        Op::Equal => equal(alloc, stack),
        Op::EqualVerify => verify_equal(stack),
        Op::Hash160 => hash(alloc, stack),
        Op::CheckSig => check_sig(alloc, spend, stack),
        Op::CheckMultiSig => unreachable!(),
        Op::CheckLockTimeVerify => check_lock_time(spend, stack),
        Op::CheckSequenceVerify => check_sequence(spend, stack),
    }
}

/// Removes and returns the top of the stack.
pub fn take(stack: &mut Stack<ByteString>) -> Result<ByteString, Halt>
    ensures { MatchResult result
        (λ x. stack.old ≡ x ∷ stack.new)
        (λ h. (stack.old ≡ []) × (stack.new ≡ []) × (h ≡ Halt.Stop Cause.MissingOperand)) }
{
    stack.pop().ok_or(Halt::Stop(Cause::MissingOperand))
}

// Pushes an element.
fn push(stack: &mut Stack<ByteString>, item: ByteString) -> Result<Jump, Halt>
    ensures { MatchResult result
        (λ jump. (jump ≡ Jump.Next) × (stack.new ≡ item ∷ stack.old))
        (λ h. h ≡ Halt.NoMemory) }
{
    stack.push(item)?;
    Ok(Jump::Next)
}

// IF, and NOTIF, whose branch runs if the top is false.
#[tactic(auto, unfolding(script::specs::Step::effect))]
fn enter(stack: &mut Stack<ByteString>, wanted: bool) -> Result<Jump, Halt>
    ensures on_true { (spend : Spending) → wanted ≡ true
        → Does spend Op.If stack.old stack.new result }
    ensures on_false { (spend : Spending) → wanted ≡ false
        → Does spend Op.NotIf stack.old stack.new result }
{
    let top = take(stack)?;
    if is_true(top.bytes()) == wanted {
        Ok(Jump::Next)
    } else {
        Ok(Jump::AfterElse)
    }
}

// DROP
#[tactic(auto, unfolding(script::specs::Step::effect))]
fn discard(stack: &mut Stack<ByteString>) -> Result<Jump, Halt>
    ensures { (spend : Spending) → Does spend Op.Drop stack.old stack.new result }
{
    take(stack)?;
    Ok(Jump::Next)
}

// DUP
#[tactic(auto, unfolding(script::specs::Step::effect))]
fn duplicate(alloc: Global, stack: &mut Stack<ByteString>) -> Result<Jump, Halt>
    ensures { (spend : Spending) → Does spend Op.Dup stack.old stack.new result }
{
    let Some(top) = stack.top() else {
        return Err(Halt::Stop(Cause::MissingOperand));
    };
    let item = top.copy()?;
    push(stack, item)
}

// SWAP
#[tactic(auto, unfolding(script::specs::Step::effect))]
fn swap(stack: &mut Stack<ByteString>) -> Result<Jump, Halt>
    ensures { (spend : Spending) → Does spend Op.Swap stack.old stack.new result }
{
    let top = take(stack)?;
    let second = take(stack)?;
    stack.push(top)?;
    push(stack, second)
}

// SIZE
#[tactic(auto, unfolding(script::specs::Step::effect))]
fn size(alloc: Global, stack: &mut Stack<ByteString>) -> Result<Jump, Halt>
    ensures { (spend : Spending) → Does spend Op.Size stack.old stack.new result }
{
    let Some(top) = stack.top() else {
        return Err(Halt::Stop(Cause::MissingOperand));
    };
    let item = num::write(alloc, top.len() as u64)?;
    push(stack, item)
}

// EQUAL
#[tactic(auto, unfolding(script::specs::Step::effect))]
fn equal(alloc: Global, stack: &mut Stack<ByteString>) -> Result<Jump, Halt>
    ensures { (spend : Spending) → Does spend Op.Equal stack.old stack.new result }
{
    let top = take(stack)?;
    let second = take(stack)?;
    push(stack, flag(alloc, top.equals(&second))?)
}

// EQUALVERIFY
#[tactic(auto, unfolding(script::specs::Step::effect))]
fn verify_equal(stack: &mut Stack<ByteString>) -> Result<Jump, Halt>
    ensures { (spend : Spending) → Does spend Op.EqualVerify stack.old stack.new result }
{
    let top = take(stack)?;
    let second = take(stack)?;
    if top.equals(&second) {
        Ok(Jump::Next)
    } else {
        Err(Halt::failed(Kind::Verify))
    }
}

// HASH160
#[tactic(auto, unfolding(script::specs::Step::effect))]
fn hash(alloc: Global, stack: &mut Stack<ByteString>) -> Result<Jump, Halt>
    ensures { (spend : Spending) → Does spend Op.Hash160 stack.old stack.new result }
{
    let top = take(stack)?;
    push(stack, ByteString::from_slice(alloc, &hash160(top.bytes()))?)
}

// CHECKSIG
#[tactic(auto, unfolding(script::specs::Step::effect))]
fn check_sig(alloc: Global, spend: &Spend, stack: &mut Stack<ByteString>) -> Result<Jump, Halt>
    ensures { Does spend.now Op.CheckSig stack.old stack.new result }
{
    let key = take(stack)?;
    let sig = take(stack)?;
    if !has_signature_form(sig.bytes()) {
        return Err(Halt::failed(Kind::TokenForm));
    }
    if !has_key_form(key.bytes()) {
        return Err(Halt::failed(Kind::KeyForm));
    }
    let valid = is_token_of(sig.bytes(), key.bytes(), &spend.digest);
    push(stack, flag(alloc, valid)?)
}

// CHECKLOCKTIMEVERIFY
#[tactic(auto, unfolding(script::specs::Step::effect))]
fn check_lock_time(spend: &Spend, stack: &Stack<ByteString>) -> Result<Jump, Halt>
    ensures { Does spend.now Op.CheckLockTimeVerify stack.now stack.now result }
{
    let lock = read_lock(stack, Kind::LockTime)?;
    if is_lock_reached(spend, lock) {
        Ok(Jump::Next)
    } else {
        Err(Halt::failed(Kind::LockTime))
    }
}

// CHECKSEQUENCEVERIFY
#[tactic(auto, unfolding(script::specs::Step::effect))]
fn check_sequence(spend: &Spend, stack: &Stack<ByteString>) -> Result<Jump, Halt>
    ensures { Does spend.now Op.CheckSequenceVerify stack.now stack.now result }
{
    let age = read_lock(stack, Kind::Sequence)?;
    if is_age_reached(spend, age) {
        Ok(Jump::Next)
    } else {
        Err(Halt::failed(Kind::Sequence))
    }
}
