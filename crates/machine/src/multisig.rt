//! CHECKMULTISIG.

ghost use Rattle.std.specs.Prelude.{◌≡◌, ◌≤◌, ◌+◌, ◌<◌, IfOk, MatchResult, reverse, take as front, drop as behind, length};
ghost use Rattle.std.specs.List.{list_all};
ghost use Rattle.script.specs.Token.{assigned, is_key, is_signature};
ghost use Rattle.script.specs.Step.{multi_sig};
ghost use Rattle.machine.specs.Doings.{IfStop, IsEffect};
ghost use Rattle.machine.specs.MultiSig.{Counts, CountsNone, HasForms};

use crate::acts::{Step, take};
use crate::halts::Halt;
use lists::{ByteString, Stack};
use script::limits::{MAX_OPS_PER_SCRIPT, MAX_PUBKEYS_PER_MULTISIG};
use script::num::Limit;
use script::tokens::{has_key_form, has_signature_form, is_token_of};
use script::truths::flag;
use script::{Cause, Jump, Kind, Spend, num};
use std::alloc::Global;

/// CHECKMULTISIG. `counted` is the number of opcodes and keys counted so far, this opcode included. The elements are, from the top: the
/// number of keys, the keys, the number of signatures, the signatures, and an extra item, which must be empty (BIP 147).
pub fn check_multi_sig(
    alloc: Global,
    spend: &Spend,
    counted: usize,
    stack: &mut Stack<ByteString>,
) -> Result<Step, Halt>
    requires { counted ≤ MAX_OPS_PER_SCRIPT }
    ensures does { IsEffect (multi_sig spend.now counted stack.old) stack.new result }
    ensures few { IfOk result (λ step. counted + step.keys ≤ MAX_OPS_PER_SCRIPT) }
{
    let key_count = take_count(stack, MAX_PUBKEYS_PER_MULTISIG, Kind::KeyCount)?;
    if counted + key_count > MAX_OPS_PER_SCRIPT {
        return Err(Halt::Stop(Cause::TooManyOps));
    }
    let keys = take_many(alloc, stack, key_count)?;
    let sig_count = take_count(stack, key_count, Kind::SigCount)?;
    let sigs = take_many(alloc, stack, sig_count)?;
    let extra = take(stack)?;
    check_forms(&keys, &sigs, &extra)?;
    let valid = is_assigned(sigs, keys, &spend.digest);
    stack.push(flag(alloc, valid)?)?;
    Ok(Step {
        jump: Jump::Next,
        keys: key_count,
    })
}

// Takes a number of at most 4 bytes off the stack. The check `kind` fails if the number is not from 0 to `limit`.
fn take_count(stack: &mut Stack<ByteString>, limit: usize, kind: Kind) -> Result<usize, Halt>
    ensures { MatchResult result
        (λ n. Counts stack.old stack.new limit kind n)
        (λ h. IfStop h (λ c. CountsNone stack.old limit kind c)) }
{
    let top = take(stack)?;
    let Some(number) = num::read(top.bytes(), Limit::Count) else {
        return Err(Halt::failed(Kind::Number));
    };
    if number.negative || number.magnitude > limit as u64 {
        return Err(Halt::failed(kind));
    }
    Ok(number.magnitude as usize)
}

// Takes n elements off the stack. The deepest of them is the top of the result.
fn take_many(
    alloc: Global,
    stack: &mut Stack<ByteString>,
    count: usize,
) -> Result<Stack<ByteString>, Halt>
    ensures { MatchResult result (λ p. (count ≤ length stack.old)
        × (p ≡ reverse (front count stack.old)) × (stack.new ≡ behind count stack.old))
        (λ h. IfStop h (λ c. (c ≡ Cause.MissingOperand) × (length stack.old < count))) }
{
    let mut entries = Stack::new(alloc);
    for _entry in 0..count {
        entries.push(take(stack)?)?;
    }
    Ok(entries)
}

// Checks the forms of the signatures, then those of the keys, and then that the extra item is empty.
#[tactic(auto, using(crate::proofs::Reversing::all_reversed))]
fn check_forms(
    keys: &Stack<ByteString>,
    sigs: &Stack<ByteString>,
    extra: &ByteString,
) -> Result<(), Halt>
    ensures { HasForms keys.now sigs.now extra.now result }
{
    if !are_signatures(sigs.values()) {
        return Err(Halt::failed(Kind::TokenForm));
    }
    if !are_keys(keys.values()) {
        return Err(Halt::failed(Kind::KeyForm));
    }
    if !extra.is_empty() {
        return Err(Halt::failed(Kind::Extra));
    }
    Ok(())
}

// Whether each item is empty or has the form of a token.
fn are_signatures(items: &[ByteString]) -> bool
    ensures { result ≡ list_all is_signature items.now }
{
    items.iter().all(|item| has_signature_form(item.bytes()))
}

// Whether all items have the form of a compressed key.
fn are_keys(items: &[ByteString]) -> bool
    ensures { result ≡ list_all is_key items.now }
{
    items.iter().all(|item| has_key_form(item.bytes()))
}

/// Whether the signatures, in order, are the tokens of some of the keys, in order. A key that fits the first remaining signature is always
/// taken for it: where there is a choice of keys at all, there is one that begins so.
pub fn is_assigned(mut sigs: Stack<ByteString>, mut keys: Stack<ByteString>, digest: &[u8]) -> bool
    ensures { result ≡ assigned sigs keys digest.now }
{
    while let Some(key) = keys.pop() {
        let fits = match sigs.top() {
            Some(sig) => is_token_of(sig.bytes(), key.bytes(), digest),
            None => false,
        };
        if fits {
            sigs.pop();
        }
    }
    sigs.is_empty()
}
