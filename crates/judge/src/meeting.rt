// Whether the items of a witness meet facts.

ghost use Rattle.std.specs.Prelude.{◌≡◌, map, reverse, IfOk};
ghost use Rattle.std.specs.List.{position_from};
ghost use Rattle.script.specs.Token.{assigned};
ghost use Rattle.facts.specs.Meaning.{slot_of, key_of, holds_of};
ghost use Rattle.judge.specs.Meeting.{is_met};

use digest::hash160;
use facts::{Fact, KeySource};
use lists::{ByteString, Stack};
use machine::{is_age_reached, is_assigned, is_lock_reached};
use paths::Path;
use script::Spend;
use script::tokens::{has_key_form, has_signature_form, is_token_of};
use script::truths::is_true;
use std::alloc::{AllocError, Global};

// A slot's item; the empty item if there is none.
#[tactic(auto, using(crate::proofs::Items::read_from_the_end, crate::proofs::Items::none_past_the_end))]
fn item(items: &[ByteString], slot: usize) -> &[u8]
    ensures { result.now ≡ slot_of (reverse items.now) slot }
{
    if slot < items.len() {
        items[items.len() - 1 - slot].bytes()
    } else {
        &[]
    }
}

// A key's bytes.
fn key_bytes<'a>(items: &'a [ByteString], key: &'a KeySource) -> &'a [u8]
    ensures { result.now ≡ key_of (reverse items.now) key.now }
{
    match key {
        KeySource::Const(key) => key.bytes(),
        KeySource::Slot(slot) => item(items, *slot),
    }
}

// The items of slots, the first of them on top.
fn slots_pile(
    alloc: Global,
    items: &[ByteString],
    slots: &[usize],
) -> Result<Stack<ByteString>, AllocError>
    ensures { IfOk result (λ pile. pile ≡ map (slot_of (reverse items.now)) slots.now) }
{
    let mut pile = Stack::new(alloc);
    let mut rest = slots;
    while let Some((slot, front)) = rest.split_last() {
        pile.push(ByteString::from_slice(alloc, item(items, *slot))?)?;
        rest = front;
    }
    Ok(pile)
}

// The bytes of keys, the first of them on top.
fn keys_pile(
    alloc: Global,
    items: &[ByteString],
    keys: &[KeySource],
) -> Result<Stack<ByteString>, AllocError>
    ensures { IfOk result (λ pile. pile ≡ map (key_of (reverse items.now)) keys.now) }
{
    let mut pile = Stack::new(alloc);
    let mut rest = keys;
    while let Some((key, front)) = rest.split_last() {
        pile.push(ByteString::from_slice(alloc, key_bytes(items, key))?)?;
        rest = front;
    }
    Ok(pile)
}

// Whether the items of slots are signatures by some of the keys, both in their order.
fn are_assigned(
    alloc: Global,
    spend: &Spend,
    items: &[ByteString],
    slots: &[usize],
    keys: &[KeySource],
) -> Result<bool, AllocError>
    ensures { IfOk result (λ b. b ≡ assigned (map (slot_of (reverse items.now)) slots.now)
        (map (key_of (reverse items.now)) keys.now) spend.now.digest) }
{
    let sigs = slots_pile(alloc, items, slots)?;
    let keys = keys_pile(alloc, items, keys)?;
    Ok(is_assigned(sigs, keys, &spend.digest))
}

// Whether a fact holds.
fn holds(
    alloc: Global,
    spend: &Spend,
    items: &[ByteString],
    fact: &Fact,
) -> Result<bool, AllocError>
    ensures { IfOk result (λ b. b ≡ holds_of spend.now (reverse items.now) fact.now) }
{
    match fact {
        Fact::Assigned(slots, keys) => {
            are_assigned(alloc, spend, items, slots.values(), keys.values())
        }
        Fact::Hash(slot, hash) => Ok(hash160(item(items, *slot)).as_slice() == hash.bytes()),
        Fact::Size(slot, size) => Ok(item(items, *slot).len() as u64 == u64::from(*size)),
        Fact::Truth(slot) => Ok(is_true(item(items, *slot))),
        Fact::Is(slot, bytes) => Ok(item(items, *slot) == bytes.bytes()),
        Fact::KeyForm(slot) => Ok(has_key_form(item(items, *slot))),
        Fact::Form(slot) => Ok(has_signature_form(item(items, *slot))),
        Fact::Token(slot, key) => {
            let (item, key) = (item(items, *slot), key_bytes(items, key));
            Ok(is_token_of(item, key, &spend.digest))
        }
        Fact::Lock(lock) => Ok(is_lock_reached(spend, *lock)),
        Fact::Age(age) => Ok(is_age_reached(spend, u64::from(*age))),
    }
}

// Whether a witness meets a path: it has as many items, and all facts are as they are stated.
fn meets(
    alloc: Global,
    spend: &Spend,
    items: &[ByteString],
    path: &Path,
) -> Result<bool, AllocError>
    ensures { IfOk result (λ b. b ≡ is_met spend.now items.now path.now) }
{
    if path.arity != items.len() {
        return Ok(false);
    }
    let facts = path.facts.values();
    for stated in facts {
        if holds(alloc, spend, items, &stated.fact)? != stated.holds {
            return Ok(false);
        }
    }
    Ok(true)
}

/// The number of the first path that a witness meets under a spend: it has as many items, and each fact is as the path states it. The only error is
/// that memory ran out.
pub fn met_path(
    alloc: Global,
    spend: &Spend,
    items: &[ByteString],
    paths: &[Path],
) -> Result<Option<usize>, AllocError>
    ensures { IfOk result (λ o. o ≡ position_from (is_met spend.now items.now) 0 paths.now) }
{
    for (number, path) in paths.iter().enumerate() {
        if meets(alloc, spend, items, path)? {
            return Ok(Some(number));
        }
    }
    Ok(None)
}
