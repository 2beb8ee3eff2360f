// The weight of the witness of a path: one unit for each byte (BIP 141).

ghost use Rattle.std.specs.Prelude.{◌≡◌, ◌≤◌, ◌+◌, ◌*◌, ◌^◌};
ghost use Rattle.trace.specs.Weights.{is_one_of, exact_size as exact_size_of, least_size as least_size_of, size_in, compact_size as compact_size_of, item_weight as item_weight_of, items_weight as items_weight_of, witness_weight as witness_weight_of};

use facts::{Fact, Stated};
use script::limits::MAX_STACK_SIZE;

/// The number of bytes of a token, which stands for a signature.
pub const TOKEN_SIZE: u64 = 66;

/// The number of bytes of a signature with its hash type, as BOLT 3 counts them.
pub const SIGNATURE_SIZE: u64 = 73;

// Whether a slot is among others.
fn is_among(slot: usize, slots: &[usize]) -> bool
    ensures { result ≡ is_one_of slot slots.now }
{
    slots.contains(&slot)
}

// The number of bytes that a fact asks of a slot, if it asks for one. A signature has `signature` bytes.
fn exact_size(stated: &Stated, slot: usize, signature: u64) -> Option<u64>
    ensures { result ≡ exact_size_of stated.now slot signature }
{
    if !stated.holds {
        return None;
    }
    match &stated.fact {
        Fact::Is(i, item) if *i == slot => Some(item.len() as u64),
        Fact::Size(i, size) if *i == slot => Some(u64::from(*size)),
        Fact::KeyForm(i) if *i == slot => Some(33),
        Fact::Token(i, _) if *i == slot => Some(signature),
        Fact::Assigned(slots, _) if is_among(slot, slots.values()) => Some(signature),
        _ => None,
    }
}

// The usual number of bytes of a slot that a fact asks about: 32 for a preimage, and one for a true item.
fn least_size(stated: &Stated, slot: usize) -> u64
    ensures { result ≡ least_size_of stated.now slot }
{
    if !stated.holds {
        return 0;
    }
    match &stated.fact {
        Fact::Hash(i, _) if *i == slot => 32,
        Fact::Truth(i) if *i == slot => 1,
        _ => 0,
    }
}

// The number of bytes of a slot: what the first fact that asks for a number asks for, else the greatest usual number.
fn slot_size(facts: &[Stated], slot: usize, signature: u64) -> u64
    ensures { result ≡ size_in facts.now slot signature 0 }
{
    let mut least = 0;
    for stated in facts {
        if let Some(size) = exact_size(stated, slot, signature) {
            return size;
        }
        least = least_size(stated, slot).max(least);
    }
    least
}

// The number of bytes of a compactSize.
fn compact_size(n: u64) -> u128
    ensures value { result ≡ compact_size_of n }
    ensures bound { result ≤ 9 }
{
    match n {
        0..=0xfc => 1,
        0xfd..=0xffff => 3,
        0x1_0000..=0xffff_ffff => 5,
        _ => 9,
    }
}

// The weight of an item of this number of bytes, with its length.
fn item_weight(size: u64) -> u128
    ensures value { result ≡ item_weight_of size }
    ensures bound { result ≤ 2 ^ 64 + 9 }
{
    compact_size(size) + u128::from(size)
}

// The weight of the first slots.
fn slots_weight(facts: &[Stated], slots: u16, signature: u64) -> u128
    ensures value { result ≡ items_weight_of facts.now slots signature }
    ensures bound { result ≤ slots * (2 ^ 64 + 9) }
{
    let mut total = 0;
    for slot in 0..slots {
        total += item_weight(slot_size(facts, usize::from(slot), signature));
    }
    total
}

/// The weight of the witness of a path in weight units: the number of items, the items at their usual sizes, and the script. A signature has `signature` bytes.
pub fn witness_weight(facts: &[Stated], arity: usize, script: usize, signature: u64) -> u128
    ensures { result ≡ witness_weight_of facts.now arity script signature }
{
    let slots = arity.min(MAX_STACK_SIZE) as u16;
    let items = slots_weight(facts, slots, signature);
    compact_size(u64::from(slots) + 1) + items + item_weight(script as u64)
}
