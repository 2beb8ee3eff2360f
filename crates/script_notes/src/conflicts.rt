// Finds facts of a path that no witness meets together.

use digest::hash160;
use facts::{Fact, KeySource, Stated};
use script::tokens::{has_key_form, has_signature_form};
use script::truths::is_true;

// The numbers of bytes of a key and of a token.
const KEY_SIZE: u64 = 33;

const TOKEN_SIZE: u64 = 66;

// Lock times from this number on are times (BIP 65).
const FIRST_TIME: u64 = 500_000_000;

// The bit of a relative lock that selects units of 512 seconds (BIP 68).
const TIME_BIT: u32 = 1 << 22;

/// The first fact of a path that conflicts with an earlier one: no witness meets both.
pub fn conflict_in(facts: &[Stated]) -> Option<(&Stated, &Stated)> {
    for (count, fact) in facts.iter().enumerate() {
        if let Some(other) = conflict_with(fact, &facts[..count]) {
            return Some((other, fact));
        }
    }
    None
}

/// Whether one of two facts asks for a signature, and the other for bytes or a length. They may contradict each other only since a signature is a token of 66 bytes here.
pub fn is_of_token_size(one: &Stated, other: &Stated) -> bool {
    (asks_for_a_signature(&one.fact) && asks_for_bytes(&other.fact))
        || (asks_for_bytes(&one.fact) && asks_for_a_signature(&other.fact))
}

fn asks_for_a_signature(fact: &Fact) -> bool {
    match fact {
        Fact::Form(_) | Fact::Token(_, _) | Fact::Assigned(_, _) => true,
        _ => false,
    }
}

fn asks_for_bytes(fact: &Fact) -> bool {
    match fact {
        Fact::Size(_, _) | Fact::Is(_, _) => true,
        _ => false,
    }
}

// The first of `others` that no witness meets together with a fact.
fn conflict_with<'a>(fact: &Stated, others: &'a [Stated]) -> Option<&'a Stated> {
    for other in others {
        if denies(fact, other) || denies(other, fact) {
            return Some(other);
        }
    }
    None
}

// Whether a fact rules out another one.
fn denies(fact: &Stated, other: &Stated) -> bool {
    if fact.fact.equals(&other.fact) {
        return fact.holds != other.holds;
    }
    fact.holds && denies_by_value(&fact.fact, other)
}

// Whether a fact that holds rules out a different one.
fn denies_by_value(fact: &Fact, other: &Stated) -> bool {
    match fact {
        Fact::Is(slot, bytes) => is_refused(other, *slot, bytes.bytes()),
        Fact::Size(slot, size) => is_size_refused(other, *slot, u64::from(*size)),
        Fact::KeyForm(slot) => is_form_refused(other, *slot, KEY_SIZE),
        Fact::Token(slot, key) => {
            is_form_refused(other, *slot, TOKEN_SIZE) || is_other_token(other, *slot, key)
        }
        Fact::Hash(slot, hash) => match &other.fact {
            Fact::Hash(place, bytes) => other.holds && slot == place && !hash.equals(bytes),
            _ => false,
        },
        Fact::Lock(lock) => match &other.fact {
            Fact::Lock(n) => other.holds && (*lock < FIRST_TIME) != (*n < FIRST_TIME),
            _ => false,
        },
        Fact::Age(age) => match &other.fact {
            Fact::Age(n) => other.holds && age & TIME_BIT != n & TIME_BIT,
            _ => false,
        },
        _ => false,
    }
}

// Whether a slot with these bytes fails a fact.
fn is_refused(fact: &Stated, slot: usize, bytes: &[u8]) -> bool {
    let holds = match &fact.fact {
        Fact::Hash(place, hash) if *place == slot => hash160(bytes).as_slice() == hash.bytes(),
        Fact::Truth(place) if *place == slot => is_true(bytes),
        Fact::Is(place, other) if *place == slot => bytes == other.bytes(),
        Fact::KeyForm(place) if *place == slot => has_key_form(bytes),
        Fact::Form(place) if *place == slot => has_signature_form(bytes),
        _ => return is_size_refused(fact, slot, bytes.len() as u64),
    };
    holds != fact.holds
}

// Whether a slot of `size` bytes fails a fact.
fn is_size_refused(fact: &Stated, slot: usize, size: u64) -> bool {
    match &fact.fact {
        Fact::Size(place, n) if *place == slot => (u64::from(*n) == size) != fact.holds,
        Fact::Is(place, bytes) if *place == slot => {
            is_empty_refused(fact, size, bytes.bytes(), &[])
                || (fact.holds && bytes.bytes().len() as u64 != size)
        }
        Fact::Hash(place, hash) if *place == slot => {
            is_empty_refused(fact, size, hash.bytes(), hash160(&[]).as_slice())
        }
        Fact::Truth(place) if *place == slot => fact.holds && size == 0,
        Fact::KeyForm(place) if *place == slot => fact.holds && size != KEY_SIZE,
        Fact::Form(place) if *place == slot => fact.holds && size != 0 && size != TOKEN_SIZE,
        Fact::Token(place, _) if *place == slot => fact.holds && size != TOKEN_SIZE,
        Fact::Assigned(slots, _) => {
            fact.holds && size != TOKEN_SIZE && slots.values().contains(&slot)
        }
        _ => false,
    }
}

// Whether a slot of no bytes fails a fact that compares it, or its hash, with these bytes: of it that is `empty`.
fn is_empty_refused(fact: &Stated, size: u64, bytes: &[u8], empty: &[u8]) -> bool {
    size == 0 && (bytes == empty) != fact.holds
}

// Whether a slot of `size` bytes that is a key or a token fails a fact. Such a slot begins with 02 or 03, so it is true.
fn is_form_refused(fact: &Stated, slot: usize, size: u64) -> bool {
    match &fact.fact {
        Fact::Truth(place) if *place == slot => !fact.holds,
        _ => is_size_refused(fact, slot, size),
    }
}

// Whether a fact asks for a token of another key in the script.
fn is_other_token(fact: &Stated, slot: usize, key: &KeySource) -> bool {
    match (&fact.fact, key) {
        (Fact::Token(place, KeySource::Const(bytes)), KeySource::Const(other)) => {
            fact.holds && *place == slot && !bytes.equals(other)
        }
        _ => false,
    }
}
