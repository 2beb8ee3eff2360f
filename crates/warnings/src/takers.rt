// What a path leaves to others.

ghost use Rattle.std.specs.Prelude.{◌≡◌};
ghost use Rattle.std.specs.List.{list_any};
ghost use Rattle.warnings.specs.Takers.{is_value_of, fixes, is_fixed, is_free, free_keys, is_signed, asks_signature, is_hash, asks_preimage, taker_of, is_hash_at, is_hash_of, has_hash, is_hashed_key, takes_key_by_hash, takes_hashed_key};

use facts::{Fact, KeySource, Stated};

/// Who can take what a path spends, once its locks have passed.
#[derive(Clone, Copy, Debug, PartialEq, Eq, Drop)]
pub enum Taker {
    /// Only who has a key that the script fixes: by its bytes, or by its hash.
    Signer,
    /// Whoever knows an item with a given hash. No signature of a key that the script fixes is asked for, so who sees such a witness can spend too.
    Finder,
    /// Anyone.
    Anyone,
}

// Whether a fact gives a slot one value only: it has this hash, or is these bytes.
fn is_value_of(slot: usize, fact: &Fact) -> bool
    ensures { result ≡ is_value_of slot fact.now }
{
    match fact {
        Fact::Hash(place, _) => *place == slot,
        Fact::Is(place, _) => *place == slot,
        _ => false,
    }
}

// Whether a fact holds that fixes a slot.
fn fixes(slot: usize, stated: &Stated) -> bool
    ensures { result ≡ fixes slot stated.now }
{
    stated.holds && is_value_of(slot, &stated.fact)
}

// Whether a path fixes a slot.
fn is_fixed(facts: &[Stated], slot: usize) -> bool
    ensures { result ≡ is_fixed facts.now slot }
{
    facts.iter().any(|stated| fixes(slot, stated))
}

// Whether whoever spends may choose a key.
fn is_free(facts: &[Stated], key: &KeySource) -> bool
    ensures { result ≡ is_free facts.now key.now }
{
    match key {
        KeySource::Const(_) => false,
        KeySource::Slot(slot) => !is_fixed(facts, *slot),
    }
}

// How many of some keys whoever spends may choose.
fn free_keys(facts: &[Stated], keys: &[KeySource]) -> usize
    ensures { result ≡ free_keys facts.now keys.now }
{
    let mut count = 0;
    for key in keys {
        if is_free(facts, key) {
            count += 1;
        }
    }
    count
}

// Whether a fact, if it holds, asks for a signature of a key that the path fixes.
fn is_signed(facts: &[Stated], fact: &Fact) -> bool
    ensures { result ≡ is_signed facts.now fact.now }
{
    match fact {
        Fact::Token(_, key) => !is_free(facts, key),
        Fact::Assigned(slots, keys) => free_keys(facts, keys.values()) < slots.values().len(),
        _ => false,
    }
}

// Whether a fact of a path asks for a signature of a key that the path fixes.
fn asks_signature(facts: &[Stated], stated: &Stated) -> bool
    ensures { result ≡ asks_signature facts.now stated.now }
{
    stated.holds && is_signed(facts, &stated.fact)
}

// Whether a fact, if it holds, says what a hash is.
fn is_hash(fact: &Fact) -> bool
    ensures { result ≡ is_hash fact.now }
{
    match fact {
        Fact::Hash(_, _) => true,
        _ => false,
    }
}

// Whether a fact asks for an item with a given hash.
fn asks_preimage(stated: &Stated) -> bool
    ensures { result ≡ asks_preimage stated.now }
{
    stated.holds && is_hash(&stated.fact)
}

// Whether a path asks for a signature of a key that it fixes.
fn has_signature(facts: &[Stated]) -> bool
    ensures { result ≡ list_any (asks_signature facts.now) facts.now }
{
    facts.iter().any(|stated| asks_signature(facts, stated))
}

// Whether a path asks for an item with a given hash.
fn has_preimage(facts: &[Stated]) -> bool
    ensures { result ≡ list_any asks_preimage facts.now }
{
    facts.iter().any(|stated| asks_preimage(stated))
}

/// Who can take what a path with these facts spends.
#[tactic(auto, unfolding(crate::specs::Takers::taker_of))]
pub fn taker_of(facts: &[Stated]) -> Taker
    ensures { result ≡ taker_of facts.now }
{
    if has_signature(facts) {
        Taker::Signer
    } else if has_preimage(facts) {
        Taker::Finder
    } else {
        Taker::Anyone
    }
}

// Whether a fact, if it holds, says what the hash of a slot is.
fn is_hash_at(slot: usize, fact: &Fact) -> bool
    ensures { result ≡ is_hash_at slot fact.now }
{
    match fact {
        Fact::Hash(place, _) => *place == slot,
        _ => false,
    }
}

// Whether a fact says what the hash of a slot is.
fn is_hash_of(slot: usize, stated: &Stated) -> bool
    ensures { result ≡ is_hash_of slot stated.now }
{
    stated.holds && is_hash_at(slot, &stated.fact)
}

// Whether a path says what the hash of a slot is.
fn has_hash(facts: &[Stated], slot: usize) -> bool
    ensures { result ≡ has_hash facts.now slot }
{
    facts.iter().any(|stated| is_hash_of(slot, stated))
}

// Whether a fact, if it holds, says that a slot has the form of a key, and another one of its path what its hash is.
fn is_hashed_key(facts: &[Stated], fact: &Fact) -> bool
    ensures { result ≡ is_hashed_key facts.now fact.now }
{
    match fact {
        Fact::KeyForm(slot) => has_hash(facts, *slot),
        _ => false,
    }
}

// Whether a fact says that a slot has the form of a key, and another one of its path what its hash is.
fn takes_key_by_hash(facts: &[Stated], stated: &Stated) -> bool
    ensures { result ≡ takes_key_by_hash facts.now stated.now }
{
    stated.holds && is_hashed_key(facts, &stated.fact)
}

/// Whether a path takes a key by its hash. By consensus, though not by relay policy, an uncompressed key with that hash is taken too.
pub fn takes_hashed_key(facts: &[Stated]) -> bool
    ensures { result ≡ takes_hashed_key facts.now }
{
    facts.iter().any(|stated| takes_key_by_hash(facts, stated))
}
