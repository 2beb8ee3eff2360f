// What a fact is about.

use facts::{Fact, KeySource};
use std::slice;

/// The slots of a fact.
pub fn slots(fact: &Fact) -> &[usize] {
    match fact {
        Fact::Hash(slot, _) | Fact::Is(slot, _) => slice::from_ref(slot),
        Fact::Size(slot, _) => slice::from_ref(slot),
        Fact::Token(slot, _) => slice::from_ref(slot),
        Fact::Truth(slot) | Fact::KeyForm(slot) | Fact::Form(slot) => slice::from_ref(slot),
        Fact::Assigned(slots, _) => slots.values(),
        Fact::Lock(_) | Fact::Age(_) => &[],
    }
}

/// The keys of a fact.
pub fn keys(fact: &Fact) -> &[KeySource] {
    match fact {
        Fact::Token(_, key) => slice::from_ref(key),
        Fact::Assigned(_, keys) => keys.values(),
        _ => &[],
    }
}
