// Whether two facts are the same.

ghost use Rattle.std.specs.Prelude.{◌≡◌, ◌↔◌, IsTrue};
ghost use Rattle.facts.specs.Sameness.{same_key, same_keys, same_fact};

use crate::symbols::{Fact, KeySource};

impl KeySource {
    /// Whether two keys come from the same place: the same bytes, or the same slot.
    pub fn equals(&self, other: &KeySource) -> bool
        ensures value { result ≡ same_key self.now other.now }
        ensures exact { IsTrue result ↔ (self.now ≡ other.now) }
    {
        match self {
            KeySource::Const(key) => match other {
                KeySource::Const(bytes) => key.equals(bytes),
                KeySource::Slot(_) => false,
            },
            KeySource::Slot(slot) => match other {
                KeySource::Slot(place) => slot == place,
                KeySource::Const(_) => false,
            },
        }
    }
}

// Whether two lists of keys are the same.
fn are_same_keys(keys: &[KeySource], others: &[KeySource]) -> bool
    ensures { result ≡ same_keys keys.now others.now }
{
    if keys.len() != others.len() {
        return false;
    }
    for (i, key) in keys.iter().enumerate() {
        if !key.equals(&others[i]) {
            return false;
        }
    }
    true
}

// Whether two facts are the same.
fn is_same_fact(fact: &Fact, other: &Fact) -> bool
    ensures { result ≡ same_fact fact.now other.now }
{
    match (fact, other) {
        (Fact::Hash(i, hash), Fact::Hash(j, other)) => i == j && hash.equals(other),
        (Fact::Size(i, size), Fact::Size(j, other)) => i == j && size == other,
        (Fact::Truth(i), Fact::Truth(j)) => i == j,
        (Fact::Is(i, bytes), Fact::Is(j, other)) => i == j && bytes.equals(other),
        (Fact::KeyForm(i), Fact::KeyForm(j)) => i == j,
        (Fact::Form(i), Fact::Form(j)) => i == j,
        (Fact::Token(i, key), Fact::Token(j, other)) => i == j && key.equals(other),
        (Fact::Assigned(slots, keys), Fact::Assigned(places, others)) => {
            slots.values() == places.values() && are_same_keys(keys.values(), others.values())
        }
        (Fact::Lock(m), Fact::Lock(n)) => m == n,
        (Fact::Age(m), Fact::Age(n)) => m == n,
        _ => false,
    }
}

impl Fact {
    /// Whether two facts are the same.
    pub fn equals(&self, other: &Fact) -> bool
        ensures value { result ≡ same_fact self.now other.now }
        ensures exact { IsTrue result ↔ (self.now ≡ other.now) }
    {
        is_same_fact(self, other)
    }
}
