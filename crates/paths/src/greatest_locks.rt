// The greatest locks among facts.

ghost use Rattle.std.specs.Prelude.{◌≡◌};
ghost use Rattle.paths.specs.Listing.{with_lock as with_lock_of, greatest_lock_in, with_age as with_age_of, greatest_age_in};

use facts::{Fact, Stated};

/// The greatest absolute lock of facts (BIP 65).
pub fn greatest_lock(facts: &[Stated]) -> Option<u64>
    ensures { result ≡ greatest_lock_in facts.now }
{
    let mut lock = None;
    for stated in facts.iter().rev() {
        lock = with_lock(&stated.fact, lock);
    }
    lock
}

// The greater of the fact's absolute lock, if it has one, and another.
fn with_lock(fact: &Fact, other: Option<u64>) -> Option<u64>
    ensures { result ≡ with_lock_of fact.now other }
{
    match (fact, other) {
        (Fact::Lock(n), Some(m)) => Some(m.max(*n)),
        (Fact::Lock(n), None) => Some(*n),
        _ => other,
    }
}

/// The greatest of the facts' relative locks in blocks (BIP 68, 112).
pub fn greatest_age(facts: &[Stated]) -> Option<u16>
    ensures { result ≡ greatest_age_in facts.now }
{
    let mut age = None;
    for stated in facts.iter().rev() {
        age = with_age(&stated.fact, age);
    }
    age
}

// The greater of the fact's relative lock, if that is in blocks, and another.
fn with_age(fact: &Fact, other: Option<u16>) -> Option<u16>
    ensures { result ≡ with_age_of fact.now other }
{
    match fact {
        Fact::Age(n) if (*n >> 22) % 2 == 0 => {
            let blocks = (*n % (1 << 16)) as u16;
            match other {
                Some(m) => Some(m.max(blocks)),
                None => Some(blocks),
            }
        }
        _ => other,
    }
}
