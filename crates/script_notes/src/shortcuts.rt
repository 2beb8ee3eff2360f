// Notes on locks that whoever waits for them can go around.

use crate::conflicts::conflict_in;
use crate::keys::{constant_of, keys_of, same_point};
use facts::{Fact, KeySource, Stated};
use page::Page;
use page::Piece::Count;
use paths::Path;
use warnings::{Taker, greatest_units, has_unreachable_lock, taker_of};

/// Notes the paths that wait, beside which another one asks at once for no more signatures and hashes.
pub fn note_shortcuts(notes: &mut Page, paths: &[Path]) {
    for (index, path) in paths.iter().enumerate() {
        let facts = path.facts.values();
        if waits(path) && !has_unreachable_lock(facts) && conflict_in(facts).is_none() {
            if let Some(other) = shortcut_of(paths, facts) {
                notes.write(
                    "note: path % asks for no other signature or preimage than path %, and does not wait: the lock of path % holds nobody up\n",
                    &[
                        Count(other as u64),
                        Count(index as u64),
                        Count(index as u64),
                    ],
                );
            }
        }
    }
}

// Whether a path has a lock that is not 0.
fn waits(path: &Path) -> bool {
    path.lock.unwrap_or(0) > 0
        || path.age.unwrap_or(0) > 0
        || greatest_units(path.facts.values()).unwrap_or(0) > 0
}

// The first path that does not wait, and which whoever meets these facts can sign for.
fn shortcut_of(paths: &[Path], slow: &[Stated]) -> Option<usize> {
    for (index, path) in paths.iter().enumerate() {
        let facts = path.facts.values();
        if !waits(path)
            && taker_of(facts) == Taker::Signer
            && conflict_in(facts).is_none()
            && are_met(facts, slow)
        {
            return Some(index);
        }
    }
    None
}

// Whether whoever meets the slow facts has the signatures and preimages for these.
fn are_met(facts: &[Stated], slow: &[Stated]) -> bool {
    for stated in facts {
        // what else is asked of an item is met by choosing it
        let is_met = match &stated.fact {
            Fact::Hash(_, hash) => has_hash(slow, hash.bytes()),
            Fact::Token(_, _) | Fact::Assigned(_, _) => is_signed(stated, slow),
            _ => true,
        };
        if stated.holds && !is_met {
            return false;
        }
    }
    true
}

// Whether facts ask for what has a hash.
fn has_hash(facts: &[Stated], hash: &[u8]) -> bool {
    for stated in facts {
        if let Fact::Hash(_, other) = &stated.fact {
            if stated.holds && other.bytes() == hash {
                return true;
            }
        }
    }
    false
}

// Whether the signers of one of the slow facts are enough for a fact that asks for signatures.
fn is_signed(stated: &Stated, slow: &[Stated]) -> bool {
    for other in slow {
        if count_of(stated) <= least_shared(other, keys_of(stated)) {
            return true;
        }
    }
    false
}

// How many signatures a fact asks for, if it holds.
fn count_of(stated: &Stated) -> usize {
    match &stated.fact {
        Fact::Token(_, _) if stated.holds => 1,
        Fact::Assigned(slots, _) if stated.holds => slots.values().len(),
        _ => 0,
    }
}

// How many unlike keys among others the signers of a fact have at least, whichever of its keys they are.
fn least_shared(stated: &Stated, others: &[KeySource]) -> usize {
    let keys = keys_of(stated);
    let mut shared = count_of(stated);
    for (place, source) in keys.iter().enumerate() {
        let is_shared = match constant_of(source) {
            Some(key) => same_point(&keys[..place], key).is_none()
                && same_point(others, key).is_some(),
            None => false,
        };
        if !is_shared {
            shared = shared.saturating_sub(1);
        }
    }
    shared
}
