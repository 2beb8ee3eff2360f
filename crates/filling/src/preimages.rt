// Preimages by their hashes.

ghost use Rattle.std.specs.Prelude.{◌≡◌, ℕ, List, length, IfOk, IfSome};
ghost use Rattle.std.specs.Ordering.{nat_cmp};
ghost use Rattle.std.specs.Cmp.Lexicographic.{slice_cmp};
ghost use Rattle.std.specs.BTreeMap.{get};
ghost use Rattle.filling.specs.Filling.{preimage_of};

use digest::sha256;
use std::alloc::{AllocError, Global};
use std::collections::BTreeMap;
use std::marker::Model;

/// Given preimages, found by their SHA-256 in a time logarithmic in their number. A contract sees them as the list that was given.
#[derive(Drop)]
pub(crate) struct Preimages<'a> {
    given: &'a [[u8; 32]],
    by_hash: BTreeMap<[u8; 32], [u8; 32]>,
}

impl<'a> Model for Preimages<'a> {
    ghost use Rattle.std.specs.Prelude.{◌≡◌, ℕ, List};
    ghost use Rattle.std.specs.Ordering.{nat_cmp};
    ghost use Rattle.std.specs.Cmp.Lexicographic.{slice_cmp};
    ghost use Rattle.std.specs.BTreeMap.{get};
    ghost use Rattle.filling.specs.Filling.{preimage_of};

    ghost Value = { List (List ℕ) };

    ghost view = { λ a. a.given.now };

    ghost invariant = { λ a. (h : List ℕ) → get (slice_cmp nat_cmp) a.by_hash h ≡ preimage_of a.given.now h };
}

// The preimages, sorted by their hashes.
fn indexed(alloc: Global, given: &[[u8; 32]]) -> Result<BTreeMap<[u8; 32], [u8; 32]>, AllocError>
    ensures { IfOk result (λ m. (h : List ℕ)
        → get (slice_cmp nat_cmp) m h ≡ preimage_of given.now h) }
{
    let mut by_hash = BTreeMap::new(alloc);
    for preimage in given {
        by_hash.insert(sha256(preimage), *preimage)?;
    }
    Ok(by_hash)
}

impl<'a> Preimages<'a> {
    /// The preimages, in order. The only error is that memory ran out.
    pub(crate) fn new(alloc: Global, given: &'a [[u8; 32]]) -> Result<Self, AllocError>
        ensures { IfOk result (λ p. p ≡ given.now) }
    {
        let by_hash = indexed(alloc, given)?;
        Ok(Preimages { given, by_hash })
    }

    /// The preimage of a hash, if one is given.
    pub(crate) fn of(&self, hash: &[u8; 32]) -> Option<[u8; 32]>
        ensures { result ≡ preimage_of self.now hash.now }
    {
        self.by_hash.get(hash).copied()
    }
}
