//! Known preimages by their hashes.

ghost use Rattle.std.specs.Prelude.{◌≡◌, ℕ, List, ◌∷◌, [], IfOk, IfSome, OnOk};
ghost use Rattle.std.specs.Ordering.{nat_cmp};
ghost use Rattle.std.specs.Cmp.Lexicographic.{slice_cmp};
ghost use Rattle.std.specs.BTreeMap.{get};
ghost use Rattle.std.specs.Option.{option_or};
ghost use Rattle.resolve.specs.Preimages.{first_of};

use digest::sha256;
use std::alloc::{AllocError, Global};
use std::collections::BTreeMap;
use std::marker::Model;

/// Known preimages of HTLCs, 32 bytes each, in the order in which they came. [`index`](KnownPreimages::index) hashes each once; from then on the one of a hash is found in a time logarithmic in their number. Until
/// then a search hashes one after another. A contract sees them as their list.
#[derive(Drop)]
pub struct KnownPreimages {
    values: Vec<[u8; 32]>,
    // The first preimage of each hash, if they are indexed.
    by_hash: Option<BTreeMap<[u8; 32], [u8; 32]>>,
}

impl Model for KnownPreimages {
    ghost use Rattle.std.specs.Prelude.{◌≡◌, ℕ, List, IfSome};
    ghost use Rattle.std.specs.Ordering.{nat_cmp};
    ghost use Rattle.std.specs.Cmp.Lexicographic.{slice_cmp};
    ghost use Rattle.std.specs.BTreeMap.{get};
    ghost use Rattle.resolve.specs.Preimages.{first_of};

    ghost Value = { List (List ℕ) };

    ghost view = { λ a. a.values.items };

    ghost invariant = { λ a. IfSome a.by_hash (λ m. (h : List ℕ) → get (slice_cmp nat_cmp) m h ≡ first_of a.values.items h) };
}

// Notes a preimage by its hash, unless another of that hash is there.
fn insert_if_new(
    by_hash: &mut BTreeMap<[u8; 32], [u8; 32]>,
    preimage: &[u8; 32],
) -> Result<(), AllocError>
    ensures { OnOk result ((h : List ℕ) → get (slice_cmp nat_cmp) by_hash.new h
        ≡ option_or (get (slice_cmp nat_cmp) by_hash.old h) (first_of (preimage.now ∷ []) h)) }
{
    let hash = sha256(preimage);
    if by_hash.contains_key(&hash) {
        return Ok(());
    }
    by_hash.insert(hash, *preimage)?;
    Ok(())
}

// Notes preimages behind those that are there. If memory runs out, some of them may have been noted.
fn insert_all(
    by_hash: &mut BTreeMap<[u8; 32], [u8; 32]>,
    more: &[[u8; 32]],
) -> Result<(), AllocError>
    ensures { OnOk result ((h : List ℕ) → get (slice_cmp nat_cmp) by_hash.new h
        ≡ option_or (get (slice_cmp nat_cmp) by_hash.old h) (first_of more.now h)) }
{
    for preimage in more {
        insert_if_new(by_hash, preimage)?;
    }
    Ok(())
}

// The same, which gives none where memory ran out.
fn extended(
    by_hash: BTreeMap<[u8; 32], [u8; 32]>,
    more: &[[u8; 32]],
) -> Option<BTreeMap<[u8; 32], [u8; 32]>>
    ensures { IfSome result (λ m. (h : List ℕ) → get (slice_cmp nat_cmp) m h
        ≡ option_or (get (slice_cmp nat_cmp) by_hash h) (first_of more.now h)) }
{
    let mut by_hash = by_hash;
    match insert_all(&mut by_hash, more) {
        Ok(()) => Some(by_hash),
        Err(_) => None,
    }
}

// Preimages by their hashes.
fn indexed(
    alloc: Global,
    preimages: &[[u8; 32]],
) -> Result<BTreeMap<[u8; 32], [u8; 32]>, AllocError>
    ensures { IfOk result (λ m. (h : List ℕ)
        → get (slice_cmp nat_cmp) m h ≡ first_of preimages.now h) }
{
    let mut by_hash = BTreeMap::new(alloc);
    insert_all(&mut by_hash, preimages)?;
    Ok(by_hash)
}

// The first of preimages that has a hash, found by hashing one after another.
fn found_in(preimages: &[[u8; 32]], hash: &[u8; 32]) -> Option<[u8; 32]>
    ensures { result ≡ first_of preimages.now hash.now }
{
    for preimage in preimages {
        if sha256(preimage) == *hash {
            return Some(*preimage);
        }
    }
    None
}

impl KnownPreimages {
    ghost use Rattle.std.specs.Prelude.{◌≡◌, ◌++◌, IfOk, OnOk, OnErr};
    ghost use Rattle.resolve.specs.Preimages.{first_of, is_known};

    /// These preimages, not indexed. It allocates nothing.
    pub fn from_vec(values: Vec<[u8; 32]>) -> Self
        ensures { result ≡ values.items }
    {
        KnownPreimages {
            values,
            by_hash: None,
        }
    }

    /// The preimages, in order.
    pub fn values(&self) -> &[[u8; 32]]
        ensures { result.now ≡ self.now }
    {
        self.values.as_slice()
    }

    /// The same preimages, not indexed. The only error is that memory ran out.
    pub fn copy(&self) -> Result<Self, AllocError>
        ensures { IfOk result (λ p. p ≡ self.now) }
    {
        let values = self.values.clone()?;
        Ok(KnownPreimages::from_vec(values))
    }

    // Whether they are indexed. It decides how fast one is found, and not which.
    pub(crate) fn is_indexed(&self) -> bool {
        self.by_hash.is_some()
    }

    /// The same preimages, indexed. The only error is that memory ran out.
    pub fn to_indexed(&self) -> Result<Self, AllocError>
        ensures { IfOk result (λ p. p ≡ self.now) }
    {
        let mut copy = self.copy()?;
        copy.index()?;
        Ok(copy)
    }

    /// Hashes each preimage once, so that searches hash none from now on. The only error is that memory ran out.
    pub fn index(&mut self) -> Result<(), AllocError>
        ensures { self.new ≡ self.old }
    {
        if self.is_indexed() {
            return Ok(());
        }
        let by_hash = indexed(*self.values.allocator(), self.values.as_slice())?;
        self.by_hash = Some(by_hash);
        Ok(())
    }

    /// Adds preimages behind the others. Where they are indexed, these are too, as long as there is memory for it. The only error is that memory ran out, which leaves them as they were.
    pub fn extend(&mut self, more: &[[u8; 32]]) -> Result<(), AllocError>
        ensures ok { OnOk result (self.new ≡ self.old ++ more.now) }
        ensures err { OnErr result (self.new ≡ self.old) }
    {
        self.values.extend_from_slice(more)?;
        if let Some(by_hash) = self.by_hash.take() {
            self.by_hash = extended(by_hash, more);
        }
        Ok(())
    }

    /// The first preimage of a hash, if one is known.
    pub fn first_of(&self, hash: &[u8; 32]) -> Option<[u8; 32]>
        ensures { result ≡ first_of self.now hash.now }
    {
        match &self.by_hash {
            Some(by_hash) => by_hash.get(hash).copied(),
            None => found_in(self.values.as_slice(), hash),
        }
    }

    // Whether a preimage of a hash is known.
    pub(crate) fn has(&self, hash: &[u8; 32]) -> bool
        ensures { result ≡ is_known self.now hash.now }
    {
        self.first_of(hash).is_some()
    }
}
