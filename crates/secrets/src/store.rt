//! The compact store of per-commitment secrets (BOLT 3, "Efficient Per-commitment Secret Storage").

ghost use Rattle.std.specs.Prelude.{◌≡◌, ℕ, ◌+◌, ◌≤◌, ◌<◌, ◌^◌, ◌↔◌, List, [], ◌∷◌, ◌++◌, IsTrue, IsOk, IsErrOf, OnOk, OnErr, length, slice_get};
ghost use Rattle.std.specs.Int.Count.{count_trailing_zeros};
ghost use Rattle.sha2.specs.Sha256.{sha256 as sha256_of};
ghost use Rattle.secrets.specs.Derivation.{flipped, commitment_secret};
ghost use Rattle.secrets.specs.Inserted.{inserted_at, IsNext, LeadsTo, AreOfSeed};

use crate::derivation::{INDEX_BITS, derive, hash_flipped};
use crate::errors::StoreError;
use std::marker::Model;

/// How many secrets a store keeps: one for each count of trailing zeros that an index can have.
const BUCKETS: usize = INDEX_BITS + 1;

/// One more than the greatest index.
const INDEX_END: u64 = 1 << INDEX_BITS;

/// The secrets of one seed, inserted in the order of falling indices from 2^48 - 1, and kept in 49 buckets of 32
/// bytes.
///
/// A contract sees it as the list of all secrets inserted, the secret of index 2^48 - 1 first.
#[derive(Drop)]
pub struct Store {
    // the lowest index inserted, or 2^48
    lowest: u64,
    // at bucket b, the last secret inserted whose index has b trailing zeros
    entries: [[u8; 32]; BUCKETS],
}

impl Model for Store {
    ghost use Rattle.std.specs.Prelude.{ℕ, ◌≤◌, ◌^◌, List};
    ghost use Rattle.secrets.specs.Buckets.{secrets_of};

    ghost Value = { List (List ℕ) };

    ghost view = { λ s. secrets_of s.entries s.lowest };

    ghost invariant = { λ s. s.lowest ≤ 2 ^ 48 };
}

impl Store {
    /// A store with no secrets, whose next index is 2^48 - 1.
    pub fn new() -> Store
        ensures empty { result ≡ [] }
        ensures of_any_seed { (seed : List ℕ) → AreOfSeed seed result }
    {
        Store {
            lowest: INDEX_END,
            entries: [[0; 32]; BUCKETS],
        }
    }

    /// An equal store. It allocates nothing.
    pub fn copy(&self) -> Store
        ensures { result ≡ self.now }
    {
        Store {
            lowest: self.lowest,
            entries: self.entries,
        }
    }

    /// Inserts the secret of index `i`.
    ///
    /// A refusal leaves the store as it was. It is `OutOfTurn` where `i` is not the next index: indices count down
    /// from 2^48 - 1, and 0 is the last. Else it is `NotOfThisSeed` where a stored secret does not derive from this
    /// one, though its index begins with the bits of `i` above the trailing zeros.
    pub fn insert(&mut self, i: u64, secret: &[u8; 32]) -> Result<(), StoreError>
        ensures ok { IsOk result ↔ (IsNext self.old i × LeadsTo secret.now i self.old) }
        ensures out_of_turn { IsErrOf result StoreError.OutOfTurn ↔ (¬ IsNext self.old i) }
        ensures not_of_this_seed { IsErrOf result StoreError.NotOfThisSeed
            ↔ (IsNext self.old i × (¬ LeadsTo secret.now i self.old)) }
        ensures added { OnOk result (self.new ≡ self.old ++ secret.now ∷ []) }
        ensures unchanged { OnErr result (self.new ≡ self.old) }
        ensures of_one_seed { (seed : List ℕ) → AreOfSeed seed self.old → IsNext self.old i →
            secret.now ≡ commitment_secret seed i → IsOk result × AreOfSeed seed self.new }
    {
        if !self.is_next(i) {
            return Err(StoreError::OutOfTurn);
        }
        if !self.is_led_to(secret, i) {
            return Err(StoreError::NotOfThisSeed);
        }
        self.entries[bucket_of(i)] = *secret;
        self.lowest = i;
        Ok(())
    }

    // whether `i` is the next index
    fn is_next(&self, i: u64) -> bool
        ensures { IsTrue result ↔ IsNext self.now i }
    {
        i < self.lowest && self.lowest - i == 1
    }

    // whether the stored secrets whose indices begin with the leading bits of `i` are derived from this one
    fn is_led_to(&self, secret: &[u8; 32], i: u64) -> bool
        requires { IsNext self.now i }
        ensures { IsTrue result ↔ LeadsTo secret.now i self.now }
    {
        leads_to(secret, &self.entries[..bucket_of(i)])
    }

    /// The secret that was inserted at index `i`, if one was.
    pub fn get(&self, i: u64) -> Option<[u8; 32]>
        ensures { result ≡ inserted_at self.now i }
    {
        if i < self.lowest || i >= INDEX_END {
            return None;
        }
        for bucket in (1..BUCKETS).rev() {
            if i >> bucket << bucket >= self.lowest {
                return Some(derive(&self.entries[bucket], bucket, i));
            }
        }
        Some(self.entries[0])
    }
}

/// The bucket of the secret of index `i`: the number of trailing zeros of the index's 48 bits.
fn bucket_of(i: u64) -> usize
    ensures { result ≡ count_trailing_zeros 48 i }
{
    (i.trailing_zeros() as usize).min(INDEX_BITS)
}

/// Whether each of these lowest buckets holds what the secret derives for it: the hash of the secret with the bucket's
/// bit flipped.
fn leads_to(secret: &[u8; 32], lowest_entries: &[[u8; 32]]) -> bool
    requires { length lowest_entries.now ≤ 48 }
    ensures { IsTrue result
        ↔ ((b : ℕ) → b < length lowest_entries.now →
        slice_get lowest_entries.now b ≡ Some (sha256_of (flipped b secret.now))) }
{
    for (b, entry) in lowest_entries.iter().enumerate() {
        if *entry != hash_flipped(secret, b) {
            return false;
        }
    }
    true
}
