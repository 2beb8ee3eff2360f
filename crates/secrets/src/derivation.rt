//! The derivation of per-commitment secrets (BOLT 3, "Per-commitment Secret Requirements").

ghost use Rattle.std.specs.Prelude.{◌≡◌, ℕ, ◌<◌, ◌≤◌, ◌/◌, ◌%◌, ◌^◌};
ghost use Rattle.sha2.specs.Sha256.{sha256 as sha256_of};
ghost use Rattle.secrets.specs.Derivation.{flipped, derived_secret, commitment_secret};

use digest::sha256;

/// How many bits an index of a commitment secret has.
pub(crate) const INDEX_BITS: usize = 48;

/// Derives the per-commitment secret of index `i` from a seed (BOLT 3). Only the lowest 48 bits of `i` count.
///
/// Commitment number n has index 2^48 - 1 - n. The secret of an index that ends in k zero bits derives the
/// secrets of all indices that differ from it in the lowest k bits only.
pub fn from_seed(seed: &[u8; 32], i: u64) -> [u8; 32]
    ensures value { result ≡ commitment_secret seed.now i }
    ensures leads { (b j : ℕ) → b ≤ 48 → i % 2 ^ b ≡ 0 → j / 2 ^ b ≡ i / 2 ^ b →
        commitment_secret seed.now j ≡ derived_secret result b j }
{
    derive(seed, INDEX_BITS, i)
}

/// The secret derived from `secret` by the lowest `bits` bits of the index `i`, the highest of them first.
pub(crate) fn derive(secret: &[u8; 32], bits: usize, i: u64) -> [u8; 32]
    requires { bits ≤ 48 }
    ensures { result ≡ derived_secret secret.now bits i }
{
    let mut derived = *secret;
    for b in (0..bits).rev() {
        if (i >> b) & 1 == 1 {
            derived = hash_flipped(&derived, b);
        }
    }
    derived
}

/// The SHA-256 of the secret with one bit flipped: bit `b` mod 8 of byte `b` div 8.
pub(crate) fn hash_flipped(secret: &[u8; 32], b: usize) -> [u8; 32]
    requires { b < 48 }
    ensures { result ≡ sha256_of (flipped b secret.now) }
{
    let mut bytes = *secret;
    bytes[b / 8] ^= 1 << (b % 8);
    sha256(&bytes)
}
