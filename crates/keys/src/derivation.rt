// The derivation of keys from secrets and points (BOLT 3, "Key Derivation"), with hashes in place of elliptic curves.

ghost use Rattle.std.specs.Prelude.{◌≡◌, ◌++◌, ◌∷◌, [], codes};
ghost use Rattle.sha2.specs.Sha256.{sha256 as sha256_of};
ghost use Rattle.keys.specs.Derivation.{point_of, derived_key, revocation_key};

use crate::compressed::Key;
use sha2::{Digest, Sha256};

// The key that is the byte 02, followed by these 32 bytes.
#[tactic(auto, unfolding(script::specs::Token::is_key))]
fn key_of_hash(hash: &[u8; 32]) -> Key
    ensures { result.bytes ≡ 2 ∷ hash.now }
{
    let mut bytes = [2; 33];
    bytes[1..].copy_from_slice(hash);
    Key { bytes }
}

// SHA-256 of the concatenation of three pieces.
fn hash_of(name: &[u8], first: &[u8], second: &[u8]) -> [u8; 32]
    ensures { result ≡ sha256_of (name.now ++ first.now ++ second.now) }
{
    let mut hasher = Sha256::new();
    hasher.update(name);
    hasher.update(first);
    hasher.update(second);
    hasher.finalize()
}

/// The point of a secret, its public key: 02, and the SHA-256 of the ASCII bytes `point` and the secret's 32 bytes.
#[tactic(auto, unfolding(crate::specs::Derivation::point_of))]
pub fn point(secret: &[u8; 32]) -> Key
    ensures { result.bytes ≡ point_of secret.now }
{
    key_of_hash(&hash_of(b"point", secret, &[]))
}

/// The key that derives from a base key at a per-commitment point: 02, and the SHA-256 of `derive`, the base key and the point, 33 bytes
/// each.
#[tactic(auto, unfolding(crate::specs::Derivation::derived_key))]
pub fn derive(base: &Key, point: &Key) -> Key
    ensures { result.bytes ≡ derived_key base.now.bytes point.now.bytes }
{
    key_of_hash(&hash_of(b"derive", &base.bytes, &point.bytes))
}

/// The revocation key of a base key at a per-commitment point: 02, and the SHA-256 of `revoke`, the base key and the point, 33 bytes each.
#[tactic(auto, unfolding(crate::specs::Derivation::revocation_key))]
pub fn revocation(base: &Key, point: &Key) -> Key
    ensures { result.bytes ≡ revocation_key base.now.bytes point.now.bytes }
{
    key_of_hash(&hash_of(b"revoke", &base.bytes, &point.bytes))
}

/// SHA-256 of `base`, a seed and a number, from which a signer's secrets are made.
pub(crate) fn seed_hash(seed: &[u8; 32], number: u8) -> [u8; 32]
    ensures { result ≡ sha256_of (codes "base" ++ seed.now ++ number ∷ []) }
{
    hash_of(b"base", seed, &[number])
}
