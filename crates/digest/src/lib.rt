//! The hashes of Bitcoin: SHA-256, SHA-256 twice, RIPEMD-160, and RIPEMD-160 of SHA-256.
//!
//! Each call gives exactly the standard's hash of the whole message, whatever its length (FIPS 180-4; H. Dobbertin,
//! A. Bosselaers and B. Preneel). [`Ripemd160`] takes a message in pieces. No call allocates, and none refuses a
//! message.
//!
//! SHA-256 itself comes from the library `sha2`. `tx` hashes transaction ids with this crate, `sighash` the digests
//! that are signed, and `secrets` the per-commitment secrets of a seed. `script` defines HASH160 by it.
//!
//! ```
//! assert_eq!(rt; hash160(&key), wanted);
//! ```
//!
//! The test `hash_of_a_public_key` of `script_tests` has this line.
#![tactic(auto)]

ghost use Rattle.std.specs.Prelude.{◌≡◌, map};
ghost use Rattle.std.specs.List.{concat};
ghost use Rattle.sha2.specs.Sha256.{sha256 as sha256_of};
ghost use Rattle.digest.specs.Hash.{sha256d as sha256d_of, hash160 as hash160_of};
ghost use Rattle.digest.specs.Ripemd160.{ripemd160 as ripemd160_of};

pub use hasher::Ripemd160;
use sha2::{Digest, Sha256};

mod block;
mod hasher;

/// SHA-256 of a message: 32 bytes, each word big-endian (FIPS 180-4, section 6.2).
pub fn sha256(message: &[u8]) -> [u8; 32]
    ensures { result ≡ sha256_of message.now }
{
    Sha256::digest(message)
}

/// SHA-256 of the 32 bytes of a message's SHA-256 (FIPS 180-4, section 6.2): the hash of Bitcoin's transaction ids
/// and signature digests.
pub fn sha256d(message: &[u8]) -> [u8; 32]
    ensures { result ≡ sha256d_of message.now }
{
    sha256(&sha256(message))
}

/// RIPEMD-160 of a message: 20 bytes, each word little-endian (H. Dobbertin, A. Bosselaers and B. Preneel,
/// "RIPEMD-160: a strengthened version of RIPEMD", 1996).
pub fn ripemd160(message: &[u8]) -> [u8; 20]
    ensures { result ≡ ripemd160_of message.now }
{
    let mut hasher = Ripemd160::new();
    hasher.update(message);
    hasher.finalize()
}

/// RIPEMD-160 of the concatenation of `pieces` (Dobbertin, Bosselaers and Preneel). It does not matter where the
/// message is cut.
pub fn ripemd160_of_pieces(pieces: &[&[u8]]) -> [u8; 20]
    ensures { result ≡ ripemd160_of (concat (map (λ piece. piece.now) pieces.now)) }
{
    let mut hasher = Ripemd160::new();
    for piece in pieces {
        hasher.update(piece);
    }
    hasher.finalize()
}

/// RIPEMD-160 of the 32 bytes of SHA-256 of a message, 20 bytes: Bitcoin's OP_HASH160 (SHA-256 by
/// FIPS 180-4, RIPEMD-160 by Dobbertin, Bosselaers and Preneel).
pub fn hash160(message: &[u8]) -> [u8; 20]
    ensures { result ≡ hash160_of message.now }
{
    ripemd160(&sha256(message))
}
