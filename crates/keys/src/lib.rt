//! The keys of a channel and who may sign for them (BOLT 3, "Key Derivation").
//!
//! Hashes replace elliptic curves here: a secret's [`point`] is a hash of it, and [`derive`] and [`revocation`] hash a
//! base key with a per-commitment point. [`Signer::sign`] gives the token of a key over a digest exactly where the signer
//! may sign for the key (`MaySign`), and refuses every other key. A signer may sign for its own base keys. It may sign
//! for keys that derive from them at a point that it learnt, and for their revocation keys at a point whose secret it
//! learnt.
//!
//! `sighash` provides the tokens. `terms` names both sides' base keys, `commit` derives the keys of a commitment, and
//! `channel` and `filling` sign with a [`Signer`].
//!
//! ```rust
//! /// A token of one's delayed key for a commitment with this point.
//! fn sign_delayed(alloc: Global, seed: &[u8; 32], point: &Key, digest: &[u8; 32]) -> Result<Option<Token>, AllocError> {
//!     let mut signer = Signer::new(alloc, seed);
//!     signer.learn_point(point)?;
//!     let key = derive(&signer.base(Base::Delayed), point);
//!     Ok(signer.sign(&key, digest).ok())
//! }
//! ```
//!
//! The test `signs_with_a_delayed_key` of `tx_tests` calls this function.
#![tactic(auto)]

mod bases;
mod compressed;
mod derivation;
mod indexing;
mod signing;

pub use bases::Base;
pub use compressed::Key;
pub use derivation::{derive, point, revocation};
pub use signing::{SignError, Signer};
