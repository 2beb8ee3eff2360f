//! The per-commitment secrets of BOLT 3: their derivation from a seed, and the store of a peer's secrets in 49
//! buckets.
//!
//! The main contract is that of [`Store::insert`]. It takes the secret of the next index, counted down from 2^48 - 1,
//! exactly where all secrets that were inserted below its prefix derive from it. [`Store::get`] then returns exactly
//! what was inserted. Nothing here allocates.
//!
//! `digest` provides the hash. `channel` derives its own secrets by [`from_seed`], and keeps the secrets that its
//! peer revealed to revoke commitments in a [`Store`].
//!
//! ```rust
//! /// A store of the first `count` secrets of a seed.
//! fn store_of(seed: &[u8; 32], count: u64) -> Result<Store, StoreError> {
//!     let mut store = Store::new();
//!     for n in 0..count.min(1 << 48) {
//!         let index = (1 << 48) - 1 - n;
//!         store.insert(index, &from_seed(seed, index))?;
//!     }
//!     Ok(store)
//! }
//! ```
//!
//! The test `gives_back_three_secrets` of `script_tests` calls this function.
#![tactic(auto)]

mod derivation;
mod errors;
mod store;

pub use derivation::from_seed;
pub use errors::StoreError;
pub use store::Store;
