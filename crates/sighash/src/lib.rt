//! What a signature signs (BIP 143), the tokens that stand for signatures, and the version 0 programs of a key hash
//! and of a script hash (BIP 141).
//!
//! The main contract is that of [`digest_of`]: it is SHA-256 twice over the list of fields of BIP 143 for hash type
//! ALL. To sign more than one input of a transaction, make a [`SighashCache`] first. A [`Token`] names one key and
//! one digest. [`programs`] makes and recognises the two programs for all crates.
//!
//! `tx` provides the transactions. `keys` makes the token of a key over a digest where a signer has the right.
//! `commit` pays to the programs. `chain` reads the program of each spent output and runs its script with the
//! digest.
//!
//! ```rust
//! /// A token for each input of a transaction whose inputs spend outputs of one value to one script.
//! fn sign_all(alloc: Global, tx: &Tx, key: &[u8; 33], code: &[u8], value: u64) -> Result<Vec<Token>, AllocError> {
//!     let cache = SighashCache::new(tx);
//!     let mut tokens = Vec::new(alloc);
//!     for index in 0..tx.inputs().len() {
//!         if let Ok(digest) = cache.digest_of(index, code, value) {
//!             tokens.push(Token::new(key, &digest))?;
//!         }
//!     }
//!     Ok(tokens)
//! }
//! ```
//!
//! The test `signs_each_input` of `tx_tests` calls this function.
#![tactic(auto)]

mod errors;
pub mod laws;
pub mod programs;
mod signing;
mod token;

pub use errors::DigestError;
pub use signing::{SighashCache, digest_of};
pub use token::Token;
