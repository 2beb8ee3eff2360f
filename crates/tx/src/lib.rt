//! Transactions with version 0 witnesses, and their bytes (BIP 141, BIP 144).
//!
//! The main contract is that of [`decode`]: barring out-of-memory, it returns exactly the transaction that the bytes
//! spell, or the first fault from left to right. Input scripts are empty, every compactSize is minimal, marker and
//! flag are always there, and at least one witness has an item. A transaction that is still to be signed is a [`Tx`]
//! with empty witnesses: it has an id and a stripped form ([`encode_stripped`]), and no other encoding.
//!
//! `digest` hashes its ids. `sighash` computes from a [`Tx`] what its signatures sign, `commit` and `filling` make
//! transactions, and `chain` connects them.
//!
//! ```rust
//! /// Whether the bytes are a transaction with an output of this value in satoshis.
//! fn pays(alloc: Global, bytes: &[u8], value: u64) -> Result<bool, DecodeError> {
//!     let tx = decode(alloc, bytes)?;
//!     Ok(tx.outputs().iter().any(|output| output.value() == value))
//! }
//! ```
//!
//! The test `finds_an_output_by_its_value` of `tx_tests` calls this function.
#![tactic(auto)]

mod errors;
mod fields;
pub mod hashing;
mod input;
pub mod laws;
mod limited;
mod limits;
mod output;
mod reading;
mod transaction;
mod witness;
mod writing;

pub use errors::{DecodeError, EncodeError, FieldError, LimitError};
pub use hashing::txid;
pub use input::{Inputs, OutPoint, TxIn};
pub use limited::{Element, LimitedList};
pub use limits::{MAX_BYTES, MAX_INPUTS, MAX_ITEMS, MAX_OUTPUTS, MAX_VALUE};
pub use output::{Outputs, TxOut, total_value};
pub use reading::{decode, decode_stripped};
pub use transaction::{Tx, TxParts};
pub use witness::Witness;
pub use writing::{encode, encode_stripped};
