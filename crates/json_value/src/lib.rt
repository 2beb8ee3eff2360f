//! JSON values (RFC 8259) in little memory.
//!
//! [`Value::from_str`] reads a text, and [`Value::from_slice`] bytes. The main contract is theirs: barring out-of-memory, the value is the one that `serde_json` defines for the text, or there is none
//! (`IsRead`). So both accept the same texts, and a value looks the same from both. What differs is memory: `serde_json` keeps the members of an object in a B-tree, 800 bytes for its first one, and
//! here they are a list of exactly as many members.
//!
//! `texts` reads plain forms from values, for `scenario` and `book_dump`. The tokens come from the toolchain's `json`, and a number is `serde_json`'s. The reader and its proof follow those of that library
//! (MIT or Apache-2.0).
//!
//! ```rust
//! let value = Value::from_str(alloc, r#"{"fee": [1, 2]}"#)?;
//! let fee = value.member("fee").unwrap();
//! assert_eq!(rt; fee.item(1).unwrap().as_u64(), Some(2));
//! ```
//!
//! The test `reads_values` of `book_tests` has these lines.
#![tactic(auto)]

mod errors;
mod numbers;
mod objects;
mod reading;
mod value;

pub use errors::ReadError;
pub use value::Value;
