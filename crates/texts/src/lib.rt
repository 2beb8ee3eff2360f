//! Readers and writers of the JSON shapes of a node: terms, updates, messages, claims, and the calls of a dump
//! (RFC 8259).
//!
//! A value is read exactly where it has the shape, barring out-of-memory. A missing member, a member that the shape
//! lacks, or one of another kind refuses the whole value. Readers check shape only; callers validate, as `claim`
//! does a claim and `book_dump` a call. [`FromValue`] reads what needs no allocation, [`ReadValue`] the rest.
//! [`WriteValue`] writes the value that is read back as the same.
//!
//! `json_value` has the JSON values that are read, and `serde_json` those that are written. `terms`, `updates` and
//! `claim` have the types that both stand for.
//! `scenario` reads scenarios with these shapes, and `book_dump` writes and loads a book's dump.
//!
//! ```rust
//! let value = Value::from_str(alloc, "[\"fail\",1]")?;
//! assert!(rt; Update::from_value(&value) == Some(Update::Fail { id: 1 }));
//! ```
//!
//! The test `reads_updates` of `book_tests` reads this value.
#![tactic(auto)]

mod agreement;
mod allocating;
mod call_writing;
mod calls;
mod claim_writing;
mod claims;
mod compound;
mod errors;
mod key_bytes;
pub mod laws;
mod messages;
mod outpoints;
mod outputs;
mod steps;
mod values;
mod writing;

pub use allocating::{ReadValue, bytes_of, list_of, read_item, read_member};
pub use call_writing::{
    write_close, write_dump, write_entry, write_keep, write_own, write_receive, write_release,
    write_revoke, write_sign,
};
pub use calls::{PlainCall, PlainDump, PlainEntry, PlainOpening};
pub use claims::PlainClaim;
pub use errors::ShapeError;
pub use steps::{PlainStep, own_named};
pub use values::{FromValue, array_of, item, member, name_at, object_of, tag_of};
pub use writing::{WriteValue, write_bytes, write_each};
