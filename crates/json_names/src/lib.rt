//! Names that stand twice in an object of a JSON text (RFC 8259).
//!
//! Of such members a reader keeps the last one, where a person sees the first. [`first_repeated_member`] names one exactly where some object, at any depth, has a name
//! twice (`RepeatsMember`), barring out-of-memory. Which one it names is tested, not proved: the first in the order of the text.
//!
//! It stands on the toolchain's `json` alone. The program `spend` refuses a request by it, and `enforce_notes` and `trace` note the member.
//!
//! ```rust
//! let member = first_repeated_member(alloc, b"{\"fee\":1,\"fee\":2}")?.unwrap();
//! assert_eq!(rt; member.name.as_str(), "fee");
//! assert_eq!(rt; member.at, 9);
//! ```
//!
//! `real/test` tries requests that repeat a member.
#![tactic(auto)]

mod repeats;

pub use repeats::{RepeatedMember, first_repeated_member};
