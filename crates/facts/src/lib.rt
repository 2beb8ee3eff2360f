//! Symbols, and the facts about a witness and a spend that decide how a script runs.
//!
//! A [`Fact`] means what `specs/Meaning.antt` says (`holds_of`), under a spend and the items of a witness. A
//! [`Stated`] fact, with whether it is to hold, prints exactly its text.
//!
//! `script` defines the runs that the facts are about. `paths` writes down as facts what each opcode asks, `claim`
//! says which of them its slots meet, and `script_words` prints them.
//!
//! ```
//! let truth = Stated { fact: Fact::Truth(0), holds: true };
//! assert_eq!(rt; format!(in alloc; "{truth}")?.as_str(), "truth 0 yes");
//! ```
//!
//! The test `prints_a_truth` of `script_tests` has these lines.
#![tactic(auto)]

pub mod sameness;
pub mod symbols;
pub mod texts;

pub use symbols::{Fact, FactOver, KeySource, KeySourceOver, Stated, StatedOver, Sym, SymOver};
