//! The dump of a book: its history as a JSON text (RFC 8259), from which the same book is loaded.
//!
//! [`Dump`] gives a [`book::Book`] its calls. `dump` writes the history, which is loaded as the same. `load` makes its calls
//! again in a new book and accepts each claim anew, so it never trusts what the text says of a claim or a penalty set.
//! A text that is no history is refused, and [`errors::LoadError`] says why: [`laws::refusals_come_in_order`].
//!
//! `texts` has the JSON shapes of each call. `book` makes the calls.
//!
//! ```rust
//! let text = book.dump(alloc)?;
//! let loaded = Book::load(alloc, text.as_str()).expect(rt, "a book");
//! assert!(rt; loaded.entries().len() == book.entries().len());
//! ```
//!
//! The test `loads_what_was_kept` of `library_tests` makes both calls.
#![tactic(auto)]

mod dump;
pub mod dumping;
pub mod errors;
pub mod laws;
pub mod loading;
mod openings;
mod reading;
mod replaying;

pub use dump::Dump;
