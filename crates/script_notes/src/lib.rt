//! Notes on scripts for the program `enforce`, for a person at a prompt.
//!
//! [`notes`] makes a text from a script in hexadecimal. It says where the script is at fault, what bytes and texts look like that are no witness script, which branches ended by a rule
//! that is stricter than consensus, which paths no witness meets, and what endangers money. [`call_notes`] makes the text for a call from its words and its status: it says also what
//! keeps a message from being hexadecimal, and what helps after wrong words. Both are pure functions, proved not to panic. What they say is tested, not proved, but for what `warnings`
//! decides, and for the notes that each branch ends as in consensus, and that nobody can spend by one: where they are written, nobody can in Bitcoin either (`strictness`).
//!
//! `paths` lists what it speaks of. `enforce_notes` makes the notes on scenarios beside these, `enforce_scripts` writes them where there are none, and `trace` has them in what it tells.
//!
//! ```rust
//! let notes = notes(alloc, "51b3")?;
//! assert_eq!(rt; notes.as_str(), "note: byte 1 is b3, OP_NOP4 in Bitcoin, which is not in the table\nnote: pushed before it: the number 1 at byte 0\n");
//! ```
//!
//! The test `names_opcodes_outside_the_table` of `notes_tests` has these lines.
#![tactic(auto)]

mod calls;
mod conflicts;
mod curve;
mod dates;
mod dead_ends;
mod decided;
mod keys;
mod looks;
mod names;
mod operands;
mod origins;
mod preimages;
mod pushes;
mod refusals;
mod risks;
mod scripts;
mod shortcuts;
mod sizes;
mod unknowns;

pub use calls::{call_notes, secret_note, text_of};
pub use curve::is_curve_x;
pub use decided::short_of;
pub use origins::{Origin, known_key, origin_of_hash, origin_of_point};
pub use risks::{MAX_RELAYED_ITEM, MAX_RELAYED_ITEMS, MAX_RELAYED_SCRIPT};
pub use scripts::notes;
pub use strictness::is_der;
