//! Notes on the output of the program `enforce`, for a person at a prompt.
//!
//! [`notes_of`] makes a text from the words of a call, its status, the input that was read and what was printed. It says where a script or a scenario is at fault, what bytes and texts look
//! like that are no witness script, which branches ended by a rule that is stricter than consensus, which paths no witness meets, what endangers money, which
//! member of a scenario stands twice, and which HTLCs cost their receiver money. It is a pure function, proved not to panic. What it says is tested, not proved, but for whether a member stands twice (`json_names`).
//! [`scenario_notes`] is the part of it that reads a refused scenario, [`played_notes`] the part on a played one, and [`repeat_notes`] the part on members. [`Kept`] is a reader and [`Copied`] a writer that keep what passes through them.
//!
//! `script_notes` makes the notes on scripts, messages and wrong words. `enforce` writes the notes on standard error, after all that `enforce_words` printed. They change no status.
//! `trace` has them in what it tells.
//!
//! ```rust
//! let notes = notes_of(alloc, words, 1, Some(&[]), &[])?; // of `paths 51b3`
//! assert_eq!(rt; notes.as_str(), "note: byte 1 is b3, OP_NOP4 in Bitcoin, which is not in the table\nnote: pushed before it: the number 1 at byte 0\n");
//! ```
//!
//! The test `names_opcodes_outside_the_table` of `notes_tests` has these lines.
#![tactic(auto)]

mod closings;
mod courses;
mod fails;
mod forms;
mod late;
mod messages;
mod names;
mod played;
mod proposals;
mod readers;
mod refused;
mod repeats;
mod scenarios;
mod sources;
mod stakes;
mod uncounted;
mod writers;

pub use played::played_notes;
pub use readers::Kept;
use refused::refused_in;
pub use repeats::repeat_notes;
pub use scenarios::scenario_notes;
use script_notes::call_notes;
use std::alloc::{AllocError, Global};
pub use writers::Copied;

/// The notes on a call, a line each; empty if there are none. `words` are those of the call (without the program's name), `status` is its exit status, `input` is all
/// that it read, or `None` if a read failed, and `printed` all that it printed. The only error is that memory ran out.
pub fn notes_of(
    alloc: Global,
    words: &[String],
    status: u8,
    input: Option<&[u8]>,
    printed: &[u8],
) -> Result<String, AllocError> {
    match words {
        [name] if name.as_str() == "run" && status <= 1 => {
            let refused = refused_in(alloc, printed)?;
            input_notes(alloc, status, false, refused.as_slice(), input)
        }
        [name, _] if name.as_str() == "node" && status <= 1 => input_notes(
            alloc,
            status,
            true,
            &[],
            input,
        ),
        _ => call_notes(alloc, words, status),
    }
}

// The notes on the text of a scenario, which threads may have played, and which refused these events; none if it could not be read.
fn input_notes(
    alloc: Global,
    status: u8,
    in_threads: bool,
    refused: &[usize],
    input: Option<&[u8]>,
) -> Result<String, AllocError> {
    match input {
        Some(input) if status == 1 => scenario_notes(alloc, input),
        Some(input) => played_notes(alloc, in_threads, refused, input),
        None => Ok(String::new(alloc)),
    }
}
