//! The words of the program `enforce`, and the status and text that they lead to.
//!
//! `enforce ripemd HEX` hashes a message, `enforce paths HEX` lists the ways through a script, and `enforce run` plays the scenario
//! on standard input. [`run_words`] does what the words say, over any reader and writers, and returns a status of at most 2. What it
//! prints is tested, not proved.
//!
//! `script_words` has the words that need no scenario, and `world` plays what `scenario` reads. The programs `enforce` and `runs` pass it the words. The
//! word `node` starts threads; it stands in `node_words`, so that these words need no leave to wait.
//!
//! ```rust
//! let status = run_words(alloc, words, &mut input, &mut out, &mut err);
//! ```
//!
//! The program's whole output is tested in `enforce_tests`.
#![tactic(auto)]

ghost use Rattle.std.specs.Prelude.{◌≤◌};

mod answers;
mod endings;
mod errors;
mod playing;
mod refused;

use crate::answers::{Command, answer};
pub use endings::push_all_kept;
pub use errors::CommandError;
pub use playing::scenario_in;
pub use refused::note_refused;
pub use script_words::{USAGE, finish, refuse_memory, refuse_words};
use std::alloc::Global;
use std::io::{Read, Write};

/// Runs the program on its words (without its name) and returns its status: 0 when done, 1 for refused input or a failed write, 2 for
/// wrong words, which are detected before any input is read. The whole text is made before its first byte is written. Of a scenario that was played, a note on its first refused event is
/// written to `err` after it; where that note can't be made or written, nothing else changes.
pub fn run_words<R: Read, W: Write, E: Write>(
    alloc: Global,
    words: &[String],
    input: &mut R,
    out: &mut W,
    err: &mut E,
) -> u8
    ensures { result ≤ 2 }
{
    let Some(command) = Command::read(words) else {
        return refuse_words(err);
    };
    let mut note = String::new(alloc);
    let text = answer(alloc, &command, input, &mut note);
    let status = finish(alloc, out, text);
    say_notes(err, note.as_str());
    status
}

/// Writes notes, if there are any. Where that fails, nothing else changes.
pub fn say_notes<E: Write>(err: &mut E, notes: &str) {
    if !notes.is_empty() {
        let _ = err.write_all(notes.as_bytes());
    }
}
