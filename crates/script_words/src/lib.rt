//! The words of the program `enforce` that need no scenario, and the status and text that they lead to.
//!
//! `ripemd HEX` hashes a message, and `paths HEX` lists the ways through a script. [`run_words`] does what the words say, over any writers, and returns a status of
//! at most 2. What it prints is tested, not proved, but for [`paths_text`], the whole text that `paths` prints of a listing. [`finish`] writes a text and returns the status.
//!
//! `digest` hashes, and `paths` lists. `enforce_words` has the word `run` beside these, and the program `enforce_scripts` has them alone, so that it is built in a short time.
//! `enforce_c` gives the text of a listing to programs in C.
//!
//! ```rust
//! let status = run_words(alloc, words, &mut out, &mut err);
//! ```
//!
//! The whole output is tested in `enforce_tests`.
#![tactic(auto)]

ghost use Rattle.std.specs.Prelude.{◌≡◌, ◌≤◌, ◌⊎◌, MatchResult};
ghost use Rattle.std.specs.Io.KnownBytes.{Appends};

mod answers;
mod errors;
mod listings;

pub use answers::{ScriptWord, answer};
pub use errors::ScriptError;
pub use listings::paths_text;
use std::alloc::Global;
use std::fmt::{Display, Write as _};
use std::io::Write;

/// The line that is printed for wrong words.
pub const USAGE: &str = "usage: enforce ripemd HEX | paths HEX | run | node N\n";

/// Does what the words say (without the program's name), and returns the status: 0 when done, 1 for refused input or a failed write, 2 for words
/// that are neither `ripemd HEX` nor `paths HEX`. The whole text is made before its first byte is written.
pub fn run_words<W: Write, E: Write>(
    alloc: Global,
    words: &[String],
    out: &mut W,
    err: &mut E,
) -> u8
    ensures { result ≤ 2 }
{
    let Some(word) = ScriptWord::read(words) else {
        return refuse_words(err);
    };
    finish(alloc, out, answer(alloc, &word))
}

/// Writes the text of a word, or why its input is refused, and returns the status: 0 when the whole text is written, 1 for refused input or a failed write.
pub fn finish<W: Write, E: Display + Drop>(
    alloc: Global,
    out: &mut W,
    text: Result<String, E>,
) -> u8
    ensures { MatchResult text
        (λ t. (result ≡ 1) ⊎ ((result ≡ 0)
        × Appends (W.contents out.old) (W.contents out.new) t.bytes.items))
        (λ _. result ≡ 1) }
{
    match text {
        Ok(text) => written(out, text.as_str(), 0),
        Err(refusal) => match format!(in alloc; "refused {refusal}\n") {
            Ok(text) => written(out, text.as_str(), 1),
            Err(_) => refuse_memory(out),
        },
    }
}

/// Handles wrong words: writes the usage, and returns 2, or 1 if the write fails.
pub fn refuse_words<E: Write>(err: &mut E) -> u8
    ensures { (result ≡ 2) ⊎ (result ≡ 1) }
{
    written(err, USAGE, 2)
}

/// Reports that memory ran out.
pub fn refuse_memory<W: Write>(out: &mut W) -> u8
    ensures { result ≡ 1 }
{
    written(out, "refused NoMemory\n", 1)
}

// Writes a text, and returns the status, or 1 if the write fails.
#[tactic(auto, using(crate::proofs::Writing::appended))]
fn written<W: Write>(out: &mut W, text: &str, status: u8) -> u8
    ensures status { (result ≡ status) ⊎ (result ≡ 1) }
    ensures text { (result ≡ 1) ⊎ ((result ≡ status)
        × Appends (W.contents out.old) (W.contents out.new) text.now) }
{
    match out.write_all(text.as_bytes()) {
        Ok(()) => match out.flush() {
            Ok(()) => status,
            Err(_) => 1,
        },
        Err(_) => 1,
    }
}
