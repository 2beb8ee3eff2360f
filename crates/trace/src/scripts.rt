//! The word `script` of the program `trace`: it explains scripts, for programs (JSON) and for people.
//!
//! `trace script HEX` explains the opcodes of a version 0 witness script and the ways through it. `trace script` does so for each script on standard input,
//! one a line. Each script gives one JSON object on a line, or, after the word `--text`, lines for people. [`run_words`] does what the words say, over any
//! reader and writers, and returns a status of at most 2. The names of opcodes, what a push looks like, each fact's sentence (`Sentence`) and each
//! witness's weight (`witness_weight`) are proved. Their layout is tested, not proved.
//!
//! `paths` lists the ways, and `facts` has what they ask for. The program `trace` passes it the words.
//!
//! ```rust
//! let status = run_words(alloc, words, &mut input, &mut out);
//! ```
//!
//! Tested by the recorded run of the program `trace`, and by the calls of `oracles/answers.py`.

ghost use Rattle.std.specs.Prelude.{◌≤◌};

mod json;
mod lines;
mod looks;
mod names;
mod opcodes;
mod pages;
mod parts;
mod places;
mod reading;
mod sentences;
mod templates;
mod weights;

use crate::formats::Form;
use crate::replies::WRONG_WORDS;
use crate::scripts::lines::{refuse_input, tell_text, told};
pub use names::opcode_name;
pub use places::byte_of;
use std::alloc::Global;
use std::io::{Read, Write};
use streams::read_all;

/// The note after wrong words.
pub const HELP: &str =
    "note: script takes one script in hexadecimal, after --text if that is wished, or reads scripts from standard input, one a line: trace script --text HEX\n";

/// Runs the word `script` on the words after it and returns its status: 0 when all scripts are listed, 1 for a refused script, refused input or a failed
/// write, 2 for wrong words, which are detected before any input is read. All text about a script is made before its first byte is written.
pub fn run_words(alloc: Global, words: &[String], input: &mut dyn Read, out: &mut dyn Write) -> u8
    ensures { result ≤ 2 }
{
    let (form, rest) = Form::read(words);
    match rest {
        [] => match read_all(alloc, input) {
            Ok(bytes) => tell_text(alloc, bytes.as_slice(), form, out),
            Err(refusal) => refuse_input(alloc, form, refusal, out),
        },
        [text] => told(alloc, text.as_str(), None, form, out),
        _ => WRONG_WORDS,
    }
}
