// What is written of wrong words.

ghost use Rattle.std.specs.Prelude.{◌≤◌};

use std::io::Write;
use streams::written;

/// The status for wrong words.
pub const WRONG_WORDS: u8 = 2;

/// The line that is printed for wrong words.
pub const USAGE: &str =
    "usage: trace scenario [--strict | --dump A|B] | dump | script [--text] [HEX] | witness [--text] [--lines]\n";

/// Handles wrong words: writes the usage, and after it a note that helps. Where the note can't be written, nothing else changes.
pub fn refuse_words(err: &mut dyn Write, help: &str) -> u8
    ensures { result ≤ 2 }
{
    let status = written(err, USAGE, WRONG_WORDS);
    let _ = err.write_all(help.as_bytes());
    status
}
