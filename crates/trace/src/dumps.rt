//! The word `dump` of the program `trace`: it loads a book's dump, and writes what the book has as JSON, channel by channel.
//!
//! [`run_words`] loads the dump in the input, the JSON text that `Book::dump` writes. It writes one JSON object a line. Each channel has its commitments and
//! the HTLCs in them, and what this side can claim if the peer closes now, or broadcasts a revoked commitment. The last line is the book's. It
//! returns a status of at most 2. What is loaded, which commitments stand and what can be claimed is exact: `load_dump`, `commitment`, `claims_of`.
//! The layout of the lines is tested, not proved.
//!
//! `book` loads the dump, `channel` has the commitments, and `commit` the amounts of their outputs. The program `trace` passes its streams.
//!
//! ```rust
//! let status = run_words(alloc, words, &mut input, &mut out);
//! ```
//!
//! Tested by `oracles/dumps.py`, which finds anew what it has to write, and by the calls of `oracles/answers.py`.

ghost use Rattle.std.specs.Prelude.{◌≤◌};

mod claims;
mod loading;
mod preimages;
mod received;
mod standing;
mod telling;

use crate::dumps::preimages::note_preimages;
use crate::dumps::telling::tell_book;
use crate::replies::WRONG_WORDS;
use book::Book;
use book_dump::Dump as _;
use book_dump::errors::LoadError;
use enforce_notes::repeat_notes;
use loading::load_dump;
use page::Page;
use page::Piece::Count;
use script_notes::text_of;
use std::alloc::{AllocError, Global};
use std::io::{Read, Write};
use streams::{InputError, read_all, refuse_memory, write_refusal, write_told};

/// The note after wrong words.
pub const HELP: &str =
    "note: dump takes no more words, and reads the dump of a book from standard input: trace dump <FILE\n";

/// Runs the word `dump` on the words after it, of which there has to be none, and returns its status: 0 when all lines of the dump in the input are written, 1 for a refused dump, a failed
/// write, or if memory ran out, 2 for wrong words, which are detected before any input is read. All lines are made before the first byte is written. A refusal is written with its number: that
/// of the book's, or for input that can't be read one after them.
pub fn run_words(alloc: Global, words: &[String], input: &mut dyn Read, out: &mut dyn Write) -> u8
    ensures { result ≤ 2 }
{
    if !words.is_empty() {
        return WRONG_WORDS;
    }
    match read_all(alloc, input) {
        Ok(bytes) => {
            let mut line = Page::new(alloc);
            let status = tell_dump(alloc, &mut line, bytes.as_slice());
            write_told(out, &mut line, status)
        }
        Err(InputError::NoMemory) => refuse_memory(out),
        Err(error) => {
            let number = u64::from(error.number()) + 4;
            write_refusal(alloc, out, error.text(), Some(number))
        }
    }
}

// The notes on a book, and on the text of its dump.
fn notes_of(alloc: Global, book: &Book, bytes: &[u8]) -> Result<String, AllocError> {
    let mut notes = repeat_notes(alloc, bytes)?;
    let mut page = Page::new(alloc);
    note_preimages(&mut page, book);
    let text = text_of(&page)?;
    notes.push_str(text.as_str())?;
    Ok(notes)
}

// Writes the lines of the dump in the bytes, or why it is refused, and returns the status.
fn tell_dump(alloc: Global, line: &mut Page, bytes: &[u8]) -> u8
    ensures { result ≤ 1 }
{
    match load_dump(alloc, bytes) {
        Ok(book) => {
            match notes_of(alloc, &book, bytes) {
                Ok(notes) => tell_book(alloc, line, &book, notes.as_str()),
                Err(_) => line.fail(),
            }
            book.leak();
            0
        }
        Err(LoadError::NoMemory) => {
            line.fail();
            1
        }
        Err(error) => {
            line.push(r#"{"refused":""#);
            line.show(&error);
            line.write("\",\"number\":%}\n", &[Count(u64::from(error.number()))]);
            1
        }
    }
}
