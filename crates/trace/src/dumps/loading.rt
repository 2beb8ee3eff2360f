// Loads a dump.

ghost use Rattle.book_dump.specs.Loaded.{Loads};
ghost use Rattle.trace.specs.Loading.{book_in};

use book::Book;
use book_dump::Dump;
use book_dump::errors::LoadError;
use std::alloc::Global;

/// The book of a dump. Refused as `NotJson` where the bytes are not UTF-8 text, and else as [`Book::load`] refuses the text.
#[tactic(auto, using(crate::proofs::Texts::is_text, crate::proofs::Texts::no_text))]
pub fn load_dump(alloc: Global, bytes: &[u8]) -> Result<Book, LoadError>
    ensures { Loads result (book_in bytes.now) }
{
    match str::from_utf8(bytes) {
        Ok(text) => Book::load(alloc, text),
        Err(_) => Err(LoadError::NotJson),
    }
}
