//! Dumps a book, and loads one from a dump.

ghost use Rattle.std.specs.Prelude.{◌≡◌, List, Some, Ok, IfOk, string_bytes};
ghost use Rattle.serde_json.specs.Read.{read};
ghost use Rattle.channel.specs.Tokens.{peer_tokens};
ghost use Rattle.book.specs.declared.calls.Entry.{Entry};
ghost use Rattle.book_dump.specs.Dumping.{dump_of, history_data};
ghost use Rattle.book_dump.specs.Loaded.{LoadsBy, loaded};

use crate::dumping::dump;
use crate::errors::LoadError;
use crate::reading::dump_in;
use crate::replaying::book_of;
use book::Book;
use std::alloc::{AllocError, Global};
use std::mem;

/// A book's calls: it is dumped as a text, loaded from one, and let go.
pub trait Dump: Sized {
    // the history that is dumped
    ghost history: { Self → List Entry };

    /// Dumps the book's history, which is loaded as the same. The only error is that memory ran out.
    fn dump(&self, alloc: Global) -> Result<String, AllocError>
        ensures text { IfOk result (λ text. string_bytes text ≡ dump_of (history self.now)) }
        ensures reads { IfOk result (λ text. read (string_bytes text) ≡ Some
            (history_data (history self.now))) }

        // What the text is loaded as.
        ensures loads { IfOk result (λ text. loaded peer_tokens (string_bytes text) ≡ Ok
            (history self.now)) };

    /// Loads a book from a dump of version 1, 2 or 3: its calls are made again, and each claim is accepted anew. Its refusals come in this order: invalid
    /// JSON (`NotJson`), another shape (`BadShape`), and the first entry that is not taken. Of an entry, the claims are tested first (`BadClaim`), then
    /// the call (`BadHistory`).
    fn load(alloc: Global, text: &str) -> Result<Self, LoadError>
        ensures { LoadsBy history result (loaded peer_tokens text.now) };

    /// Lets the book go without freeing what it holds. For a program that ends now, which frees all at once.
    fn leak(self);
}

impl Dump for Book {
    ghost history = { λ entries. entries };

    fn dump(&self, alloc: Global) -> Result<String, AllocError> {
        dump(alloc, self.entries())
    }

    #[tactic(auto, unfolding(crate::specs::Loaded::loaded))]
    fn load(alloc: Global, text: &str) -> Result<Book, LoadError> {
        match dump_in(alloc, text) {
            Ok(dump) => book_of(alloc, dump.history),
            Err(error) => Err(error),
        }
    }

    fn leak(self) {
        mem::forget(self);
    }
}
