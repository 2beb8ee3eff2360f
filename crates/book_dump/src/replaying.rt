// Makes the calls of a dump again, in a new book.

ghost use Rattle.std.specs.Prelude.{◌≡◌, [], ◌∷◌};
ghost use Rattle.channel.specs.Tokens.{peer_tokens};
ghost use Rattle.book_dump.specs.Loaded.{Loads, fault_at, history_after_plain};
ghost use Rattle.book_dump.specs.Entering.{Enters, TakesOne};

use crate::errors::{EntryError, LoadError};
use crate::loading::entry_of;
use book::{Book, Entry, message_of};
use lists::List;
use std::alloc::Global;
use texts::PlainEntry;

// Why an entry is not added to a book.
#[derive(Drop)]
enum Stop {
    NoMemory,
    Refused,
}

// Makes the call of an entry, which adds it to the book.
#[tactic(auto, using(crate::proofs::Entering::entered, crate::proofs::Entering::refused))]
fn enter(book: &mut Book, entry: Entry) -> Result<(), Stop>
    ensures { Enters result book.old book.new entry }
{
    let Entry { seat, call } = entry;
    match message_of(book.call(seat, call)) {
        Ok(message) => {
            drop(message);
            Ok(())
        }
        Err(refused) => {
            let wants = refused.is_out_of_memory();
            drop(refused);
            Err(if wants { Stop::NoMemory } else { Stop::Refused })
        }
    }
}

// The refusal of the entry at an index.
fn fault_at(index: usize, error: EntryError) -> LoadError
    ensures { result ≡ fault_at index error }
{
    match error {
        EntryError::NoMemory => LoadError::NoMemory,
        EntryError::BadShape => LoadError::BadShape,
        EntryError::BadClaim => LoadError::BadClaim(index),
    }
}

// Adds the entry that a plain one stands for after those of the book.
fn take_one(alloc: Global, book: &mut Book, plain: PlainEntry) -> Result<(), LoadError>
    ensures { TakesOne result book.old book.new plain }
{
    let index = book.entries().len();
    let entry = match entry_of(alloc, plain) {
        Ok(entry) => entry,
        Err(error) => return Err(fault_at(index, error)),
    };
    match enter(book, entry) {
        Ok(()) => Ok(()),
        Err(stop) => match stop {
            Stop::NoMemory => Err(LoadError::NoMemory),
            Stop::Refused => Err(LoadError::BadHistory(index)),
        },
    }
}

/// Replays plain entries, the oldest first.
pub(crate) fn book_of(alloc: Global, history: List<PlainEntry>) -> Result<Book, LoadError>
    ensures { Loads result (history_after_plain peer_tokens 0 [] history) }
{
    let mut book = Book::new(alloc);
    for plain in history.into_vec() {
        take_one(alloc, &mut book, plain)?;
    }
    Ok(book)
}
