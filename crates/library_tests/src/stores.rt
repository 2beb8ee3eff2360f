//! The file in which a book's history is kept.

use anyhow::{Context, Result};
use book::{Book, Entry, message_of};
use book_dump::dumping::dump;
use book_dump::loading::entry_of;
use json_value::Value;
use std::alloc::Global;
use std::fs;
use std::fs::{File, OpenOptions};
use std::io::Write;
use texts::{PlainDump, PlainEntry, ReadValue};

/// The file of a history: a line for each write, with the entries since the one before.
#[derive(Drop)]
pub struct Store {
    file: File,
    written: usize,
}

/// Writes the entries since the last write. What the last call gave may be sent then.
pub fn persist(alloc: Global, book: &Book, store: &mut Store) -> Result<()> {
    let entries = book.entries();
    let new = entries
        .get(store.written..)
        .context("another book's store")?;
    let mut line = dump(alloc, new)?;
    line.push('\n')?;
    store.file.write_all(line.as_bytes())?;
    store.file.sync_all()?;
    store.written = entries.len();
    Ok(())
}

/// Makes a store where there is no file.
pub fn begin(rt: &HostRuntime, path: &str) -> Result<()> {
    let file = File::create_new(rt, path)?;
    let mut store = Store { file, written: 0 };
    persist(rt.alloc(), &Book::new(rt.alloc()), &mut store)
}

/// Opens a store, and makes its calls again. A last line without its end was not written whole,
/// so nothing of it was sent: it is cut off.
pub fn restart(rt: &HostRuntime, path: &str) -> Result<(Book, Store)> {
    let text = fs::read_to_string(rt, path)?;
    let (lines, _torn) = text.as_str().rsplit_once('\n').context("no store")?;
    let mut book = Book::new(rt.alloc());
    for line in lines.lines() {
        replay(rt.alloc(), &mut book, line)?;
    }
    let file = cut(rt, path, lines.len() + 1)?;
    let written = book.entries().len();
    Ok((book, Store { file, written }))
}

// Makes the calls of a line.
fn replay(alloc: Global, book: &mut Book, line: &str) -> Result<()> {
    let value = Value::from_str(alloc, line).ok().context("no JSON")?;
    let dump = PlainDump::read_value(alloc, &value)?;
    for plain in dump.history.into_vec() {
        make(alloc, book, plain)?;
    }
    Ok(())
}

// Makes the call of an entry.
fn make(alloc: Global, book: &mut Book, plain: PlainEntry) -> Result<()> {
    let Entry { seat, call } = entry_of(alloc, plain)?;
    let reply = book.call(seat, call);
    message_of(reply).ok().context("a refused entry")?;
    Ok(())
}

// Opens a file, cut to this length.
fn cut(rt: &HostRuntime, path: &str, length: usize) -> Result<File> {
    let file = OpenOptions::new().append(true).open(rt, path)?;
    file.set_len(length as u64)?;
    file.sync_all()?;
    Ok(file)
}
