// Notes on calls that read no scenario.

use crate::looks::note_private_key;
use crate::scripts::{message_notes, notes};
use page::Page;
use std::alloc::{AllocError, Global};

/// The text of notes. The only error is that memory ran out, for it or for a note.
pub fn text_of(notes: &Page) -> Result<String, AllocError> {
    match notes.whole() {
        Some(text) => String::from_str(notes.alloc(), text),
        None => Err(AllocError),
    }
}

/// The notes on a call that reads no scenario, a line each; empty if there are none. `words` are those of the call (without the program's name), and `status` is its exit status: 2 after
/// wrong words. The only error is that memory ran out.
pub fn call_notes(alloc: Global, words: &[String], status: u8) -> Result<String, AllocError> {
    match words {
        _ if status == 2 => help(alloc, words),
        [name, text] if name.as_str() == "paths" => notes(alloc, text.as_str()),
        [name, text] if name.as_str() == "ripemd" => message_notes(alloc, text.as_str()),
        _ => Ok(String::new(alloc)),
    }
}

/// The note on a private key among the words of a call, also one of several words; empty if there is none. The only error is that memory ran out.
pub fn secret_note(alloc: Global, words: &[String]) -> Result<String, AllocError> {
    let mut notes = Page::new(alloc);
    note_secret(&mut notes, words);
    text_of(&notes)
}

// Notes a private key among words.
fn note_secret(notes: &mut Page, words: &[String]) {
    let mut text = Page::new(notes.alloc());
    for word in words {
        text.push(word.as_str());
        text.push(" ");
    }
    match text.whole() {
        Some(text) => note_private_key(notes, text),
        None => notes.fail(),
    }
}

// Notes on wrong words: a private key among them, and what the first of them wants.
fn help(alloc: Global, words: &[String]) -> Result<String, AllocError> {
    let mut notes = Page::new(alloc);
    note_secret(&mut notes, words);
    notes.push(match words.split_first() {
        Some((name, _)) => wanted_by(name.as_str()),
        None => HELP,
    });
    text_of(&notes)
}

// How to find all words.
const HELP: &str = "note: enforce --help says which words there are\n";

// What a word wants.
fn wanted_by(name: &str) -> &'static str {
    if name == "run" {
        "note: run takes no more words, and reads the scenario from standard input: enforce run <FILE\n"
    } else if name == "node" {
        "note: node takes the number of workers of a side, from 1 to 16, and reads the scenario from standard input: enforce node 4 <FILE\n"
    } else if name == "paths" {
        "note: paths takes one word, bytes in hexadecimal, and reads no input: enforce paths HEX\n"
    } else if name == "ripemd" {
        "note: ripemd takes one word, bytes in hexadecimal, and reads no input: enforce ripemd HEX\n"
    } else {
        HELP
    }
}
