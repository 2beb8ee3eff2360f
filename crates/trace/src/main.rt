//! The program `trace` explains scripts, and who can spend an output to one, what becomes of the inputs of a transaction,
//! what each event of a scenario changes, and what a book has, for programs and for people.
//!
//! The modules `scripts`, `witnesses`, `scenarios` and `dumps` do what the words say. Each returns a status of at most 2.
//! They read their input by `read_all`, and write by a `Page`. This file has only the streams and the arguments.
#![tactic(auto)]

mod dumps;
mod formats;
mod names;
mod notes;
mod replies;
mod scenarios;
mod scripts;
mod witnesses;

use crate::replies::{WRONG_WORDS, refuse_words};
use script_notes::secret_note;
use std::alloc::Global;
use std::env;
use std::io::{self, Read, Write};
use std::process::ExitCode;
use streams::{refuse_memory, written};

// The note after words of which the first is none.
const HELP: &str = "note: trace --help says which words there are\n";

/// The program's name, and the words after it.
fn words(rt: &HostRuntime) -> io::Result<Vec<String>> {
    Ok(env::args(rt)?.collect(rt.alloc())?)
}

/// Does what the words after the program's name say. The first of them says which. Arguments that are not UTF-8 are wrong words, of which the usage is written.
fn run(
    alloc: Global,
    words: &io::Result<Vec<String>>,
    input: &mut dyn Read,
    out: &mut dyn Write,
    err: &mut dyn Write,
) -> u8 {
    match words {
        Ok(words) => match words.as_slice() {
            [_, word, rest @ ..] => {
                let (status, help) = run_word(alloc, word.as_str(), rest, input, out, err);
                if status == WRONG_WORDS {
                    say_secret(alloc, words, err);
                    refuse_words(err, help)
                } else {
                    status
                }
            }
            _ => refuse_words(err, HELP),
        },
        Err(error) => match error.kind() {
            io::ErrorKind::OutOfMemory => refuse_memory(out),
            _ => refuse_words(err, HELP),
        },
    }
}

/// Says that a private key is among wrong words, if one is.
fn say_secret(alloc: Global, words: &[String], err: &mut dyn Write) {
    if let Ok(note) = secret_note(alloc, words) {
        let _ = written(err, note.as_str(), WRONG_WORDS);
    }
}

/// Does what a word says, with the words after it, and returns the status, with the note after wrong words.
fn run_word(
    alloc: Global,
    word: &str,
    rest: &[String],
    input: &mut dyn Read,
    out: &mut dyn Write,
    err: &mut dyn Write,
) -> (u8, &'static str) {
    if word == "scenario" {
        (
            scenarios::run_words(alloc, rest, input, out, err),
            scenarios::HELP,
        )
    } else if word == "dump" {
        (dumps::run_words(alloc, rest, input, out), dumps::HELP)
    } else if word == "witness" {
        (
            witnesses::run_words(alloc, rest, input, out),
            witnesses::HELP,
        )
    } else if word == "script" {
        (scripts::run_words(alloc, rest, input, out), scripts::HELP)
    } else {
        (WRONG_WORDS, HELP)
    }
}

/// Runs the words that the program was called with.
fn main(rt: HostRuntime) -> ExitCode {
    let words = words(&rt);
    ExitCode::from(run(
        rt.alloc(),
        &words,
        &mut rt.stdin(),
        &mut rt.stdout(),
        &mut rt.stderr(),
    ))
}
