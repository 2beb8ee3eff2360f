//! The program of a node operator: `enforce ripemd HEX` hashes a message, `enforce paths HEX` lists the ways through
//! a script, `enforce run` plays the scenario on standard input, and `enforce node N` plays it in threads.
//!
//! `enforce_words::run_words` does what the words say, and returns a status of at most 2. `node_words::run_word` does so
//! for `node`, the one word that starts threads and may wait. This file has only the
//! streams and the arguments. After that, it writes the notes of `enforce_notes` on standard error: about refusals, about
//! rules that are stricter than consensus, and about what endangers money. They change no status.
#![tactic(auto)]

use enforce_notes::{Copied, Kept, notes_of};
use enforce_words::{refuse_memory, refuse_words, run_words};
use node_words::{run_word, workers_in};
use std::io::Write;
use std::process::ExitCode;
use std::{env, io};

// Writes the notes on a call. Notes that can't be made or written are left out.
fn write_notes(
    rt: &HostRuntime,
    words: &[String],
    status: u8,
    input: Option<&[u8]>,
    printed: &[u8],
) {
    if let Ok(notes) = notes_of(rt.alloc(), words, status, input, printed) {
        let _ = rt.stderr().write_all(notes.as_bytes());
    }
}

/// Runs the words that the program was called with. Arguments that are not UTF-8 are wrong words.
fn main(rt: HostRuntime) -> ExitCode {
    let mut words = Vec::new(rt.alloc());
    let all = match env::args(&rt) {
        Ok(all) => all,
        Err(error) if error.kind() == io::ErrorKind::OutOfMemory => {
            return ExitCode::from(refuse_memory(&mut rt.stdout()));
        }
        Err(_) => return ExitCode::from(refuse_words(&mut rt.stderr())),
    };
    for word in all.skip(1) {
        if words.push(word).is_err() {
            return ExitCode::from(refuse_memory(&mut rt.stdout()));
        }
    }
    let mut input = Kept::new(rt.alloc(), rt.stdin());
    let mut out = Copied::new(rt.alloc(), rt.stdout());
    let status = match workers_in(words.as_slice()) {
        Some(workers) => run_word(
            &rt,
            rt.alloc(),
            workers,
            &mut input,
            &mut out,
            &mut rt.stderr(),
        ),
        None => run_words(
            rt.alloc(),
            words.as_slice(),
            &mut input,
            &mut out,
            &mut rt.stderr(),
        ),
    };
    write_notes(
        &rt,
        words.as_slice(),
        status,
        input.all_bytes(),
        out.all_bytes(),
    );
    ExitCode::from(status)
}
