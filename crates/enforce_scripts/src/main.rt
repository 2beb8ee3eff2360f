//! The words of the program `enforce` that need no scenario, as a program of their own: `ripemd HEX` hashes a message, and `paths HEX` lists the ways through a script.
//!
//! It stands on few crates, so it is built and proved in a short time. `./enforce` runs it until the whole program is proved. It prints what that one prints, with the same notes and statuses:
//! `script_words` does what the words say, and `script_notes` makes the notes. No crate depends on it.
#![tactic(auto)]

use script_notes::call_notes;
use script_words::{refuse_memory, refuse_words, run_words};
use std::io::Write;
use std::process::ExitCode;
use std::{env, io};

// Writes the notes on a call. Notes that can't be made or written are left out.
fn write_notes(rt: &HostRuntime, words: &[String], status: u8) {
    if let Ok(notes) = call_notes(rt.alloc(), words, status) {
        let _ = rt.stderr().write_all(notes.as_bytes());
    }
}

/// Runs the words that the program was called with. Arguments that are not UTF-8 are wrong words.
fn main(rt: HostRuntime) -> ExitCode {
    let mut words = Vec::new(rt.alloc());
    let all = match env::args(&rt) {
        Ok(all) => all,
        Err(error) if error.kind() == io::ErrorKind::OutOfMemory => {
            return ExitCode::from(refuse_memory(&mut rt.stdout()));
        }
        Err(_) => return ExitCode::from(refuse_words(&mut rt.stderr())),
    };
    for word in all.skip(1) {
        if words.push(word).is_err() {
            return ExitCode::from(refuse_memory(&mut rt.stdout()));
        }
    }
    let status = run_words(
        rt.alloc(),
        words.as_slice(),
        &mut rt.stdout(),
        &mut rt.stderr(),
    );
    write_notes(&rt, words.as_slice(), status);
    ExitCode::from(status)
}
