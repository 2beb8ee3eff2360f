//! The program `spend` makes the unsigned transaction that spends given outputs, and says which signatures it lacks, and where. Its words `revoked` and
//! `close` tell which outputs of a transaction a commitment lets one claim that is revoked, or that closed a channel and is not.
//!
//! It reads one JSON object on standard input: the outputs, each as a claim of a book's dump, the preimages that they want, the script that is paid, and the
//! feerate. The main contracts are those of [`asked_in`](asking) and [`plan_of`](plans): what is asked is what the bytes spell, and the transaction and the
//! signatures are those of `filling::unsigned_spend`, with the fee taken off by the weight that the signed transaction has at most. Of a revoked commitment
//! [`answer_of`](revoked_answers) gives what `revoked::claims_in` finds, and of another one
//! [`close_answer_of`](close_answers) what `unilateral::claims_in` does, so no output is left out. The layout of what is printed is tested, not proved.
//!
//! `texts` reads claims, `plain_claims` accepts them, and `filling` makes the transaction. This file has only the streams and the arguments.
#![tactic(auto)]

mod asking;
mod causes;
mod close_answers;
mod close_requests;
mod destinations;
mod dust;
mod errors;
mod found_notes;
mod inputs;
mod notes;
mod open_scripts;
mod outputs;
mod outputs_at_fault;
mod plans;
mod request_bytes;
mod requests;
mod revoked_answers;
mod revoked_requests;
mod shapes;
mod telling;
mod weights;

use crate::telling::{Question, run};
use script_notes::secret_note;
use std::alloc::Global;
use std::env;
use std::io::{self, Read, Write};
use std::process::ExitCode;
use streams::{refuse_memory, written};

/// The line that is printed for wrong words.
const USAGE: &str =
    "usage: spend, spend revoked or spend close, with a request on standard input\n";

/// The words after the program's name.
fn words(rt: &HostRuntime) -> io::Result<Vec<String>> {
    Ok(env::args(rt)?.skip(1).collect(rt.alloc())?)
}

// What words ask.
fn question_of(words: &[String]) -> Option<Question> {
    match words {
        [] => Some(Question::Spend),
        [word] if word.as_str() == "revoked" => Some(Question::Revoked),
        [word] if word.as_str() == "close" => Some(Question::Close),
        _ => None,
    }
}

/// Writes the usage after wrong words, and a note on a private key among them.
fn refuse_words(alloc: Global, words: &[String], err: &mut dyn Write) -> u8 {
    if let Ok(note) = secret_note(alloc, words) {
        let _ = written(err, note.as_str(), 2);
    }
    written(err, USAGE, 2)
}

/// Answers what the words ask. Arguments that are not UTF-8 are wrong words.
fn run_words(
    alloc: Global,
    words: &io::Result<Vec<String>>,
    input: &mut dyn Read,
    out: &mut dyn Write,
    err: &mut dyn Write,
) -> u8 {
    match words {
        Ok(words) => match question_of(words) {
            Some(question) => run(alloc, question, input, out, err),
            None => refuse_words(alloc, words, err),
        },
        Err(error) => match error.kind() {
            io::ErrorKind::OutOfMemory => refuse_memory(out),
            _ => written(err, USAGE, 2),
        },
    }
}

/// Runs the words that the program was called with.
fn main(rt: HostRuntime) -> ExitCode {
    let words = words(&rt);
    ExitCode::from(run_words(
        rt.alloc(),
        &words,
        &mut rt.stdin(),
        &mut rt.stdout(),
        &mut rt.stderr(),
    ))
}
