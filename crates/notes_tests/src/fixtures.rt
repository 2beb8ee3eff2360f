//! Calls of the program, with the expected notes.

use enforce_notes::notes_of;
use std::alloc::{AllocError, Global};
use std::process::Abort;

/// Texts one after another.
pub fn joined(rt: &impl Abort, alloc: Global, pieces: &[&str]) -> String {
    let mut text = String::new(alloc);
    for piece in pieces {
        assert!(rt; text.push_str(piece).is_ok());
    }
    text
}

/// The words of a call.
pub fn words_of(rt: &impl Abort, alloc: Global, words: &[&str]) -> Vec<String> {
    let mut all = Vec::new(alloc);
    for word in words {
        let word = String::from_str(alloc, word).expect(rt, "memory");
        assert!(rt; all.push(word).is_ok());
    }
    all
}

/// Asserts the text of notes.
pub fn are_notes(rt: &impl Abort, text: Result<String, AllocError>, notes: &str) {
    let text = text.expect(rt, "memory");
    assert_eq!(rt; text.as_str(), notes);
}

/// Asserts the notes on a script.
pub fn noted_of(rt: &impl Abort, alloc: Global, code: &str, notes: &str) {
    let words = words_of(rt, alloc, &["paths", code]);
    are_notes(rt, notes_of(alloc, words.as_slice(), 0, None, &[]), notes);
}

/// Asserts the notes on a script, both in pieces.
pub(crate) fn noted_of_pieces(rt: &impl Abort, alloc: Global, code: &[&str], notes: &[&str]) {
    let code = joined(rt, alloc, code);
    let notes = joined(rt, alloc, notes);
    noted_of(rt, alloc, code.as_str(), notes.as_str());
}

/// Asserts the notes on scripts, each beside its own.
pub(crate) fn noted_of_each(rt: &impl Abort, alloc: Global, rows: &[(&str, &str)]) {
    for (code, notes) in rows {
        noted_of(rt, alloc, code, notes);
    }
}

/// Asserts the notes on a scenario that is not played, where `run` read these bytes.
pub fn noted_on(rt: &impl Abort, alloc: Global, text: &[u8], notes: &str) {
    let words = words_of(rt, alloc, &["run"]);
    are_notes(
        rt,
        notes_of(alloc, words.as_slice(), 1, Some(text), &[]),
        notes,
    );
}
