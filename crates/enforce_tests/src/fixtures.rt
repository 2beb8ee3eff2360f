//! Calls of the programs, with their expected output.

use enforce_words::run_words;
use std::alloc::Global;
use std::io;
use std::process::Abort;

/// A writer whose every write fails.
#[derive(Drop)]
pub struct Broken;

impl io::Write for Broken {
    fn write(&mut self, _bytes: &[u8]) -> io::Result<usize> {
        Err(io::Error::from(io::ErrorKind::BrokenPipe))
    }

    fn flush(&mut self) -> io::Result<()> {
        Ok(())
    }
}

/// A writer that takes every byte, and fails on a flush.
#[derive(Drop)]
pub struct Unflushed;

impl io::Write for Unflushed {
    fn write(&mut self, bytes: &[u8]) -> io::Result<usize> {
        Ok(bytes.len())
    }

    fn flush(&mut self) -> io::Result<()> {
        Err(io::Error::from(io::ErrorKind::BrokenPipe))
    }
}

/// Texts one after another.
pub fn joined(rt: &impl Abort, alloc: Global, pieces: &[&str]) -> String {
    let mut text = String::new(alloc);
    for piece in pieces {
        text.push_str(piece).expect(rt, "memory");
    }
    text
}

/// A text repeated a number of times, followed by another one.
pub fn repeated(rt: &impl Abort, alloc: Global, piece: &str, times: usize, end: &str) -> String {
    let mut text = String::new(alloc);
    for _ in 0..times {
        text.push_str(piece).expect(rt, "memory");
    }
    text.push_str(end).expect(rt, "memory");
    text
}

/// The words of a call.
fn words_of(rt: &impl Abort, alloc: Global, words: &[&str]) -> Vec<String> {
    let mut all = Vec::new(alloc);
    for word in words {
        let word = String::from_str(alloc, word).expect(rt, "memory");
        assert!(rt; all.push(word).is_ok());
    }
    all
}

/// Asserts the output and the status of a call that may read this input.
pub fn prints_of<R: io::Read>(
    rt: &impl Abort,
    alloc: Global,
    words: &[&str],
    input: &mut R,
    out: &str,
    err: &str,
    status: u8,
) {
    let all = words_of(rt, alloc, words);
    let mut printed: Vec<u8> = Vec::new(alloc);
    let mut complained: Vec<u8> = Vec::new(alloc);
    let answered = run_words(alloc, all.as_slice(), input, &mut printed, &mut complained);
    assert_eq!(rt; printed.as_slice(), out.as_bytes());
    assert_eq!(rt; complained.as_slice(), err.as_bytes());
    assert_eq!(rt; answered, status);
}

/// Asserts the output and the status of a call with this text as its input.
pub fn prints(
    rt: &impl Abort,
    alloc: Global,
    words: &[&str],
    input: &str,
    out: &str,
    err: &str,
    status: u8,
) {
    prints_of(rt, alloc, words, &mut input.as_bytes(), out, err, status);
}

/// Asserts what `run` notes on a scenario that is played.
pub fn noted(rt: &impl Abort, alloc: Global, input: &str, note: &str) {
    let all = words_of(rt, alloc, &["run"]);
    let mut input = input.as_bytes();
    let mut printed: Vec<u8> = Vec::new(alloc);
    let mut complained: Vec<u8> = Vec::new(alloc);
    let status = run_words(
        alloc,
        all.as_slice(),
        &mut input,
        &mut printed,
        &mut complained,
    );
    assert_eq!(rt; complained.as_slice(), note.as_bytes());
    assert_eq!(rt; status, 0);
}

/// Asserts that a call fails whose output can't be written.
pub fn breaks(rt: &impl Abort, alloc: Global, words: &[&str], input: &str) {
    let all = words_of(rt, alloc, words);
    let mut input = input.as_bytes();
    let status = run_words(alloc, all.as_slice(), &mut input, &mut Broken, &mut Broken);
    assert_eq!(rt; status, 1);
}

/// Asserts that a call fails whose output can't be flushed.
pub fn is_unflushed(rt: &impl Abort, alloc: Global, words: &[&str]) {
    let all = words_of(rt, alloc, words);
    let mut input: &[u8] = &[];
    let status = run_words(
        alloc,
        all.as_slice(),
        &mut input,
        &mut Unflushed,
        &mut Unflushed,
    );
    assert_eq!(rt; status, 1);
}
