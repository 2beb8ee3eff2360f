//! Plays scenarios: each line of its input is one, and it prints what `enforce run` prints for it.
//!
//! A line `== NAME` is printed again. After a line `== chains`, the program rebuilds the chain of the next
//! scenario's end with calls. It prints what both ways to keep a chain answer to these calls. No crate depends on
//! the program. It calls `enforce_words`, and `world` and `chain` for the blocks.
#![tactic(auto)]

mod chains;

use enforce_words::run_words;
use page::{Page, Parts, show_parts};
use std::io;
use std::process::ExitCode;

/// Shows bytes that are text.
fn show_bytes(page: &mut Page, bytes: &[u8]) {
    match str::from_utf8(bytes) {
        Ok(text) => page.push(text),
        Err(_) => page.fail(),
    }
}

/// Shows what `enforce` prints for these words and this input.
fn show_words(page: &mut Page, words: &[String], input: &str) {
    let mut out: Vec<u8> = Vec::new(page.alloc());
    let mut err: Vec<u8> = Vec::new(page.alloc());
    let status = run_words(
        page.alloc(),
        words,
        &mut input.as_bytes(),
        &mut out,
        &mut err,
    );
    show_bytes(page, out.as_slice());
    page.count("status ", u64::from(status));
    page.push("\n");
}

/// Shows what `enforce run` prints.
fn show_run(page: &mut Page, line: &str) {
    match String::from_str(page.alloc(), "run") {
        Ok(run) => show_words(page, &[run], line),
        Err(_) => page.fail(),
    }
}

/// The scenarios of each part.
struct Runs;

impl Parts for Runs {
    fn show_lines(&self, page: &mut Page, name: &str, lines: &str) {
        for line in lines.lines() {
            if name == "chains" {
                chains::show(page, line);
            } else {
                show_run(page, line);
            }
        }
    }
}

fn main(rt: HostRuntime) -> ExitCode {
    let mut page = Page::new(rt.alloc());
    match io::read_to_string(rt.alloc(), rt.stdin()) {
        Ok(input) => show_parts(&Runs, &mut page, input.as_str()),
        Err(_) => page.fail(),
    }
    page.print(&rt)
}
