//! Plays with books, and with what is due of a channel: `stdin` is the input, and `stdout` the expected output.
//!
//! A line `== WORD` begins a part, and is printed again. The
//! lines after it, up to the next such line, belong to the part:
//!
//! - `book`: calls of two books, their dumps, and what changed dumps are loaded as
//! - `due`: transactions of a channel, the claims that are due by each verdict, and claims in one transaction; it has
//!   no lines
//!
//! The module of each word describes its lines. No crate depends on the program. It plays the two nodes of
//! `book_peers`, and calls `resolve` and `filling`.
#![tactic(auto)]

mod books;
mod dues;

use page::{Page, Parts, show_parts};
use std::io;
use std::process::ExitCode;

/// The parts of the input: a book's calls, and what is due.
struct Plays;

impl Parts for Plays {
    fn show_lines(&self, page: &mut Page, name: &str, lines: &str) {
        if name == "book" {
            books::show_all(page, lines);
        } else if name == "due" {
            dues::show_all(page);
        } else {
            page.fail();
        }
    }
}

fn main(rt: HostRuntime) -> ExitCode {
    let mut page = Page::new(rt.alloc());
    match io::read_to_string(rt.alloc(), rt.stdin()) {
        Ok(input) => show_parts(&Plays, &mut page, input.as_str()),
        Err(_) => page.fail(),
    }
    page.print(&rt)
}
