//! Text that is appended piece by piece, and printed once it is whole.
//!
//! A [`Page`] remembers whether a piece was lost, so that a program tests it once, at its end. Then nothing but the page is handed from
//! function to function, and no function of the program can fail. [`Page::print`] prints the whole, or ends the program with an error.
//!
//! [`show_parts`] reads an input that comes in parts, and has a program show each.
//!
//! [`Page::write`] puts pieces into the places of a template.
//!
//! It stands on `hex` alone. The programs `vectors`, `plays`, `closing` and `runs` write their output with it, and `trace` its lines.
//!
//! ```rust
//! /// Writes a name and a number in a line.
//! fn write_line(page: &mut Page, name: &str, number: u64) {
//!     page.push(name);
//!     page.count(" ", number);
//!     page.push("\n");
//! }
//! ```
//!
//! The part `== penalties` of `vectors` writes the values of claims this way. Tested in `book_tests`.
#![tactic(auto)]

mod parts;
mod pieces;

pub use parts::{Parts, show_parts};
pub use pieces::Piece;
use std::alloc::Global;
use std::fmt::{Debug, Display, Write as _};
use std::process::ExitCode;

/// Text that is appended to. A piece for which there is no memory is left out, and the page then counts as failed.
#[derive(Drop)]
pub struct Page {
    text: String,
    has_failed: bool,
}

impl Page {
    /// An empty page. Does not allocate.
    pub fn new(alloc: Global) -> Page {
        Page {
            text: String::new(alloc),
            has_failed: false,
        }
    }

    /// The allocator of the text.
    pub fn alloc(&self) -> Global {
        *self.text.allocator()
    }

    /// Marks the page as failed: memory ran out, or the input asks for what is not there.
    pub fn fail(&mut self) {
        self.has_failed = true;
    }

    /// Whether the page has this text, and did not fail.
    pub fn is(&self, text: &str) -> bool {
        !self.has_failed && self.text.as_str() == text
    }

    /// The text so far.
    pub fn text(&self) -> &str {
        self.text.as_str()
    }

    /// The text, unless the page failed.
    pub fn whole(&self) -> Option<&str> {
        if self.has_failed {
            return None;
        }
        Some(self.text())
    }

    /// Clears the text. A page that failed stays so.
    pub fn clear(&mut self) {
        self.text.clear();
    }

    /// Appends a text.
    pub fn push(&mut self, text: &str) {
        if self.text.push_str(text).is_err() {
            self.has_failed = true;
        }
    }

    /// Appends a value as it is displayed.
    pub fn show<D: Display>(&mut self, value: &D) {
        if write!(self.text, "{value}").is_err() {
            self.has_failed = true;
        }
    }

    /// Appends a value as it is displayed for debugging.
    pub fn debug<D: Debug>(&mut self, value: &D) {
        if write!(self.text, "{value:?}").is_err() {
            self.has_failed = true;
        }
    }

    /// Appends a text and a number.
    pub fn count(&mut self, text: &str, number: u64) {
        self.push(text);
        self.show(&number);
    }

    /// Appends a text, and bytes in hexadecimal.
    pub fn hex(&mut self, text: &str, bytes: &[u8]) {
        self.push(text);
        match hex::encode(self.alloc(), bytes) {
            Ok(digits) => self.push(digits.as_str()),
            Err(_) => self.fail(),
        }
    }

    /// Appends a template, with the next piece in the place of each `%`. The page fails where a piece has no place, or a place no piece.
    pub fn write(&mut self, template: &str, pieces: &[Piece]) {
        let mut rest = template;
        for piece in pieces {
            let Some((text, after)) = rest.split_once('%') else {
                self.fail();
                return;
            };
            self.push(text);
            match piece {
                Piece::Text(text) => self.push(text),
                Piece::Count(number) => self.show(number),
                Piece::Sum(number) => self.show(number),
                Piece::Hash(bytes) => self.hex("", bytes),
            }
            rest = after;
        }
        if rest.contains('%') {
            self.fail();
        }
        self.push(rest);
    }

    /// Appends what an element of an array begins with: after a comma, if it is not the first one.
    pub fn element(&mut self, template: &str, pieces: &[Piece]) {
        if !self.text().ends_with('[') {
            self.push(",");
        }
        self.write(template, pieces);
    }

    /// Appends a line with a refusal.
    pub fn refuse<D: Display>(&mut self, refusal: &D) {
        self.push("refused ");
        self.show(refusal);
        self.push("\n");
    }

    /// Prints the text, and returns the status of the program: a failure if the page failed, or the text can't be printed.
    pub fn print(&self, rt: &impl Print) -> ExitCode {
        if self.has_failed || rt.print(self.text()).is_err() {
            return ExitCode::FAILURE;
        }
        ExitCode::SUCCESS
    }
}
