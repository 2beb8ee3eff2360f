//! Compares the libraries' output with vectors that were published, or that independent programs wrote: `stdin` is
//! the input, and `stdout` the expected output.
//!
//! A line `== WORD` begins a part, and is printed again. The
//! lines after it, up to the next such line, belong to the part:
//!
//! - `tx`: transactions, and the digests that signatures sign
//! - `patterns`: patterns of scripts, and what fills them
//! - `penalties`: revoked states, and the transaction that takes what they pay
//! - `commitments`: commitments of a given number of HTLCs
//! - `channel`: steps of two peers
//! - `publishing`: what either side of a channel can broadcast; it has no lines
//! - `revoked`: what revoked commitments, read as transactions, let claim
//!
//! The module of each word describes its lines. No crate depends on the program. It calls `tx`, `paths`, `commit`,
//! `penalty`, `publish` and `revoked`, and plays what the module `channel_sides` opens.
#![tactic(auto)]

mod channel_sides;
mod commitments;
mod patterns;
mod penalty_sets;
mod plays;
mod publishing;
mod revoked_commitments;
mod transactions;

use page::{Page, Parts, show_parts};
use std::io;
use std::process::ExitCode;

/// The number that a word names, or 0.
fn number(word: Option<&str>) -> u64 {
    match word {
        Some(word) => word.parse().unwrap_or(0),
        None => 0,
    }
}

/// The same, of 32 bits.
fn short_number(word: Option<&str>) -> u32 {
    u32::try_from(number(word)).unwrap_or(0)
}

/// The parts of the vectors.
struct Vectors;

impl Parts for Vectors {
    fn show_lines(&self, page: &mut Page, name: &str, lines: &str) {
        if name == "tx" {
            transactions::show_all(page, lines);
        } else if name == "patterns" {
            patterns::show_all(page, lines);
        } else if name == "penalties" {
            penalty_sets::show_all(page, lines);
        } else if name == "commitments" {
            commitments::show_all(page, lines);
        } else if name == "channel" {
            plays::show_all(page, lines);
        } else if name == "publishing" {
            publishing::show_all(page);
        } else if name == "revoked" {
            revoked_commitments::show_all(page, lines);
        } else {
            page.fail();
        }
    }
}

fn main(rt: HostRuntime) -> ExitCode {
    let mut page = Page::new(rt.alloc());
    match io::read_to_string(rt.alloc(), rt.stdin()) {
        Ok(input) => show_parts(&Vectors, &mut page, input.as_str()),
        Err(_) => page.fail(),
    }
    page.print(&rt)
}
