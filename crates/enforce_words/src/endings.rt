// The lines that are printed of a scenario that was played.

use book::Book;
use chain::{Coins, Index};
use std::alloc::{AllocError, Global};
use std::fmt::Write;
use terms::Side;
use world::{Outcome, World};

/// A line for each event, followed by the lines of the world after them: the
/// chain, the penalties that each side keeps, and the lengths of their histories.
pub fn text_of(alloc: Global, outcomes: &[Outcome], world: &World) -> Result<String, AllocError> {
    let mut text = String::new(alloc);
    let (a, b) = (world.book(Side::A), world.book(Side::B));
    push_outcomes(&mut text, outcomes)?;
    push_chain(&mut text, world.chain())?;
    push_all_kept(&mut text, "A", a)?;
    push_all_kept(&mut text, "B", b)?;
    push_history(&mut text, "A", a)?;
    push_history(&mut text, "B", b)?;
    Ok(text)
}

// Appends the outcome of each event, counted from 0.
fn push_outcomes(text: &mut String, outcomes: &[Outcome]) -> Result<(), AllocError> {
    for (event, outcome) in outcomes.iter().enumerate() {
        writeln!(text, "{event} {outcome}")?;
    }
    Ok(())
}

// Appends the chain's height, its unspent outputs and its fees.
fn push_chain(text: &mut String, chain: &Index) -> Result<(), AllocError> {
    let height = chain.height();
    let unspent = chain.unspent()?;
    let fees = chain.fees()?;
    let (count, value) = (unspent.count, unspent.value);
    writeln!(text, "height {height}")?;
    writeln!(text, "unspent {count} value {value} fees {fees}")?;
    Ok(())
}

/// Appends the revoked commitments whose penalties a book keeps, by channel and number.
pub fn push_all_kept(text: &mut String, side: &str, book: &Book) -> Result<(), AllocError> {
    for channel in 0..book.channel_count() {
        push_kept(text, side, book, channel)?;
    }
    Ok(())
}

// Appends those of one channel, up to the first commitment that is not revoked.
fn push_kept(text: &mut String, side: &str, book: &Book, channel: u64) -> Result<(), AllocError> {
    for number in 0..u64::MAX {
        match book.keeps(channel, number) {
            Some(true) => writeln!(text, "{side} kept {channel} {number}")?,
            Some(false) => {}
            None => return Ok(()),
        }
    }
    Ok(())
}

// Appends the number of entries of a book's history.
fn push_history(text: &mut String, side: &str, book: &Book) -> Result<(), AllocError> {
    let entries = book.entries().len();
    writeln!(text, "{side} history {entries}")?;
    Ok(())
}
