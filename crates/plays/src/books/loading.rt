//! What dumps, and dumps with a change, are loaded as.

use crate::books::damages::{
    GIVEN, PATH, PROGRAM, RELEASED, SECRET, Spot, VALUE, VERSION, value_at, with_value,
    without_keep,
};
use book::Book;
use book_dump::Dump;
use book_dump::errors::LoadError;
use page::Page;
use std::alloc::Global;

const ZEROS: &str = "0000000000000000000000000000000000000000000000000000000000000000";

const ZERO_PROGRAM: &str = "00200000000000000000000000000000000000000000000000000000000000000000";

/// The number of entries that a text is loaded as.
fn loaded(alloc: Global, text: &str) -> Result<usize, LoadError> {
    match Book::load(alloc, text) {
        Ok(book) => Ok(book.entries().len()),
        Err(error) => Err(error),
    }
}

/// Whether a book has this dump.
fn has_dump(alloc: Global, book: &Book, dump: &str) -> bool {
    match book.dump(alloc) {
        Ok(own) => own.as_str() == dump,
        Err(_) => false,
    }
}

/// Whether a text is loaded as a book with this dump.
fn loads_as(alloc: Global, text: &str, dump: &str) -> bool {
    match Book::load(alloc, text) {
        Ok(book) => has_dump(alloc, &book, dump),
        Err(_) => false,
    }
}

/// Whether a book's dump is loaded as a book with the same dump.
pub fn comes_back(alloc: Global, book: &Book) -> bool {
    match book.dump(alloc) {
        Ok(dump) => loads_as(alloc, dump.as_str(), dump.as_str()),
        Err(_) => false,
    }
}

/// Shows what a text is loaded as: the number of entries, or why it is refused.
pub fn show_loaded(page: &mut Page, name: &str, text: &str) {
    page.push(name);
    match loaded(page.alloc(), text) {
        Ok(entries) => {
            page.count(": ", entries as u64);
            page.push(" entries\n");
        }
        Err(error) => {
            page.push(": ");
            page.show(&error);
            page.push("\n");
        }
    }
}

/// Whether a text is refused as invalid JSON.
fn is_no_json(alloc: Global, text: &str) -> bool {
    match loaded(alloc, text) {
        Ok(_) => false,
        Err(error) => error == LoadError::NotJson,
    }
}

/// Shows the number of proper beginnings of an ASCII text that are not refused as invalid JSON. It takes the text's characters away.
pub fn show_beginnings(page: &mut Page, text: &mut String) {
    let mut read = 0u64;
    for _ in 0..text.len() {
        let _last = text.pop();
        if !is_no_json(page.alloc(), text.as_str()) {
            read = read.saturating_add(1);
        }
    }
    page.count("beginnings that are not refused as NotJson: ", read);
    page.push("\n");
}

/// Shows what a changed text is loaded as.
fn show_text(page: &mut Page, name: &str, changed: Option<Page>) {
    match changed {
        Some(changed) => show_loaded(page, name, changed.text()),
        None => page.fail(),
    }
}

/// Shows what a dump is loaded as with a new value at a spot.
fn show_changed(page: &mut Page, dump: &str, name: &str, spot: &Spot, value: &str) {
    show_text(page, name, with_value(page.alloc(), dump, spot, value));
}

/// The value of the first claim that is kept, raised by one satoshi.
fn raised(alloc: Global, dump: &str) -> Page {
    let value = match value_at(dump, &VALUE) {
        Some(value) => value.parse::<u64>().unwrap_or(0),
        None => 0,
    };
    let mut raised = Page::new(alloc);
    raised.count("", value.saturating_add(1));
    raised
}

/// Shows what a dump is loaded as with that value.
fn show_raised(page: &mut Page, dump: &str) {
    let raised = raised(page.alloc(), dump);
    show_changed(page, dump, "value raised by one", &VALUE, raised.text());
}

/// Shows what a dump is loaded as with one change, a line for each change.
pub fn show_damages(page: &mut Page, dump: &str) {
    show_changed(page, dump, "path 9", &PATH, "9");
    show_changed(page, dump, "program of zeros", &PROGRAM, ZERO_PROGRAM);
    show_raised(page, dump);
    show_text(page, "without entry 5", without_keep(page.alloc(), dump));
    show_changed(page, dump, "released path 9", &RELEASED, "9");
    show_changed(page, dump, "outputs that exceed", &GIVEN, "100001");
    show_changed(page, dump, "secret of zeros", &SECRET, ZEROS);
}

/// Shows what a text is loaded as, and whether it is dumped again as this dump.
fn show_again(page: &mut Page, name: &str, text: &str, dump: &str) {
    show_loaded(page, name, text);
    page.push(if loads_as(page.alloc(), text, dump) {
        "  the same dump again: true\n"
    } else {
        "  the same dump again: false\n"
    });
}

/// Shows what a dump is loaded as in version 1.
pub fn show_version(page: &mut Page, dump: &str) {
    match with_value(page.alloc(), dump, &VERSION, "1") {
        Some(changed) => show_again(page, "version 1", changed.text(), dump),
        None => page.fail(),
    }
}

/// Shows what a dump stored in the input is loaded
/// as, and whether it is dumped again as the same.
pub fn show_stored(page: &mut Page, dump: &str) {
    show_again(page, "stored", dump, dump);
}
