// Texts that are not a book's dump, and dumps written by hand.

use crate::readings::read_all;
use book::{Book, Entry};
use book_dump::Dump;
use book_dump::dumping::dump;
use book_dump::errors::LoadError;
use book_dump::loading::entry_of;
use std::alloc::Global;
use std::process::Abort;
use texts::PlainDump;

// An entry that keeps a claim on a script of
// CHECKSIG, whose two slots are a key and its token.
const FRONT: &str =
    "{\"history\":[{\"call\":[\"keep\",0,0,[{\"outpoint\":\"0707070707070707070707070707070707070707070707070707070707070707:1\",\"path\":";

const BACK: &str =
    ",\"shell\":null,\"slots\":[[\"exact\",\"021111111111111111111111111111111111111111111111111111111111111111\"],[\"sig\",\"021111111111111111111111111111111111111111111111111111111111111111\"]],\"value\":9}]],\"seat\":3}],\"version\":2}";

// The dump of this entry, with the path, the program and the script.
fn keeping(rt: &impl Abort, alloc: Global, middle: &str) -> String {
    let mut text = String::new(alloc);
    for part in [FRONT, middle, BACK] {
        text.push_str(part).expect(rt, "memory");
    }
    text
}

const GOOD: &str =
    "0,\"program\":\"0020ee6bb86b44339392bae631c8f61dd8f009243c635adab33c0b20923a2794bf22\",\"script\":\"ac\"";

// The good claim is accepted, but there is no channel. Then path 9, a program of zeros, a byte that is not an opcode, and an IF without its ENDIF.
const MIDDLES: [(&str, LoadError); 5] = [
    (GOOD, LoadError::BadHistory(0)),
    (
        "9,\"program\":\"0020ee6bb86b44339392bae631c8f61dd8f009243c635adab33c0b20923a2794bf22\",\"script\":\"ac\"",
        LoadError::BadClaim(0),
    ),
    (
        "0,\"program\":\"00200000000000000000000000000000000000000000000000000000000000000000\",\"script\":\"ac\"",
        LoadError::BadClaim(0),
    ),
    (
        "0,\"program\":\"0020ee6bb86b44339392bae631c8f61dd8f009243c635adab33c0b20923a2794bf22\",\"script\":\"50\"",
        LoadError::BadClaim(0),
    ),
    (
        "0,\"program\":\"0020ee6bb86b44339392bae631c8f61dd8f009243c635adab33c0b20923a2794bf22\",\"script\":\"63\"",
        LoadError::BadClaim(0),
    ),
];

// Why a text is not loaded; if it is, how many entries the book has.
fn loaded(alloc: Global, text: &str) -> Result<usize, LoadError> {
    match Book::load(alloc, text) {
        Ok(book) => Ok(book.entries().len()),
        Err(error) => Err(error),
    }
}

const EMPTY: &str = "{\"history\":[],\"version\":2}";

fn empty_dump(rt: &impl Abort, alloc: Global) -> String {
    let book = Book::new(alloc);
    assert!(rt; book.patterns().is_ok());
    book.dump(alloc).expect(rt, "memory")
}

#[test]
fn loads_what_an_empty_book_dumps(rt: HostRuntime) {
    assert!(rt; empty_dump(&rt, rt.alloc()).as_str() == EMPTY);
    assert!(rt; loaded(rt.alloc(), EMPTY) == Ok(0));
}

// What is loaded from each text, or why it is not.
const TEXTS: [(&str, Result<usize, LoadError>); 7] = [
    ("{}", Err(LoadError::BadShape)),
    ("{\"history\":[],\"version\":9}", Err(LoadError::BadShape)),
    ("{\"history\":[],\"version\":1}", Ok(0)),
    ("{\"history\":[],\"version\":3}", Err(LoadError::BadShape)),
    (
        "{\"history\":[{\"call\":[\"close\",0],\"seat\":0}],\"version\":3}",
        Err(LoadError::BadHistory(0)),
    ),
    (
        "{\"history\":[{\"call\":[\"close\",0],\"seat\":0}],\"version\":2}",
        Err(LoadError::BadShape),
    ),
    (
        "{\"history\":[{\"call\":[\"close\",0],\"seat\":0}],\"version\":1}",
        Err(LoadError::BadShape),
    ),
];

#[test]
fn refuses_texts_that_are_no_dump(rt: HostRuntime) {
    for end in 0..EMPTY.len() {
        let front = EMPTY.get(..end).expect(&rt, "a letter ends there");
        assert!(rt; loaded(rt.alloc(), front) == Err(LoadError::NotJson));
    }
    for (text, wanted) in &TEXTS {
        assert!(rt; loaded(rt.alloc(), text) == *wanted);
    }
}

#[test]
fn accepts_claims_anew(rt: HostRuntime) {
    for (middle, wanted) in &MIDDLES {
        let text = keeping(&rt, rt.alloc(), middle);
        assert!(rt; loaded(rt.alloc(), text.as_str()) == Err(*wanted));
    }
}

// The entries of a dump, in the form that a book has them.
fn entries_of(rt: &impl Abort, alloc: Global, dump: PlainDump) -> Vec<Entry> {
    let mut entries = Vec::new(alloc);
    for plain in dump.history.into_vec() {
        let entry = entry_of(alloc, plain).expect(rt, "an entry");
        entries.push(entry).expect(rt, "memory");
    }
    entries
}

// The dump of the entries that are read from a text.
fn dumped(rt: &impl Abort, alloc: Global, text: &str) -> String {
    let read = read_all(rt, alloc, text).expect(rt, "a dump");
    dump(alloc, &entries_of(rt, alloc, read)).expect(rt, "memory")
}

const DUMPS: [&str; 5] = [
    EMPTY,
    "{\"history\":[{\"call\":[\"sign\",0],\"seat\":7},{\"call\":[\"close\",18446744073709551615],\"seat\":2}],\"version\":3}",
    "{\"history\":[{\"call\":[\"step\",0,\"fee\",5000],\"seat\":4},{\"call\":[\"step\",1,\"receive\",[\"fail\",2]],\"seat\":3},{\"call\":[\"sign\",0],\"seat\":0},{\"call\":[\"keep\",1,2,[]],\"seat\":4294967295}],\"version\":2}",
    "{\"history\":[{\"call\":[\"revoke\",0,[\"revoke\",\"66687aadf862bd776c8fc18b8e9f8e20089714856ee233b3902a591d0d5f2925\",\"021111111111111111111111111111111111111111111111111111111111111111\"]],\"seat\":1}],\"version\":2}",
    "{\"history\":[{\"call\":[\"step\",7,\"receive\",[\"signed\",\"021111111111111111111111111111111111111111111111111111111111111111222222222222222222222222222222222222222222222222222222222222222201\",[]]],\"seat\":1}],\"version\":2}",
];

#[test]
fn dumps_the_entries_that_it_reads(rt: HostRuntime) {
    for text in &DUMPS {
        assert!(rt; dumped(&rt, rt.alloc(), text).as_str() == *text);
    }
    let text = keeping(&rt, rt.alloc(), GOOD);
    assert!(rt; dumped(&rt, rt.alloc(), text.as_str()).as_str() == text.as_str());
}

// Nested brackets, a long number and a long text.
const UNITS: [&str; 4] = ["[", "9", "{\"a\":", "\"a"];

#[test]
fn refuses_hostile_texts(rt: HostRuntime) {
    for unit in &UNITS {
        let text = unit.repeat(rt.alloc(), 20_000).expect(&rt, "memory");
        assert!(rt; loaded(rt.alloc(), text.as_str()).is_err());
    }
}
