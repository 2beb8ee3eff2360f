//! Notes on scenarios: where a text is invalid
//! JSON, and which part does not have its shape.

use crate::fixtures::{are_notes, joined, noted_on, words_of};
use enforce_notes::notes_of;
use std::alloc::Global;
use std::process::Abort;

// The text of a scenario with one channel, up to the last members of its terms, and from there to the events.
const BEGINNING: &str =
    "{\"seeds\":[\"0a0a0a0a0a0a0a0a0a0a0a0a0a0a0a0a0a0a0a0a0a0a0a0a0a0a0a0a0a0a0a0a\",\"0a0a0a0a0a0a0a0a0a0a0a0a0a0a0a0a0a0a0a0a0a0a0a0a0a0a0a0a0a0a0a0a\"],\"channels\":[{\"capacity\":100000,\"opener\":\"A\",\"feerate\":1000,\"dust\":[546,546],\"delay\":[144,144],\"minimum\":[1000,1000]";

const MIDDLE: &str = "}],\"events\":[";

const START: &str = ",\"start\":[80000000,20000000]";

// Texts that are no JSON, and the notes on them.
const NO_JSON: [(&str, &str); 5] = [
    (
        "",
        "note: the text ends too early, after byte 0: line 1, column 0\n",
    ),
    ("x", "note: invalid JSON at byte 0: line 1, column 1\n"),
    (
        "{\n\"a\":1,\n}",
        "note: invalid JSON at byte 9: line 3, column 1\n",
    ),
    (
        "{\"a\":\n[1,",
        "note: the text ends too early, after byte 9: line 2, column 3\n",
    ),
    ("[] 1", "note: invalid JSON at byte 3: line 1, column 4\n"),
];

// Texts that are no scenario, and the notes on them.
const NO_SCENARIO: [(&str, &str); 3] = [
    ("[]", "note: the scenario is no object\n"),
    ("{}", "note: the scenario has no member seeds\n"),
    (
        "{\"seeds\":[],\"channels\":[],\"events\":[]}",
        "note: the scenario: its seeds is not an array of two seeds of 32 bytes in hexadecimal\n",
    ),
];

// Last members of a channel's terms, and the notes on its scenario.
const TERMS: [(&str, &str); 4] = [
    (START, ""),
    ("", "note: channel 0 has no member start\n"),
    (
        ",\"start\":[1,2,3]",
        "note: channel 0: its start is not an array of two whole numbers of at most 64 bits\n",
    ),
    (
        ",\"start\":[1,2],\"more\":0",
        "note: channel 0 has a member that does not belong to it: more\n",
    ),
];

// Second events, or all from the second one on, and the notes on their scenario.
const EVENTS: [(&str, &str); 11] = [
    ("[\"broadcast\",\"B\",0,1,2]", ""),
    ("[\"broadcast\",\"B\",0,1]", ""),
    (
        "[\"keep\",\"B\",0,1],[\"fail\",\"B\",0,1],[\"deliver\",\"B\",0],[\"close\",\"B\",0],[\"blocks\",1],[\"take\",\"B\",1],[\"release\",\"B\",1],[\"reorg\",1,0]",
        "",
    ),
    (
        "[\"broadcast\",\"B\",0]",
        "note: event 1 has 3 items, and not 4\n",
    ),
    ("{}", "note: event 1 is no array with a name at its front\n"),
    (
        "[1]",
        "note: event 1 is no array with a name at its front\n",
    ),
    (
        "[\"offr\",\"A\",0]",
        "note: event 1, offr, has the name of no event: there are offer, fulfil, fail, fee, sign, deliver, keep, broadcast, close, blocks, look, take, release and reorg\n",
    ),
    ("[\"sign\",\"A\"]", "note: event 1 has 2 items, and not 3\n"),
    (
        "[\"sign\",\"C\",0]",
        "note: event 1: its side is not \"A\" or \"B\"\n",
    ),
    (
        "[\"fee\",\"A\",0,4294967296]",
        "note: event 1: its rate is not a whole number of at most 32 bits\n",
    ),
    (
        "[\"fulfil\",\"A\",0,0,\"00\"]",
        "note: event 1: its preimage is not 32 bytes in hexadecimal\n",
    ),
];

// Asserts the notes on a scenario with one channel, whose terms end with this text, and with these events.
fn noted_in(rt: &impl Abort, alloc: Global, terms: &str, events: &[&str], notes: &str) {
    let events = joined(rt, alloc, events);
    let text = joined(
        rt,
        alloc,
        &[BEGINNING, terms, MIDDLE, events.as_str(), "]}"],
    );
    noted_on(rt, alloc, text.as_bytes(), notes);
}

#[test]
fn places_what_is_no_json(rt: HostRuntime) {
    for (text, notes) in &NO_JSON {
        noted_on(&rt, rt.alloc(), text.as_bytes(), notes);
    }
    // bytes that are not in UTF-8
    let notes = "note: invalid JSON at byte 1: line 1, column 2\n";
    noted_on(&rt, rt.alloc(), b"\"\xff\"", notes);
}

// Nothing is said where a read failed, nor of a call that was done.
#[test]
fn says_nothing(rt: HostRuntime) {
    let words = words_of(&rt, rt.alloc(), &["run"]);
    are_notes(
        &rt,
        notes_of(rt.alloc(), words.as_slice(), 1, None, &[]),
        "",
    );
    are_notes(
        &rt,
        notes_of(rt.alloc(), words.as_slice(), 0, Some(b"x"), &[]),
        "",
    );
}

#[test]
fn names_the_member_at_fault(rt: HostRuntime) {
    for (text, notes) in &NO_SCENARIO {
        noted_on(&rt, rt.alloc(), text.as_bytes(), notes);
    }
    for (terms, notes) in &TERMS {
        noted_in(&rt, rt.alloc(), terms, &[], notes);
    }
}

#[test]
fn names_the_event_at_fault(rt: HostRuntime) {
    for (event, notes) in &EVENTS {
        let events = ["[\"look\",\"A\"],", event];
        noted_in(&rt, rt.alloc(), START, &events, notes);
    }
}
