//! The note on the first refused event of a scenario: each kind of event as it stands there, and the three
//! meanings of an unknown HTLC (BOLT 2, "Normal Operation").

use crate::fixtures::{joined, noted, repeated};
use std::alloc::Global;
use std::process::Abort;

// A scenario up to its channels, the terms of a channel, and what stands between the channels and the events.
const SEEDS: &str =
    "{\"seeds\":[\"0a0a0a0a0a0a0a0a0a0a0a0a0a0a0a0a0a0a0a0a0a0a0a0a0a0a0a0a0a0a0a0a\",\"0b0b0b0b0b0b0b0b0b0b0b0b0b0b0b0b0b0b0b0b0b0b0b0b0b0b0b0b0b0b0b0b\"],\"channels\":[";

const TERMS: &str =
    "{\"capacity\":100000,\"opener\":\"A\",\"feerate\":1000,\"dust\":[546,546],\"delay\":[144,144],\"minimum\":[1000,1000],\"start\":[80000000,20000000]}";

const BEGIN: &str = "],\"events\":[";

// One channel, and two.
const ONE: &[&str] = &[TERMS];

const TWO: &[&str] = &[TERMS, ",", TERMS];

// Events with spaces as a note has them. There is no channel 1, there are no jobs and no claims, and no block is to be replaced.
const EVENTS: [(&str, &str); 13] = [
    (
        "[\"offer\", \"A\", 1, 1000000, \"66687aadf862bd776c8fc18b8e9f8e20089714856ee233b3902a591d0d5f2925\", 500]",
        "NoSuchChannel",
    ),
    (
        "[\"fulfil\", \"B\", 1, 2, \"66687aadf862bd776c8fc18b8e9f8e20089714856ee233b3902a591d0d5f2925\"]",
        "NoSuchChannel",
    ),
    ("[\"fail\", \"B\", 1, 2]", "NoSuchChannel"),
    ("[\"fee\", \"A\", 1, 2000]", "NoSuchChannel"),
    ("[\"sign\", \"B\", 1]", "NoSuchChannel"),
    ("[\"deliver\", \"A\", 0]", "NoMessage"),
    ("[\"keep\", \"A\", 1, 3]", "NoSuchChannel"),
    ("[\"close\", \"B\", 1]", "NoSuchChannel"),
    ("[\"broadcast\", \"A\", 0, 5]", "NoSuchTx"),
    ("[\"broadcast\", \"A\", 0, 0, 4]", "NoSuchTx"),
    ("[\"take\", \"A\", 1]", "NoJob"),
    ("[\"release\", \"B\", 2]", "NoJob"),
    ("[\"reorg\", 1, 0]", "TooDeep"),
];

// An offer of A that is signed on one side, and what makes it committed on both.
const OFFER: &str =
    "[\"offer\",\"A\",0,1000000,\"66687aadf862bd776c8fc18b8e9f8e20089714856ee233b3902a591d0d5f2925\",500],[\"deliver\",\"B\",0],[\"sign\",\"A\",0],[\"deliver\",\"B\",0],[\"deliver\",\"A\",0],";

// The same in channel 1, and an offer of B in channel 0.
const OFFER_IN_SECOND: &str =
    "[\"offer\",\"A\",1,1000000,\"66687aadf862bd776c8fc18b8e9f8e20089714856ee233b3902a591d0d5f2925\",500],[\"deliver\",\"B\",1],[\"sign\",\"A\",1],[\"deliver\",\"B\",1],[\"deliver\",\"A\",1],";

const OFFER_OF_B: &str =
    "[\"offer\",\"B\",0,1000000,\"66687aadf862bd776c8fc18b8e9f8e20089714856ee233b3902a591d0d5f2925\",500],";

const COMMIT: &str = "[\"sign\",\"B\",0],[\"deliver\",\"A\",0],[\"deliver\",\"B\",0],";

const FAIL: &str = "[\"fail\", \"B\", 0, 0]";

// Events before the first refused one, which one it is, that event, and what its HTLC is.
struct Unknown {
    before: &'static [&'static str],
    index: &'static str,
    event: &'static str,
    meaning: &'static str,
}

const UNKNOWN: [Unknown; 7] = [
    Unknown {
        before: &[OFFER, COMMIT],
        index: "8",
        event: "[\"fail\", \"B\", 0, 1]",
        meaning: "note: there is no such HTLC: A offered 1 in channel 0, numbered from 0\n",
    },
    Unknown {
        before: &[OFFER],
        index: "5",
        event: FAIL,
        meaning: "note: HTLC 0 of channel 0 is not yet committed on both sides: A signs, B revokes and signs, and A revokes, in this order\n",
    },
    Unknown {
        before: &[OFFER, COMMIT, FAIL, ","],
        index: "9",
        event: FAIL,
        meaning: "note: B fulfilled or failed HTLC 0 of channel 0 already\n",
    },
    // the side that offered it does not fail it
    Unknown {
        before: &[OFFER, COMMIT],
        index: "8",
        event: "[\"fail\", \"A\", 0, 0]",
        meaning: "note: there is no such HTLC: B offered 0 in channel 0, numbered from 0\n",
    },
    // what was offered and what was failed in another channel, and what the other side failed
    Unknown {
        before: &[OFFER, COMMIT],
        index: "8",
        event: "[\"fail\", \"B\", 1, 0]",
        meaning: "note: there is no such HTLC: A offered 0 in channel 1, numbered from 0\n",
    },
    Unknown {
        before: &[OFFER, COMMIT, FAIL, ",", OFFER_IN_SECOND],
        index: "14",
        event: "[\"fail\", \"B\", 1, 0]",
        meaning: "note: HTLC 0 of channel 1 is not yet committed on both sides: A signs, B revokes and signs, and A revokes, in this order\n",
    },
    Unknown {
        before: &[OFFER, COMMIT, FAIL, ",", OFFER_OF_B],
        index: "10",
        event: "[\"fail\", \"A\", 0, 0]",
        meaning: "note: HTLC 0 of channel 0 is not yet committed on both sides: B signs, A revokes and signs, and B revokes, in this order\n",
    },
];

// Asserts the note on a scenario with these channels and events.
fn has_note(rt: &impl Abort, alloc: Global, channels: &[&str], events: &[&str], note: &[&str]) {
    let (channels, events) = (joined(rt, alloc, channels), joined(rt, alloc, events));
    let pieces = [SEEDS, channels.as_str(), BEGIN, events.as_str(), "]}"];
    let text = joined(rt, alloc, &pieces);
    let note = joined(rt, alloc, note);
    noted(rt, alloc, text.as_str(), note.as_str());
}

const FIRST: &str = " is the first that was refused, ";

// Asserts what is noted of an event that is refused twice, after one that happens.
fn is_first(rt: &impl Abort, alloc: Global, event: &str, refusal: &str) {
    let events = ["[\"look\", \"A\"],", event, ",", event];
    let note = ["note: event 1", FIRST, refusal, ": ", event, "\n"];
    has_note(rt, alloc, ONE, &events, &note);
}

#[test]
fn tells_each_kind_of_event(rt: HostRuntime) {
    for (event, refusal) in &EVENTS {
        is_first(&rt, rt.alloc(), event, refusal);
    }
}

// Asserts what is noted where an HTLC is unknown.
fn has_meaning(rt: &impl Abort, alloc: Global, case: &Unknown) {
    let before = joined(rt, alloc, case.before);
    let note = [
        "note: event ",
        case.index,
        FIRST,
        "UnknownHtlc: ",
        case.event,
        "\n",
        case.meaning,
    ];
    has_note(rt, alloc, TWO, &[before.as_str(), case.event], &note);
}

#[test]
fn tells_what_is_unknown(rt: HostRuntime) {
    for case in &UNKNOWN {
        has_meaning(&rt, rt.alloc(), case);
    }
}

// Nothing is said of a scenario without a refused event.
#[test]
fn says_nothing_of_what_happened(rt: HostRuntime) {
    let events = joined(&rt, rt.alloc(), &[OFFER, COMMIT, FAIL]);
    has_note(&rt, rt.alloc(), ONE, &[events.as_str()], &[]);
    let blocks = repeated(&rt, rt.alloc(), "[\"blocks\", 1],", 2, "[\"blocks\", 1]");
    has_note(&rt, rt.alloc(), ONE, &[blocks.as_str()], &[]);
}
