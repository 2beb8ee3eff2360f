//! Notes on the text of a scenario that was played: a member that stands twice, events that were refused, and those that are not counted.

use crate::fixtures::{are_notes, joined, words_of};
use enforce_notes::{notes_of, repeat_notes};
use std::alloc::Global;
use std::process::Abort;

// Texts, and the notes on a member that stands twice.
const REPEATED: [(&str, &str); 9] = [
    ("{\"a\":{\"b\":1},\"b\":[{\"a\":2},{\"a\":3}]}", ""),
    (
        "{\"a\":1,\"b\":2,\"a\":3}",
        "note: the member a stands twice in its object, and the last one counts: again at byte 13: line 1, column 14\n",
    ),
    // the first in the text
    (
        "{\"a\":[{\"b\":1},{\"b\":2,\"c\":3,\"b\":4}],\"a\":5}",
        "note: the member b stands twice in its object, and the last one counts: again at byte 27: line 1, column 28\n",
    ),
    // three times, and over several lines
    (
        "{\n\"a\":1,\n \"a\":2,\"a\":3}",
        "note: the member a stands twice in its object, and the last one counts: again at byte 10: line 3, column 2\n",
    ),
    // an escape in a name (RFC 8259, section 7)
    (
        "{\"a\":1,\"\\u0061\":2}",
        "note: the member a stands twice in its object, and the last one counts: again at byte 7: line 1, column 8\n",
    ),
    // names that can't be told in a line
    (
        "{\"a b\":1,\"a b\":2}",
        "note: a member stands twice in its object, and the last one counts: again at byte 9: line 1, column 10\n",
    ),
    (
        "{\"aaaaaaaaaaaaaaaaaaaaaaaaaaaaaaaaaaaaaaaaa\":1,\"aaaaaaaaaaaaaaaaaaaaaaaaaaaaaaaaaaaaaaaaa\":2}",
        "note: a member stands twice in its object, and the last one counts: again at byte 47: line 1, column 48\n",
    ),
    ("", ""),
    // no JSON
    ("{\"a\":1,\"a\":2", ""),
];

// A scenario with two channels up to its events, each of which begins with a comma but the first, which is a look; and its end.
const BEGINNING: [&str; 4] = [
    "{\"seeds\":[\"0a0a0a0a0a0a0a0a0a0a0a0a0a0a0a0a0a0a0a0a0a0a0a0a0a0a0a0a0a0a0a0a\",\"0b0b0b0b0b0b0b0b0b0b0b0b0b0b0b0b0b0b0b0b0b0b0b0b0b0b0b0b0b0b0b0b\"],\"channels\":[",
    TERMS,
    ",",
    TERMS,
];

const TERMS: &str =
    "{\"capacity\":100000,\"opener\":\"A\",\"feerate\":1000,\"dust\":[546,546],\"delay\":[144,144],\"minimum\":[1000,1000],\"start\":[80000000,20000000]}";

const MIDDLE: &str = "],\"events\":[[\"look\",\"A\"]";

const END: &str = "]}";

// An offer of A in channel 0, whose hash is that of 32 zeros.
const OFFER_IN_0: &str =
    ",[\"offer\",\"A\",0,12000000,\"66687aadf862bd776c8fc18b8e9f8e20089714856ee233b3902a591d0d5f2925\",60]";

// One of B in channel 1, and fails: by A of that one, and of one that there is not.
const OFFER_OF_B: &str =
    ",[\"offer\",\"B\",1,12000000,\"66687aadf862bd776c8fc18b8e9f8e20089714856ee233b3902a591d0d5f2925\",60]";

const FAIL_BY_A: &str = ",[\"fail\",\"A\",1,0]";

const FAIL_OF_NONE: &str = ",[\"fail\",\"A\",1,1]";

const FAILED: &str =
    "note: event 3: A fails HTLC 0 of channel 1 while it offers the same hash in channel 0: it pays up to 12000000 millisatoshis by that hash, and 0 are left to it\n";

const FAILED_AT_4: &str =
    "note: event 4: A fails HTLC 0 of channel 1 while it offers the same hash in channel 0: it pays up to 12000000 millisatoshis by that hash, and 0 are left to it\n";

// Events, the lines of those that a play refused, and the notes.
const REFUSED: [(&[&str], &str, &str); 6] = [
    // a fail, the first of two fails, and an offer before it are refused
    (
        &[OFFER_OF_B, OFFER_IN_0, FAIL_BY_A],
        "2 ok\n3 refused UnknownHtlc\n4 ok\n",
        "",
    ),
    (
        &[OFFER_OF_B, OFFER_IN_0, FAIL_BY_A, FAIL_BY_A],
        "3 refused UnknownHtlc\n",
        FAILED_AT_4,
    ),
    (
        &[OFFER_OF_B, OFFER_OF_B, OFFER_IN_0, FAIL_BY_A],
        "1 refused BelowMinimum\n",
        FAILED_AT_4,
    ),
    (
        &[OFFER_OF_B, OFFER_IN_0, FAIL_OF_NONE, FAIL_BY_A],
        "2 refused OverBalance\n",
        "",
    ),
    // a line of no event, and one that is no refusal
    (
        &[OFFER_OF_B, OFFER_IN_0, FAIL_BY_A],
        "30 refused X\n refused Y\n3 refused",
        FAILED,
    ),
    (
        &[OFFER_OF_B, OFFER_IN_0, FAIL_BY_A],
        "3 ok refused X\n3refused\n99999999999999999999999 refused X\n",
        FAILED,
    ),
];

// Events, and the notes on those that are not counted in threads. Channels are 0 and 1.
const UNCOUNTED: [(&[&str], &str); 3] = [
    (
        &[
            ",[\"sign\",\"A\",1]",
            ",[\"keep\",\"A\",2,0],[\"close\",\"A\",2],[\"broadcast\",\"A\",2,0],[\"broadcast\",\"A\",2,0,0]",
        ],
        "",
    ),
    (
        &[",[\"sign\",\"A\",2]"],
        "note: updates, signatures and deliveries in a channel that there is not: 1, the first is event 1; none is played or counted\n",
    ),
    (
        &[
            OFFER_IN_0,
            ",[\"deliver\",\"B\",9],[\"fail\",\"B\",2,0],[\"look\",\"B\"],[\"sign\",\"B\",18446744073709551615]",
        ],
        "note: updates, signatures and deliveries in a channel that there is not: 3, the first is event 2; none is played or counted\n",
    ),
];

#[test]
fn names_a_member_that_stands_twice(rt: HostRuntime) {
    for (text, notes) in &REPEATED {
        are_notes(&rt, repeat_notes(rt.alloc(), text.as_bytes()), notes);
    }
}

/// Asserts the notes on a scenario with two channels and these events that was played by these words, which printed this.
pub fn noted_after(
    rt: &impl Abort,
    alloc: Global,
    words: &[&str],
    events: &[&str],
    printed: &str,
    notes: &str,
) {
    let (beginning, events) = (joined(rt, alloc, &BEGINNING), joined(rt, alloc, events));
    let pieces = [beginning.as_str(), MIDDLE, events.as_str(), END];
    let text = joined(rt, alloc, &pieces);
    let words = words_of(rt, alloc, words);
    are_notes(
        rt,
        notes_of(
            alloc,
            words.as_slice(),
            0,
            Some(text.as_bytes()),
            printed.as_bytes(),
        ),
        notes,
    );
}

// What was refused did not happen. A play in threads does not tell it, and has no notes on HTLCs.
#[test]
fn leaves_refused_events_out(rt: HostRuntime) {
    for (events, printed, notes) in &REFUSED {
        noted_after(&rt, rt.alloc(), &["run"], events, printed, notes);
    }
    let events = [OFFER_OF_B, OFFER_IN_0, FAIL_BY_A];
    noted_after(&rt, rt.alloc(), &["node", "1"], &events, "", "");
}

// They are counted of `node` alone.
#[test]
fn counts_what_is_not_counted(rt: HostRuntime) {
    for (events, notes) in &UNCOUNTED {
        noted_after(&rt, rt.alloc(), &["node", "4"], events, "", notes);
        noted_after(&rt, rt.alloc(), &["run"], events, "", "");
    }
}

// A repeated member is noted of what was refused too, after what is at fault, and of what was played.
#[test]
fn notes_more_than_one(rt: HostRuntime) {
    let events = [",[\"sign\",\"A\",2]],\"events\":[[\"sign\",\"A\",3]"];
    let notes =
        "note: the member events stands twice in its object, and the last one counts: again at byte 463: line 1, column 464\nnote: updates, signatures and deliveries in a channel that there is not: 1, the first is event 0; none is played or counted\n";
    noted_after(&rt, rt.alloc(), &["node", "1"], &events, "", notes);
    let words = words_of(&rt, rt.alloc(), &["run"]);
    let text = b"{\"seeds\":1,\"seeds\":2}";
    are_notes(
        &rt,
        notes_of(rt.alloc(), words.as_slice(), 1, Some(text), &[]),
        "note: the scenario: its seeds is not an array of two seeds of 32 bytes in hexadecimal\nnote: the member seeds stands twice in its object, and the last one counts: again at byte 11: line 1, column 12\n",
    );
}
