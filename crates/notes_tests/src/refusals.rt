//! Notes on what is refused: scripts that are not listed, scenarios beyond the limits, and wrong words.

use crate::fixtures::{are_notes, joined, noted_of, noted_of_each, noted_on, words_of};
use enforce_notes::notes_of;
use std::alloc::Global;
use std::process::Abort;

// Scripts that are not listed, and the notes on them.
const REFUSED: [(&str, &str); 14] = [
    // 2 of four keys, of which three stand there
    (
        "5221021212121212121212121212121212121212121212121212121212121212121212210222222222222222222222222222222222222222222222222222222222222222222102333333333333333333333333333333333333333333333333333333333333333354ae",
        "note: opcode 5 is OP_CHECKMULTISIG: no rule decides it on what stands on the stack there, so the listing gives up: whether anyone can spend, or nobody, is not said\nnote: where the witness brings the number of signatures, it may be 0, and anyone can spend: compare the number of keys with the keys before it\n",
    ),
    // 3 of three keys, which become 2 after 144 blocks: a DROP is missing, on the second branch and on the first; below a signature of the witness; and a hash in the place of a key
    (
        "635367029000b2526821021212121212121212121212121212121212121212121212121212121212121212210222222222222222222222222222222222222222222222222222222222222222222102333333333333333333333333333333333333333333333333333333333333333353ae",
        "note: opcode 11 is OP_CHECKMULTISIG: no rule decides it on what stands on the stack there, so the listing gives up: whether anyone can spend, or nobody, is not said\nnote: on a branch 9000 (2 bytes) stands there in the place of a signature: is a DROP missing?\n",
    ),
    (
        "63029000b25267536821021212121212121212121212121212121212121212121212121212121212121212210222222222222222222222222222222222222222222222222222222222222222222102333333333333333333333333333333333333333333333333333333333333333353ae",
        "note: opcode 11 is OP_CHECKMULTISIG: no rule decides it on what stands on the stack there, so the listing gives up: whether anyone can spend, or nobody, is not said\nnote: on a branch 9000 (2 bytes) stands there in the place of a signature: is a DROP missing?\n",
    ),
    (
        "029000b27c52210212121212121212121212121212121212121212121212121212121212121212122102222222222222222222222222222222222222222222222222222222222222222252ae",
        "note: opcode 7 is OP_CHECKMULTISIG: no rule decides it on what stands on the stack there, so the listing gives up: whether anyone can spend, or nobody, is not said\nnote: on a branch 9000 (2 bytes) stands there in the place of a signature: is a DROP missing?\n",
    ),
    (
        "a9517c51ae",
        "note: opcode 4 is OP_CHECKMULTISIG: no rule decides it on what stands on the stack there, so the listing gives up: whether anyone can spend, or nobody, is not said\n",
    ),
    (
        "87",
        "note: opcode 0 is OP_EQUAL: no rule decides it on what stands on the stack there, so the listing gives up: whether anyone can spend, or nobody, is not said\n",
    ),
    (
        "a9",
        "note: no rule decides whether the last entry is true, so the listing gives up: whether anyone can spend, or nobody, is not said\n",
    ),
    ("6351", "note: the IF or NOTIF at opcode 0 has no ENDIF\n"),
    ("5167", "note: the ELSE at opcode 1 has no IF\n"),
    ("5168", "note: the ENDIF at opcode 1 has no IF\n"),
    (
        "51635167526753",
        "note: the ELSE at opcode 5 is the second one of the IF or NOTIF at opcode 1: consensus takes it, and it can be written as a further IF\n",
    ),
    // IFs that are closed
    (
        "6363685168",
        "note: anyone can spend by path 0, 1, 2: no signature of a key that the script fixes is asked for\n",
    ),
    (
        "636768636768636768636768636768636768636768",
        "note: a 65th path begins, and at most 64 are listed\n",
    ),
    // OP_CHECKSIGVERIFY, then pushed bytes that are none, OP_SHA256 and a byte that is none
    (
        "ad02a8ada8ff",
        "note: byte 0 is ad, OP_CHECKSIGVERIFY in Bitcoin, which is not in the table\nnote: nothing is pushed before it\nnote: not in the table either: a8 (OP_SHA256) at byte 4, ff at byte 5\n",
    ),
];

// A piece of a script, how often it stands there, and the notes.
const LONG: [(&str, usize, &str); 7] = [
    // 100 items, and 101; 3,600 bytes, and 36 more
    (
        "75",
        99,
        "note: anyone can spend by path 0: no signature of a key that the script fixes is asked for\n",
    ),
    (
        "75",
        100,
        "note: anyone can spend by path 0: no signature of a key that the script fixes is asked for\nnote: nodes relay no spend by path 0: it asks for more than 100 items, or for one above 80 bytes\n",
    ),
    (
        "223333333333333333333333333333333333333333333333333333333333333333333375",
        100,
        "note: anyone can spend by path 0: no signature of a key that the script fixes is asked for\n",
    ),
    (
        "223333333333333333333333333333333333333333333333333333333333333333333375",
        101,
        "note: anyone can spend by path 0: no signature of a key that the script fixes is asked for\nnote: the script has 3636 bytes, and nodes relay no spend of one above 3600\n",
    ),
    (
        "7675",
        101,
        "note: the script has 202 counted opcodes, and at most 201 are allowed\n",
    ),
    (
        "51",
        1_001,
        "note: a path needs more than 1000 elements on the stack: no run of it is clean\n",
    ),
    (
        "51",
        10_001,
        "note: the script has 10001 bytes, and at most 10000 are allowed (BIP 141)\n",
    ),
];

// A scenario up to the terms of its channels, the terms up to the start, and what follows them.
const SEEDS: &str =
    "{\"seeds\":[\"0a0a0a0a0a0a0a0a0a0a0a0a0a0a0a0a0a0a0a0a0a0a0a0a0a0a0a0a0a0a0a0a\",\"0b0b0b0b0b0b0b0b0b0b0b0b0b0b0b0b0b0b0b0b0b0b0b0b0b0b0b0b0b0b0b0b\"],\"channels\":[";

const TERMS: &str =
    "\"opener\":\"A\",\"feerate\":1000,\"dust\":[546,546],\"delay\":[144,144],\"minimum\":[1000,1000]}";

// The capacity and the start of a channel, the events, and the notes.
const SCENARIOS: [(&str, &str, &str); 4] = [
    (
        "{\"capacity\":100000,\"start\":[80000000,20000000],",
        "[\"blocks\",10000],[\"blocks\",10001]",
        "note: event 1 asks for 10001 blocks, and at most 10000 are allowed in one event\n",
    ),
    (
        "{\"capacity\":100000,\"start\":[80000,20000],",
        "",
        "note: channel 0: its start is 80000 and 20000 millisatoshis, together 100000, and its capacity is 100000 satoshis, which are 100000000 millisatoshis\n",
    ),
    (
        "{\"capacity\":2100000000000001,\"start\":[0,2100000000000001000],",
        "",
        "note: channel 0: its capacity is 2100000000000001 satoshis, and there are at most 2100000000000000\n",
    ),
    (
        "{\"capacity\":2100000000000000,\"start\":[0,2100000000000000000],",
        "",
        "",
    ),
];

// Wrong words, and the note on them.
struct Call {
    words: &'static [&'static str],
    note: &'static str,
}

const HELP: &str = "note: enforce --help says which words there are\n";

const WORDS: [Call; 8] = [
    // a private key, in one word and in twelve
    Call {
        words: &[
            "paths",
            "--text",
            "L1aW4aubDFB7yfras2S1mN3bqg9nwySY8nkoLmJebSLD5BWv3ENZ",
        ],
        note: "note: this looks like a private key, which nothing here asks for: move what it guards to another key, and delete this one wherever it stands (a word of a command stands in the history of the shell)\nnote: paths takes one word, bytes in hexadecimal, and reads no input: enforce paths HEX\n",
    },
    Call {
        words: &[
            "paths", "act", "act", "act", "act", "act", "act", "act", "act", "act", "act", "act",
            "act",
        ],
        note: "note: this looks like a private key, which nothing here asks for: move what it guards to another key, and delete this one wherever it stands (a word of a command stands in the history of the shell)\nnote: paths takes one word, bytes in hexadecimal, and reads no input: enforce paths HEX\n",
    },
    Call {
        words: &[],
        note: HELP,
    },
    Call {
        words: &["-h"],
        note: HELP,
    },
    Call {
        words: &["run", "payment.json"],
        note: "note: run takes no more words, and reads the scenario from standard input: enforce run <FILE\n",
    },
    Call {
        words: &["node", "17"],
        note: "note: node takes the number of workers of a side, from 1 to 16, and reads the scenario from standard input: enforce node 4 <FILE\n",
    },
    Call {
        words: &["paths"],
        note: "note: paths takes one word, bytes in hexadecimal, and reads no input: enforce paths HEX\n",
    },
    Call {
        words: &["ripemd", "51", "51"],
        note: "note: ripemd takes one word, bytes in hexadecimal, and reads no input: enforce ripemd HEX\n",
    },
];

#[test]
fn tells_why_a_script_is_not_listed(rt: HostRuntime) {
    noted_of_each(&rt, rt.alloc(), &REFUSED);
}

// Asserts the notes on a piece of a script that stands there so often.
fn noted_often(rt: &impl Abort, alloc: Global, piece: &str, times: usize, notes: &str) {
    let mut code = String::new(alloc);
    for _ in 0..times {
        assert!(rt; code.push_str(piece).is_ok());
    }
    noted_of(rt, alloc, code.as_str(), notes);
}

#[test]
fn tells_of_long_scripts(rt: HostRuntime) {
    for (piece, times, notes) in &LONG {
        noted_often(&rt, rt.alloc(), piece, *times, notes);
    }
}

// Asserts the notes on a scenario of one channel.
fn noted_at(rt: &impl Abort, alloc: Global, channel: &str, events: &str, notes: &str) {
    let end = "],\"events\":[";
    let text = joined(rt, alloc, &[SEEDS, channel, TERMS, end, events, "]}"]);
    noted_on(rt, alloc, text.as_bytes(), notes);
}

#[test]
fn tells_limits_and_terms(rt: HostRuntime) {
    for (channel, events, notes) in &SCENARIOS {
        noted_at(&rt, rt.alloc(), channel, events, notes);
    }
}

// Asserts the notes on wrong words.
fn noted_after(rt: &impl Abort, alloc: Global, words: &[&str], notes: &str) {
    let words = words_of(rt, alloc, words);
    are_notes(rt, notes_of(alloc, words.as_slice(), 2, None, &[]), notes);
}

#[test]
fn helps_after_wrong_words(rt: HostRuntime) {
    for call in &WORDS {
        noted_after(&rt, rt.alloc(), call.words, call.note);
    }
}
