//! The word `node` of the program `enforce`.

ghost use Rattle.std.specs.Prelude.{◌<◌, ◌≤◌};

use crate::cheaters::{CHEATS, CHEATS_THEN_REORG};
use crate::scenarios::text_with;
use enforce_words::run_words;
use node_words::{run_word, workers_in};
use std::alloc::Global;
use std::process::Abort;
use std::sync::Wait;
use std::thread::Threads;

// The same words as texts of their own.
fn texts_of(rt: &impl Abort, alloc: Global, words: &[&str]) -> Vec<String> {
    let mut texts = Vec::new(alloc);
    for word in words {
        texts
            .push(String::from_str(alloc, word).expect(rt, "memory"))
            .expect(rt, "memory");
    }
    texts
}

// The number of workers that words ask for.
fn workers_by(rt: &impl Abort, alloc: Global, words: &[&str]) -> Option<u16> {
    let texts = texts_of(rt, alloc, words);
    workers_in(texts.as_slice())
}

#[test]
fn takes_one_to_sixteen_workers(rt: HostRuntime) {
    let alloc = rt.alloc();
    for workers in 1..=16u16 {
        let count = format!(in alloc; "{workers}").expect(&rt, "memory");
        assert!(rt; workers_by(&rt, alloc, &["node", count.as_str()]) == Some(workers));
    }
    for count in ["0", "17", "01", "+1", "1 ", "", "x"] {
        assert!(rt; workers_by(&rt, alloc, &["node", count]).is_none());
    }
    assert!(rt; workers_by(&rt, alloc, &["node"]).is_none());
    assert!(rt; workers_by(&rt, alloc, &["run", "1"]).is_none());
    assert!(rt; workers_by(&rt, alloc, &["node", "1", "1"]).is_none());
}

// What is printed for words that name no number of workers.
const USAGE: &str = "usage: enforce ripemd HEX | paths HEX | run | node N\n";

// Whether these words lead to the usage alone.
fn tells_the_usage(rt: &impl Abort, alloc: Global, words: &[&str]) -> bool {
    let texts = texts_of(rt, alloc, words);
    let mut input = "".as_bytes();
    let mut printed: Vec<u8> = Vec::new(alloc);
    let mut told: Vec<u8> = Vec::new(alloc);
    run_words(alloc, texts.as_slice(), &mut input, &mut printed, &mut told) == 2
        && printed.is_empty()
        && told.as_slice() == USAGE.as_bytes()
}

#[test]
fn takes_no_node_without_workers(rt: HostRuntime) {
    let words = ["node", "0"];
    assert!(rt; workers_by(&rt, rt.alloc(), &words).is_none());
    assert!(rt; tells_the_usage(&rt, rt.alloc(), &words));
}

// Whether this is printed for an input with this number of workers a side, with this status.
fn prints<R: Threads + Wait + Abort + Sync>(
    rt: &R,
    alloc: Global,
    workers: u16,
    text: &str,
    lines: &str,
    notes: &str,
    status: u8,
) -> bool
    requires some { 0 < workers }
    requires few { workers ≤ 16 }
{
    let mut input = text.as_bytes();
    let mut printed: Vec<u8> = Vec::new(alloc);
    let mut noted: Vec<u8> = Vec::new(alloc);
    run_word(rt, alloc, workers, &mut input, &mut printed, &mut noted) == status
        && printed.as_slice() == lines.as_bytes()
        && noted.as_slice() == notes.as_bytes()
}

#[test]
fn prints_the_end(rt: HostRuntime) {
    let alloc = rt.alloc();
    let text = text_with(&rt, alloc, false, CHEATS);
    let lines = "height 7\nchannel 0 played 13 refused 0\nA kept 0 0\nB kept 0 0\nB kept 0 1\n";
    assert!(rt; prints(&rt, alloc, 1, text.as_str(), lines, "", 0));
    let text = text_with(&rt, alloc, false, CHEATS_THEN_REORG);
    let lines = "height 8\nchannel 0 played 13 refused 0\nA kept 0 0\nB kept 0 0\nB kept 0 1\n";
    assert!(rt; prints(&rt, alloc, 4, text.as_str(), lines, "", 0));
    assert!(rt; prints(&rt, alloc, 2, "", "refused NotJson\n", "", 1));
    assert!(rt; prints(&rt, alloc, 2, "{}", "refused BadShape\n", "", 1));
}

// B broadcasts a commitment that it does not have, in a channel that is there and in one that is not, A closes one that is not, and B broadcasts the transaction of a second HTLC, of which there is one. Then more blocks are to
// be replaced than there are, and none, and more transactions forgotten than the block has.
const REFUSED: &str =
    "[\"broadcast\",\"B\",0,2],[\"broadcast\",\"B\",7,0],[\"close\",\"A\",3],[\"broadcast\",\"B\",0,1,1],[\"blocks\",1],[\"reorg\",2,0],[\"reorg\",0,0],[\"reorg\",1,1]";

const REFUSED_NOTES: &str =
    "note: event 13 was refused, NoSuchTx: [\"broadcast\", \"B\", 0, 2]\nnote: event 14 was refused, NoSuchChannel: [\"broadcast\", \"B\", 7, 0]\nnote: event 15 was refused, NoSuchChannel: [\"close\", \"A\", 3]\nnote: event 16 was refused, NoSuchTx: [\"broadcast\", \"B\", 0, 1, 1]\nnote: event 18 was refused, TooDeep: [\"reorg\", 2, 0]\nnote: event 19 was refused, TooDeep: [\"reorg\", 0, 0]\nnote: event 20 was refused, NoSuchTx: [\"reorg\", 1, 1]\n";

#[test]
fn names_refused_events_of_the_chain(rt: HostRuntime) {
    let alloc = rt.alloc();
    let text = text_with(&rt, alloc, false, REFUSED);
    let lines = "height 1\nchannel 0 played 13 refused 0\nA kept 0 0\nB kept 0 0\nB kept 0 1\n";
    for workers in [1, 4] {
        assert!(rt; prints(&rt, alloc, workers, text.as_str(), lines, REFUSED_NOTES, 0));
    }
}
