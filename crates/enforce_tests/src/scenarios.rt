//! Scenarios: one in which a side tries to sign before
//! it keeps penalties, and input that is not a scenario.

use crate::fixtures::{breaks, joined, prints};
use std::alloc::Global;
use std::process::Abort;

// The text of a scenario with one channel, up to the millisatoshis that side A begins with, and from there to the events.
const BEGINNING: &str =
    "{\"seeds\":[\"0a0a0a0a0a0a0a0a0a0a0a0a0a0a0a0a0a0a0a0a0a0a0a0a0a0a0a0a0a0a0a0a\",\"0b0b0b0b0b0b0b0b0b0b0b0b0b0b0b0b0b0b0b0b0b0b0b0b0b0b0b0b0b0b0b0b\"],\"channels\":[{\"capacity\":100000,\"opener\":\"A\",\"feerate\":1000,\"dust\":[546,546],\"delay\":[144,144],\"minimum\":[1000,1000],\"start\":[";

const MIDDLE: &str = ",20000000]}],\"events\":[";

// The millisatoshis that side A begins with. Side B begins with 20,000,000, of 100,000,000.
const START: &str = "80000000";

// A side signs before it keeps penalties, and after it. The hash is SHA-256 of 32 zero bytes (Python's hashlib).
const SIGNS: &str =
    "[\"offer\",\"A\",0,1000000,\"66687aadf862bd776c8fc18b8e9f8e20089714856ee233b3902a591d0d5f2925\",500],[\"deliver\",\"B\",0],[\"sign\",\"A\",0],[\"deliver\",\"B\",0],[\"deliver\",\"A\",0],[\"offer\",\"A\",0,1000000,\"66687aadf862bd776c8fc18b8e9f8e20089714856ee233b3902a591d0d5f2925\",501],[\"sign\",\"A\",0],[\"keep\",\"A\",0,0],[\"sign\",\"A\",0],[\"keep\",\"A\",0,0]";

const SIGNED: &str =
    "0 ok\n1 ok\n2 ok\n3 ok\n4 ok\n5 ok\n6 refused PenaltiesMissing 0\n7 ok\n8 ok\n9 refused AlreadyKept\nheight 0\nunspent 1 value 100000 fees 0\nA kept 0 0\nA history 7\nB history 3\n";

// A commitment is mined and looked at.
const MINES: &str = "[\"broadcast\",\"A\",0,0],[\"blocks\",2],[\"look\",\"B\"],[\"reorg\",3,0]";

const MINED: &str =
    "0 ok\n1 ok height 2 txs 1\n2 ok claims 1\n3 refused TooDeep\nheight 2\nunspent 2 value 99276 fees 724\nA history 1\nB history 1\n";

// The text of a scenario with one channel, in which side A begins with `start` millisatoshis.
fn scenario(rt: &impl Abort, alloc: Global, start: &str, events: &str) -> String {
    joined(rt, alloc, &[BEGINNING, start, MIDDLE, events, "]}"])
}

// Asserts the output and the status of `run` for a scenario.
fn plays(rt: &impl Abort, alloc: Global, start: &str, events: &str, out: &str, status: u8) {
    plays_with(rt, alloc, start, events, out, "", status);
}

// Asserts the output, the note and the status of `run` for a scenario.
fn plays_with(
    rt: &impl Abort,
    alloc: Global,
    start: &str,
    events: &str,
    out: &str,
    note: &str,
    status: u8,
) {
    let text = scenario(rt, alloc, start, events);
    prints(rt, alloc, &["run"], text.as_str(), out, note, status);
}

#[test]
fn signs_once_penalties_are_kept(rt: HostRuntime) {
    let note =
        "note: event 6 is the first that was refused, PenaltiesMissing 0: [\"sign\", \"A\", 0]\n";
    plays_with(&rt, rt.alloc(), START, SIGNS, SIGNED, note, 0);
}

#[test]
fn mines_and_looks(rt: HostRuntime) {
    let note = "note: event 3 is the first that was refused, TooDeep: [\"reorg\", 3, 0]\n";
    plays_with(&rt, rt.alloc(), START, MINES, MINED, note, 0);
}

#[test]
fn refuses_input(rt: HostRuntime) {
    let alloc = rt.alloc();
    prints(&rt, alloc, &["run"], "", "refused NotJson\n", "", 1);
    prints(&rt, alloc, &["run"], "{}", "refused BadShape\n", "", 1);
    plays(
        &rt,
        alloc,
        START,
        "[\"blocks\",10001]",
        "refused OverLimit\n",
        1,
    );
    plays(&rt, alloc, "80000001", "", "refused BadTerms 0\n", 1);
}

#[test]
fn tells_a_failed_write_of_lines(rt: HostRuntime) {
    let text = scenario(&rt, rt.alloc(), START, "");
    breaks(&rt, rt.alloc(), &["run"], text.as_str());
    breaks(&rt, rt.alloc(), &["run"], "");
}
