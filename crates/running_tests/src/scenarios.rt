//! The scenarios that the tests play.

use std::alloc::Global;
use std::process::Abort;

const FRONT: &str =
    "{\"seeds\":[\"0a0a0a0a0a0a0a0a0a0a0a0a0a0a0a0a0a0a0a0a0a0a0a0a0a0a0a0a0a0a0a0a\",\"0b0b0b0b0b0b0b0b0b0b0b0b0b0b0b0b0b0b0b0b0b0b0b0b0b0b0b0b0b0b0b0b\"],\"channels\":[";

const TERMS: &str =
    "{\"capacity\":100000,\"opener\":\"A\",\"feerate\":1000,\"dust\":[546,546],\"delay\":[144,144],\"minimum\":[1000,1000],\"start\":[80000000,20000000]}";

// The updates, signatures and deliveries of channel `#`: A offers an HTLC, which B fulfils, and each side revokes; A's commitment 1 is revoked at last.
const TURNS_OF_CHANNEL: &str =
    "[\"offer\",\"A\",#,10000000,\"66687aadf862bd776c8fc18b8e9f8e20089714856ee233b3902a591d0d5f2925\",5],[\"deliver\",\"B\",#],[\"sign\",\"A\",#],[\"deliver\",\"B\",#],[\"deliver\",\"A\",#],[\"sign\",\"B\",#],[\"deliver\",\"A\",#],[\"deliver\",\"B\",#],[\"fulfil\",\"B\",#,0,\"0000000000000000000000000000000000000000000000000000000000000000\"],[\"deliver\",\"A\",#],[\"sign\",\"B\",#],[\"deliver\",\"A\",#],[\"deliver\",\"B\",#],";

/// How many events that are.
pub(crate) const TURNS: u64 = 13;

// Appends the turns of the channel with this number.
fn push_turns(rt: &impl Abort, text: &mut String, channel: char) {
    for character in TURNS_OF_CHANNEL.chars() {
        let character = if character == '#' { channel } else { character };
        text.push(character).expect(rt, "memory");
    }
}

fn push(rt: &impl Abort, text: &mut String, more: &str) {
    text.push_str(more).expect(rt, "memory");
}

// Appends the seeds, and the terms of one channel or of two.
fn push_front(rt: &impl Abort, text: &mut String, has_two: bool) {
    push(rt, text, FRONT);
    push(rt, text, TERMS);
    if has_two {
        push(rt, text, ",");
        push(rt, text, TERMS);
    }
    push(rt, text, "],\"events\":[");
}

// In channel 0 A offers an HTLC, and B fulfils it.
const OFFERED_BY_A: &str =
    "[\"offer\",\"A\",0,10000000,\"66687aadf862bd776c8fc18b8e9f8e20089714856ee233b3902a591d0d5f2925\",40],[\"deliver\",\"B\",0],[\"sign\",\"A\",0],[\"deliver\",\"B\",0],[\"deliver\",\"A\",0],[\"sign\",\"B\",0],[\"deliver\",\"A\",0],[\"deliver\",\"B\",0],[\"fulfil\",\"B\",0,0,\"0000000000000000000000000000000000000000000000000000000000000000\"],";

// In channel 1 B offers an HTLC with the same hash.
const OFFERED_BY_B: &str =
    "[\"offer\",\"B\",1,10000000,\"66687aadf862bd776c8fc18b8e9f8e20089714856ee233b3902a591d0d5f2925\",30],[\"deliver\",\"A\",1],[\"sign\",\"B\",1],[\"deliver\",\"A\",1],[\"deliver\",\"B\",1],[\"sign\",\"A\",1],[\"deliver\",\"B\",1],[\"deliver\",\"A\",1],";

// B closes both. It takes A's HTLC of channel 0 by its HTLC-success transaction, whose preimage is that of its own HTLC in channel 1. A reorganisation forgets one transaction, which may be this one. It is
// broadcast again, and a block follows the one in which it stands at last.
const CLAIMED_BY_B: &str =
    "[\"broadcast\",\"B\",1,1],[\"broadcast\",\"B\",0,1],[\"blocks\",1],[\"broadcast\",\"B\",0,1,0],[\"blocks\",1],[\"reorg\",1,1],[\"broadcast\",\"B\",0,1,0],[\"blocks\",2]";

/// The text of a scenario of two channels, in one of which a preimage is learnt that the other asks for.
pub(crate) fn text_of_learnt_preimage(rt: &impl Abort, alloc: Global) -> String {
    let mut text = String::new(alloc);
    push_front(rt, &mut text, true);
    push(rt, &mut text, OFFERED_BY_A);
    push(rt, &mut text, OFFERED_BY_B);
    push(rt, &mut text, CLAIMED_BY_B);
    push(rt, &mut text, "]}");
    text
}

/// The text of a scenario of one channel or of two, each with all of these turns, and then further events.
pub(crate) fn text_with(rt: &impl Abort, alloc: Global, has_two: bool, chain: &str) -> String {
    let mut text = String::new(alloc);
    push_front(rt, &mut text, has_two);
    push_turns(rt, &mut text, '0');
    if has_two {
        push_turns(rt, &mut text, '1');
    }
    push(rt, &mut text, chain);
    push(rt, &mut text, "]}");
    text
}
