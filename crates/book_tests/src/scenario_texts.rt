// The first scenario as a whole text, and texts on both sides of each limit.

use crate::plain::{HASH, TERMS};
use scenario::{Event, Scenario, ScenarioError};
use std::alloc::Global;
use std::process::Abort;
use terms::Side;
use updates::OwnUpdate;

const FRONT: &str =
    "{\"seeds\":[\"0a0a0a0a0a0a0a0a0a0a0a0a0a0a0a0a0a0a0a0a0a0a0a0a0a0a0a0a0a0a0a0a\",\"0b0b0b0b0b0b0b0b0b0b0b0b0b0b0b0b0b0b0b0b0b0b0b0b0b0b0b0b0b0b0b0b\"],\"channels\":[";

const CHANNEL: &str =
    "{\"capacity\":100000,\"opener\":\"A\",\"feerate\":1000,\"dust\":[546,546],\"delay\":[144,144],\"minimum\":[1000,1000],\"start\":[80000000,20000000]}";

// The sides begin with one millisatoshi too many.
const BAD_CHANNEL: &str =
    "{\"capacity\":100000,\"opener\":\"A\",\"feerate\":1000,\"dust\":[546,546],\"delay\":[144,144],\"minimum\":[1000,1000],\"start\":[80000000,20000001]}";

const EVENTS: &str =
    "[\"offer\",\"A\",0,1000000,\"66687aadf862bd776c8fc18b8e9f8e20089714856ee233b3902a591d0d5f2925\",500],[\"deliver\",\"B\",0],[\"sign\",\"A\",0],[\"deliver\",\"B\",0],[\"deliver\",\"A\",0],[\"offer\",\"A\",0,1000000,\"66687aadf862bd776c8fc18b8e9f8e20089714856ee233b3902a591d0d5f2925\",501],[\"sign\",\"A\",0],[\"keep\",\"A\",0,0],[\"sign\",\"A\",0],[\"keep\",\"A\",0,0]";

// Channels whose terms are good, then channels whose terms are not, and the same events a number of times.
#[derive(Clone, Copy)]
struct Outline {
    good: usize,
    bad: usize,
    events: &'static str,
    count: usize,
}

// Adds an item to the last list of a text, a number of times.
fn add(rt: &impl Abort, text: &mut String, item: &str, count: usize) {
    for _ in 0..count {
        if !text.as_str().ends_with('[') {
            text.push_str(",").expect(rt, "memory");
        }
        text.push_str(item).expect(rt, "memory");
    }
}

fn text_of(rt: &impl Abort, alloc: Global, outline: &Outline) -> String {
    let mut text = String::new(alloc);
    text.push_str(FRONT).expect(rt, "memory");
    add(rt, &mut text, CHANNEL, outline.good);
    add(rt, &mut text, BAD_CHANNEL, outline.bad);
    text.push_str("],\"events\":[").expect(rt, "memory");
    add(rt, &mut text, outline.events, outline.count);
    text.push_str("]}").expect(rt, "memory");
    text
}

fn refusal(alloc: Global, bytes: &[u8]) -> Option<ScenarioError> {
    Scenario::read(alloc, bytes).err()
}

fn refusal_of(rt: &impl Abort, alloc: Global, outline: &Outline) -> Option<ScenarioError> {
    refusal(alloc, text_of(rt, alloc, outline).as_str().as_bytes())
}

const FIRST: Outline = Outline {
    good: 1,
    bad: 0,
    events: EVENTS,
    count: 1,
};

const OFFER: Event = Event::Own {
    side: Side::A,
    channel: 0,
    update: OwnUpdate::Offer {
        amount_msat: 1_000_000,
        hash: HASH,
        expiry_height: 501,
    },
};

fn is_the_first(scenario: &Scenario) -> bool {
    scenario.seeds.a == [0x0a; 32]
        && scenario.seeds.b == [0x0b; 32]
        && scenario.channels.values() == [TERMS].as_slice()
        && scenario.events.len() == 10
        && scenario.events.values().get(5) == Some(&OFFER)
}

#[test]
fn reads_a_scenario(rt: HostRuntime) {
    let text = text_of(&rt, rt.alloc(), &FIRST);
    let scenario = Scenario::read(rt.alloc(), text.as_str().as_bytes());
    assert!(rt; is_the_first(&scenario.expect(&rt, "a scenario")));
}

const NO_SCENARIOS: [(&[u8], ScenarioError); 5] = [
    (b"", ScenarioError::NotJson),
    (b"{", ScenarioError::NotJson),
    (b"\"\xff\"", ScenarioError::NotJson),
    (b"\"a\"", ScenarioError::BadShape),
    (b"{\"channels\":[],\"events\":[]}", ScenarioError::BadShape),
];

#[test]
fn refuses_what_is_no_scenario(rt: HostRuntime) {
    for (bytes, wanted) in &NO_SCENARIOS {
        assert!(rt; refusal(rt.alloc(), bytes) == Some(*wanted));
    }
}

// At most 8 channels, 10,000 events, and 10,000 blocks in one of them. The limits come before the terms, of which the first bad ones are named.
const OUTLINES: [(Outline, Option<ScenarioError>); 8] = [
    (
        Outline {
            good: 8,
            bad: 0,
            events: "",
            count: 0,
        },
        None,
    ),
    (
        Outline {
            good: 9,
            bad: 0,
            events: "",
            count: 0,
        },
        Some(ScenarioError::OverLimit),
    ),
    (
        Outline {
            good: 0,
            bad: 0,
            events: "[\"look\",\"A\"]",
            count: 10_000,
        },
        None,
    ),
    (
        Outline {
            good: 0,
            bad: 0,
            events: "[\"look\",\"A\"]",
            count: 10_001,
        },
        Some(ScenarioError::OverLimit),
    ),
    (
        Outline {
            good: 0,
            bad: 0,
            events: "[\"blocks\",10000]",
            count: 1,
        },
        None,
    ),
    (
        Outline {
            good: 0,
            bad: 0,
            events: "[\"blocks\",10001]",
            count: 1,
        },
        Some(ScenarioError::OverLimit),
    ),
    (
        Outline {
            good: 1,
            bad: 2,
            events: EVENTS,
            count: 1,
        },
        Some(ScenarioError::BadTerms(1)),
    ),
    (
        Outline {
            good: 1,
            bad: 2,
            events: "[\"blocks\",10001]",
            count: 1,
        },
        Some(ScenarioError::OverLimit),
    ),
];

#[test]
fn keeps_the_limits(rt: HostRuntime) {
    for (outline, wanted) in &OUTLINES {
        assert!(rt; refusal_of(&rt, rt.alloc(), outline) == *wanted);
    }
}

#[test]
fn prints_which_terms_are_bad(rt: HostRuntime) {
    let printed = format!(in rt.alloc(); "{}", ScenarioError::BadTerms(1)).expect(&rt, "memory");
    assert!(rt; printed.as_str() == "BadTerms 1");
}
