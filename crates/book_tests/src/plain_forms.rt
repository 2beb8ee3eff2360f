// Texts of each shape, and texts that just miss a shape, written by hand.
use crate::plain::{HASH, TERMS};
use crate::readings::{read_all, reads, refuses, refuses_all, writes_back};
use claim::{Place, Shell, Slot};
use lists::{ByteString, List};
use scenario::{Event, PlainScenario};
use terms::{Htlc, ProposedTerms, Side};
use texts::{PlainClaim, PlainDump, ShapeError};
use tx::{OutPoint, TxOut};
use updates::{OwnUpdate, Update};

const READ_TERMS: [(&str, ProposedTerms); 1] = [(
    "{\"capacity\":100000,\"opener\":\"B\",\"feerate\":1000,\"dust\":[546,546],\"delay\":[144,144],\"minimum\":[1000,1000],\"start\":[80000000,20000000]}",
    ProposedTerms {
        opener: Side::B,
        ..TERMS
    },
)];

const NO_TERMS: [&str; 1] = [
    "{\"capacity\":100000,\"opener\":\"B\",\"feerate\":1000,\"dust\":[546,546],\"delay\":[144,144],\"minimum\":[1000,1000],\"start\":[80000000,20000000],\"reserve\":0}",
];

const WRITTEN_TERMS: [&str; 1] = [
    "{\"capacity\":1,\"delay\":[2,3],\"dust\":[4,5],\"feerate\":6,\"minimum\":[7,8],\"opener\":\"B\",\"start\":[9,10]}",
];

#[test]
fn reads_terms(rt: HostRuntime) {
    reads(&rt, rt.alloc(), &READ_TERMS);
    refuses::<ProposedTerms>(&rt, rt.alloc(), &NO_TERMS);
    writes_back::<ProposedTerms>(&rt, rt.alloc(), &WRITTEN_TERMS);
}

// Updates and other events of side A in channel 3.
const CHANNEL_EVENTS: [(&str, Event); 7] = [
    (
        "[\"offer\",\"A\",3,1000000,\"66687aadf862bd776c8fc18b8e9f8e20089714856ee233b3902a591d0d5f2925\",500]",
        Event::Own {
            side: Side::A,
            channel: 3,
            update: OwnUpdate::Offer {
                amount_msat: 1_000_000,
                hash: HASH,
                expiry_height: 500,
            },
        },
    ),
    (
        "[\"fulfil\",\"A\",3,4,\"0000000000000000000000000000000000000000000000000000000000000000\"]",
        Event::Own {
            side: Side::A,
            channel: 3,
            update: OwnUpdate::Fulfil {
                id: 4,
                preimage: [0; 32],
            },
        },
    ),
    (
        "[\"fail\",\"A\",3,4]",
        Event::Own {
            side: Side::A,
            channel: 3,
            update: OwnUpdate::Fail { id: 4 },
        },
    ),
    (
        "[\"fee\",\"A\",3,4]",
        Event::Own {
            side: Side::A,
            channel: 3,
            update: OwnUpdate::SetFee { feerate_per_kw: 4 },
        },
    ),
    (
        "[\"sign\",\"A\",3]",
        Event::Sign {
            side: Side::A,
            channel: 3,
        },
    ),
    (
        "[\"deliver\",\"A\",3]",
        Event::Deliver {
            side: Side::A,
            channel: 3,
        },
    ),
    (
        "[\"keep\",\"A\",3,4]",
        Event::Keep {
            side: Side::A,
            channel: 3,
            number: 4,
        },
    ),
];

const CHAIN_EVENTS: [(&str, Event); 7] = [
    (
        "[\"broadcast\",\"B\",3,4]",
        Event::Broadcast {
            side: Side::B,
            channel: 3,
            number: 4,
        },
    ),
    (
        "[\"broadcast\",\"B\",3,4,5]",
        Event::BroadcastHtlc {
            side: Side::B,
            channel: 3,
            number: 4,
            htlc: 5,
        },
    ),
    ("[\"blocks\",10001]", Event::Blocks { count: 10_001 }),
    ("[\"look\",\"B\"]", Event::Look { side: Side::B }),
    (
        "[\"take\",\"B\",4]",
        Event::Take {
            side: Side::B,
            count: 4,
        },
    ),
    (
        "[\"release\",\"B\",1]",
        Event::Release {
            side: Side::B,
            count: 1,
        },
    ),
    (
        "[\"reorg\",2,5]",
        Event::Reorg {
            depth: 2,
            forgotten: 5,
        },
    ),
];

const NO_EVENTS: [&str; 16] = [
    "[]",
    "{}",
    "null",
    "[\"blocks\"]",
    "[\"blocks\",1,1]",
    "[\"blocks\",-1]",
    "[\"blocks\",1.0]",
    "[\"blocks\",\"1\"]",
    "[\"blocks\",18446744073709551616]",
    "[\"Blocks\",1]",
    "[\"look\",\"C\"]",
    "[\"look\",\"a\"]",
    "[\"broadcast\",\"B\",3]",
    "[\"broadcast\",\"B\",3,4,5,6]",
    "[\"fee\",\"A\",0,4294967296]",
    "[\"fulfil\",\"A\",3,4,\"00\"]",
];

#[test]
fn reads_events(rt: HostRuntime) {
    reads(&rt, rt.alloc(), &CHANNEL_EVENTS);
    reads(&rt, rt.alloc(), &CHAIN_EVENTS);
    refuses::<Event>(&rt, rt.alloc(), &NO_EVENTS);
}

const READ_OUTPOINTS: [(&str, OutPoint); 2] = [
    (
        "\"66687aadf862bd776c8fc18b8e9f8e20089714856ee233b3902a591d0d5f2925:4294967295\"",
        OutPoint {
            txid: HASH,
            index: 4_294_967_295,
        },
    ),
    (
        "\"66687AADF862BD776C8FC18B8E9F8E20089714856EE233B3902A591D0D5F2925:4294967295\"",
        OutPoint {
            txid: HASH,
            index: 4_294_967_295,
        },
    ),
];

const NO_OUTPOINTS: [&str; 7] = [
    "\"66687aadf862bd776c8fc18b8e9f8e20089714856ee233b3902a591d0d5f2925:4294967296\"",
    "\"66687aadf862bd776c8fc18b8e9f8e20089714856ee233b3902a591d0d5f2925:00\"",
    "\"66687aadf862bd776c8fc18b8e9f8e20089714856ee233b3902a591d0d5f2925:\"",
    "\"66687aadf862bd776c8fc18b8e9f8e20089714856ee233b3902a591d0d5f2925:+1\"",
    "\"66687aadf862bd776c8fc18b8e9f8e20089714856ee233b3902a591d0d5f2925\"",
    "\"66687aadf862bd776c8fc18b8e9f8e20089714856ee233b3902a591d0d5f29250:1\"",
    "1",
];

const WRITTEN_OUTPOINTS: [&str; 1] = [
    "\"66687aadf862bd776c8fc18b8e9f8e20089714856ee233b3902a591d0d5f2925:4294967295\"",
];

#[test]
fn reads_outpoints_in_both_letter_cases(rt: HostRuntime) {
    reads(&rt, rt.alloc(), &READ_OUTPOINTS);
    refuses::<OutPoint>(&rt, rt.alloc(), &NO_OUTPOINTS);
    writes_back::<OutPoint>(&rt, rt.alloc(), &WRITTEN_OUTPOINTS);
}

const READ_UPDATES: [(&str, Update); 4] = [
    (
        "[\"add\",1,2,\"66687aadf862bd776c8fc18b8e9f8e20089714856ee233b3902a591d0d5f2925\",3]",
        Update::Add(Htlc {
            id: 1,
            amount_msat: 2,
            hash: HASH,
            expiry_height: 3,
        }),
    ),
    (
        "[\"fulfil\",1,\"66687aadf862bd776c8fc18b8e9f8e20089714856ee233b3902a591d0d5f2925\"]",
        Update::Fulfil {
            id: 1,
            preimage: HASH,
        },
    ),
    ("[\"fail\",1]", Update::Fail { id: 1 }),
    ("[\"fee\",9]", Update::Fee { feerate_per_kw: 9 }),
];

const NO_UPDATES: [&str; 1] = ["[\"signed\",9]"];

const WRITTEN_UPDATES: [&str; 4] = [
    "[\"fee\",9]",
    "[\"fail\",1]",
    "[\"fulfil\",1,\"66687aadf862bd776c8fc18b8e9f8e20089714856ee233b3902a591d0d5f2925\"]",
    "[\"add\",1,2,\"66687aadf862bd776c8fc18b8e9f8e20089714856ee233b3902a591d0d5f2925\",3]",
];

#[test]
fn reads_updates(rt: HostRuntime) {
    reads(&rt, rt.alloc(), &READ_UPDATES);
    refuses::<Update>(&rt, rt.alloc(), &NO_UPDATES);
    writes_back::<Update>(&rt, rt.alloc(), &WRITTEN_UPDATES);
}

const OUTPUTS: &str = "[[546,\"00fF\"],[2100000000000000,\"\"]]";

fn are_the_outputs(outputs: &[TxOut]) -> bool {
    match outputs {
        [first, second] => {
            first.value() == 546
                && first.script().bytes() == [0x00, 0xff].as_slice()
                && second.value() == 2_100_000_000_000_000
        }
        _ => false,
    }
}

const NO_OUTPUTS: [&str; 1] = ["[[546,\"00\"],[2100000000000001,\"\"]]"];

const ODD: [&str; 1] = ["\"123\""];

#[test]
fn reads_lists_of_outputs(rt: HostRuntime) {
    let outputs: List<TxOut> = read_all(&rt, rt.alloc(), OUTPUTS).expect(&rt, "two outputs");
    assert!(rt; are_the_outputs(outputs.values()));
    refuses_all::<List<TxOut>>(&rt, rt.alloc(), &NO_OUTPUTS);
    refuses_all::<ByteString>(&rt, rt.alloc(), &ODD);
    assert!(rt; ShapeError::BadShape.number() == 2);
}

// The fixed transaction has one input of sequence 144, one output of 1,000 satoshis, and lock time 500.
const CLAIM: &str =
    "{\"outpoint\":\"66687aadf862bd776c8fc18b8e9f8e20089714856ee233b3902a591d0d5f2925:7\",\"path\":1,\"program\":\"0020\",\"script\":\"51\",\"shell\":\"020000000166687aadf862bd776c8fc18b8e9f8e20089714856ee233b3902a591d0d5f292507000000009000000001e803000000000000020014f4010000\",\"slots\":[[\"exact\",\"\"],[\"sig\",\"021111111111111111111111111111111111111111111111111111111111111111\"],[\"preimage\",\"66687aadf862bd776c8fc18b8e9f8e20089714856ee233b3902a591d0d5f2925\"]],\"value\":1000}";

fn is_the_place(place: &Place) -> bool {
    place.outpoint.txid == HASH
        && place.outpoint.index == 7
        && place.value == 1000
        && place.program.bytes() == [0x00, 0x20].as_slice()
}

fn are_the_slots(slots: &[Slot]) -> bool {
    match slots {
        [_, Slot::Sig(key), _] => key.bytes[0] == 2 && key.bytes[32] == 0x11,
        _ => false,
    }
}

fn is_the_shell(shell: &Shell) -> bool {
    match shell {
        Shell::Fixed(tx) => tx.lock_time() == 500 && tx.outputs().len() == 1,
        _ => false,
    }
}

fn is_the_claim(claim: &PlainClaim) -> bool {
    claim.script.bytes() == [0x51].as_slice()
        && claim.path == 1
        && is_the_place(&claim.place)
        && are_the_slots(claim.slots.values())
        && is_the_shell(&claim.shell)
}

const NO_CLAIMS: [&str; 3] = [
    "{\"outpoint\":\"66687aadf862bd776c8fc18b8e9f8e20089714856ee233b3902a591d0d5f2925:7\",\"path\":1,\"program\":\"0020\",\"script\":\"51\",\"shell\":\"020000000166687aadf862bd776c8fc18b8e9f8e20089714856ee233b3902a591d0d5f292507000000009000000001e803000000000000020014f40100\",\"slots\":[[\"exact\",\"\"],[\"sig\",\"021111111111111111111111111111111111111111111111111111111111111111\"],[\"preimage\",\"66687aadf862bd776c8fc18b8e9f8e20089714856ee233b3902a591d0d5f2925\"]],\"value\":1000}",
    "{\"outpoint\":\"66687aadf862bd776c8fc18b8e9f8e20089714856ee233b3902a591d0d5f2925:7\",\"path\":1,\"program\":\"0020\",\"script\":\"51\",\"shell\":\"00\",\"slots\":[[\"exact\",\"\"],[\"sig\",\"021111111111111111111111111111111111111111111111111111111111111111\"],[\"preimage\",\"66687aadf862bd776c8fc18b8e9f8e20089714856ee233b3902a591d0d5f2925\"]],\"value\":1000}",
    "{\"outpoint\":\"66687aadf862bd776c8fc18b8e9f8e20089714856ee233b3902a591d0d5f2925:7\",\"path\":1,\"program\":\"0020\",\"script\":\"51\",\"shell\":0,\"slots\":[[\"exact\",\"\"],[\"sig\",\"021111111111111111111111111111111111111111111111111111111111111111\"],[\"preimage\",\"66687aadf862bd776c8fc18b8e9f8e20089714856ee233b3902a591d0d5f2925\"]],\"value\":1000}",
];

const NO_SLOTS: [&str; 3] = [
    "[\"exact\"]",
    "[\"sig\",\"041111111111111111111111111111111111111111111111111111111111111111\"]",
    "[\"token\",\"\"]",
];

#[test]
fn reads_claims(rt: HostRuntime) {
    let claim: PlainClaim = read_all(&rt, rt.alloc(), CLAIM).expect(&rt, "a claim");
    assert!(rt; is_the_claim(&claim));
    refuses_all::<PlainClaim>(&rt, rt.alloc(), &NO_CLAIMS);
    refuses_all::<Slot>(&rt, rt.alloc(), &NO_SLOTS);
}

const SCENARIO: &str =
    "{\"seeds\":[\"0a0a0a0a0a0a0a0a0a0a0a0a0a0a0a0a0a0a0a0a0a0a0a0a0a0a0a0a0a0a0a0a\",\"0B0B0B0B0B0B0B0B0B0B0B0B0B0B0B0B0B0B0B0B0B0B0B0B0B0B0B0B0B0B0B0B\"],\"channels\":[],\"events\":[[\"sign\",\"A\",0],[\"look\",\"B\"]]}";

fn is_the_scenario(scenario: &PlainScenario) -> bool {
    scenario.seed_a == [10; 32]
        && scenario.seed_b == [11; 32]
        && scenario.channels.is_empty()
        && scenario.events.len() == 2
        && scenario.events.values().get(1) == Some(&Event::Look { side: Side::B })
}

#[test]
fn reads_scenarios(rt: HostRuntime) {
    let scenario: PlainScenario = read_all(&rt, rt.alloc(), SCENARIO).expect(&rt, "a scenario");
    assert!(rt; is_the_scenario(&scenario));
}

const NO_DUMPS: [&str; 8] = [
    "{}",
    "[]",
    "{\"history\":[],\"version\":9}",
    "{\"history\":[],\"version\":2,\"seat\":0}",
    "{\"history\":{},\"version\":2}",
    "{\"history\":[{\"call\":[\"step\",0,\"fee\",1],\"seat\":0}],\"version\":1}",
    "{\"history\":[{\"call\":[\"release\",0,[],[],[]],\"seat\":0}],\"version\":2}",
    "{\"history\":[{\"call\":[\"sign\",0],\"seat\":4294967296}],\"version\":2}",
];

#[test]
fn refuses_what_is_no_dump(rt: HostRuntime) {
    refuses_all::<PlainDump>(&rt, rt.alloc(), &NO_DUMPS);
}
