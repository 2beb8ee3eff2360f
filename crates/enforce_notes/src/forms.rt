// The shapes of the parts of a scenario.

use json_value::Value;
use terms::Side;
use texts::FromValue;

/// The shape of a part of a scenario.
#[derive(Clone, Copy)]
pub enum Kind {
    Side,
    /// A number of 64 bits.
    Number,
    /// A number of 32 bits.
    Short,
    /// 32 bytes.
    Hash,
    /// Two numbers of 64 bits.
    Numbers,
    /// Two numbers of 16 bits.
    Delays,
    /// Two seeds of 32 bytes.
    Seeds,
    Array,
}

impl Kind {
    /// Whether a value is of this kind.
    pub fn fits(self, value: &Value) -> bool {
        match self {
            Kind::Side => Side::from_value(value).is_some(),
            Kind::Number => u64::from_value(value).is_some(),
            Kind::Short => u32::from_value(value).is_some(),
            Kind::Hash => <[u8; 32]>::from_value(value).is_some(),
            Kind::Numbers => <(u64, u64)>::from_value(value).is_some(),
            Kind::Delays => <(u16, u16)>::from_value(value).is_some(),
            Kind::Seeds => <([u8; 32], [u8; 32])>::from_value(value).is_some(),
            Kind::Array => value.as_array().is_some(),
        }
    }

    /// The shape, in words.
    pub fn text(self) -> &'static str {
        match self {
            Kind::Side => "\"A\" or \"B\"",
            Kind::Number => "a whole number of at most 64 bits",
            Kind::Short => "a whole number of at most 32 bits",
            Kind::Hash => "32 bytes in hexadecimal",
            Kind::Numbers => "an array of two whole numbers of at most 64 bits",
            Kind::Delays => "an array of two whole numbers of at most 16 bits",
            Kind::Seeds => "an array of two seeds of 32 bytes in hexadecimal",
            Kind::Array => "an array",
        }
    }
}

/// A part of a scenario: its name in `docs/SCENARIOS.md`, and its shape.
#[derive(Clone, Copy)]
pub struct Part(pub &'static str, pub Kind);

/// The members of a scenario.
pub static MEMBERS: [Part; 3] = [
    Part("seeds", Kind::Seeds),
    Part("channels", Kind::Array),
    Part("events", Kind::Array),
];

/// The members of a channel's terms.
pub static TERMS: [Part; 7] = [
    Part("capacity", Kind::Number),
    Part("opener", Kind::Side),
    Part("feerate", Kind::Short),
    Part("dust", Kind::Numbers),
    Part("delay", Kind::Delays),
    Part("minimum", Kind::Numbers),
    Part("start", Kind::Numbers),
];

// The items after the name of an event.
static OFFER: [Part; 5] = [
    Part("side", Kind::Side),
    Part("channel", Kind::Number),
    Part("amount", Kind::Number),
    Part("hash", Kind::Hash),
    Part("expiry", Kind::Short),
];

static FULFIL: [Part; 4] = [
    Part("side", Kind::Side),
    Part("channel", Kind::Number),
    Part("id", Kind::Number),
    Part("preimage", Kind::Hash),
];

static FAIL: [Part; 3] = [
    Part("side", Kind::Side),
    Part("channel", Kind::Number),
    Part("id", Kind::Number),
];

static FEE: [Part; 3] = [
    Part("side", Kind::Side),
    Part("channel", Kind::Number),
    Part("rate", Kind::Short),
];

static CHANNEL: [Part; 2] = [Part("side", Kind::Side), Part("channel", Kind::Number)];

static COMMITMENT: [Part; 3] = [
    Part("side", Kind::Side),
    Part("channel", Kind::Number),
    Part("number", Kind::Number),
];

static HTLC: [Part; 4] = [
    Part("side", Kind::Side),
    Part("channel", Kind::Number),
    Part("number", Kind::Number),
    Part("htlc", Kind::Number),
];

static BLOCKS: [Part; 1] = [Part("count", Kind::Number)];

static LOOK: [Part; 1] = [Part("side", Kind::Side)];

static COUNT: [Part; 2] = [Part("side", Kind::Side), Part("count", Kind::Number)];

static REORG: [Part; 2] = [Part("depth", Kind::Number), Part("forgotten", Kind::Number)];

// Which items an event has after its name.
#[derive(Clone, Copy)]
enum Items {
    Offer,
    Fulfil,
    Fail,
    Fee,
    Channel,
    Commitment,
    Htlc,
    Blocks,
    Look,
    Count,
    Reorg,
}

impl Items {
    // The items in their order.
    fn parts(self) -> &'static [Part] {
        match self {
            Items::Offer => &OFFER,
            Items::Fulfil => &FULFIL,
            Items::Fail => &FAIL,
            Items::Fee => &FEE,
            Items::Channel => &CHANNEL,
            Items::Commitment => &COMMITMENT,
            Items::Htlc => &HTLC,
            Items::Blocks => &BLOCKS,
            Items::Look => &LOOK,
            Items::Count => &COUNT,
            Items::Reorg => &REORG,
        }
    }
}

// An event: its name, and the items after it.
#[derive(Clone, Copy)]
struct Event(&'static str, Items);

// The events. What is broadcast is a commitment, or an output of one, which has an item more.
static EVENTS: [Event; 15] = [
    Event("offer", Items::Offer),
    Event("fulfil", Items::Fulfil),
    Event("fail", Items::Fail),
    Event("fee", Items::Fee),
    Event("sign", Items::Channel),
    Event("deliver", Items::Channel),
    Event("close", Items::Channel),
    Event("keep", Items::Commitment),
    Event("broadcast", Items::Commitment),
    Event("broadcast", Items::Htlc),
    Event("blocks", Items::Blocks),
    Event("look", Items::Look),
    Event("take", Items::Count),
    Event("release", Items::Count),
    Event("reorg", Items::Reorg),
];

/// The items after the name of an event of `count` items, including its name: of a name with two forms the one of this count, or else the first. `None` if
/// there is no event with this name.
pub fn event_parts(name: &str, count: usize) -> Option<&'static [Part]> {
    let mut found: Option<&'static [Part]> = None;
    for event in &EVENTS {
        if event.0 == name {
            let parts = event.1.parts();
            if found.is_none() || parts.len() + 1 == count {
                found = Some(parts);
            }
        }
    }
    found
}
