//! The events of a scenario.

ghost use Rattle.std.specs.Prelude.{◌≡◌};
ghost use Rattle.json_value.specs.View.{view};
ghost use Rattle.scenario.specs.Events.{own_of, sign_of, deliver_of, keep_of, commitment_of, htlc_transaction_of, broadcast_of, blocks_of, look_of, take_of, release_of, reorg_of, close_of};

use json_value::Value;
use terms::Side;
use texts::{FromValue, array_of, item, own_named, tag_of};
use updates::OwnUpdate;

/// An event of a scenario. Channels are named by their index among the scenario's terms.
#[derive(Clone, Copy, Debug, PartialEq, Eq, Drop)]
pub enum Event {
    /// A side makes an update.
    Own {
        side: Side,
        channel: u64,
        update: OwnUpdate,
    },
    /// A side signs its peer's next commitment.
    Sign {
        side: Side,
        channel: u64,
    },
    /// A side receives its oldest message.
    Deliver {
        side: Side,
        channel: u64,
    },
    /// A side keeps the penalties for a revoked commitment of its peer.
    Keep {
        side: Side,
        channel: u64,
        number: u64,
    },
    /// A side sends one of its commitments to the pool.
    Broadcast {
        side: Side,
        channel: u64,
        number: u64,
    },
    /// A side sends the HTLC transaction of an untrimmed HTLC of one of its commitments to the pool.
    BroadcastHtlc {
        side: Side,
        channel: u64,
        number: u64,
        htlc: u64,
    },
    /// The chain grows.
    Blocks {
        count: u64,
    },
    /// A side reads all blocks that it has not read yet.
    Look {
        side: Side,
    },
    /// A side takes jobs: claims that fell due.
    Take {
        side: Side,
        count: u64,
    },
    /// A side releases the oldest claims that it took.
    Release {
        side: Side,
        count: u64,
    },
    /// One block more replaces the newest `depth`, and drops their last `forgotten` transactions.
    Reorg {
        depth: u64,
        forgotten: u64,
    },
    /// A side closes a channel, and sends its newest commitment to the pool.
    Close {
        side: Side,
        channel: u64,
    },
}

// An update of a side, by its name. The side and the channel stand before its fields.
#[tactic(auto, unfolding(crate::specs::Events::own_of))]
fn own_of(name: &str, value: &Value) -> Option<Event>
    ensures { result ≡ own_of name.now (view value.now) }
{
    let side = item(value, 1)?;
    let channel = item(value, 2)?;
    Some(Event::Own {
        side,
        channel,
        update: own_named(name, value)?,
    })
}

#[tactic(auto, unfolding(crate::specs::Events::sign_of))]
fn sign_of(value: &Value) -> Option<Event>
    ensures { result ≡ sign_of (view value.now) }
{
    let form = array_of(value, 3)?;
    Some(Event::Sign {
        side: item(form, 1)?,
        channel: item(form, 2)?,
    })
}

#[tactic(auto, unfolding(crate::specs::Events::deliver_of))]
fn deliver_of(value: &Value) -> Option<Event>
    ensures { result ≡ deliver_of (view value.now) }
{
    let form = array_of(value, 3)?;
    Some(Event::Deliver {
        side: item(form, 1)?,
        channel: item(form, 2)?,
    })
}

#[tactic(auto, unfolding(crate::specs::Events::keep_of))]
fn keep_of(value: &Value) -> Option<Event>
    ensures { result ≡ keep_of (view value.now) }
{
    let form = array_of(value, 4)?;
    Some(Event::Keep {
        side: item(form, 1)?,
        channel: item(form, 2)?,
        number: item(form, 3)?,
    })
}

#[tactic(auto, unfolding(crate::specs::Events::commitment_of))]
fn commitment_of(value: &Value) -> Option<Event>
    ensures { result ≡ commitment_of (view value.now) }
{
    let form = array_of(value, 4)?;
    Some(Event::Broadcast {
        side: item(form, 1)?,
        channel: item(form, 2)?,
        number: item(form, 3)?,
    })
}

#[tactic(auto, unfolding(crate::specs::Events::htlc_transaction_of))]
fn htlc_transaction_of(value: &Value) -> Option<Event>
    ensures { result ≡ htlc_transaction_of (view value.now) }
{
    let form = array_of(value, 5)?;
    Some(Event::BroadcastHtlc {
        side: item(form, 1)?,
        channel: item(form, 2)?,
        number: item(form, 3)?,
        htlc: item(form, 4)?,
    })
}

#[tactic(auto, unfolding(crate::specs::Events::broadcast_of))]
fn broadcast_of(value: &Value) -> Option<Event>
    ensures { result ≡ broadcast_of (view value.now) }
{
    match commitment_of(value) {
        Some(event) => Some(event),
        None => htlc_transaction_of(value),
    }
}

#[tactic(auto, unfolding(crate::specs::Events::blocks_of))]
fn blocks_of(value: &Value) -> Option<Event>
    ensures { result ≡ blocks_of (view value.now) }
{
    let form = array_of(value, 2)?;
    Some(Event::Blocks {
        count: item(form, 1)?,
    })
}

#[tactic(auto, unfolding(crate::specs::Events::look_of))]
fn look_of(value: &Value) -> Option<Event>
    ensures { result ≡ look_of (view value.now) }
{
    let form = array_of(value, 2)?;
    Some(Event::Look {
        side: item(form, 1)?,
    })
}

#[tactic(auto, unfolding(crate::specs::Events::take_of))]
fn take_of(value: &Value) -> Option<Event>
    ensures { result ≡ take_of (view value.now) }
{
    let form = array_of(value, 3)?;
    Some(Event::Take {
        side: item(form, 1)?,
        count: item(form, 2)?,
    })
}

#[tactic(auto, unfolding(crate::specs::Events::release_of))]
fn release_of(value: &Value) -> Option<Event>
    ensures { result ≡ release_of (view value.now) }
{
    let form = array_of(value, 3)?;
    Some(Event::Release {
        side: item(form, 1)?,
        count: item(form, 2)?,
    })
}

#[tactic(auto, unfolding(crate::specs::Events::reorg_of))]
fn reorg_of(value: &Value) -> Option<Event>
    ensures { result ≡ reorg_of (view value.now) }
{
    let form = array_of(value, 3)?;
    Some(Event::Reorg {
        depth: item(form, 1)?,
        forgotten: item(form, 2)?,
    })
}

#[tactic(auto, unfolding(crate::specs::Events::close_of))]
fn close_of(value: &Value) -> Option<Event>
    ensures { result ≡ close_of (view value.now) }
{
    let form = array_of(value, 3)?;
    Some(Event::Close {
        side: item(form, 1)?,
        channel: item(form, 2)?,
    })
}

/// An array whose first item is the event's name.
impl FromValue for Event {
    ghost use Rattle.scenario.specs.Events.{event_of};

    ghost reads = { event_of };

    #[tactic(auto, unfolding(crate::specs::Events::event_of, crate::specs::Events::event_named))]
    fn from_value(value: &Value) -> Option<Event> {
        let name = tag_of(value)?;
        if name == "sign" {
            sign_of(value)
        } else if name == "deliver" {
            deliver_of(value)
        } else if name == "keep" {
            keep_of(value)
        } else if name == "broadcast" {
            broadcast_of(value)
        } else if name == "blocks" {
            blocks_of(value)
        } else if name == "look" {
            look_of(value)
        } else if name == "take" {
            take_of(value)
        } else if name == "release" {
            release_of(value)
        } else if name == "reorg" {
            reorg_of(value)
        } else if name == "close" {
            close_of(value)
        } else {
            own_of(name, value)
        }
    }
}
