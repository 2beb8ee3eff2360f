// By which event the message of each event comes, and how an update gets into the commitments of both sides (BOLT 2).

use scenario::Event;
use std::alloc::{AllocError, Global};
use terms::Side;

/// How far an update comes: the event of each step, if there is one.
#[derive(Clone, Copy)]
pub struct Steps {
    /// It comes to the peer of who makes it.
    pub came: Option<usize>,
    /// The newest commitment of the peer has it.
    pub in_peers: Option<usize>,
    /// So has that of who makes it.
    pub in_own: Option<usize>,
    /// The peer knows that it is irrevocably committed: each commitment that may be broadcast without a penalty has it.
    pub committed: Option<usize>,
}

// A message that is sent and not yet delivered.
#[derive(Clone, Copy)]
struct Sent {
    channel: u64,
    // who gets it
    to: Side,
    // the event that sent it
    event: usize,
    // whether it is a signature, which is answered by a revocation
    is_signature: bool,
}

/// How far an update of a side in a channel comes that is made by an event: that side signs and the other one revokes, then the other one signs and that side revokes.
pub(crate) fn steps_of(
    events: &[Event],
    came: &[Option<usize>],
    channel: u64,
    side: Side,
    event: usize,
) -> Steps {
    let in_peers = next_commitment(events, came, channel, side, Some(event));
    let in_own = next_commitment(events, came, channel, side.other(), in_peers);
    let committed = match in_own {
        Some(done) => delivery_of(came, done),
        None => None,
    };
    Steps {
        came: delivery_of(came, event),
        in_peers,
        in_own,
        committed,
    }
}

/// How many commitments of a side come to it in a channel, after the first one.
pub(crate) fn commitments_of(
    events: &[Event],
    came: &[Option<usize>],
    channel: u64,
    side: Side,
) -> u64 {
    let mut count: u64 = 0;
    for (at, event) in events.iter().enumerate() {
        if is_signature(event, channel, side.other()) && delivery_of(came, at).is_some() {
            count = count.saturating_add(1);
        }
    }
    count
}

// The event by which the commitment comes that a side signs next after an event.
fn next_commitment(
    events: &[Event],
    came: &[Option<usize>],
    channel: u64,
    by: Side,
    after: Option<usize>,
) -> Option<usize> {
    let signed = signature_after(events, channel, by, after?)?;
    delivery_of(came, signed)
}

// The first event after another one by which a side signs in a channel.
fn signature_after(events: &[Event], channel: u64, by: Side, after: usize) -> Option<usize> {
    for (at, event) in events.iter().enumerate() {
        if at > after && is_signature(event, channel, by) {
            return Some(at);
        }
    }
    None
}

// Whether a side signs in a channel by an event.
fn is_signature(event: &Event, channel: u64, by: Side) -> bool {
    match event {
        Event::Sign {
            side,
            channel: place,
        } => *side == by && *place == channel,
        _ => false,
    }
}

// The event by which the message that an event sends is delivered.
fn delivery_of(came: &[Option<usize>], event: usize) -> Option<usize> {
    match came.get(event) {
        Some(at) => *at,
        None => None,
    }
}

/// Of each event the one by which the message that it sends is delivered: a side gets the messages of the other one in their order.
pub(crate) fn deliveries(
    alloc: Global,
    events: &[Event],
) -> Result<Vec<Option<usize>>, AllocError> {
    let mut sent: Vec<Sent> = Vec::new(alloc);
    let mut came: Vec<Option<usize>> = Vec::new(alloc);
    for (at, event) in events.iter().enumerate() {
        came.push(None)?;
        if let Some(message) = message_of(event, at) {
            sent.push(message)?;
        } else if let Event::Deliver { side, channel } = event {
            if let Some(message) = taken(&mut sent, *channel, *side) {
                if let Some(delivery) = came.get_mut(message.event) {
                    *delivery = Some(at);
                }
                if message.is_signature {
                    sent.push(Sent {
                        to: side.other(),
                        event: at,
                        is_signature: false,
                        ..message
                    })?;
                }
            }
        }
    }
    Ok(came)
}

// Takes the first message to a side in a channel, if there is one.
fn taken(sent: &mut Vec<Sent>, channel: u64, side: Side) -> Option<Sent> {
    match sent
        .iter()
        .position(|message| message.channel == channel && message.to == side)
    {
        Some(place) if place < sent.len() => Some(sent.remove(place)),
        _ => None,
    }
}

// The message that an event sends.
fn message_of(event: &Event, at: usize) -> Option<Sent> {
    let (side, channel, is_signature) = match event {
        Event::Own { side, channel, .. } => (*side, *channel, false),
        Event::Sign { side, channel } => (*side, *channel, true),
        _ => return None,
    };
    Some(Sent {
        channel,
        to: side.other(),
        event: at,
        is_signature,
    })
}
