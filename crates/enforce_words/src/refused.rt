// The first refused event of a scenario, in words.

use facts::texts::Hex;
use scenario::Event;
use std::alloc::{AllocError, Global};
use std::fmt::Write;
use terms::Side;
use updates::{ChannelError, OwnUpdate};
use world::Outcome;
use world::errors::EventError;

/// Notes the first event that was refused, as it stands in the scenario, and where it names an HTLC that is unknown there, which of three things that means. Empty if none was. The only
/// error is that memory ran out.
pub fn first_refused(
    alloc: Global,
    events: &[Event],
    outcomes: &[Outcome],
) -> Result<String, AllocError> {
    let mut note = String::new(alloc);
    for (index, event) in events.iter().enumerate() {
        if let Some(Outcome::Refused(error)) = outcomes.get(index) {
            note_event(&mut note, index, event, error)?;
            if is_unknown(error) {
                note_unknown(&mut note, events, outcomes, index, event)?;
            }
            break;
        }
    }
    Ok(note)
}

/// Notes an event that was refused, as it stands in the scenario, and why. The only error is that memory ran out.
pub fn note_refused(
    note: &mut String,
    index: usize,
    event: &Event,
    error: &EventError,
) -> Result<(), AllocError> {
    write!(note, "note: event {index} was refused, {error}: ")?;
    write_event(note, event)
}

// Notes which event was refused, and why.
fn note_event(
    note: &mut String,
    index: usize,
    event: &Event,
    error: &EventError,
) -> Result<(), AllocError> {
    write!(
        note,
        "note: event {index} is the first that was refused, {error}: "
    )?;
    write_event(note, event)
}

// The name of a side.
fn letter(side: Side) -> &'static str {
    match side {
        Side::A => "A",
        Side::B => "B",
    }
}

// Writes an event as it stands in a scenario.
fn write_event(note: &mut String, event: &Event) -> Result<(), AllocError> {
    match event {
        Event::Own {
            side,
            channel,
            update,
        } => write_own(note, letter(*side), *channel, update),
        Event::Sign { side, channel } => write_line(note, "sign", letter(*side), *channel),
        Event::Deliver { side, channel } => write_line(note, "deliver", letter(*side), *channel),
        Event::Close { side, channel } => write_line(note, "close", letter(*side), *channel),
        Event::Take { side, count } => write_line(note, "take", letter(*side), *count),
        Event::Release { side, count } => write_line(note, "release", letter(*side), *count),
        _ => write_other(note, event),
    }
}

// Writes an event of a side with one number.
fn write_line(note: &mut String, name: &str, side: &str, number: u64) -> Result<(), AllocError> {
    writeln!(note, "[\"{name}\", \"{side}\", {number}]")
}

// Writes an event with two numbers or more, or of the chain.
fn write_other(note: &mut String, event: &Event) -> Result<(), AllocError> {
    match event {
        Event::Keep {
            side,
            channel,
            number,
        } => write_numbered(note, "keep", letter(*side), *channel, *number),
        Event::Broadcast {
            side,
            channel,
            number,
        } => write_numbered(note, "broadcast", letter(*side), *channel, *number),
        Event::BroadcastHtlc {
            side,
            channel,
            number,
            htlc,
        } => {
            let side = letter(*side);
            writeln!(
                note,
                "[\"broadcast\", \"{side}\", {channel}, {number}, {htlc}]"
            )
        }
        _ => write_chain(note, event),
    }
}

// Writes an event of a side with two numbers.
fn write_numbered(
    note: &mut String,
    name: &str,
    side: &str,
    channel: u64,
    number: u64,
) -> Result<(), AllocError> {
    writeln!(note, "[\"{name}\", \"{side}\", {channel}, {number}]")
}

// Writes an event of the chain.
fn write_chain(note: &mut String, event: &Event) -> Result<(), AllocError> {
    match event {
        Event::Blocks { count } => writeln!(note, "[\"blocks\", {count}]"),
        Event::Look { side } => {
            let side = letter(*side);
            writeln!(note, "[\"look\", \"{side}\"]")
        }
        Event::Reorg { depth, forgotten } => { writeln!(note, "[\"reorg\", {depth}, {forgotten}]") }
        _ => Ok(()),
    }
}

// Writes an update of a side.
fn write_own(
    note: &mut String,
    side: &str,
    channel: u64,
    update: &OwnUpdate,
) -> Result<(), AllocError> {
    match update {
        OwnUpdate::Offer {
            amount_msat,
            hash,
            expiry_height,
        } => {
            let hash = Hex(hash);
            write!(note, "[\"offer\", \"{side}\", {channel}, ")?;
            writeln!(note, "{amount_msat}, \"{hash}\", {expiry_height}]")
        }
        OwnUpdate::Fulfil { id, preimage } => {
            let preimage = Hex(preimage);
            writeln!(
                note,
                "[\"fulfil\", \"{side}\", {channel}, {id}, \"{preimage}\"]"
            )
        }
        OwnUpdate::Fail { id } => write_numbered(note, "fail", side, channel, *id),
        OwnUpdate::SetFee { feerate_per_kw } => {
            write_numbered(note, "fee", side, channel, u64::from(*feerate_per_kw))
        }
    }
}

// Whether an event names an HTLC that is unknown there.
fn is_unknown(error: &EventError) -> bool {
    matches!(error, EventError::Channel(ChannelError::UnknownHtlc))
}

// The side, the channel and the HTLC of a fulfil or a fail.
fn removal_of(event: &Event) -> Option<(Side, u64, u64)> {
    match event {
        Event::Own {
            side,
            channel,
            update,
        } => match update {
            OwnUpdate::Fulfil { id, .. } => Some((*side, *channel, *id)),
            OwnUpdate::Fail { id } => Some((*side, *channel, *id)),
            _ => None,
        },
        _ => None,
    }
}

// Whether an event is an offer of a side in a channel.
fn is_offer(event: &Event, side: Side, channel: u64) -> bool {
    match event {
        Event::Own {
            side: offerer,
            channel: place,
            update,
        } => matches!(update, OwnUpdate::Offer { .. }) && *offerer == side && *place == channel,
        _ => false,
    }
}

// Whether an event, with what became of it, happened.
fn happened(outcomes: &[Outcome], index: usize) -> bool {
    match outcomes.get(index) {
        Some(Outcome::Refused(_)) => false,
        Some(_) => true,
        None => false,
    }
}

// How many offers of a side in a channel happened before an event.
fn offers_before(
    events: &[Event],
    outcomes: &[Outcome],
    end: usize,
    side: Side,
    channel: u64,
) -> u64 {
    let mut count: u64 = 0;
    for (index, event) in events.iter().enumerate() {
        if index < end && is_offer(event, side, channel) && happened(outcomes, index) {
            count = count.saturating_add(1);
        }
    }
    count
}

// Whether an event is a fulfil or a fail of this HTLC by this side.
fn removes(event: &Event, removal: (Side, u64, u64)) -> bool {
    let (side, channel, id) = removal;
    match removal_of(event) {
        Some((by, place, htlc)) => by == side && place == channel && htlc == id,
        None => false,
    }
}

// Whether the same side fulfilled or failed the same HTLC before an event.
fn is_removed(
    events: &[Event],
    outcomes: &[Outcome],
    end: usize,
    removal: (Side, u64, u64),
) -> bool {
    for (index, event) in events.iter().enumerate() {
        if index < end && removes(event, removal) && happened(outcomes, index) {
            return true;
        }
    }
    false
}

// Notes what it means that an event names an unknown HTLC.
fn note_unknown(
    note: &mut String,
    events: &[Event],
    outcomes: &[Outcome],
    index: usize,
    event: &Event,
) -> Result<(), AllocError> {
    let Some(removal) = removal_of(event) else {
        return Ok(());
    };
    let (side, channel, id) = removal;
    let count = offers_before(events, outcomes, index, side.other(), channel);
    let (own, peer) = (letter(side), letter(side.other()));
    if id >= count {
        writeln!(
            note,
            "note: there is no such HTLC: {peer} offered {count} in channel {channel}, numbered from 0"
        )
    } else if is_removed(events, outcomes, index, removal) {
        writeln!(
            note,
            "note: {own} fulfilled or failed HTLC {id} of channel {channel} already"
        )
    } else {
        writeln!(
            note,
            "note: HTLC {id} of channel {channel} is not yet committed on both sides: {peer} signs, {own} revokes and signs, and {peer} revokes, in this order"
        )
    }
}
