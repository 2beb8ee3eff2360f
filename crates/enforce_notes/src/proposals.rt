// Notes on a scenario that has its shape: its limits, and the terms of its channels.

use json_value::Value;
use page::Page;
use page::Piece::{Count, Sum};
use scenario::{MAX_BLOCKS, MAX_CHANNELS, MAX_EVENTS};
use terms::ProposedTerms;
use texts::{FromValue, tag_of};
use tx::MAX_VALUE;

/// Notes the first limit that a scenario exceeds, or else the first channel on whose terms the two sides can't agree.
pub fn note_scenario(notes: &mut Page, value: &Value) {
    let channels = items_of(value, "channels");
    let events = items_of(value, "events");
    if channels.len() > MAX_CHANNELS {
        notes.write(
            "note: the scenario has % channels, and at most % are allowed\n",
            &[Count(channels.len() as u64), Count(MAX_CHANNELS as u64)],
        );
    } else if events.len() > MAX_EVENTS {
        notes.write(
            "note: the scenario has % events, and at most % are allowed\n",
            &[Count(events.len() as u64), Count(MAX_EVENTS as u64)],
        );
    } else if let Some((event, count)) = too_many_blocks(events) {
        notes.write(
            "note: event % asks for % blocks, and at most % are allowed in one event\n",
            &[Count(event as u64), Count(count), Count(MAX_BLOCKS)],
        );
    } else {
        note_terms(notes, channels);
    }
}

// The items of an array that is this member; none where there is none.
fn items_of<'a>(value: &'a Value, name: &str) -> &'a [Value] {
    match value.member(name) {
        Some(member) => match member.as_array() {
            Some(items) => items,
            None => &[],
        },
        None => &[],
    }
}

// The first event that asks for too many blocks, with their number.
fn too_many_blocks(events: &[Value]) -> Option<(usize, u64)> {
    for (index, event) in events.iter().enumerate() {
        let count = blocks_of(event);
        if count > MAX_BLOCKS {
            return Some((index, count));
        }
    }
    None
}

// The number of blocks that an event asks for.
fn blocks_of(event: &Value) -> u64 {
    match tag_of(event) {
        Some(name) if name == "blocks" => match event.item(1) {
            Some(count) => count.as_u64().unwrap_or(0),
            None => 0,
        },
        _ => 0,
    }
}

// Notes the first channel on whose terms the two sides can't agree.
fn note_terms(notes: &mut Page, channels: &[Value]) {
    for (index, value) in channels.iter().enumerate() {
        if let Some(terms) = ProposedTerms::from_value(value) {
            if !terms.can_agree() {
                note_channel(notes, index as u64, &terms);
                return;
            }
        }
    }
}

// Notes why two sides can't agree on the terms of a channel.
fn note_channel(notes: &mut Page, channel: u64, terms: &ProposedTerms) {
    let capacity_sat = terms.capacity_sat;
    if capacity_sat > MAX_VALUE {
        notes.write(
            "note: channel %: its capacity is % satoshis, and there are at most %\n",
            &[Count(channel), Count(capacity_sat), Count(MAX_VALUE)],
        );
        return;
    }
    let (a, b) = (terms.a.start_msat, terms.b.start_msat);
    notes.write(
        "note: channel %: its start is % and % millisatoshis, together %, and its capacity is % satoshis, which are % millisatoshis\n",
        &[
            Count(channel),
            Count(a),
            Count(b),
            Sum(u128::from(a) + u128::from(b)),
            Count(capacity_sat),
            Sum(u128::from(capacity_sat) * 1000),
        ],
    );
}
