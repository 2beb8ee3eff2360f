// Notes on an HTLC that its receiver could take, and does not: what it fulfils elsewhere alone, and what comes too late.

use crate::courses::{Course, Removal, is_reached};
use crate::names::name_of;
use crate::sources::{Source, is_known_there, source_before, untold_source};
use page::Page;
use page::Piece::{Count, Text};
use scenario::Event;

/// Notes that an HTLC is fulfilled too late for its channel, if it is: the channel is closed with a commitment that has it, or stays open to the end, and then what the next block gives comes too late.
pub fn note_late(notes: &mut Page, events: &[Event], course: &Course, fulfil: &Removal) {
    if let Some(end) = end_of(events, course) {
        let height = height_at(events, end.max(fulfil.event));
        if !is_gone(course, fulfil, end) && is_late(course, height) {
            write_late(notes, course, (fulfil.event, end), height);
        }
    }
}

/// Notes that a side does not fulfil an HTLC whose preimage it has by another fulfil, if its channel is closed or its time is over, and that a forwarder is paid too late.
pub fn note_left(notes: &mut Page, events: &[Event], courses: &[Course], course: &Course) {
    if let Some(end) = end_of(events, course) {
        if let Some(source) = source_of(events, courses, course) {
            let is_committed = is_reached(course.committed, end);
            if is_committed && is_late(course, height_at(events, end.max(source.at))) {
                write_left(notes, course, &source);
                notes.write(
                    ": % may take that one back in any block above %\n",
                    &[
                        Text(name_of(course.by)),
                        Count(u64::from(course.expiry_height)),
                    ],
                );
            } else if source.is_told && course.closing.is_some() && !is_committed {
                write_left(notes, course, &source);
                notes.push(": it is not irrevocably committed, and no fulfil takes it\n");
            } else if source.is_told
                && course.closing.is_some()
                && !is_known_there(courses, course, usize::MAX)
            {
                write_left(notes, course, &source);
                notes.push(": a fulfil in one channel is not known in another\n");
            }
        }
    }
}

// The event that closes the channel of an HTLC, or the end of the events. None where nobody can take the HTLC back: it has no output, or the other side may take all of the commitment.
fn end_of(events: &[Event], course: &Course) -> Option<usize> {
    match course.closing {
        _ if !course.has_output => None,
        Some(closing) if closing.is_revoked => None,
        Some(closing) => Some(closing.event),
        None => Some(events.len()),
    }
}

// Whether a height is too late to fulfil an HTLC or to close its channel. A commitment, or a preimage, is in the next block, and the claim that this block gives in the one after it. What takes the HTLC back has the lock time of its
// expiry (BOLT 3; BIP 65): it may stand in any block above that height.
fn is_late(course: &Course, height: u64) -> bool {
    height.saturating_add(2) > u64::from(course.expiry_height)
}

// Whether the commitments with which a channel may be closed from an event on have an HTLC no more.
fn is_gone(course: &Course, fulfil: &Removal, end: usize) -> bool {
    match course.closing {
        Some(closing) if closing.side == course.by => is_reached(fulfil.steps.in_peers, end),
        _ => is_reached(fulfil.steps.in_own, end),
    }
}

// The fulfil by which the receiver of an HTLC has its preimage, or else one of the peer's which may be shown to it by the chain: not where the receiver could take back what it offered, before that.
fn source_of(events: &[Event], courses: &[Course], course: &Course) -> Option<Source> {
    if let Some(source) = source_before(courses, course, usize::MAX) {
        return Some(source);
    }
    let source = untold_source(courses, course)?;
    if could_be_back(events, &source) {
        None
    } else {
        Some(source)
    }
}

// Whether who offered an HTLC could take it back on the chain before the fulfil: its channel was closed, and there was a block for it after that of the commitment, and above the expiry.
fn could_be_back(events: &[Event], source: &Source) -> bool {
    let offered = &source.fulfilled;
    match offered.closing {
        Some(closing) if closing.event < source.event => {
            let first = height_at(events, closing.event)
                .saturating_add(2)
                .max(u64::from(offered.expiry_height).saturating_add(1));
            first <= height_at(events, source.event)
        }
        _ => false,
    }
}

// Writes that an HTLC is fulfilled, and another one of the same hash is not.
fn write_left(notes: &mut Page, course: &Course, source: &Source) {
    let (fulfilled, side) = (&source.fulfilled, course.by.other());
    notes.write(
        "note: event %: % fulfils HTLC % of channel %, and ",
        &[
            Count(source.event as u64),
            Text(name_of(fulfilled.by.other())),
            Count(fulfilled.id),
            Count(fulfilled.channel),
        ],
    );
    if fulfilled.by == side {
        let sides = [Text(name_of(side)), Text(name_of(course.by))];
        notes.write("% does not fulfil %'s", &sides);
    } else {
        notes.push("not");
    }
    notes.write(
        " HTLC % of channel %, which has the same hash",
        &[Count(course.id), Count(course.channel)],
    );
}

// Writes that an HTLC is fulfilled by an event, and that its channel is closed by another one or open at the end, the later of them at a height that is too late.
fn write_late(notes: &mut Page, course: &Course, events: (usize, usize), height: u64) {
    let (event, end) = events;
    notes.write(
        "note: event %: % fulfils HTLC % of channel %",
        &[
            Count(event as u64),
            Text(name_of(course.by.other())),
            Count(course.id),
            Count(course.channel),
        ],
    );
    if course.closing.is_none() {
        notes.write(
            ", which is not committed at the end, at height %",
            &[Count(height)],
        );
    } else if end < event {
        notes.write(" at height %, and the channel is closed", &[Count(height)]);
    } else {
        notes.write(
            ", and event % closes the channel at height % before the fulfil is committed",
            &[Count(end as u64), Count(height)],
        );
    }
    notes.write(
        ": % may take it back in any block above %, and a claim that the next block gives is in block % at the earliest\n",
        &[
            Text(name_of(course.by)),
            Count(u64::from(course.expiry_height)),
            Count(height.saturating_add(2)),
        ],
    );
}

// The height of the chain before an event: a reorganisation makes a block more than it takes.
fn height_at(events: &[Event], end: usize) -> u64 {
    let mut height: u64 = 0;
    for (at, event) in events.iter().enumerate() {
        if at < end {
            match event {
                Event::Blocks { count } => height = height.saturating_add(*count),
                Event::Reorg { .. } => height = height.saturating_add(1),
                _ => {}
            }
        }
    }
    height
}
