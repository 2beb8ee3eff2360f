// Notes on a side that fails an HTLC at its own cost: a forwarder who may have to pay more by the hash than it gets, then or by an offer after it, and whoever has the preimage, then or after it.

use crate::courses::{Course, Removal};
use crate::names::{name_of, owner_of};
use crate::sources::{Source, is_paid, source_before};
use crate::stakes::{Stake, is_failed};
use page::Page;
use page::Piece::{Count, Sum, Text};
use terms::Side;

/// Notes that a side loses by a fail of an HTLC, if it does.
pub fn note_fail(notes: &mut Page, courses: &[Course], failed: &Course, fail: &Removal) {
    let end = fail.event.saturating_add(1);
    let stake = Stake::before(courses, failed, failed.by.other(), end);
    if let Some(other) = stake.loss() {
        write_fail(notes, failed, fail.event);
        write_cause(notes, &other, end);
        write_stake(notes, &stake, other.is_closed(end));
    } else if let Some(source) = source_before(courses, failed, end) {
        write_fail(notes, failed, fail.event);
        write_known(notes, &source, failed.by.other());
    } else if let Some(fulfilled) = fulfilled_after(courses, failed, fail.event) {
        if gets_less(courses, failed, fail.event, &fulfilled) {
            write_less(notes, failed, &fulfilled);
        }
    }
}

/// Notes an offer of the hash of an HTLC that its side failed before, if the side may have to pay more by that hash than it gets.
pub fn note_offer(notes: &mut Page, courses: &[Course], offered: &Course) {
    if let Some(failed) = failed_before(courses, offered) {
        let end = offered.event.saturating_add(1);
        let stake = Stake::before(courses, offered, offered.by, end);
        if stake.loss().is_some() {
            notes.write(
                "note: event %: % offers in channel % the hash of HTLC % of channel %, which it failed",
                &[
                    Count(offered.event as u64),
                    Text(name_of(offered.by)),
                    Count(offered.channel),
                    Count(failed.id),
                    Count(failed.channel),
                ],
            );
            write_stake(notes, &stake, offered.is_closed(end));
        }
    }
}

// The first HTLC of the same hash that the side which offers one failed before.
fn failed_before(courses: &[Course], offered: &Course) -> Option<Course> {
    for course in courses {
        if course.by != offered.by
            && course.hash == offered.hash
            && is_failed(course, offered.event)
        {
            return Some(*course);
        }
    }
    None
}

// The HTLC of the same hash that is fulfilled first after the fail of one, where it was offered before the fail.
fn fulfilled_after(courses: &[Course], failed: &Course, event: usize) -> Option<(Course, usize)> {
    let mut first: Option<(Course, usize)> = None;
    for course in courses {
        if let Some(fulfil) = course.fulfil() {
            let is_it = course.by == failed.by && course.hash == failed.hash;
            let is_first = match first {
                Some((_, at)) => fulfil.event < at,
                None => true,
            };
            if is_it && course.event < event && event < fulfil.event && is_first {
                first = Some((*course, fulfil.event));
            }
        }
    }
    first
}

// Whether a side that offers nothing by a hash gets less by a fulfil than it was offered before its fail.
fn gets_less(
    courses: &[Course],
    failed: &Course,
    event: usize,
    fulfilled: &(Course, usize),
) -> bool {
    let (side, end) = (failed.by.other(), fulfilled.1.saturating_add(1));
    let before = Stake::before(courses, failed, side, event);
    let after = Stake::before(courses, failed, side, end);
    after.pays == 0 && after.gets < before.gets
}

// Writes that an HTLC is failed by an event.
fn write_fail(notes: &mut Page, failed: &Course, event: usize) {
    notes.write(
        "note: event %: % fails HTLC % of channel %",
        &[
            Count(event as u64),
            Text(name_of(failed.by.other())),
            Count(failed.id),
            Count(failed.channel),
        ],
    );
}

// Writes what another HTLC is to a side that fails one, by the events before one.
fn write_cause(notes: &mut Page, other: &Course, end: usize) {
    let (peer, place) = (Text(name_of(other.by.other())), Count(other.channel));
    if is_paid(other, end) {
        notes.write(
            ", whose preimage it has by %'s fulfil in channel %",
            &[peer, place],
        );
    } else if is_failed(other, end) && !other.is_closed(end) {
        notes.write(
            " before %'s fail of the same hash in channel % is irrevocably committed",
            &[peer, place],
        );
    } else {
        notes.write(" while it offers the same hash in channel %", &[place]);
    }
    if other.is_closed(end) {
        notes.push(", which is closed");
    }
}

// Writes what a side may have to pay, and what it may get, where that depends on a closed channel or not.
fn write_stake(notes: &mut Page, stake: &Stake, is_closed: bool) {
    notes.write(
        ": it pays up to % millisatoshis by that hash, and % are left to it",
        &[Sum(stake.pays), Sum(stake.gets)],
    );
    if is_closed {
        notes.push(
            ", unless a transaction deep in the chain took back or left out what it offers there",
        );
    }
    notes.push("\n");
}

// Writes that a side has the preimage of what it fails.
fn write_known(notes: &mut Page, source: &Source, side: Side) {
    notes.write(
        ", whose preimage it has by % fulfil in channel %, and can't fulfil it any more\n",
        &[
            Text(owner_of(source.fulfilled.by.other(), side)),
            Count(source.fulfilled.channel),
        ],
    );
}

// Writes that a side fulfils an HTLC after it failed another one of that hash.
fn write_less(notes: &mut Page, failed: &Course, fulfilled: &(Course, usize)) {
    let (other, event) = fulfilled;
    notes.write(
        "note: event %: % fulfils HTLC % of channel % after it failed HTLC % of channel %, which has the same hash: it can't fulfil that one any more\n",
        &[
            Count(*event as u64),
            Text(name_of(failed.by.other())),
            Count(other.id),
            Count(other.channel),
            Count(failed.id),
            Count(failed.channel),
        ],
    );
}
