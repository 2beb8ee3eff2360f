// By which fulfil a side has the preimage of an HTLC.

use crate::courses::{Course, is_reached};
use terms::Side;

/// A fulfil of an HTLC, and the event by which a side has the preimage.
#[derive(Clone, Copy)]
pub struct Source {
    pub fulfilled: Course,
    /// The event that fulfils it.
    pub event: usize,
    /// That event, or the one by which the fulfil comes to the side.
    pub at: usize,
    /// Whether the side has the preimage by that. Else the peer fulfils, and that does not come to the side.
    pub is_told: bool,
}

/// The first fulfil by which the receiver of an HTLC has its preimage before an event: its own, or one of its peer's that came to it.
pub(crate) fn source_before(courses: &[Course], course: &Course, end: usize) -> Option<Source> {
    let mut first: Option<Source> = None;
    for other in courses {
        if other.hash == course.hash {
            if let Some(source) = source_of(other, course.by.other()) {
                if source.is_told && source.at < end && is_before(&source, first) {
                    first = Some(source);
                }
            }
        }
    }
    first
}

/// The first fulfil by the peer that does not come to the receiver of an HTLC, of what the receiver offered by that hash.
pub(crate) fn untold_source(courses: &[Course], course: &Course) -> Option<Source> {
    for other in courses {
        if other.hash == course.hash {
            if let Some(source) = source_of(other, course.by.other()) {
                if !source.is_told {
                    return Some(source);
                }
            }
        }
    }
    None
}

/// Whether a fulfil of the same hash in the channel of an HTLC is known to its receiver before an event: then its book has the preimage there.
pub(crate) fn is_known_there(courses: &[Course], course: &Course, end: usize) -> bool {
    for other in courses {
        if other.channel == course.channel && other.hash == course.hash {
            if let Some(source) = source_of(other, course.by.other()) {
                if source.is_told && source.at < end {
                    return true;
                }
            }
        }
    }
    false
}

// The fulfil of an HTLC, if there is one, and what a side has by it.
fn source_of(other: &Course, side: Side) -> Option<Source> {
    let fulfil = other.fulfil()?;
    let is_own = other.by != side;
    let at = if is_own {
        Some(fulfil.event)
    } else {
        fulfil.steps.came
    };
    Some(Source {
        fulfilled: *other,
        event: fulfil.event,
        at: at.unwrap_or(fulfil.event),
        is_told: at.is_some(),
    })
}

// Whether a side has the preimage by a source before it has it by another one.
fn is_before(source: &Source, other: Option<Source>) -> bool {
    match other {
        Some(other) => source.at < other.at,
        None => true,
    }
}

/// Whether a fulfil of an HTLC came to who offered it before an event.
pub(crate) fn is_paid(course: &Course, end: usize) -> bool {
    match course.fulfil() {
        Some(fulfil) => is_reached(fulfil.steps.came, end),
        None => false,
    }
}
