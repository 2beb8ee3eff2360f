// Notes on a scenario that was played.

use crate::courses::{Course, courses_of};
use crate::fails::{note_fail, note_offer};
use crate::late::{note_late, note_left};
use crate::repeats::note_repeat;
use crate::uncounted::note_uncounted;
use page::Page;
use scenario::{Event, Scenario};
use script_notes::text_of;
use std::alloc::{AllocError, Global};
use terms::ProposedTerms;

/// The notes on the text of a scenario that was played, and that refused these events: a member that stands twice; and of each HTLC what its receiver loses by it, and its offer after a fail of that hash. Of a
/// play in threads, which does not tell what it refused, they are on the events that it does not count in place of the HTLCs.
pub fn played_notes(
    alloc: Global,
    in_threads: bool,
    refused: &[usize],
    input: &[u8],
) -> Result<String, AllocError> {
    let mut notes = Page::new(alloc);
    note_repeat(&mut notes, input);
    note_text(&mut notes, in_threads, refused, input);
    text_of(&notes)
}

// Notes on the text of a scenario, but for its members.
fn note_text(notes: &mut Page, in_threads: bool, refused: &[usize], input: &[u8]) {
    if let Ok(scenario) = Scenario::read(notes.alloc(), input) {
        let (channels, events) = (scenario.channels.values(), scenario.events.values());
        if in_threads {
            note_uncounted(notes, channels.len(), events);
        } else {
            note_played(notes, channels, events, refused);
        }
    }
}

// Notes on the events of a scenario with these channels.
fn note_played(notes: &mut Page, channels: &[ProposedTerms], events: &[Event], refused: &[usize]) {
    match played_events(notes.alloc(), events, refused) {
        Ok(played) => note_courses(notes, channels, played.as_slice()),
        Err(_) => notes.fail(),
    }
}

// Notes on events that were carried out, in the order of the offers.
fn note_courses(notes: &mut Page, channels: &[ProposedTerms], events: &[Event]) {
    match courses_of(notes.alloc(), channels, events) {
        Ok(courses) => {
            for course in courses.as_slice() {
                note_offer(notes, courses.as_slice(), course);
                note_course(notes, events, courses.as_slice(), course);
            }
        }
        Err(_) => notes.fail(),
    }
}

// Notes on what the receiver of an HTLC made of it.
fn note_course(notes: &mut Page, events: &[Event], courses: &[Course], course: &Course) {
    match course.removal {
        Some(removal) if removal.is_fulfil => note_late(notes, events, course, &removal),
        Some(removal) => note_fail(notes, courses, course, &removal),
        None => note_left(notes, events, courses, course),
    }
}

// The events, and no block in the place of each that was refused.
fn played_events(
    alloc: Global,
    events: &[Event],
    refused: &[usize],
) -> Result<Vec<Event>, AllocError> {
    let mut played: Vec<Event> = Vec::new(alloc);
    for event in events {
        played.push(*event)?;
    }
    for index in refused {
        if let Some(event) = played.get_mut(*index) {
            *event = Event::Blocks { count: 0 };
        }
    }
    Ok(played)
}
