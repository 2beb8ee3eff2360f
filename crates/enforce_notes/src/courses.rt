// What became of the HTLCs of a scenario: who offered each, and how its receiver removed it.

use crate::closings::{Closing, closing_of, least_with_output};
use crate::messages::{Steps, deliveries, steps_of};
use digest::sha256;
use scenario::Event;
use std::alloc::{AllocError, Global};
use terms::{ProposedTerms, Side};
use updates::OwnUpdate;

/// An HTLC that was offered.
#[derive(Clone, Copy)]
pub struct Course {
    pub channel: u64,
    pub by: Side,
    /// Its number among the offers of this side in the channel.
    pub id: u64,
    pub amount_msat: u64,
    pub hash: [u8; 32],
    pub expiry_height: u32,
    /// The event that offered it.
    pub event: usize,
    /// The event by which its receiver knows that it is irrevocably committed (BOLT 2): from then on the receiver may remove it.
    pub committed: Option<usize>,
    pub removal: Option<Removal>,
    pub closing: Option<Closing>,
    /// Whether it surely has an output in each commitment that it is in.
    pub has_output: bool,
}

/// How an HTLC was removed.
#[derive(Clone, Copy)]
pub struct Removal {
    /// The event of the fulfil or the fail.
    pub event: usize,
    pub is_fulfil: bool,
    pub steps: Steps,
}

impl Course {
    /// How it was fulfilled.
    pub fn fulfil(&self) -> Option<Removal> {
        match self.removal {
            Some(removal) if removal.is_fulfil => Some(removal),
            _ => None,
        }
    }

    /// How it was failed.
    pub fn fail(&self) -> Option<Removal> {
        match self.removal {
            Some(removal) if !removal.is_fulfil => Some(removal),
            _ => None,
        }
    }

    /// Whether its channel is closed before an event.
    pub fn is_closed(&self, end: usize) -> bool {
        match self.closing {
            Some(closing) => closing.event < end,
            None => false,
        }
    }
}

/// Whether something comes before an event.
pub(crate) fn is_reached(place: Option<usize>, end: usize) -> bool {
    match place {
        Some(at) => at < end,
        None => false,
    }
}

/// The HTLCs of a scenario with these channels, in the order of their offers. Each of the events was carried out.
pub(crate) fn courses_of(
    alloc: Global,
    channels: &[ProposedTerms],
    events: &[Event],
) -> Result<Vec<Course>, AllocError> {
    let came = deliveries(alloc, events)?;
    let mut courses: Vec<Course> = Vec::new(alloc);
    for (at, event) in events.iter().enumerate() {
        if let Event::Own {
            side,
            channel,
            update,
        } = event
        {
            if *channel < channels.len() as u64 {
                let place = (*side, *channel, at);
                add_update(&mut courses, events, came.as_slice(), place, update)?;
            }
        }
    }
    for (index, terms) in channels.iter().enumerate() {
        let channel = index as u64;
        let closing = closing_of(events, came.as_slice(), channel);
        let least = least_with_output(terms, channel, events);
        close(&mut courses, channel, closing, least);
    }
    Ok(courses)
}

// Keeps how a channel is closed, and which of its HTLCs have at least so many millisatoshis.
fn close(courses: &mut Vec<Course>, channel: u64, closing: Option<Closing>, least: u64) {
    for course in courses.iter_mut() {
        if course.channel == channel {
            course.closing = closing;
            course.has_output = course.amount_msat >= least;
        }
    }
}

// Adds the update of a side in a channel by an event.
fn add_update(
    courses: &mut Vec<Course>,
    events: &[Event],
    came: &[Option<usize>],
    place: (Side, u64, usize),
    update: &OwnUpdate,
) -> Result<(), AllocError> {
    let (side, channel, at) = place;
    let steps = steps_of(events, came, channel, side, at);
    match update {
        OwnUpdate::Offer {
            amount_msat,
            hash,
            expiry_height,
        } => {
            courses.push(Course {
                channel,
                by: side,
                id: count_of(courses.as_slice(), channel, side),
                amount_msat: *amount_msat,
                hash: *hash,
                expiry_height: *expiry_height,
                event: at,
                committed: steps.committed,
                removal: None,
                closing: None,
                has_output: false,
            })?;
        }
        OwnUpdate::Fulfil { id, preimage } => {
            remove(courses, place, *id, Some(sha256(preimage)), steps);
        }
        OwnUpdate::Fail { id } => remove(courses, place, *id, None, steps),
        _ => {}
    }
    Ok(())
}

// How many HTLCs a side offered in a channel.
fn count_of(courses: &[Course], channel: u64, by: Side) -> u64 {
    for course in courses.iter().rev() {
        if course.channel == channel && course.by == by {
            return course.id.saturating_add(1);
        }
    }
    0
}

// Removes the HTLC of the peer with this number, if it stands, and if it has this hash where one is given.
fn remove(
    courses: &mut Vec<Course>,
    place: (Side, u64, usize),
    id: u64,
    hash: Option<[u8; 32]>,
    steps: Steps,
) {
    let (side, channel, event) = place;
    for course in courses.iter_mut() {
        let is_it = course.channel == channel && course.by == side.other() && course.id == id;
        if is_it && course.removal.is_none() && hash.unwrap_or(course.hash) == course.hash {
            course.removal = Some(Removal {
                event,
                is_fulfil: hash.is_some(),
                steps,
            });
        }
    }
}
