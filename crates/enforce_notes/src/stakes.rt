// What a side may have to pay by a hash, and what it may get.

use crate::courses::{Course, is_reached};
use terms::Side;

/// What a side may have to pay by a hash, and what it may get by it, in millisatoshis. A side that offered the hash before its peer did pays for itself: its offers count for nothing.
#[derive(Clone, Copy)]
pub struct Stake {
    /// What its own offers add up to that are not failed for good.
    pub pays: u128,
    /// What the offers to it add up to that it did not fail.
    pub gets: u128,
    // what it pays in channels that are open
    open: u128,
    first_open: Option<Course>,
    first_closed: Option<Course>,
}

impl Stake {
    /// What a side has at stake by the hash of an HTLC, by the events before one.
    pub fn before(courses: &[Course], one: &Course, side: Side, end: usize) -> Stake {
        let is_payer = is_first_by(courses, one, side);
        let mut stake = Stake {
            pays: 0,
            gets: 0,
            open: 0,
            first_open: None,
            first_closed: None,
        };
        for course in courses {
            if course.hash == one.hash && course.event < end {
                if course.by != side {
                    stake.receive(course, end);
                } else if !is_payer {
                    stake.offer(course, end);
                }
            }
        }
        stake
    }

    /// The HTLC by which the side may have to pay more than it gets, if there is one: the first in an open channel where these are enough for it, else the first in a closed one.
    pub fn loss(&self) -> Option<Course> {
        if self.open > self.gets {
            self.first_open
        } else if self.pays > self.gets {
            self.first_closed
        } else {
            None
        }
    }

    // Adds an HTLC that the side offered.
    fn offer(&mut self, course: &Course, end: usize) {
        if is_failed_for_good(course, end) {
            return;
        }
        let amount = u128::from(course.amount_msat);
        self.pays = self.pays.saturating_add(amount);
        if course.is_closed(end) {
            self.first_closed = Some(self.first_closed.unwrap_or(*course));
        } else {
            self.open = self.open.saturating_add(amount);
            self.first_open = Some(self.first_open.unwrap_or(*course));
        }
    }

    // Adds an HTLC that the peer offered.
    fn receive(&mut self, course: &Course, end: usize) {
        if !is_failed(course, end) {
            self.gets = self.gets.saturating_add(u128::from(course.amount_msat));
        }
    }
}

// Whether the first offer of the hash of an HTLC is a side's.
fn is_first_by(courses: &[Course], one: &Course, side: Side) -> bool {
    for course in courses {
        if course.hash == one.hash {
            return course.by == side;
        }
    }
    false
}

/// Whether an HTLC is failed before an event.
pub(crate) fn is_failed(course: &Course, end: usize) -> bool {
    match course.fail() {
        Some(fail) => fail.event < end,
        None => false,
    }
}

// Whether an HTLC is failed, and that is irrevocably committed before an event.
fn is_failed_for_good(course: &Course, end: usize) -> bool {
    match course.fail() {
        Some(fail) => is_reached(fail.steps.committed, end),
        None => false,
    }
}
