// Dates and spans of time, for people.

use std::fmt;

const DAY: u64 = 86_400;

const HOUR: u64 = 3_600;

// The days of the months of a year that is no leap year.
const MONTHS: [u64; 12] = [31, 28, 31, 30, 31, 30, 31, 31, 30, 31, 30, 31];

// Heights of Bitcoin's main chain and the seconds of their blocks: the first with witness scripts, and a halving.
const WITNESSES: (u64, u64) = (481_824, 1_503_539_857);

const HALVING: (u64, u64) = (840_000, 1_713_571_767);

// The seconds of a block.
const BLOCK: u64 = 600;

/// A day of the calendar, printed as in 2026-09-21.
#[derive(Clone, Copy)]
pub struct Date {
    year: u64,
    month: u64,
    day: u64,
}

impl Date {
    /// The day of a second since 1970, in UTC. Of one after the year 2200 it is none.
    pub fn of(seconds: u64) -> Self {
        let mut days = seconds / DAY;
        let mut year = 1970u64;
        for _turn in 0..230 {
            let count = if is_leap(year) { 366 } else { 365 };
            if days >= count {
                days -= count;
                year = year.saturating_add(1);
            }
        }
        let mut month = 1u64;
        for (index, count) in MONTHS.iter().enumerate() {
            let extra = if index == 1 && is_leap(year) { 1 } else { 0 };
            let count = count.saturating_add(extra);
            if days >= count && month as usize == index.saturating_add(1) {
                days -= count;
                month = month.saturating_add(1);
            }
        }
        Date {
            year,
            month,
            day: days.saturating_add(1),
        }
    }
}

fn is_leap(year: u64) -> bool {
    year % 4 == 0 && (year % 100 != 0 || year % 400 == 0)
}

impl fmt::Display for Date {
    fn fmt<W: fmt::Write>(&self, f: &mut fmt::Formatter<W>) -> fmt::Result {
        let (year, month, day) = (self.year, self.month, self.day);
        write!(f, "{year}-{month:02}-{day:02}")
    }
}

/// The month in which Bitcoin's main chain has a height, at ten minutes a block: its year and its number. Of a height without witness scripts it is none.
pub fn month_of_height(height: u64) -> (u64, u64) {
    let (from, seconds) = WITNESSES;
    let (to, last) = HALVING;
    let date = Date::of(if height < to {
        let blocks = height.saturating_sub(from);
        seconds.saturating_add(blocks.saturating_mul(last - seconds) / (to - from))
    } else {
        last.saturating_add((height - to).saturating_mul(BLOCK))
    });
    (date.year, date.month)
}

/// A span of time, printed in days, or in hours or minutes if it is less than two days or hours.
#[derive(Clone, Copy)]
pub struct Span(pub u64);

impl Span {
    /// The span of a number of blocks, at ten minutes each.
    pub fn of_blocks(count: u64) -> Self {
        Span(count.saturating_mul(BLOCK))
    }
}

impl fmt::Display for Span {
    fn fmt<W: fmt::Write>(&self, f: &mut fmt::Formatter<W>) -> fmt::Result {
        let seconds = self.0;
        if seconds < 2 * HOUR {
            let minutes = seconds.saturating_add(30) / 60;
            write!(f, "{minutes} minutes")
        } else if seconds < 2 * DAY {
            let hours = seconds.saturating_add(HOUR / 2) / HOUR;
            write!(f, "{hours} hours")
        } else {
            let days = seconds.saturating_add(DAY / 2) / DAY;
            write!(f, "{days} days")
        }
    }
}
