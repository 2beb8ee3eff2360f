//! Builds commitments, one line for each. `build HTLCS TIMES` builds a commitment with this number of HTLCs in each direction, this number of times, and prints its id each time. A opened
//! the channel, unless a third word names B. The expected ids are from a model in another language.

use crate::short_number;
use commit::{Htlc, Side, Terms, View, build};
use digest::sha256;
use keys::Key;
use lists::List;
use page::Page;
use parties::{FUNDING, key_of, one_key, party_with};
use std::alloc::Global;
use terms::{Party, Share};

/// What a line asks for.
#[derive(Clone, Copy)]
struct Asked {
    opener: Side,
    htlcs: u32,
    times: u32,
}

/// A party whose keys are all 02 and 32 times one byte.
fn party(fill: u8) -> Option<Party> {
    Some(party_with(one_key(key_of(fill)?), 5_000_000_000_000))
}

/// Terms of 100 bitcoins, of which each side begins with half.
fn terms(opener: Side) -> Option<Terms> {
    Terms::new(
        FUNDING,
        10_000_000_000,
        opener,
        1000,
        party(0xa0)?,
        party(0xb0)?,
    )
    .ok()
}

/// The HTLC of an id, one of nine amounts and seven expiries.
fn htlc(first: u32, id: u32) -> Htlc {
    Htlc {
        id: u64::from(id),
        amount_msat: 10_000_000 + u64::from(id % 9) * 1000,
        hash: sha256(&first.wrapping_add(id).to_le_bytes()),
        expiry_height: 500 + id % 7,
    }
}

/// Appends `count` HTLCs, each with a hash of its own. Returns whether there was memory.
fn push_htlcs(htlcs: &mut Vec<Htlc>, first: u32, count: u32) -> bool {
    for id in 0..count {
        if htlcs.push(htlc(first, id)).is_err() {
            return false;
        }
    }
    true
}

/// A share with these HTLCs.
fn share(offered: Vec<Htlc>) -> Share {
    Share {
        balance_msat: 4_000_000_000_000,
        offered: List::from_vec(offered),
    }
}

/// Shows the id of A's commitment 42.
fn show_built(page: &mut Page, terms: &Terms, view: &View, point: &Key) {
    match build(page.alloc(), terms, view, Side::A, 42, point) {
        Ok(built) => page.hex("", built.id()),
        Err(_) => page.fail(),
    }
    page.push("\n");
}

/// Shows that id as often as it is asked for.
fn show_times(page: &mut Page, asked: Asked, view: &View) {
    let (Some(terms), Some(point)) = (terms(asked.opener), key_of(0xcc)) else {
        return page.fail();
    };
    for _ in 0..asked.times {
        show_built(page, &terms, view, &point);
    }
}

/// Shows the commitment with this number of HTLCs in each direction.
fn show_asked(page: &mut Page, asked: Asked) {
    let (mut a, mut b) = (Vec::new(page.alloc()), Vec::new(page.alloc()));
    if !push_htlcs(&mut a, 0, asked.htlcs) || !push_htlcs(&mut b, 1_000_000, asked.htlcs) {
        page.fail();
    }
    let view = View {
        a: share(a),
        b: share(b),
        feerate_per_kw: 1000,
    };
    show_times(page, asked, &view);
}

/// What the words of a line ask for.
fn asked_by(line: &str) -> Option<Asked> {
    let (numbers, opener) = match line.strip_suffix(" B") {
        Some(numbers) => (numbers, Side::B),
        None => (line, Side::A),
    };
    let (htlcs, times) = numbers.strip_prefix("build ")?.split_once(' ')?;
    Some(Asked {
        opener,
        htlcs: short_number(Some(htlcs)),
        times: short_number(Some(times)),
    })
}

/// Shows all lines.
pub fn show_all(page: &mut Page, lines: &str) {
    for line in lines.lines() {
        match asked_by(line) {
            Some(asked) => show_asked(page, asked),
            None => page.fail(),
        }
    }
}
