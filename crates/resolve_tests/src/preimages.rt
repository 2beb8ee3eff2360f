//! Known preimages, indexed and not.

use digest::sha256;
use resolve::KnownPreimages;
use std::alloc::Global;
use std::process::Abort;

// The preimage of a number.
fn preimage(number: u16) -> [u8; 32] {
    let mut preimage = [7; 32];
    let bytes = number.to_be_bytes();
    preimage[0] = bytes[0];
    preimage[31] = bytes[1];
    preimage
}

// The preimages of numbers.
fn preimages(rt: &impl Abort, alloc: Global, first: u16, end: u16) -> Vec<[u8; 32]> {
    let mut preimages = Vec::new(alloc);
    for number in first..end {
        let pushed = preimages.push(preimage(number));
        assert!(rt; pushed.is_ok());
    }
    preimages
}

// Whether each of the numbers below an end is found by its hash, and the next one is not.
fn finds(known: &KnownPreimages, end: u16) -> bool {
    let mut are_found = known.first_of(&sha256(&preimage(end))).is_none();
    for number in 0..end {
        let preimage = preimage(number);
        are_found = are_found && known.first_of(&sha256(&preimage)) == Some(preimage);
    }
    are_found && known.values().len() == usize::from(end)
}

// Whether the preimages from 0 up to `count` and those up to `end` are found: before they are indexed and after, after others, and in copies.
fn finds_all(rt: &impl Abort, alloc: Global, count: u16, end: u16) -> bool {
    let more = preimages(rt, alloc, count, end);
    let mut known = KnownPreimages::from_vec(preimages(rt, alloc, 0, count));
    let mut late = known.copy().ok().expect(rt, "memory");
    let is_searched = finds(&known, count);
    let is_indexed = known.index().is_ok() && finds(&known, count);
    let is_extended = known.extend(&more).is_ok() && finds(&known, end);
    let is_late = late.extend(&more).is_ok() && finds(&late, end);
    let whole = known.to_indexed().ok().expect(rt, "memory");
    is_searched && is_indexed && is_extended && is_late && finds(&whole, end)
}

#[test]
fn finds_each_by_its_hash(rt: HostRuntime) {
    for (count, end) in [(0, 0), (0, 1), (1, 1), (1, 2), (2, 5), (60, 300)] {
        assert!(rt;
            finds_all(&rt, rt.alloc(), count, end),
            "{count} and then to {end}"
        );
    }
}
