// What is said beside what is found of a commitment: outputs of offered HTLCs that a request may lack, HTLC transactions that leave too little of what they spend, and outputs without a name.

use crate::notes::say;
use claim::{Claim, Shell};
use page::Page;
use page::Piece::{Count, Hash};
use revoked::{Direction, Found, Revoked, RevokedHtlc, RevokedOutput};
use std::alloc::{AllocError, Global};
use std::io::Write;
use unilateral::OutputName;

// The least satoshis of an output to the hash of a script that nodes relay (BOLT 3, "Dust Limits").
const LEAST_SAT: u64 = 330;

/// Says what a person has to look at in what is found of a commitment, with the names of the outputs that have no claim. Where that fails, nothing else changes.
pub fn say_found(
    alloc: Global,
    commitment: &Revoked,
    found: &Found,
    names: &[OutputName],
    err: &mut dyn Write,
) {
    let mut notes = Page::new(alloc);
    let claims = found.claims.values();
    match claimed(alloc, commitment, claims) {
        Ok(hashes) => note_shared_hashes(&mut notes, commitment.htlcs(), &hashes),
        Err(_) => notes.fail(),
    }
    note_low_value(&mut notes, claims);
    note_unknown(&mut notes, found.others.values(), names);
    say(&notes, err);
}

// The hash of each output of an offered HTLC that has claims. Those of one output stand together. The only error is that memory ran out.
fn claimed(
    alloc: Global,
    commitment: &Revoked,
    claims: &[Claim],
) -> Result<Vec<[u8; 32]>, AllocError> {
    let mut hashes = Vec::new(alloc);
    let mut last = None;
    for claim in claims {
        let place = claim.place();
        if let Some(RevokedOutput::ToHtlc(htlc)) = commitment.output_with(place.program.bytes()) {
            if htlc.direction == Direction::Offered && last != Some(place.outpoint.index) {
                hashes.push(htlc.hash)?;
            }
        }
        last = Some(place.outpoint.index);
    }
    Ok(hashes)
}

// Notes outputs of offered HTLCs that are more than a request has HTLCs of their hash: they are found by the others.
fn note_shared_hashes(notes: &mut Page, htlcs: &[RevokedHtlc], hashes: &[[u8; 32]]) {
    for (place, hash) in hashes.iter().enumerate() {
        let count = count_of(hashes, hash);
        if count > 1 && count_of(&hashes[..place], hash) == 0 {
            let known = offered_of(htlcs, hash);
            if known < count {
                notes.write(
                    "note: % outputs are offered HTLCs of hash %, and htlcs has % of it: an expiry that is left out may be before the heights that are told\n",
                    &[Count(count), Hash(*hash), Count(known)],
                );
            }
        }
    }
}

// How many of some hashes are this one.
fn count_of(hashes: &[[u8; 32]], hash: &[u8; 32]) -> u64 {
    let mut count: u64 = 0;
    for other in hashes {
        if other == hash {
            count = count.wrapping_add(1);
        }
    }
    count
}

// How many offered HTLCs have a hash.
fn offered_of(htlcs: &[RevokedHtlc], hash: &[u8; 32]) -> u64 {
    let mut count: u64 = 0;
    for htlc in htlcs {
        if htlc.direction == Direction::Offered && htlc.hash == *hash {
            count = count.wrapping_add(1);
        }
    }
    count
}

// Notes the first claim whose HTLC transaction leaves less than nodes relay, as it does by a feerate that is not the commitment's.
fn note_low_value(notes: &mut Page, claims: &[Claim]) {
    let mut place: u64 = 0;
    for claim in claims {
        let left = left_of(claim);
        if left < LEAST_SAT {
            notes.write(
                "note: claims[%]: by this feerate_per_kw its HTLC transaction leaves % of % satoshis, and nodes relay no such output below %: a commitment has no output for such an HTLC (BOLT 3), so its feerate is another one\n",
                &[
                    Count(place),
                    Count(left),
                    Count(claim.place().value),
                    Count(LEAST_SAT),
                ],
            );
            return;
        }
        place = place.wrapping_add(1);
    }
}

// What the HTLC transaction of a claim leaves; the greatest number for a claim without one.
fn left_of(claim: &Claim) -> u64 {
    match claim.shell() {
        Shell::Fixed(tx) => match tx.outputs().first() {
            Some(output) => output.value(),
            None => u64::MAX,
        },
        Shell::Open => u64::MAX,
    }
}

// Notes the first output without a claim that has no name, and how many more there are.
fn note_unknown(notes: &mut Page, others: &[u32], names: &[OutputName]) {
    let (mut first, mut count) = (0u64, 0u64);
    for (place, index) in others.iter().enumerate() {
        if let Some(OutputName::Unknown) = names.get(place) {
            if count == 0 {
                first = u64::from(*index);
            }
            count = count.wrapping_add(1);
        }
    }
    if count > 0 {
        notes.write("note: others: output %", &[Count(first)]);
        if count > 1 {
            notes.write(" and % more", &[Count(count - 1)]);
        }
        notes.push(
            ": no script of this commitment has this program: compare channel_type, delay_blocks, htlcs, keys and, for anchors, funding_keys\n",
        );
    }
}
