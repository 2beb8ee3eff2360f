// Notes on the inputs of a plan: what they wait for in one transaction, what they cost, who else can take their outputs, and keys that nobody can sign for, or anyone.

use crate::asking::Asked;
use crate::outputs_at_fault::looks_of;
use crate::plans::Plan;
use claim::Claim;
use filling::MissingSignature;
use page::Page;
use page::Piece::{Count, Sum};
use script_notes::{is_curve_x, origin_of_point};
use std::alloc::Global;
use tx::TxIn;
use warnings::{Taker, taker_of};

// The weight of an input without its witness: outpoint, length of the script and sequence have 41 bytes (BIP 141).
const INPUT_WEIGHT: u128 = 164;

// The greatest number of bytes of a signature: 72 of DER, and the hash type.
const SIGNATURE_SIZE: u128 = 73;

/// Notes what a person has to look at in the inputs of a plan.
pub fn note_inputs(alloc: Global, notes: &mut Page, asked: &Asked, plan: &Plan) {
    let claims = asked.claims.values();
    note_places(notes, asked);
    note_waits(notes, claims);
    note_costs(notes, asked, plan);
    note_takers(
        notes,
        claims,
        Taker::Anyone,
        ": anyone can spend by this path: no signature of a key that the script fixes is asked for\n",
    );
    note_takers(
        notes,
        claims,
        Taker::Finder,
        ": whoever sees such a witness can spend too: what has a given hash is asked for, and no signature of a key that the script fixes\n",
    );
    note_keys(notes, plan, false);
    note_keys(notes, plan, true);
    note_others(alloc, notes, claims);
}

// Notes an output that has the program that is paid, and one of no transaction: a coinbase's input spends it (BIP 141).
fn note_places(notes: &mut Page, asked: &Asked) {
    let mut index: u64 = 0;
    for claim in asked.claims.values() {
        if claim.place().program.equals(&asked.destination) {
            notes.write(
                "note: destination: outputs[%] has this program\n",
                &[Count(index)],
            );
        }
        if claim.outpoint().txid == [0; 32] {
            notes.write(
                "note: outputs[%]: no transaction has an id of zeros\n",
                &[Count(index)],
            );
        }
        index = index.wrapping_add(1);
    }
}

// Notes the first of several outputs that may be spent otherwise, by an IF or by others: then all of the transaction is invalid.
fn note_others(alloc: Global, notes: &mut Page, claims: &[Claim]) {
    let (mut first, mut index) = (None, 0u64);
    for claim in claims {
        let facts = claim.path().facts.values();
        if first.is_none()
            && (looks_of(alloc, claim.script()).0 || taker_of(facts) != Taker::Signer)
        {
            first = Some(index);
        }
        index = index.wrapping_add(1);
    }
    if let Some(first) = first {
        if index > 1 {
            notes.write(
                "note: outputs[%] may be spent otherwise: from then on this transaction of % outputs is invalid as a whole\n",
                &[Count(first), Count(index)],
            );
        }
    }
}

// Notes the output whose lock is the highest, and the one that has to be the oldest, each if another one waits less.
fn note_waits(notes: &mut Page, claims: &[Claim]) {
    let (mut least, mut most, mut output, mut index) = (u64::MAX, 0u64, 0u64, 0u64);
    let (mut youngest, mut oldest, mut place) = (u16::MAX, 0u16, 0u64);
    for claim in claims {
        let height = claim.path().lock.unwrap_or(0);
        least = least.min(height);
        if most < height {
            most = height;
            output = index;
        }
        let age = claim.path().age.unwrap_or(0);
        youngest = youngest.min(age);
        if oldest < age {
            oldest = age;
            place = index;
        }
        index = index.wrapping_add(1);
    }
    if least < most {
        notes.write(
            "note: outputs[%] waits for a block above height %, and with it all that one transaction spends\n",
            &[Count(output), Count(most)],
        );
    }
    if youngest < oldest {
        notes.write(
            "note: outputs[%] waits for an age of % blocks, and with it all that one transaction spends\n",
            &[Count(place), Count(u64::from(oldest))],
        );
    }
}

// Notes the outputs that have less than their inputs cost.
fn note_costs(notes: &mut Page, asked: &Asked, plan: &Plan) {
    let inputs = plan.spend.tx.inputs();
    for (place, claim) in asked.claims.values().iter().enumerate() {
        let value = claim.place().value;
        if let Some(input) = inputs.get(place) {
            let missing = missing_at(plan.spend.signatures.values(), place);
            let cost = cost_sat(asked.feerate_per_kw, input, missing);
            if u128::from(value) < cost {
                notes.write(
                    "note: outputs[%] has % satoshis, and its input costs %: more is left without it\n",
                    &[Count(place as u64), Count(value), Sum(cost)],
                );
            }
        }
    }
}

// How many signatures an input lacks.
fn missing_at(signatures: &[MissingSignature], input: usize) -> u128 {
    let mut count: u128 = 0;
    for signature in signatures {
        if signature.input == input {
            count = count.saturating_add(1);
        }
    }
    count
}

// The satoshis that an input costs at most, once it has the signatures that it lacks.
fn cost_sat(feerate_per_kw: u32, input: &TxIn, missing: u128) -> u128 {
    let items = input.witness.as_slice();
    let mut weight = INPUT_WEIGHT
        .saturating_add(length_size(items.len()))
        .saturating_add(SIGNATURE_SIZE.saturating_mul(missing));
    for item in items {
        weight = weight
            .saturating_add(length_size(item.len()))
            .saturating_add(item.len() as u128);
    }
    u128::from(feerate_per_kw)
        .saturating_mul(weight)
        .saturating_add(999)
        / 1000
}

// The bytes of a length as transactions spell it.
fn length_size(length: usize) -> u128 {
    if length < 253 {
        1
    } else if length < 65_536 {
        3
    } else {
        5
    }
}

// Notes the first output that others can take by its path, and how many there are.
fn note_takers(notes: &mut Page, claims: &[Claim], taker: Taker, words: &str) {
    let (mut first, mut count, mut index) = (0u64, 0u64, 0u64);
    for claim in claims {
        if taker_of(claim.path().facts.values()) == taker {
            if count == 0 {
                first = index;
            }
            count = count.wrapping_add(1);
        }
        index = index.wrapping_add(1);
    }
    if count > 0 {
        note_first(notes, first, count, words);
    }
}

// Notes the first key that has to sign and is no point of the curve, or is one whose private key all know or nobody, and how many more outputs ask for such a key.
fn note_keys(notes: &mut Page, plan: &Plan, is_known: bool) {
    let (mut count, mut first, mut last) = (0u64, None, None);
    for signature in plan.spend.signatures.values() {
        let key = &signature.key.bytes;
        let is_such = if is_known {
            origin_of_point(key).is_some()
        } else {
            !is_curve_x(&key[1..])
        };
        if is_such && last != Some(signature.input) {
            if count == 0 {
                first = Some(signature);
            }
            last = Some(signature.input);
            count = count.wrapping_add(1);
        }
    }
    let Some(signature) = first else {
        return;
    };
    let input = signature.input as u64;
    match origin_of_point(&signature.key.bytes) {
        Some(origin) => {
            let words = ": a key that has to sign is one that all know: ";
            note_first(notes, input, count, words);
            notes.push(origin);
        }
        None => {
            let words = ": nobody can sign for a key that is no point of the curve: ";
            note_first(notes, input, count, words);
            notes.hex("", &signature.key.bytes);
        }
    }
    notes.push("\n");
}

// Begins a note on the first of some outputs.
fn note_first(notes: &mut Page, first: u64, count: u64, words: &str) {
    notes.write("note: outputs[%]", &[Count(first)]);
    if count > 1 {
        notes.write(" and % more", &[Count(count - 1)]);
    }
    notes.push(words);
}
