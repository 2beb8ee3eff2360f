// Which output of a request is refused, or has a slot that nodes do not pass on.

use crate::asking::Asked;
use crate::errors::PlanError;
use claim::{Claim, Shell, Slot};
use digest::sha256;
use page::Page;
use page::Piece::{Count, Hash};
use paths::Fact;
use script::{Op, Script};
use script_notes::{MAX_RELAYED_ITEM, MAX_RELAYED_ITEMS, MAX_RELAYED_SCRIPT, short_of};
use std::alloc::Global;

/// Notes the first output by which a request is refused: two that are one, one that has a fixed transaction, one that lacks a preimage, or one whose path measures a signature.
pub fn note_claims_at_fault(alloc: Global, notes: &mut Page, asked: &Asked, error: PlanError) {
    let claims = asked.claims.values();
    let hashes = hashes_of(alloc, asked.preimages.values());
    let mut output: u64 = 0;
    for (index, claim) in claims.iter().enumerate() {
        if notes.text().is_empty() {
            match error {
                PlanError::FixedTransaction => note_fixed(notes, output, claim),
                PlanError::SameOutpoint => note_same(notes, output, claim, &claims[..index]),
                PlanError::MeasuredSignature => note_measured(notes, output, claim),
                PlanError::NoPreimage => note_preimage(notes, output, claim, &hashes),
                _ => {}
            }
        }
        output = output.wrapping_add(1);
    }
}

// The hashes of preimages. Where memory runs out, there are fewer.
fn hashes_of(alloc: Global, preimages: &[[u8; 32]]) -> Vec<[u8; 32]> {
    let mut hashes = Vec::new(alloc);
    for preimage in preimages {
        if hashes.push(sha256(preimage)).is_err() {
            return hashes;
        }
    }
    hashes
}

// Notes an output with a fixed transaction.
fn note_fixed(notes: &mut Page, output: u64, claim: &Claim) {
    if let Shell::Fixed(_) = claim.shell() {
        notes.write("note: outputs[%].shell: wanted: null\n", &[Count(output)]);
    }
}

// Notes an output that stands among those before it.
fn note_same(notes: &mut Page, output: u64, claim: &Claim, before: &[Claim]) {
    let place = claim.outpoint();
    let mut other: u64 = 0;
    for one in before {
        let outpoint = one.outpoint();
        if notes.text().is_empty() && outpoint.txid == place.txid && outpoint.index == place.index {
            notes.write(
                "note: outputs[%]: outputs[%] is the same one\n",
                &[Count(output), Count(other)],
            );
        }
        other = other.wrapping_add(1);
    }
}

// Notes an output whose path asks for the length, the hash or the bytes of a signature.
fn note_measured(notes: &mut Page, output: u64, claim: &Claim) {
    for stated in claim.path().facts.values() {
        let slot = match &stated.fact {
            Fact::Hash(slot, _) | Fact::Size(slot, _) | Fact::Is(slot, _) | Fact::KeyForm(slot) => {
                *slot
            }
            _ => continue,
        };
        if let Some(Slot::Sig(_)) = claim.slots().get(slot) {
            if notes.text().is_empty() {
                notes.write(
                    "note: outputs[%].slots[%]: the path asks for more of this signature than that it is valid: ",
                    &[Count(output), Count(slot as u64)],
                );
                notes.show(stated);
                notes.push("\n");
            }
        }
    }
}

// Notes the first slot whose preimage is not given.
fn note_preimage(notes: &mut Page, output: u64, claim: &Claim, hashes: &[[u8; 32]]) {
    let mut place: u64 = 0;
    for slot in claim.slots() {
        if let Slot::Preimage(hash) = slot {
            if notes.text().is_empty() && !is_among(hashes, hash) {
                notes.write(
                    "note: outputs[%].slots[%]: preimages has none whose SHA-256 is %\n",
                    &[Count(output), Count(place), Hash(*hash)],
                );
            }
        }
        place = place.wrapping_add(1);
    }
}

// Whether a hash is among others.
fn is_among(hashes: &[[u8; 32]], hash: &[u8; 32]) -> bool {
    for other in hashes {
        if other == hash {
            return true;
        }
    }
    false
}

/// Notes what nodes do not pass on: slots that IF or NOTIF may take and that are neither the empty item nor 01, and scripts and slots that are too long, too many or not minimally pushed.
pub fn note_slots(alloc: Global, notes: &mut Page, claims: &[Claim]) {
    let mut output: u64 = 0;
    for claim in claims {
        let (has_if, has_long_push) = looks_of(alloc, claim.script());
        if has_if {
            note_conditions(notes, output, claim);
        }
        if let Some(reason) = unrelayed(claim, has_long_push) {
            notes.count("note: outputs[", output);
            notes.push("]: nodes pass on no spend of it: ");
            notes.push(reason);
            notes.push("\n");
        }
        output = output.wrapping_add(1);
    }
}

// Why nodes do not pass on a spend of an output, whatever its transaction (Bitcoin Core's limits of standard witnesses); its script may have a push that is not minimal.
fn unrelayed(claim: &Claim, has_long_push: bool) -> Option<&'static str> {
    if claim.script().len() > MAX_RELAYED_SCRIPT {
        Some("its script has more than 3600 bytes")
    } else if claim.slots().len() > MAX_RELAYED_ITEMS {
        Some("it has more than 100 slots")
    } else if has_long_slot(claim.slots()) {
        Some("it has a slot above 80 bytes")
    } else if has_long_push {
        Some(
            "its script pushes a number by two bytes that an opcode of one byte pushes too (minimal pushes)",
        )
    } else {
        None
    }
}

// Whether a slot is too long for nodes to pass it on.
fn has_long_slot(slots: &[Slot]) -> bool {
    for slot in slots {
        if let Slot::Exact(item) = slot {
            if item.item.len() > MAX_RELAYED_ITEM {
                return true;
            }
        }
    }
    false
}

/// Whether a script has an IF or a NOTIF, and whether it has a push that is not minimal.
pub fn looks_of(alloc: Global, bytes: &[u8]) -> (bool, bool) {
    let (mut has_if, mut has_long_push) = (false, false);
    if let Ok(script) = Script::parse(alloc, bytes) {
        for op in script.ops() {
            has_if = has_if || matches!(op, Op::If | Op::NotIf);
            has_long_push = has_long_push || short_of(op).is_some();
        }
    }
    (has_if, has_long_push)
}

// Notes the slots of a claim that are to be true, or false, and are not minimally so.
fn note_conditions(notes: &mut Page, output: u64, claim: &Claim) {
    for stated in claim.path().facts.values() {
        if let Fact::Truth(place) = &stated.fact {
            if let Some(slot) = claim.slots().get(*place) {
                if !is_minimal(slot) {
                    notes.write(
                        "note: outputs[%].slots[%]: nodes pass on no IF or NOTIF of anything but the empty item and 01 (minimal IF)\n",
                        &[Count(output), Count(*place as u64)],
                    );
                }
            }
        }
    }
}

// Whether a slot is the empty item or 01.
fn is_minimal(slot: &Slot) -> bool {
    match slot {
        Slot::Exact(item) => item.item.is_empty() || item.item.bytes() == [1].as_slice(),
        _ => false,
    }
}

/// The output of a request whose object has this byte of the text in it, if one has.
pub fn output_at(text: &[u8], at: usize) -> Option<u64> {
    let (mut depth, mut output) = (0u64, 0u64);
    let (mut is_text, mut is_escaped, mut is_outputs) = (false, false, false);
    for (place, byte) in text.iter().enumerate() {
        if place >= at {
            break;
        }
        if is_text {
            if *byte == b'"' && !is_escaped {
                is_text = false;
                if depth == 1 {
                    is_outputs = text[..place].ends_with(b"\"outputs");
                }
            }
            is_escaped = *byte == b'\\' && !is_escaped;
        } else if *byte == b'"' {
            is_text = true;
        } else if *byte == b'{' || *byte == b'[' {
            depth = depth.saturating_add(1);
            if depth == 2 {
                output = 0;
            }
        } else if *byte == b'}' || *byte == b']' {
            depth = depth.saturating_sub(1);
        } else if *byte == b',' && depth == 2 {
            output = output.wrapping_add(1);
        }
    }
    if is_outputs && depth >= 3 {
        Some(output)
    } else {
        None
    }
}
