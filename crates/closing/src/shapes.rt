// Claims of many shapes, on scripts made for them.

ghost use Rattle.std.specs.Prelude.{◌≤◌};

use crate::parties::Parties;
use claim::{AcceptError, Key, OutPoint, Place, Shell, Slot, WitnessItem, accept};
use digest::sha256;
use keys::Base;
use lists::ByteString;
use page::Page;
use paths::{Checked, check};
use script::Script;
use sighash::programs::script_hash_program;
use std::alloc::Global;

/// A slot of exactly these bytes; `None` if they are more than 520.
pub fn exact(alloc: Global, bytes: &[u8]) -> Option<Slot> {
    let bytes = ByteString::from_slice(alloc, bytes).ok()?;
    match WitnessItem::new(bytes) {
        Ok(item) => Some(Slot::Exact(item)),
        Err(_) => None,
    }
}

/// One slot.
fn one(alloc: Global, slot: Slot) -> Vec<Slot> {
    let mut slots = Vec::new(alloc);
    let _ = slots.push(slot);
    slots
}

/// The place of an output to the script's hash.
fn place(alloc: Global, script: &[u8]) -> Option<Place> {
    Some(Place {
        outpoint: OutPoint {
            txid: [7; 32],
            index: 3,
        },
        value: 1000,
        program: script_hash_program(alloc, script).ok()?,
    })
}

/// The script with these bytes.
fn checked(alloc: Global, script: &[u8]) -> Option<Checked> {
    match Script::parse(alloc, script) {
        Ok(script) => check(alloc, script).ok(),
        Err(_) => None,
    }
}

/// The number of the refusal of the claim on path 0 of a script; `None` where it is accepted.
fn refusal_at(alloc: Global, checked: Checked, slots: Vec<Slot>, place: Place) -> Option<u8> {
    match accept(alloc, checked, 0, slots, place, Shell::Open) {
        Ok(_) => None,
        Err(refusal) => Some(refusal.number()),
    }
}

/// The number of the refusal of the claim on path 0 of a script; `None` where it is accepted.
fn refusal_on(alloc: Global, script: &[u8], slots: Vec<Slot>) -> Option<u8> {
    match (checked(alloc, script), place(alloc, script)) {
        (Some(checked), Some(place)) => refusal_at(alloc, checked, slots, place),
        _ => Some(AcceptError::NoMemory.number()),
    }
}

/// The number of the refusal of a claim with one slot; `None` if it is accepted.
fn refusal_of(alloc: Global, script: &[u8], slot: Slot) -> Option<u8> {
    refusal_on(alloc, script, one(alloc, slot))
}

/// The numbers of items that are taken, and of those that are too long.
#[derive(Clone, Copy)]
struct Taken {
    taken: u64,
    long: u64,
}

/// Counts whether DROP and 1, which take any item, take this one.
fn count_item(alloc: Global, counted: Taken, bytes: &[u8]) -> Taken {
    match exact(alloc, bytes) {
        Some(slot) => Taken {
            taken: counted.taken.saturating_add(u64::from(refusal_of(
                alloc,
                &[0x75, 0x51],
                slot,
            ).is_none())),
            ..counted
        },
        None => Taken {
            long: counted.long.saturating_add(1),
            ..counted
        },
    }
}

/// Items of 0 to 600 bytes.
fn show_items(page: &mut Page) {
    let mut bytes = Vec::new(page.alloc());
    let mut counted = Taken { taken: 0, long: 0 };
    for _ in 0..=600 {
        counted = count_item(page.alloc(), counted, bytes.as_slice());
        if bytes.push(9u8).is_err() {
            page.fail();
        }
    }
    page.count("of items of 0 to 600 bytes ", counted.taken);
    page.count(" are taken and ", counted.long);
    page.push(" too long\n");
}

/// The number of the refusal of a claim with one exact item; `None` if it is accepted.
fn refusal_of_item(alloc: Global, script: &[u8], item: &[u8]) -> Option<u8> {
    match exact(alloc, item) {
        Some(slot) => refusal_of(alloc, script, slot),
        None => Some(AcceptError::NoMemory.number()),
    }
}

/// Writes the script that takes only this item, of `len` bytes: its push and EQUAL. Returns whether there was memory.
fn write_push(script: &mut Vec<u8>, len: u8, item: &[u8]) -> bool {
    script.push(len).is_ok() && script.extend_from_slice(item).is_ok() && script.push(0x87).is_ok()
}

/// Whether a push of `len` bytes and EQUAL take exactly these bytes: another item is `Unmet`.
fn takes_these(alloc: Global, len: u8, item: &[u8]) -> bool {
    let mut script = Vec::new(alloc);
    write_push(&mut script, len, item)
        && refusal_of_item(alloc, script.as_slice(), item).is_none()
        && refusal_of_item(alloc, script.as_slice(), &[8]) == Some(3)
}

/// Pushes of 0 to 75 bytes.
fn show_pushes(page: &mut Page) {
    let mut item = Vec::new(page.alloc());
    let mut taken = 0u64;
    for len in 0..=75 {
        if takes_these(page.alloc(), len, item.as_slice()) {
            taken = taken.saturating_add(1);
        }
        if item.push(9u8).is_err() {
            page.fail();
        }
    }
    page.count("of pushes of 0 to 75 bytes ", taken);
    page.push(" take just these\n");
}

/// Writes CHECKMULTISIG of `keys` keys and `signatures` signatures, all of one key. Returns whether there was memory.
fn write_signatures(script: &mut Vec<u8>, key: &Key, keys: u8, signatures: u8) -> bool
    requires keys { keys ≤ 16 }
    requires signatures { signatures ≤ 16 }
{
    let mut is_whole = script
        .push(if signatures == 0 {
            0
        } else {
            0x50 + signatures
        })
        .is_ok();
    for _ in 0..keys {
        is_whole &= script.push(0x21).is_ok();
        is_whole &= script.extend_from_slice(&key.bytes).is_ok();
    }
    is_whole && script.extend_from_slice(&[0x50 + keys, 0xae]).is_ok()
}

/// The slots of `signatures` signatures of one key, and the empty item below them (BIP 147).
fn signature_slots(alloc: Global, key: &Key, signatures: u8) -> Vec<Slot> {
    let mut slots = Vec::new(alloc);
    for _ in 0..signatures {
        let _ = slots.push(Slot::Sig(*key));
    }
    if let Some(empty) = exact(alloc, &[]) {
        let _ = slots.push(empty);
    }
    slots
}

/// Whether CHECKMULTISIG of `keys` keys takes `signatures` signatures.
fn takes_signatures(alloc: Global, key: &Key, keys: u8, signatures: u8) -> bool
    requires keys { keys ≤ 16 }
    requires signatures { signatures ≤ 16 }
{
    let mut script = Vec::new(alloc);
    write_signatures(&mut script, key, keys, signatures)
        && refusal_on(
            alloc,
            script.as_slice(),
            signature_slots(alloc, key, signatures),
        )
        .is_none()
}

/// CHECKMULTISIG of 1 to 16 keys, and of each number of signatures.
fn show_signatures(page: &mut Page, key: &Key) {
    let mut taken = 0u64;
    for keys in 1..=16 {
        for signatures in 0..=keys {
            if takes_signatures(page.alloc(), key, keys, signatures) {
                taken = taken.saturating_add(1);
            }
        }
    }
    page.count(
        "of CHECKMULTISIG of 0 to n of n keys, for n of 1 to 16, ",
        taken,
    );
    page.push(" are taken\n");
}

/// The script that refuses 32 bytes of 5 and takes any other item.
const REFUSES_FIVES: [u8; 39] = [
    0x20, // a push of 32 bytes
    5, 5, 5, 5, 5, 5, 5, 5, 5, 5, 5, 5, 5, 5, 5, 5, //
    5, 5, 5, 5, 5, 5, 5, 5, 5, 5, 5, 5, 5, 5, 5, 5, //
    0x87, 0x63, 0x00, 0x67, 0x51, 0x68,
];

/// Whether that script takes the preimage of a hash.
fn takes_preimage(alloc: Global, hash: [u8; 32]) -> bool {
    refusal_of(alloc, &REFUSES_FIVES, Slot::Preimage(hash)).is_none()
}

/// Shows the results of claims of many shapes.
pub fn show_all(page: &mut Page, parties: &Parties) {
    show_items(page);
    show_pushes(page);
    show_signatures(page, &parties.owner.base(Base::Payment));
    let same = takes_preimage(page.alloc(), sha256(&[5; 32]));
    let other = takes_preimage(page.alloc(), sha256(&[6; 32]));
    page.push("where 32 bytes of 5 are refused, their hash is taken: ");
    page.show(&same);
    page.push("; that of 32 bytes of 6: ");
    page.show(&other);
    page.push("\n");
}
