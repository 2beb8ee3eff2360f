//! Keys, scripts, claims and texts that several modules test with.

use claim::{Claim, OutPoint, Place, Shell, Slot, WitnessItem, accept};
use keys::Key;
use lists::ByteString;
use paths::{CheckError, Checked, check};
use script::Script;
use std::alloc::Global;
use std::fmt::Display;
use std::process::Abort;

/// The bytes of a key: 02, and 32 times the same byte.
pub fn key_bytes(byte: u8) -> [u8; 33] {
    let mut bytes = [byte; 33];
    bytes[0] = 2;
    bytes
}

/// The key with these bytes.
pub fn key(rt: &impl Abort, byte: u8) -> Key {
    Key::read(&key_bytes(byte)).expect(rt, "a key")
}

/// The bytes of these parts, each repeated the given number of times.
pub fn joined(rt: &impl Abort, alloc: Global, parts: &[(&[u8], usize)]) -> Vec<u8> {
    let mut bytes = Vec::new(alloc);
    for (part, times) in parts {
        for _time in 0..*times {
            bytes.extend_from_slice(part).expect(rt, "memory");
        }
    }
    bytes
}

/// The script of these parts, with its paths or its refusal.
pub fn listed(
    rt: &impl Abort,
    alloc: Global,
    parts: &[(&[u8], usize)],
) -> Result<Checked, CheckError> {
    let bytes = joined(rt, alloc, parts);
    check(alloc, Script::parse(alloc, &bytes).expect(rt, "a script"))
}

/// The script of these parts, with its paths.
pub fn checked_parts(rt: &impl Abort, alloc: Global, parts: &[(&[u8], usize)]) -> Checked {
    listed(rt, alloc, parts).expect(rt, "paths")
}

/// The place of an output with this program.
pub fn place(program: ByteString) -> Place {
    Place {
        outpoint: OutPoint {
            txid: [7; 32],
            index: 1,
        },
        value: 10_000,
        program,
    }
}

/// A claim by a path of a script, on an output with this program.
pub fn claimed(
    rt: &impl Abort,
    alloc: Global,
    checked: Checked,
    path: usize,
    slots: Vec<Slot>,
    program: ByteString,
) -> Claim {
    let place = place(program);
    accept(alloc, checked, path, slots, place, Shell::Open).expect(rt, "accepted")
}

/// A key on top, below it its signature.
pub fn key_slots(rt: &impl Abort, alloc: Global, key: &Key) -> Vec<Slot> {
    let item = ByteString::from_slice(alloc, &key.bytes).expect(rt, "memory");
    let item = WitnessItem::new(item).expect(rt, "a short item");
    let slots = vec![in alloc; Slot::Exact(item), Slot::Sig(*key)];
    slots.expect(rt, "memory")
}

/// Whether a value is printed as this text.
pub fn is_printed<T: Display>(alloc: Global, value: &T, text: &str) -> bool {
    match format!(in alloc; "{value}") {
        Ok(printed) => printed.as_str() == text,
        Err(_) => false,
    }
}
