// Notes on the keys of a script: those that are no points of the curve, those whose private key all know, or nobody, and those that a path asks for twice.

use crate::conflicts::conflict_in;
use crate::curve::is_curve_x;
use crate::origins::origin_of_point;
use facts::{Fact, KeySource, Stated};
use page::Page;
use page::Piece::Count;
use paths::Path;
use script::Op;
use std::slice;

/// Notes the keys of paths that are no points of the curve, so that nobody can sign for them.
pub fn note_points(notes: &mut Page, paths: &[Path], ops: &[Op]) {
    for (at, op) in ops.iter().enumerate() {
        if let Op::Push(item) = op {
            let key = item.bytes();
            if is_no_point(key) && is_asked(paths, key) && !is_pushed(&ops[..at], key) {
                notes.write("note: opcode %: ", &[Count(at as u64)]);
                notes.hex("", key);
                notes.push(" is no point of the curve: nobody can sign for this key\n");
            }
        }
    }
}

// The x coordinate of bytes that have the form of a key.
fn x_of(key: &[u8]) -> Option<&[u8]> {
    match key {
        [sign, x @ ..] if x.len() == 32 && (*sign == 2 || *sign == 3) => Some(x),
        _ => None,
    }
}

// Whether bytes have the form of a key, and no point of the curve has their x coordinate.
fn is_no_point(key: &[u8]) -> bool {
    match x_of(key) {
        Some(x) => !is_curve_x(x),
        None => false,
    }
}

// Whether a path asks for a signature of a key.
fn is_asked(paths: &[Path], key: &[u8]) -> bool {
    for path in paths {
        for stated in path.facts.values() {
            for source in keys_of(stated) {
                if is_key(source, key) {
                    return true;
                }
            }
        }
    }
    false
}

// Whether a key that the script fixes is this one.
fn is_key(source: &KeySource, key: &[u8]) -> bool {
    match source {
        KeySource::Const(bytes) => bytes.bytes() == key,
        KeySource::Slot(_) => false,
    }
}

// Whether an opcode pushes these bytes.
fn is_pushed(ops: &[Op], bytes: &[u8]) -> bool {
    for op in ops {
        if let Op::Push(item) = op {
            if item.bytes() == bytes {
                return true;
            }
        }
    }
    false
}

/// Notes the keys of a script whose private key all know, or nobody does.
pub fn note_known_keys(notes: &mut Page, ops: &[Op]) {
    for (at, op) in ops.iter().enumerate() {
        if let Op::Push(item) = op {
            let key = item.bytes();
            if key.len() > 32 {
                if let Some(point) = origin_of_point(key) {
                    notes.write("note: opcode %: ", &[Count(at as u64)]);
                    notes.hex("", key);
                    notes.push(" is ");
                    notes.push(point);
                    notes.push("\n");
                }
            }
        }
    }
}

/// Notes the paths that ask for signatures of a key twice, or of a key and its negation.
pub fn note_repeated_keys(notes: &mut Page, paths: &[Path]) {
    for (index, path) in paths.iter().enumerate() {
        let facts = path.facts.values();
        if conflict_in(facts).is_none() {
            for (at, stated) in facts.iter().enumerate() {
                note_fact(notes, index, stated, &facts[..at]);
            }
        }
    }
}

// Notes the keys of a fact that stand in it before, or in a fact before it.
fn note_fact(notes: &mut Page, index: usize, stated: &Stated, facts: &[Stated]) {
    let keys = keys_of(stated);
    for (place, source) in keys.iter().enumerate() {
        if let Some(key) = constant_of(source) {
            if let Some(other) = repeated_in(&keys[..place], facts, stated, key) {
                write_repeated(notes, index, key, other);
            }
        }
    }
}

// Notes a key that stands twice on a path, or with its negation.
fn write_repeated(notes: &mut Page, index: usize, key: &[u8], other: &[u8]) {
    notes.write("note: path % has the key ", &[Count(index as u64)]);
    notes.hex("", key);
    if key == other {
        notes.push(" twice: who has it signs for both\n");
    } else {
        notes.hex(" and its negation ", other);
        notes.push(": who has one has both\n");
    }
}

/// The keys whose signatures a fact asks for, if it holds: of one with a single key that one.
pub(crate) fn keys_of(stated: &Stated) -> &[KeySource] {
    match &stated.fact {
        Fact::Token(_, source) if stated.holds => slice::from_ref(source),
        Fact::Assigned(_, sources) if stated.holds => sources.values(),
        _ => &[],
    }
}

/// The bytes of a key that the script fixes, if they have the form of one.
pub(crate) fn constant_of(source: &KeySource) -> Option<&[u8]> {
    match source {
        KeySource::Const(bytes) if x_of(bytes.bytes()).is_some() => Some(bytes.bytes()),
        _ => None,
    }
}

// The first key with the x coordinate of another one, among keys and those of facts that are another than its own.
fn repeated_in<'a>(
    keys: &'a [KeySource],
    facts: &'a [Stated],
    own: &Stated,
    key: &[u8],
) -> Option<&'a [u8]> {
    let mut found = same_point(keys, key);
    for stated in facts {
        if found.is_none() && !stated.fact.equals(&own.fact) {
            found = same_point(keys_of(stated), key);
        }
    }
    found
}

/// The first of keys that has the x coordinate of another one.
pub(crate) fn same_point<'a>(keys: &'a [KeySource], key: &[u8]) -> Option<&'a [u8]> {
    for source in keys {
        if let Some(other) = constant_of(source) {
            if x_of(other) == x_of(key) {
                return Some(other);
            }
        }
    }
    None
}
