// Notes on the hashes that paths ask for, whose item everybody knows, or nobody, and on bytes that stand in the place of an item.

use crate::conflicts::conflict_in;
use crate::origins::{Origin, origin_of_hash};
use crate::risks::is_checked;
use digest::hash160;
use facts::{Fact, KeySource, Stated};
use page::Page;
use page::Piece::Count;
use paths::Path;
use script::Op;

/// Notes the hashes of paths that keep nobody out, or everybody, and the bytes of a hash that are asked for as they stand.
pub fn note_hashes(notes: &mut Page, paths: &[Path], ops: &[Op]) {
    for (index, path) in paths.iter().enumerate() {
        let facts = path.facts.values();
        if conflict_in(facts).is_none() {
            for stated in facts {
                match &stated.fact {
                    Fact::Hash(slot, hash) if stated.holds && !is_checked(facts, *slot) => {
                        note_hash(notes, index, (facts, *slot), hash.bytes(), ops);
                    }
                    Fact::Is(_, item) if stated.holds => note_item(notes, index, item.bytes()),
                    _ => {}
                }
            }
        }
    }
}

// Notes bytes of the size of a hash that a path asks for as they stand.
fn note_item(notes: &mut Page, index: usize, item: &[u8]) {
    if item.len() == 20 || item.len() == 32 {
        notes.write(
            "note: path % asks for these % bytes as they stand, ",
            &[Count(index as u64), Count(item.len() as u64)],
        );
        notes.hex("", item);
        notes.push(
            ": whoever sees the script has them, so they keep nobody out: is a HASH160 missing?\n",
        );
    }
}

// Notes a hash that the slot of a path has, if it is no secret's.
fn note_hash(notes: &mut Page, index: usize, asked: (&[Stated], usize), hash: &[u8], ops: &[Op]) {
    let (facts, slot) = asked;
    let is_key = is_signing_key(facts, slot);
    let origin = match origin_of_hash(hash) {
        None if !is_key => pushed_with(ops, hash),
        origin => origin,
    };
    if let Some(origin) = origin {
        notes.write(
            "note: path % asks for what has the hash ",
            &[Count(index as u64)],
        );
        notes.hex("", hash);
        notes.push(", ");
        notes.show(&origin);
        notes.push(match origin {
            Origin::Zeros | Origin::Ones => ": nobody has that, so nobody can spend by this path\n",
            Origin::Point(_, _, true) if is_key => ": anyone can sign for it\n",
            _ if is_key => ": nobody can sign for that, so nobody can spend by this path\n",
            _ if has_other_size(facts, slot, origin.size()) => {
                ", and for another size than that has: nobody can spend by this path\n"
            }
            _ => ": whoever sees the script knows it, so it keeps nobody out\n",
        });
    }
}

// Whether facts ask for a signature of the key in a slot.
fn is_signing_key(facts: &[Stated], slot: usize) -> bool {
    for stated in facts {
        if let Fact::Token(_, KeySource::Slot(key)) = &stated.fact {
            if stated.holds && *key == slot {
                return true;
            }
        }
    }
    false
}

// Whether facts ask for another size of a slot than this one.
fn has_other_size(facts: &[Stated], slot: usize, size: usize) -> bool {
    for stated in facts {
        if let Fact::Size(place, asked) = &stated.fact {
            if stated.holds && *place == slot && *asked as usize != size {
                return true;
            }
        }
    }
    false
}

// The opcode that pushes what has a HASH160, if there is one.
fn pushed_with(ops: &[Op], hash: &[u8]) -> Option<Origin> {
    for (at, op) in ops.iter().enumerate() {
        if let Op::Push(item) = op {
            if hash160(item.bytes()).as_slice() == hash {
                return Some(Origin::Pushed(at, item.bytes().len()));
            }
        }
    }
    None
}
