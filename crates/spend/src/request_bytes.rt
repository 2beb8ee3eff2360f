// Destinations that are made of the request's own bytes: an id, a preimage, a hash, a key or a script in the place of a key, or of the hash of one; and a key of a script that no slot has.

use crate::asking::Asked;
use claim::{Claim, Slot};
use digest::{hash160, ripemd160, sha256};
use page::Page;
use page::Piece::{self, Count};
use script::{Op, Script};
use std::alloc::Global;

// What a program pays to.
#[derive(Clone, Copy)]
enum Kind {
    // P2PKH or P2WPKH: the hash of a key.
    KeyHash,
    // P2SH: the hash of a script.
    ShortHash,
    // P2WSH: the hash of a script.
    ScriptHash,
    // Taproot: a key.
    Key,
}

// A program that is paid, with the 20 or 32 bytes that say to what.
#[derive(Clone, Copy)]
struct Paid<'a> {
    kind: Kind,
    bytes: &'a [u8],
}

impl Paid<'_> {
    // Whether what bytes hash to is paid.
    fn is_hash_of(&self, bytes: &[u8]) -> bool {
        match self.bytes.len() {
            20 => self.bytes == hash160(bytes).as_slice(),
            _ => self.bytes == sha256(bytes).as_slice(),
        }
    }

    // Whether the key with this HASH160 is paid where its owner can spend: by P2PKH, by P2WPKH, or by that nested in P2SH.
    fn is_for_hash(&self, hash: &[u8]) -> bool {
        if hash.len() != 20 {
            return false;
        }
        match self.kind {
            Kind::KeyHash => self.bytes == hash,
            Kind::ShortHash => {
                let mut program = [0u8; 22];
                program[1] = 20;
                program[2..].copy_from_slice(hash);
                self.is_hash_of(&program)
            }
            _ => false,
        }
    }

    // Whether a key is paid where its owner can spend: by its hash, or by taproot.
    fn is_for_key(&self, key: &[u8]) -> bool {
        let [2 | 3, x @ ..] = key else {
            return false;
        };
        if x.len() != 32 {
            return false;
        }
        match self.kind {
            Kind::Key => self.bytes == x,
            _ => self.is_for_hash(&hash160(key)),
        }
    }
}

// What a program pays to, if it is of one of these kinds.
fn paid_by(program: &[u8]) -> Option<Paid<'_>> {
    let (kind, bytes) = match program {
        [0x76, 0xa9, 0x14, bytes @ .., 0x88, 0xac] => (Kind::KeyHash, bytes),
        [0xa9, 0x14, bytes @ .., 0x87] => (Kind::ShortHash, bytes),
        [0, 20, bytes @ ..] => (Kind::KeyHash, bytes),
        [0, 32, bytes @ ..] => (Kind::ScriptHash, bytes),
        [0x51, 32, bytes @ ..] => (Kind::Key, bytes),
        _ => return None,
    };
    Some(Paid { kind, bytes })
}

// Writes a note on what is paid.
fn write_found(notes: &mut Page, before: &str, name: &str, places: &[Piece]) {
    notes.push("note: destination: what it pays to is ");
    notes.push(before);
    notes.write(name, places);
    notes.push(": anyone can spend from it, or nobody\n");
}

// Notes bytes that are paid as they stand, or what they hash to, each if it is to be noted; whether it was.
fn note_bytes(
    notes: &mut Page,
    paid: &Paid<'_>,
    bytes: &[u8],
    as_they_stand: bool,
    hashed: bool,
    name: &str,
    places: &[Piece],
) -> bool {
    let before = if as_they_stand && paid.bytes == bytes {
        ""
    } else if hashed && paid.is_hash_of(bytes) {
        "the hash of "
    } else {
        return false;
    };
    write_found(notes, before, name, places);
    true
}

/// Notes a destination that is made of bytes of the request; whether it did. What its owner can spend as before is not noted: a key of a slot, its hash, or the hash of a script, each in its own place.
pub fn note_request_bytes(alloc: Global, notes: &mut Page, asked: &Asked) -> bool {
    let Some(paid) = paid_by(asked.destination.bytes()) else {
        return false;
    };
    let mut place: u64 = 0;
    for preimage in asked.preimages.values() {
        let at = [Count(place)];
        if note_bytes(notes, &paid, preimage, true, true, "preimages[%]", &at) {
            return true;
        }
        place = place.wrapping_add(1);
    }
    let mut output: u64 = 0;
    for claim in asked.claims.values() {
        if note_place(notes, &paid, claim, output)
            || note_slots(notes, &paid, claim, output)
            || note_script(alloc, notes, &paid, asked, claim.script(), output)
        {
            return true;
        }
        output = output.wrapping_add(1);
    }
    false
}

// Notes an id, a program or a script. P2WSH of the same script is the same program, P2SH of it or of its program can be spent by it, and P2PKH by the key of P2WPKH.
fn note_place(notes: &mut Page, paid: &Paid<'_>, claim: &Claim, output: u64) -> bool {
    let at = [Count(output)];
    let txid = claim.outpoint().txid;
    let mut shown = txid;
    shown.reverse();
    let program = claim.place().program.bytes();
    let hash = match program {
        [_, _, hash @ ..] => hash,
        _ => &[],
    };
    let is_nested = matches!(paid.kind, Kind::ShortHash);
    let is_other = matches!(paid.kind, Kind::ShortHash | Kind::Key);
    let is_key = matches!(paid.kind, Kind::KeyHash | Kind::Key);
    let (id, script) = ("the id of outputs[%]", claim.script());
    note_bytes(notes, paid, &txid, true, true, id, &at)
        || note_bytes(notes, paid, &shown, true, true, id, &at)
        || note_bytes(
            notes,
            paid,
            program,
            false,
            !is_nested,
            "the program of outputs[%]",
            &at,
        )
        || note_bytes(
            notes,
            paid,
            hash,
            is_other,
            false,
            "the hash in the program of outputs[%]",
            &at,
        )
        || note_bytes(
            notes,
            paid,
            script,
            false,
            is_key,
            "the script of outputs[%]",
            &at,
        )
}

// Notes a key, in another place than its own: its x coordinate in taproot, and its hash in P2PKH and P2WPKH. Its P2WPKH program is nested in P2SH alone.
fn note_key(notes: &mut Page, paid: &Paid<'_>, key: &[u8], output: u64) -> bool {
    let at = [Count(output)];
    let [2 | 3, x @ ..] = key else {
        return false;
    };
    if x.len() != 32 {
        return false;
    }
    let mut program = [0u8; 22];
    program[1] = 20;
    program[2..].copy_from_slice(&hash160(key));
    let nested = "the P2WPKH program of a key of outputs[%]";
    let is_nested = matches!(paid.kind, Kind::ShortHash);
    let is_x = matches!(paid.kind, Kind::Key);
    let is_hash = matches!(paid.kind, Kind::KeyHash);
    note_bytes(notes, paid, &program, false, !is_nested, nested, &at)
        || note_bytes(
            notes,
            paid,
            x,
            !is_x,
            true,
            "the x coordinate of a key of outputs[%]",
            &at,
        )
        || note_bytes(
            notes,
            paid,
            key,
            false,
            !is_hash,
            "a key of outputs[%]",
            &at,
        )
}

// Notes a key, a payment hash or an item of a witness.
fn note_slots(notes: &mut Page, paid: &Paid<'_>, claim: &Claim, output: u64) -> bool {
    let mut place: u64 = 0;
    for slot in claim.slots() {
        let at = [Count(output), Count(place)];
        let is_noted = match slot {
            Slot::Sig(key) => note_key(notes, paid, &key.bytes, output),
            Slot::Preimage(hash) => {
                let name = "the payment hash in outputs[%].slots[%]";
                if paid.bytes == ripemd160(hash).as_slice() {
                    write_found(notes, "the hash of ", name, &at);
                    true
                } else {
                    note_bytes(notes, paid, hash, true, true, name, &at)
                }
            }
            Slot::Exact(item) => {
                let item = item.item.bytes();
                if item.len() == 33 {
                    note_key(notes, paid, item, output)
                } else {
                    note_bytes(notes, paid, item, true, true, "outputs[%].slots[%]", &at)
                }
            }
        };
        if is_noted {
            return true;
        }
        place = place.wrapping_add(1);
    }
    false
}

// Notes what a script pushes: a key, or a hash. That of a key is its own in P2PKH and P2WPKH, if a slot of the request has the key.
fn note_script(
    alloc: Global,
    notes: &mut Page,
    paid: &Paid<'_>,
    asked: &Asked,
    script: &[u8],
    output: u64,
) -> bool {
    let Ok(script) = Script::parse(alloc, script) else {
        return false;
    };
    let ops = script.ops();
    let at = [Count(output)];
    for (place, op) in ops.iter().enumerate() {
        if let Op::Push(item) = op {
            let item = item.bytes();
            let is_hashed = is_key_hashed(&ops[..place]);
            let is_own = is_hashed && matches!(paid.kind, Kind::KeyHash);
            let name = "a push of the script of outputs[%]";
            if note_key(notes, paid, item, output)
                || note_bytes(notes, paid, item, !is_own, false, name, &at)
            {
                return true;
            }
            let is_paid = if is_hashed {
                paid.is_for_hash(item)
            } else {
                paid.is_for_key(item)
            };
            if is_paid && !is_shown(paid, asked) {
                notes.write(
                    "note: destination: it pays to a key that the script of outputs[%] has, or has the hash of, and that stands in no slot: see that it is yours\n",
                    &at,
                );
                return true;
            }
        }
    }
    false
}

// Whether opcodes end by taking the hash of a copy, as a script does that has a key by its hash.
fn is_key_hashed(ops: &[Op]) -> bool {
    matches!(ops, [.., Op::Dup, Op::Hash160])
}

// Whether a slot of a request has the key that is paid.
fn is_shown(paid: &Paid<'_>, asked: &Asked) -> bool {
    for claim in asked.claims.values() {
        for slot in claim.slots() {
            let is_key = match slot {
                Slot::Sig(key) => paid.is_for_key(&key.bytes),
                Slot::Exact(item) => paid.is_for_key(item.item.bytes()),
                Slot::Preimage(_) => false,
            };
            if is_key {
                return true;
            }
        }
    }
    false
}
