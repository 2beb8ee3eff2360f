// Programs that pay to a script that asks for no secret: one of at most one byte in P2WSH that is nested in P2SH, or CHECKMULTISIG of one or two keys that all know.

use digest::{hash160, sha256};
use page::Page;
use script_notes::known_key;

// The opcodes of the numbers 1 and 2, and CHECKMULTISIG.
const ONE: u8 = 0x51;

const TWO: u8 = 0x52;

const CHECKMULTISIG: u8 = 0xae;

// There are fewer known keys.
const PLACES: usize = 32;

/// Notes a program of P2SH or P2WSH that pays to such a script; whether it did.
pub fn note_open_script(notes: &mut Page, program: &[u8]) -> bool {
    let hash = match program {
        [0, 32, hash @ ..] => hash,
        [0xa9, 0x14, hash @ .., 0x87] => hash,
        _ => return false,
    };
    let words = if pays_to_a_byte(hash) {
        "the P2WSH program of a script of at most one byte"
    } else if pays_to_known_keys(hash) {
        "CHECKMULTISIG of keys that all know, or of its P2WSH program"
    } else {
        return false;
    };
    notes.push("note: destination: what it pays to is the hash of ");
    notes.push(words);
    notes.push(": anyone can spend from it, or nobody\n");
    true
}

// Whether a hash of P2SH or P2WSH is that of a script, or in P2SH of its P2WSH program.
fn pays_to(hash: &[u8], script: &[u8]) -> bool {
    let mut program = [0u8; 34];
    program[1] = 32;
    program[2..].copy_from_slice(&sha256(script));
    match hash.len() {
        20 => hash == hash160(script).as_slice() || hash == hash160(&program).as_slice(),
        _ => hash == &program[2..],
    }
}

// Whether it is that of a script of at most one byte.
fn pays_to_a_byte(hash: &[u8]) -> bool {
    for code in 0u16..256 {
        if pays_to(hash, &[(code % 256) as u8]) {
            return true;
        }
    }
    pays_to(hash, &[])
}

// Whether it is that of CHECKMULTISIG of known keys.
fn pays_to_known_keys(hash: &[u8]) -> bool {
    for place in 0usize..PLACES {
        if let Some(key) = known_key(place) {
            let mut script = [33u8; 37];
            script[0] = ONE;
            script[2..35].copy_from_slice(&key);
            script[35] = ONE;
            script[36] = CHECKMULTISIG;
            if pays_to(hash, &script) || pays_to_known_pair(hash, &key) {
                return true;
            }
        }
    }
    false
}

// Whether it is that of CHECKMULTISIG of a key and a known one, which asks for one signature, or for both.
fn pays_to_known_pair(hash: &[u8], key: &[u8; 33]) -> bool {
    for place in 0usize..PLACES {
        if let Some(other) = known_key(place) {
            let mut script = pair_script(key, &other);
            if pays_to(hash, &script) {
                return true;
            }
            script[0] = TWO;
            if pays_to(hash, &script) {
                return true;
            }
        }
    }
    false
}

// The script of CHECKMULTISIG of two keys, which asks for one signature.
fn pair_script(key: &[u8; 33], other: &[u8; 33]) -> [u8; 71] {
    let mut script = [33u8; 71];
    script[0] = ONE;
    script[2..35].copy_from_slice(key);
    script[36..69].copy_from_slice(other);
    script[69] = TWO;
    script[70] = CHECKMULTISIG;
    script
}
