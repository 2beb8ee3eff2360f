// Paths as JSON.

use crate::scripts::parts::{keys, slots};
use crate::scripts::sentences::{Role, Sentence};
use crate::scripts::templates::tell_witness;
use crate::scripts::weights::{SIGNATURE_SIZE, TOKEN_SIZE, witness_weight};
use digest::sha256;
use facts::{Fact, KeySource, Stated};
use page::Piece::{Count, Hash, Sum, Text};
use page::{Page, Piece};
use paths::Path;
use script::limits::LOCKTIME_THRESHOLD;
use warnings::{Look, Taker, greatest_units, look_of, taker_of, takes_hashed_key};

// Writes the keys of a fact, elements of an array: texts in hexadecimal, or the numbers of the slots that have them.
fn tell_keys(line: &mut Page, fact: &Fact) {
    for key in keys(fact) {
        line.element("", &[]);
        match key {
            KeySource::Const(key) => {
                line.hex("\"", key.bytes());
                line.push("\"");
            }
            KeySource::Slot(slot) => line.show(slot),
        }
    }
}

// Writes the value that a fact compares with: bytes, a number, or nothing.
fn tell_value(line: &mut Page, fact: &Fact) {
    match fact {
        Fact::Hash(_, bytes) | Fact::Is(_, bytes) => {
            line.hex("\"", bytes.bytes());
            line.push("\"");
        }
        Fact::Size(_, n) | Fact::Age(n) => line.show(n),
        Fact::Lock(n) => line.show(n),
        _ => line.push("null"),
    }
}

// The word for the kind of a fact.
fn kind(fact: &Fact) -> &'static str {
    match fact {
        Fact::Hash(_, _) => "hash",
        Fact::Size(_, _) => "size",
        Fact::Truth(_) => "truth",
        Fact::Is(_, _) => "is",
        Fact::KeyForm(_) => "key",
        Fact::Form(_) => "form",
        Fact::Token(_, _) => "token",
        Fact::Assigned(_, _) => "assigned",
        Fact::Lock(_) => "lock",
        Fact::Age(_) => "age",
    }
}

// Writes a fact, an element of an array.
fn tell_fact(line: &mut Page, stated: &Stated) {
    line.element(
        r#"{"kind":"%","holds":%,"role":"%","slots":["#,
        &[
            Text(kind(&stated.fact)),
            Piece::flag(stated.holds),
            Text(Role::of(stated).text()),
        ],
    );
    for slot in slots(&stated.fact) {
        line.element("%", &[Count(*slot as u64)]);
    }
    line.push(r#"],"keys":["#);
    tell_keys(line, &stated.fact);
    line.push(r#"],"value":"#);
    tell_value(line, &stated.fact);
    line.push(r#","says":""#);
    line.show(&Sentence(stated));
    line.push(r#""}"#);
}

// A number that may be there.
fn short(number: Option<u16>) -> Piece {
    match number {
        Some(number) => Count(u64::from(number)),
        None => Text("null"),
    }
}

/// Writes a path through a script of this number of bytes, an element of an array.
pub fn tell_path(line: &mut Page, path: &Path, size: usize) {
    let facts = path.facts.values();
    let time = match path.lock {
        Some(lock) if lock >= LOCKTIME_THRESHOLD => Count(lock),
        _ => Text("null"),
    };
    line.element(
        r#"{"arity":%,"counted":%,"height":%,"lock":%,"median_time":%,"age":%,"age_units":%,"weight":%,"token_weight":%,"witness":["#,
        &[
            Count(path.arity as u64),
            Count(path.ops as u64),
            Count(path.height as u64),
            Piece::or_null(path.lock),
            time,
            short(path.age),
            short(greatest_units(facts)),
            Sum(witness_weight(facts, path.arity, size, SIGNATURE_SIZE)),
            Sum(witness_weight(facts, path.arity, size, TOKEN_SIZE)),
        ],
    );
    tell_witness(line, facts, path.arity, "\"", "\",");
    let taker = match taker_of(facts) {
        Taker::Signer => "signer",
        Taker::Finder => "finder",
        Taker::Anyone => "anyone",
    };
    line.write(
        r#""],"taker":"%","hashed_key":%,"facts":["#,
        &[Text(taker), Piece::flag(takes_hashed_key(facts))],
    );
    for stated in facts {
        tell_fact(line, stated);
    }
    line.push("]}");
}

/// Writes with what a script's object begins: its number of bytes, what they look like that is no witness script, and the program of an output to it.
pub fn tell_bytes(line: &mut Page, bytes: Option<&[u8]>) {
    let Some(bytes) = bytes else {
        line.push(r#"{"bytes":null,"looks":null,"program":null,"opcodes":["#);
        return;
    };
    let look = match look_of(bytes) {
        None => "null",
        Some(Look::KeyHash) => "\"P2PKH\"",
        Some(Look::ScriptHash) => "\"P2SH\"",
        Some(Look::Key) => "\"P2PK\"",
        Some(Look::WitnessKeyHash) => "\"P2WPKH\"",
        Some(Look::WitnessScriptHash) => "\"P2WSH\"",
        Some(Look::Taproot) => "\"P2TR\"",
        Some(Look::WitnessProgram(_)) => "\"program\"",
        Some(Look::Transaction) => "\"transaction\"",
        Some(Look::Psbt) => "\"PSBT\"",
    };
    line.write(
        r#"{"bytes":%,"looks":%,"program":"0020%","opcodes":["#,
        &[Count(bytes.len() as u64), Text(look), Hash(sha256(bytes))],
    );
}
