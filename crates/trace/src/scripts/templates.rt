// What a witness of a path has, item by item, in the order of the witness.

use crate::scripts::parts::{keys, slots};
use facts::{Fact, KeySource, Stated};
use page::Page;
use page::Piece::Count;

// What a fact says of the slots that it is about. The first that is said of a slot decides what stands there.
#[derive(Clone, Copy)]
enum Says {
    // Its bytes.
    Bytes,
    // Whose signature it is.
    Signature,
    // Its hash.
    Hash,
    // That it is a key.
    Key,
    // Its length, which is not 0.
    Size,
    // That it is true.
    Truth,
    // Nothing of these.
    Nothing,
    // That it is not the number 1.
    NotOne,
    // That it is not the empty item.
    NotEmpty,
}

// What a fact says of the slots that it is about.
fn said(stated: &Stated) -> Says {
    let holds = stated.holds;
    match &stated.fact {
        Fact::Is(_, _) if holds => Says::Bytes,
        Fact::Is(_, bytes) if bytes.bytes() == [1].as_slice() => Says::NotOne,
        Fact::Is(_, bytes) if bytes.is_empty() => Says::NotEmpty,
        Fact::Size(_, 0) if !holds => Says::NotEmpty,
        Fact::Size(_, 1) if !holds => Says::NotOne,
        Fact::Size(_, 1..) if holds => Says::Size,
        Fact::Token(_, _) | Fact::Assigned(_, _) if holds => Says::Signature,
        Fact::Hash(_, _) if holds => Says::Hash,
        Fact::KeyForm(_) if holds => Says::Key,
        Fact::Truth(_) if holds => Says::Truth,
        _ => Says::Nothing,
    }
}

// The first of the facts that say the most of a slot.
fn telling(facts: &[Stated], slot: usize) -> Option<&Fact> {
    let mut found = None;
    let mut most = Says::Nothing as u8;
    for stated in facts {
        let says = said(stated) as u8;
        if says < most && slots(&stated.fact).contains(&slot) {
            found = Some(&stated.fact);
            most = says;
        }
    }
    found
}

// Whether a fact says this of a slot.
fn is_said(facts: &[Stated], slot: usize, says: Says) -> bool {
    for stated in facts {
        if said(stated) as u8 == says as u8 && slots(&stated.fact).contains(&slot) {
            return true;
        }
    }
    false
}

// Writes whose signature may stand in a slot: of as many keys as slots each slot's own, else one of all keys.
fn tell_signer(line: &mut Page, fact: &Fact, slot: usize) {
    let (slots, keys) = (slots(fact), keys(fact));
    if slots.len() != keys.len() {
        line.count("one of ", keys.len() as u64);
        line.push(" keys");
        return;
    }
    for index in 0..slots.len() {
        if slots[index] == slot {
            match &keys[index] {
                KeySource::Const(bytes) => line.hex("", bytes.bytes()),
                KeySource::Slot(slot) => line.count("the key in slot ", *slot as u64),
            }
        }
    }
}

// Writes the item of a slot.
fn tell_item(line: &mut Page, facts: &[Stated], slot: usize) {
    match telling(facts, slot) {
        Some(Fact::Is(_, bytes)) => {
            line.hex(if bytes.is_empty() { "<empty>" } else { "" }, bytes.bytes());
        }
        Some(Fact::Hash(_, hash)) => {
            let before = if is_said(facts, slot, Says::Key) {
                "<key with HASH160 "
            } else {
                "<preimage of HASH160 "
            };
            line.hex(before, hash.bytes());
            line.push(">");
        }
        Some(Fact::KeyForm(_)) => line.push("<key>"),
        Some(Fact::Size(_, size)) => line.write(
            if *size == 1 { "<% byte>" } else { "<% bytes>" },
            &[Count(u64::from(*size))],
        ),
        Some(Fact::Truth(_)) => line.push(if is_said(facts, slot, Says::NotOne) {
            "<true item>"
        } else {
            "01"
        }),
        Some(fact) => {
            line.push("<signature of ");
            tell_signer(line, fact, slot);
            line.push(">");
        }
        None => line.push(if is_said(facts, slot, Says::NotEmpty) {
            "<item>"
        } else {
            "<empty>"
        }),
    }
}

/// Writes the items of a path's witness, each after a mark but the first, and before another one: slot by slot from the deepest to the top, and then the script.
pub fn tell_witness(line: &mut Page, facts: &[Stated], arity: usize, before: &str, after: &str) {
    for index in 0..arity {
        let slot = arity - 1 - index;
        line.push(before);
        tell_item(line, facts, slot);
        line.push(after);
    }
    line.push(before);
    line.push("<script>");
}
