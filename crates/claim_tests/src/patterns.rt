//! Patterns compared with what `check` gives for the bytes of their instances.

use crate::fixtures::{checked_parts, key_bytes};
use facts::Stated;
use paths::{CheckError, Checked, CheckedPattern, Fill, Path, PatternError, Piece, check_pattern};
use script::Op;
use std::alloc::Global;
use std::process::Abort;

fn are_same_facts(facts: &[Stated], others: &[Stated]) -> bool {
    for (fact, other) in facts.iter().zip(others) {
        if fact.holds != other.holds || !fact.fact.equals(&other.fact) {
            return false;
        }
    }
    facts.len() == others.len()
}

fn is_same_path(path: &Path, other: &Path) -> bool {
    [path.arity, path.ops, path.height] == [other.arity, other.ops, other.height]
        && path.lock == other.lock
        && path.age == other.age
        && are_same_facts(path.facts.values(), other.facts.values())
}

fn is_same(checked: &Checked, other: &Checked) -> bool {
    for (path, wanted) in checked.paths().iter().zip(other.paths()) {
        if !is_same_path(path, wanted) {
            return false;
        }
    }
    checked.paths().len() == other.paths().len()
        && checked.script().bytes() == other.script().bytes()
}

// A copy of a piece.
fn copied(rt: &impl Abort, piece: &Piece) -> Piece {
    match piece {
        Piece::Op(op) => Piece::Op(op.copy().expect(rt, "memory")),
        Piece::KeyHole => Piece::KeyHole,
        Piece::HashHole => Piece::HashHole,
        Piece::NumHole => Piece::NumHole,
    }
}

// The pattern of these pieces, or its refusal.
fn listed(
    rt: &impl Abort,
    alloc: Global,
    pieces: &[Piece],
) -> Result<CheckedPattern, PatternError> {
    let mut copies = Vec::new(alloc);
    for piece in pieces {
        copies.push(copied(rt, piece)).expect(rt, "memory");
    }
    check_pattern(alloc, copies)
}

// The script of a to_local output (BOLT 3): IF key ELSE delay CHECKSEQUENCEVERIFY DROP key ENDIF CHECKSIG.
const TO_LOCAL: [Piece; 9] = [
    Piece::Op(Op::If),
    Piece::KeyHole,
    Piece::Op(Op::Else),
    Piece::NumHole,
    Piece::Op(Op::CheckSequenceVerify),
    Piece::Op(Op::Drop),
    Piece::KeyHole,
    Piece::Op(Op::EndIf),
    Piece::Op(Op::CheckSig),
];

// A delay, the bytes of its push, and the age of the second path.
const DELAYS: [(u32, &[u8], u16); 5] = [
    (0, &[0x00], 0),
    (16, &[0x60], 16),
    (17, &[0x01, 0x11], 17),
    (40_000, &[0x03, 0x40, 0x9c, 0x00], 40_000),
    (144, &[0x02, 0x90, 0x00], 144),
];

// The script of to_local with this delay.
fn filled(rt: &impl Abort, alloc: Global, pattern: &CheckedPattern, delay_blocks: u32) -> Checked {
    let fills = [
        Fill::Key(key_bytes(0x11)),
        Fill::Num(delay_blocks),
        Fill::Key(key_bytes(0x22)),
    ];
    pattern.instance(alloc, &fills).expect(rt, "an instance")
}

// The script of to_local with these bytes of the delay, checked as bytes.
fn checked_to_local(rt: &impl Abort, alloc: Global, delay: &[u8]) -> Checked {
    let parts: [(&[u8], usize); 7] = [
        (&[0x63, 0x21, 0x02], 1),
        (&[0x11], 32),
        (&[0x67], 1),
        (delay, 1),
        (&[0xb2, 0x75, 0x21, 0x02], 1),
        (&[0x22], 32),
        (&[0x68, 0xac], 1),
    ];
    checked_parts(rt, alloc, &parts)
}

// The age of a script's last path.
fn last_age(checked: &Checked) -> Option<u16> {
    match checked.paths().last() {
        Some(path) => path.age,
        None => None,
    }
}

// Whether a script is the one of to_local with these bytes of the delay, and its last path has this age.
fn is_to_local(rt: &impl Abort, alloc: Global, filled: &Checked, delay: &[u8], age: u16) -> bool {
    let listed = checked_to_local(rt, alloc, delay);
    is_same(filled, &listed) && last_age(filled) == Some(age)
}

fn fills_delays(rt: &impl Abort, alloc: Global, pattern: &CheckedPattern) {
    for (delay_blocks, spelt, age) in &DELAYS {
        let filled = filled(rt, alloc, pattern, *delay_blocks);
        assert!(rt;
            is_to_local(rt, alloc, &filled, spelt, *age),
            "{delay_blocks}"
        );
    }
}

#[test]
fn fills_as_check_lists(rt: HostRuntime) {
    let pattern = listed(&rt, rt.alloc(), &TO_LOCAL).expect(&rt, "listed");
    fills_delays(&rt, rt.alloc(), &pattern);
}

// The number of the refusal of these fills; `None` where they give an instance.
fn refusal_of(alloc: Global, pattern: &CheckedPattern, fills: &[Fill]) -> Option<u8> {
    match pattern.instance(alloc, fills) {
        Ok(_) => None,
        Err(refusal) => Some(refusal.number()),
    }
}

const GOOD: [Fill; 2] = [Fill::Hash([1; 20]), Fill::Num(499_999_999)];

const KEY_FOR_A_HASH: [Fill; 2] = [Fill::Key([2; 33]), Fill::Num(1)];

// Each other wrong fill is refused by the clause of `instance`.
#[test]
fn refuses_wrong_fills(rt: HostRuntime) {
    let alloc = rt.alloc();
    let pattern = listed(&rt, alloc, &[Piece::HashHole, Piece::NumHole]).expect(&rt, "listed");
    assert!(rt; refusal_of(alloc, &pattern, &GOOD).is_none());
    assert!(rt; refusal_of(alloc, &pattern, &KEY_FOR_A_HASH) == Some(1));
}

// A number decides a branch.
const UNDECIDED: [Piece; 3] = [Piece::NumHole, Piece::Op(Op::If), Piece::Op(Op::EndIf)];

#[test]
fn refuses_patterns(rt: HostRuntime) {
    let found = listed(&rt, rt.alloc(), &UNDECIDED);
    let error = PatternError::Check(CheckError::Undecided(1));
    assert!(rt; matches!(&found, Err(refusal) if *refusal == error));
}
