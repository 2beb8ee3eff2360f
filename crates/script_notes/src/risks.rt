// Notes on what endangers money: paths that others can take too, branches that no run takes, checks that nothing depends on, keys that nobody can sign for, locks that ask for less than they say or hold nobody up, locks whose bytes seem to be turned round, and until when paths wait.

use crate::conflicts::conflict_in;
use crate::dates::{Date, Span, month_of_height};
use crate::decided::{Decided, note_long_pushes, note_unrun};
use crate::keys::{note_known_keys, note_points, note_repeated_keys};
use crate::preimages::note_hashes;
use crate::shortcuts::note_shortcuts;
use facts::{Fact, Stated};
use page::Page;
use page::Piece::{Count, Text};
use paths::{Checked, Path};
use script::Op;
use script::limits::LOCKTIME_THRESHOLD;
use std::alloc::{AllocError, Global};
use std::slice;
use warnings::{
    DoubtfulLock, LockDoubt, LockWarning, SequenceLock, Taker, TurnedLock, doubtful_locks,
    greatest_units, has_unreachable_lock, is_offered_htlc, lock_warnings, taker_of,
    takes_hashed_key, turned_locks,
};

// The greatest lock time (BIP 144).
const MAX_LOCK_TIME: u64 = 4_294_967_295;

// A height of 2025, and the blocks of a year at ten minutes each.
const HEIGHT: u64 = 900_000;

const BLOCKS_PER_YEAR: u64 = 52_560;

// The heights that are not doubtful.
const FIRST_HEIGHT: u64 = 481_824;

const LAST_HEIGHT: u64 = 5_000_000;

/// The most bytes of a witness script whose spend nodes relay (Bitcoin Core, `MAX_STANDARD_P2WSH_SCRIPT_SIZE`).
pub const MAX_RELAYED_SCRIPT: usize = 3_600;

/// The most items beside it (`MAX_STANDARD_P2WSH_STACK_ITEMS`).
pub const MAX_RELAYED_ITEMS: usize = 100;

/// The most bytes of such an item (`MAX_STANDARD_P2WSH_STACK_ITEM_SIZE`).
pub const MAX_RELAYED_ITEM: usize = 80;

// Two weeks of blocks.
const LONG_AGE: u16 = 2_016;

/// Notes on the paths of a listed script.
pub fn note_risks(notes: &mut Page, alloc: Global, checked: &Checked) -> Result<(), AllocError> {
    let paths = checked.paths();
    for risk in &RISKS {
        note_paths(notes, paths, *risk);
    }
    note_size(notes, checked.script().bytes().len());
    let ops = checked.script().ops();
    let decided = Decided::of(alloc, ops)?;
    note_points(notes, paths, ops);
    note_repeated_keys(notes, paths);
    note_known_keys(notes, ops);
    note_hashes(notes, paths, ops);
    if !paths.is_empty() {
        note_unrun(notes, &decided, ops);
        note_dropped(notes, ops);
        note_long_pushes(notes, ops);
    }
    note_locks(notes, &decided);
    note_turned(notes, &decided);
    note_doubts(notes, &decided);
    note_waits(notes, paths);
    note_shortcuts(notes, paths);
    // with keys that have another form than a key's, it has fewer paths
    if paths.len() == 3 && is_offered_htlc(checked.script().bytes()) {
        note_timeout(notes);
    }
    Ok(())
}

// The risks in the order of their notes.
const RISKS: [Risk; 9] = [
    Risk::Unreachable,
    Risk::NeverFinal,
    Risk::Anyone,
    Risk::Finder,
    Risk::HashedKey,
    Risk::HashedSignature,
    Risk::SizedSignature,
    Risk::Unchecked,
    Risk::Unrelayed,
];

// What a note says of some paths.
#[derive(Clone, Copy)]
enum Risk {
    // No transaction has the lock time that is asked for.
    Unreachable,
    // No transaction with the lock time that is asked for is ever final.
    NeverFinal,
    // Anyone can spend.
    Anyone,
    // Whoever sees a witness can spend.
    Finder,
    // A key is taken by its hash.
    HashedKey,
    // A signature is asked for whose hash is given.
    HashedSignature,
    // A signature is asked for whose size or bytes are given.
    SizedSignature,
    // A signature is asked for, and nothing depends on its check.
    Unchecked,
    // Nodes do not relay its witness.
    Unrelayed,
}

impl Risk {
    // The words before the paths.
    fn beginning(self) -> &'static str {
        match self {
            Risk::Unreachable => "note: no transaction has the lock time of path",
            Risk::NeverFinal => "note: nobody can ever spend by path",
            Risk::Anyone => "note: anyone can spend by path",
            Risk::Finder => "note: whoever sees such a witness can spend too by path",
            Risk::HashedKey => "note: a key is taken by its hash on path",
            Risk::HashedSignature => "note: a signature with a given hash is asked for on path",
            Risk::SizedSignature => {
                "note: a signature of a given size, or with given bytes, is asked for on path"
            }
            Risk::Unchecked => "note: nothing depends on the check of a signature on path",
            Risk::Unrelayed => "note: nodes relay no spend by path",
        }
    }

    // The words after the paths.
    fn ending(self) -> &'static str {
        match self {
            Risk::Unreachable => ": a lock time has 4 bytes, so it is at most 4294967295\n",
            Risk::NeverFinal => {
                ": its lock time is 4294967295, and no median time past is above that (BIP 113)\n"
            }
            Risk::Anyone => ": no signature of a key that the script fixes is asked for\n",
            Risk::Finder => {
                ": what has a given hash is asked for, and no signature of a key that the script fixes\n"
            }
            Risk::HashedKey => {
                ": by consensus, though not by relay policy, an uncompressed key with that hash is taken too\n"
            }
            Risk::HashedSignature => {
                ": what it signs has that hash in it, so nobody can ever make one\n"
            }
            Risk::SizedSignature => {
                ": here it is a token of 66 bytes, and in Bitcoin it has 71 or 72 mostly, so the path may be met by nobody\n"
            }
            Risk::Unchecked => ": the empty item serves as well\n",
            Risk::Unrelayed => ": it asks for more than 100 items, or for one above 80 bytes\n",
        }
    }
}

// Whether a path has a risk. What nobody meets leaves nothing to others.
fn has_risk(path: &Path, risk: Risk) -> bool {
    let facts = path.facts.values();
    if has_unreachable_lock(facts) {
        let is_greatest = path.lock == Some(MAX_LOCK_TIME);
        return match risk {
            Risk::Unreachable => !is_greatest,
            Risk::NeverFinal => is_greatest,
            _ => false,
        };
    }
    if conflict_in(facts).is_some() {
        return false;
    }
    match risk {
        Risk::Unreachable | Risk::NeverFinal => false,
        Risk::Anyone => taker_of(facts) == Taker::Anyone,
        Risk::Finder => taker_of(facts) == Taker::Finder,
        Risk::HashedKey => takes_hashed_key(facts),
        Risk::HashedSignature | Risk::SizedSignature => is_said_of_signatures(facts, risk),
        Risk::Unchecked => has_unchecked(facts),
        Risk::Unrelayed => path.arity > MAX_RELAYED_ITEMS || has_long(facts),
    }
}

// Whether facts ask for an item that is too long for nodes to relay.
fn has_long(facts: &[Stated]) -> bool {
    for stated in facts {
        if let Fact::Size(_, size) = &stated.fact {
            if stated.holds && *size as usize > MAX_RELAYED_ITEM {
                return true;
            }
        }
    }
    false
}

// Whether facts ask for an item in the form of a signature, and for no answer of its check.
fn has_unchecked(facts: &[Stated]) -> bool {
    for stated in facts {
        if let Fact::Form(slot) = &stated.fact {
            if !is_checked(facts, *slot) {
                return true;
            }
        }
    }
    false
}

/// Whether facts ask for an answer of the check of a signature in a slot.
pub(crate) fn is_checked(facts: &[Stated], slot: usize) -> bool {
    for stated in facts {
        let is_answer = match &stated.fact {
            Fact::Token(place, _) => *place == slot,
            Fact::Assigned(slots, _) => slots.values().contains(&slot),
            _ => false,
        };
        if is_answer {
            return true;
        }
    }
    false
}

// Notes the comparisons whose answer is dropped.
fn note_dropped(notes: &mut Page, ops: &[Op]) {
    for (at, op) in ops.iter().enumerate() {
        let next = at.saturating_add(1);
        if let (Op::Equal, Some(Op::Drop)) = (op, ops.get(next)) {
            notes.write(
                "note: opcode %, DROP, drops what opcode %, EQUAL, found: nothing depends on that comparison\n",
                &[Count(next as u64), Count(at as u64)],
            );
        }
    }
}

// Notes a script that is too long for nodes to relay a spend of it.
fn note_size(notes: &mut Page, len: usize) {
    if len > MAX_RELAYED_SCRIPT {
        notes.write(
            "note: the script has % bytes, and nodes relay no spend of one above %\n",
            &[Count(len as u64), Count(MAX_RELAYED_SCRIPT as u64)],
        );
    }
}

// Whether facts ask for a signature of which another one of the path gives the hash, or the size or the bytes.
fn is_said_of_signatures(facts: &[Stated], risk: Risk) -> bool {
    for stated in facts {
        let slots = match &stated.fact {
            Fact::Token(slot, _) if stated.holds => slice::from_ref(slot),
            Fact::Assigned(slots, _) if stated.holds => slots.values(),
            _ => &[],
        };
        for slot in slots {
            if is_said(facts, *slot, risk) {
                return true;
            }
        }
    }
    false
}

// Whether a path says what the hash of a slot is, or its size or bytes.
fn is_said(facts: &[Stated], slot: usize, risk: Risk) -> bool {
    let is_hash = matches!(risk, Risk::HashedSignature);
    for stated in facts {
        let is_said = match &stated.fact {
            Fact::Hash(place, _) => is_hash && *place == slot,
            Fact::Size(place, _) | Fact::Is(place, _) => !is_hash && *place == slot,
            _ => false,
        };
        if is_said && stated.holds {
            return true;
        }
    }
    false
}

// Notes the paths that have a risk in one line, if there are any.
fn note_paths(notes: &mut Page, paths: &[Path], risk: Risk) {
    let mut mark = risk.beginning();
    for (index, path) in paths.iter().enumerate() {
        if has_risk(path, risk) {
            notes.write("% %", &[Text(mark), Count(index as u64)]);
            mark = ",";
        }
    }
    if mark == "," {
        notes.push(risk.ending());
    }
}

// Notes the relative locks that ask for less than their number says.
fn note_locks(notes: &mut Page, decided: &Decided) {
    match lock_warnings(notes.alloc(), decided.locks.as_slice()) {
        Ok(warnings) => {
            for warning in &warnings {
                note_lock(notes, decided.place_of(warning.op), warning);
            }
        }
        Err(_) => notes.fail(),
    }
}

// Notes one relative lock, which stands at an opcode.
fn note_lock(notes: &mut Page, op: usize, warning: &LockWarning) {
    notes.write(
        "note: opcode %, CHECKSEQUENCEVERIFY of %, asks for ",
        &[Count(op as u64), Count(warning.number)],
    );
    let (age, unit, of) = match warning.lock {
        SequenceLock::Off => {
            notes.push("nothing: bit 31 switches the lock off (BIP 68)\n");
            return;
        }
        SequenceLock::Blocks(age) => (age, "block", ""),
        SequenceLock::Units(age) => (age, "unit", " of 512 seconds"),
    };
    notes.write(
        "an age of % %%%: of a number only bits 0 to 15, 22 and 31 count (BIP 68)\n",
        &[
            Count(u64::from(age)),
            Text(unit),
            Text(plural(age)),
            Text(of),
        ],
    );
}

// Notes the locks whose number seems to have its bytes turned round.
fn note_turned(notes: &mut Page, decided: &Decided) {
    match turned_locks(notes.alloc(), decided.locks.as_slice()) {
        Ok(locks) => {
            for lock in &locks {
                note_turned_lock(notes, decided, lock);
            }
        }
        Err(_) => notes.fail(),
    }
}

// Notes one such lock.
fn note_turned_lock(notes: &mut Page, decided: &Decided, lock: &TurnedLock) {
    let name = match decided.locks.get(lock.op) {
        Some(Op::CheckLockTimeVerify) => "CHECKLOCKTIMEVERIFY",
        _ => "CHECKSEQUENCEVERIFY",
    };
    notes.write(
        "note: opcode %, % of %: the same bytes in the other order are %, and a number is little-endian\n",
        &[
            Count(decided.place_of(lock.op) as u64),
            Text(name),
            Count(lock.number),
            Count(lock.turned),
        ],
    );
}

// Notes the absolute locks that hold nobody up, or nearly for ever.
fn note_doubts(notes: &mut Page, decided: &Decided) {
    match doubtful_locks(notes.alloc(), decided.locks.as_slice()) {
        Ok(locks) => {
            for lock in &locks {
                note_doubt(notes, decided.place_of(lock.op), lock);
            }
        }
        Err(_) => notes.fail(),
    }
}

// Notes one such lock, which stands at an opcode.
fn note_doubt(notes: &mut Page, op: usize, lock: &DoubtfulLock) {
    notes.write(
        "note: opcode %, CHECKLOCKTIMEVERIFY of %, ",
        &[Count(op as u64), Count(lock.number)],
    );
    match lock.doubt {
        LockDoubt::Passed => notes.push(
            "holds nobody up on Bitcoin's main chain, which had passed it before it had witness scripts (BIP 141); CHECKSEQUENCEVERIFY waits a number of blocks\n",
        ),
        LockDoubt::FarHeight => notes.write(
            "waits for a height that is some % years away: from % on a number is a time (BIP 65)\n",
            &[
                Count(lock.number.saturating_sub(HEIGHT) / BLOCKS_PER_YEAR),
                Count(LOCKTIME_THRESHOLD),
            ],
        ),
        LockDoubt::FarTime => notes.push("waits until after the year 2099\n"),
    }
}

// The end of the word for what there are this many of.
fn plural(count: u16) -> &'static str {
    if count == 1 { "" } else { "s" }
}

// Notes from when on the paths can be taken that somebody may meet, where their line does not tell.
fn note_waits(notes: &mut Page, paths: &[Path]) {
    for (index, path) in paths.iter().enumerate() {
        let facts = path.facts.values();
        if !has_unreachable_lock(facts) && conflict_in(facts).is_none() {
            note_lock_time(notes, index as u64, path.lock);
            note_age(notes, index as u64, path.age);
            note_units(notes, index as u64, greatest_units(facts));
        }
    }
}

// Notes the day of an absolute lock that is a time, and the month of one that is a height, where it is not doubtful.
fn note_lock_time(notes: &mut Page, index: u64, lock: Option<u64>) {
    match lock {
        Some(lock) if lock >= LOCKTIME_THRESHOLD => {
            notes.write(
                "note: path % can be taken once the median time past is above %, ",
                &[Count(index), Count(lock)],
            );
            notes.show(&Date::of(lock));
            notes.push(" in UTC: its lock is a time, in seconds since 1970 (BIP 113)\n");
        }
        Some(lock) if FIRST_HEIGHT <= lock && lock <= LAST_HEIGHT => {
            let (year, month) = month_of_height(lock);
            let zero = if month < 10 { "0" } else { "" };
            notes.write(
                "note: path % can be taken in blocks above height %, on Bitcoin's main chain from about %-%% on\n",
                &[
                    Count(index),
                    Count(lock),
                    Count(year),
                    Text(zero),
                    Count(month),
                ],
            );
        }
        _ => {}
    }
}

// Notes how long a path waits that waits for more than two weeks of blocks.
fn note_age(notes: &mut Page, index: u64, age: Option<u16>) {
    if let Some(age) = age {
        if age > LONG_AGE {
            notes.write(
                "note: path % waits % blocks, about ",
                &[Count(index), Count(u64::from(age))],
            );
            notes.show(&Span::of_blocks(u64::from(age)));
            notes.push(" at ten minutes each\n");
        }
    }
}

// Notes a path whose relative lock is in units of time.
fn note_units(notes: &mut Page, index: u64, units: Option<u16>) {
    if let Some(units) = units {
        if units > 0 {
            notes.write(
                "note: path % waits % unit% of 512 seconds, about ",
                &[Count(index), Count(u64::from(units)), Text(plural(units))],
            );
            notes.show(&Span(u64::from(units).saturating_mul(512)));
            notes.push(", which its age does not tell: that is in blocks (BIP 68)\n");
        }
    }
}

// Notes which path of an offered HTLC has a lock that does not stand in the script.
fn note_timeout(notes: &mut Page) {
    notes.push(
        "note: path 1 is the timeout of an offered HTLC (BOLT 3): nobody can take it at once, since the other side signs only a transaction whose lock time is the HTLC's cltv_expiry\n",
    );
}
