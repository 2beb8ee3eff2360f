// Notes on a script.

ghost use Rattle.strictness.specs.Machine.{NobodySpends};

use crate::calls::text_of;
use crate::conflicts::{conflict_in, is_of_token_size};
use crate::curve::is_long_key;
use crate::dead_ends::note_dead_ends;
use crate::looks::{note_length_before, note_look, note_message, note_size_of_key, note_text};
use crate::pushes::note_pushes;
use crate::refusals::note_refusal;
use crate::risks::note_risks;
use crate::sizes::Counted;
use crate::unknowns::{note_opcode, note_others};
use facts::Stated;
use page::Page;
use page::Piece::{Count, Text};
use paths::{Checked, Path, check};
use script::{Op, ParseError, Script};
use std::alloc::{AllocError, Global};
use strictness::{Rule, StrictEnd, strict_ends};
use warnings::look_of;

/// The notes on a version 0 witness script that is written in hexadecimal, a line each; empty if there are none. The only error is that memory ran out.
pub fn notes(alloc: Global, text: &str) -> Result<String, AllocError> {
    let mut notes = Page::new(alloc);
    match hex::decode(alloc, text) {
        Ok(bytes) => note_bytes(&mut notes, bytes.as_slice()),
        Err(_) => note_text(&mut notes, text),
    }
    text_of(&notes)
}

/// The notes on a message that is written in hexadecimal, a line each; empty if there are none. The only error is that memory ran out.
pub(crate) fn message_notes(alloc: Global, text: &str) -> Result<String, AllocError> {
    let mut notes = Page::new(alloc);
    note_message(&mut notes, text);
    text_of(&notes)
}

// Notes on bytes: what they look like, and what they are as a script. Why a transaction or a PSBT is no script is not said.
fn note_bytes(notes: &mut Page, bytes: &[u8]) {
    let is_other = note_look(notes, bytes);
    note_length_before(notes, bytes);
    match Script::parse(notes.alloc(), bytes) {
        Ok(script) => note_script(notes, bytes, script),
        Err(_) if is_other => {}
        Err(error) => {
            note_size_of_key(notes, bytes);
            note_fault(notes, bytes, error);
        }
    }
}

// Notes why bytes are no script.
fn note_fault(notes: &mut Page, bytes: &[u8], error: ParseError) {
    match error {
        ParseError::BadOpcode(at) => {
            note_opcode(notes, bytes, at);
            note_pushes(notes, before(bytes, at));
            note_others(notes, bytes, at);
        }
        ParseError::Truncated(at) => {
            note_missing(notes, bytes, at);
            note_pushes(notes, before(bytes, at));
        }
        ParseError::TooLong => notes.write(
            "note: the script has % bytes, and at most 10000 are allowed (BIP 141)\n",
            &[Count(bytes.len() as u64)],
        ),
        ParseError::NoMemory => {}
    }
}

// The bytes before a position.
fn before(bytes: &[u8], at: usize) -> &[u8] {
    &bytes[..at.min(bytes.len())]
}

// Notes how many bytes a push needs, and how many follow it.
fn note_missing(notes: &mut Page, bytes: &[u8], at: usize) {
    let Some((len, rest)) = bytes[at.min(bytes.len())..].split_first() else {
        return;
    };
    notes.write(
        "note: the push at byte % wants % bytes, and % follow\n",
        &[
            Count(at as u64),
            Count(u64::from(*len)),
            Count(rest.len() as u64),
        ],
    );
}

// Notes on a script whose bytes are these.
fn note_script(notes: &mut Page, bytes: &[u8], script: Script) {
    let alloc = notes.alloc();
    match check(alloc, script) {
        Ok(checked) => {
            if note_listing(notes, alloc, &checked).is_err() {
                notes.fail();
            }
        }
        Err(error) => note_refusal(notes, bytes, error),
    }
}

fn note_listing(notes: &mut Page, alloc: Global, checked: &Checked) -> Result<(), AllocError> {
    let ops = checked.script().ops();
    let ends = strict_ends(alloc, ops)?;
    if checked.paths().is_empty() {
        if ends.is_exact {
            note_exact(notes, ops);
        } else {
            note_stricter(notes);
        }
    }
    for end in &ends.strict {
        note_end(notes, ops, end);
    }
    // of an output's program it is said what it looks like
    if look_of(checked.script().bytes()).is_none() {
        note_dead_ends(notes, alloc, ops)?;
    }
    for (index, path) in checked.paths().iter().enumerate() {
        note_conflict(notes, index, path);
    }
    note_risks(notes, alloc, checked)
}

// Notes that no witness satisfies a script by the rules here, nor in consensus.
fn note_exact(notes: &mut Page, _ops: &[Op])
    requires { NobodySpends _ops.now }
{
    notes.push(
        "note: no witness satisfies the script by the rules of this profile: each branch ends as in consensus\n",
    );
}

// Notes that no witness satisfies a script by the rules here. In consensus one may.
fn note_stricter(notes: &mut Page) {
    notes.push(
        "note: no witness satisfies the script by the rules of this profile, which are stricter than consensus\n",
    );
}

// Notes the rule by which a branch ended.
fn note_end(notes: &mut Page, ops: &[Op], end: &StrictEnd) {
    let (op, bytes) = (end.op, end.bytes.as_slice());
    notes.write("note: a branch ends at opcode %: ", &[Count(op as u64)]);
    notes.show(&Counted(bytes));
    match end.rule {
        Rule::Key => {
            notes.push(" is no key here (a key has 33 bytes, and begins with 02 or 03)");
            note_key(notes, bytes, matches!(ops.get(op), Some(Op::CheckSig)));
        }
        Rule::Signature => notes.push(
            " is no signature here (signatures are tokens); consensus is laxer, and may let others spend\n",
        ),
        Rule::Number => notes.push(
            " is no number here (numbers are minimally encoded); consensus is laxer, and may let others spend\n",
        ),
    }
}

// Ends the note on bytes that are no key here. A CHECKSIG has no other key.
fn note_key(notes: &mut Page, bytes: &[u8], is_alone: bool) {
    if is_long_key(bytes) {
        notes.push("; consensus takes this one, and nodes relay no spend with it\n");
        return;
    }
    notes.push(match bytes.len() {
        32 => ", as taproot alone has them",
        65 => ", nor a point of the curve",
        _ => "",
    });
    notes.push(if is_alone {
        "; in consensus its check is false, and nobody can spend where that has to be true\n"
    } else {
        "; in consensus no signature is valid for it, and other keys of this check may sign\n"
    });
}

// Notes that no witness meets a path.
fn note_conflict(notes: &mut Page, index: usize, path: &Path) {
    if let Some((one, other)) = conflict_in(path.facts.values()) {
        note_pair(notes, index, one, other);
    }
}

// Notes that two facts of a path contradict each other, and whether they do so by the length of a token.
fn note_pair(notes: &mut Page, index: usize, one: &Stated, other: &Stated) {
    let (beginning, reason) = if is_of_token_size(one, other) {
        (
            "note: by the rules of this profile no witness meets path",
            ", since a signature has 66 bytes",
        )
    } else {
        ("note: no witness meets path", "")
    };
    notes.write(
        "% %%: '",
        &[Text(beginning), Count(index as u64), Text(reason)],
    );
    notes.show(one);
    notes.push("' and '");
    notes.show(other);
    notes.push("' contradict each other\n");
}
