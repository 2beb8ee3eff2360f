// Which claim of a request is not accepted, and why, in the words of `script`, `paths` and `claim`.

use crate::requests::Request;
use claim::{AcceptError, accept};
use json_value::Value;
use page::Page;
use page::Piece::Count;
use paths::{Checked, Fact, check};
use script::Script;
use std::alloc::Global;
use std::fmt::Display;
use std::mem;
use texts::{PlainClaim, ReadValue};

/// Notes the first output whose claim is not accepted.
pub fn note_claims(alloc: Global, notes: &mut Page, value: &Value) {
    if let Ok(request) = Request::read_value(alloc, value) {
        let mut output: u64 = 0;
        for plain in request.claims.into_vec() {
            if notes.text().is_empty() {
                note_claim(alloc, notes, output, plain);
            }
            output = output.wrapping_add(1);
        }
    }
}

// Notes why a claim is not accepted, if it is not.
fn note_claim(alloc: Global, notes: &mut Page, output: u64, plain: PlainClaim) {
    match Script::parse(alloc, plain.script.bytes()) {
        Ok(script) => match check(alloc, script) {
            Ok(checked) => note_accepted(alloc, notes, output, checked, plain),
            Err(error) => note_cause(notes, output, "script", &error, "\n"),
        },
        Err(error) => note_cause(notes, output, "script", &error, "\n"),
    }
}

// Notes why a claim on a checked script is not accepted, if it is not.
fn note_accepted(
    alloc: Global,
    notes: &mut Page,
    output: u64,
    checked: Checked,
    plain: PlainClaim,
) {
    let count = checked.paths().len() as u64;
    let arity = match checked.paths().get(plain.path) {
        Some(path) => path.arity as u64,
        None => 0,
    };
    let given = plain.slots.len() as u64;
    let slots = plain.slots.into_vec();
    match accept(alloc, checked, plain.path, slots, plain.place, plain.shell) {
        Ok(claim) => mem::forget(claim),
        Err(error) => note_refused(notes, output, &error, count, arity, given),
    }
}

// Notes why a claim is refused, on a script with this number of paths; its path has so many slots, and so many are given.
fn note_refused(
    notes: &mut Page,
    output: u64,
    error: &AcceptError,
    count: u64,
    arity: u64,
    given: u64,
) {
    let (member, words) = words_of(error);
    note_cause(notes, output, member, error, words);
    match error {
        AcceptError::NoSuchPath => notes.write(" %, numbered from 0\n", &[Count(count)]),
        AcceptError::WrongArity => {
            notes.write(" %, and % stand here\n", &[Count(arity), Count(given)])
        }
        _ => {}
    }
}

// Whether a fact is a lock.
fn is_lock(fact: &Fact) -> bool {
    match fact {
        Fact::Lock(_) | Fact::Age(_) => true,
        _ => false,
    }
}

// The member at fault, and the words after the refusal.
fn words_of(error: &AcceptError) -> (&'static str, &'static str) {
    match error {
        AcceptError::NoSuchPath => ("path", ": the number of the script's paths is"),
        AcceptError::WrongArity => ("slots", ": the number of the path's slots is"),
        AcceptError::Unmet(stated) if is_lock(&stated.fact) => (
            "path",
            ": no claim waits for a time: here lock times are heights, and ages are blocks\n",
        ),
        AcceptError::Unmet(_) => (
            "slots",
            ": they do not show this fact; slot 0 is the top of the stack, so the last item of the witness before the script\n",
        ),
        AcceptError::Contradiction => (
            "path",
            ": it asks for a fact and for its contrary, so nothing meets it\n",
        ),
        AcceptError::WrongProgram => (
            "program",
            ": it is not P2WSH of the script, nor P2WPKH with the script of BIP 143\n",
        ),
        AcceptError::WrongShell | AcceptError::NoMemory => ("shell", "\n"),
    }
}

// Notes a member of an output, why it is refused, and what helps.
fn note_cause<E: Display>(notes: &mut Page, output: u64, member: &str, error: &E, words: &str) {
    notes.count("note: outputs[", output);
    notes.push("].");
    notes.push(member);
    notes.push(": ");
    notes.show(error);
    notes.push(words);
}
