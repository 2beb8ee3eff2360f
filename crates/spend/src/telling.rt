// Writes what is asked for, or why there is none.

ghost use Rattle.std.specs.Prelude.{◌≡◌, ◌≤◌};
ghost use Rattle.spend.specs.Asking.{IsWithin};

use crate::asking::{Asked, asked_in, read_in};
use crate::close_answers::{CloseAnswer, close_answer_of, tell_close};
use crate::close_requests::CloseRequest;
use crate::errors::PlanError;
use crate::found_notes::say_found;
use crate::notes::{say_input, say_plan, say_refusal};
use crate::outputs::reversed;
use crate::plans::{Plan, plan_of};
use crate::revoked_answers::{RevokedAnswer, answer_of, tell_answer};
use crate::revoked_requests::RevokedRequest;
use crate::shapes::{CLOSE, Member, REQUEST, REVOKED};
use claim::Claim;
use filling::MissingSignature;
use lists::ByteString;
use page::Page;
use page::Piece::{Count, Hash, Sum};
use std::alloc::Global;
use std::io::{Read, Write};
use std::mem;
use streams::{InputError, read_all, refuse_memory, write_refusal, write_told};
use tx::{TxIn, encode_stripped, txid};

/// What the program is asked.
#[derive(Clone, Copy)]
pub enum Question {
    /// The transaction that spends outputs.
    Spend,
    /// What a revoked commitment lets its owner's peer claim.
    Revoked,
    /// What an unrevoked commitment lets one claim.
    Close,
}

/// Reads what is asked for, and writes the answer: one JSON object on a line. Returns the status: 0 when it is written, 1 for refused input, a failed write, or if memory ran out. The whole line is made
/// before its first byte is written. A refusal is written with its number: that of `PlanError`, or for input that can't be read 11 or 12. Notes follow on the other stream, and change no status.
pub fn run(
    alloc: Global,
    question: Question,
    input: &mut dyn Read,
    out: &mut dyn Write,
    err: &mut dyn Write,
) -> u8
    ensures { result ≤ 1 }
{
    match read_all(alloc, input) {
        Ok(bytes) => match question {
            Question::Spend => tell_bytes(alloc, bytes.as_slice(), out, err),
            Question::Revoked => tell_revoked(alloc, bytes.as_slice(), out, err),
            Question::Close => tell_unrevoked(alloc, bytes.as_slice(), out, err),
        },
        Err(InputError::NoMemory) => refuse_memory(out),
        Err(error) => {
            let number = u64::from(error.number()) + 10;
            write_refusal(alloc, out, error.text(), Some(number))
        }
    }
}

// Writes why nothing is planned, and returns the status.
fn refuse(alloc: Global, error: PlanError, out: &mut dyn Write) -> u8
    ensures { result ≡ 1 }
{
    match error {
        PlanError::NoMemory => refuse_memory(out),
        _ => write_refusal(alloc, out, error.text(), Some(u64::from(error.number()))),
    }
}

// Writes the plan for what bytes ask for, and returns the status.
fn tell_bytes(alloc: Global, bytes: &[u8], out: &mut dyn Write, err: &mut dyn Write) -> u8
    ensures { result ≤ 1 }
{
    match asked_in(alloc, bytes) {
        Ok(asked) => {
            let status = tell_asked(alloc, &asked, out, err);
            // not dropped: the program ends now, which frees all at once
            mem::forget(asked);
            status
        }
        Err(error) => refuse_input(alloc, bytes, error, &REQUEST, out, err),
    }
}

// Writes why bytes ask for nothing, and returns the status: a request has these members.
fn refuse_input(
    alloc: Global,
    bytes: &[u8],
    error: PlanError,
    members: &[Member],
    out: &mut dyn Write,
    err: &mut dyn Write,
) -> u8
    ensures { result ≡ 1 }
{
    let status = refuse(alloc, error, out);
    say_input(alloc, bytes, error, members, err);
    status
}

// Writes what the revoked commitment that bytes spell lets claim, and returns the status.
fn tell_revoked(alloc: Global, bytes: &[u8], out: &mut dyn Write, err: &mut dyn Write) -> u8
    ensures { result ≤ 1 }
{
    match read_in::<RevokedRequest>(alloc, bytes) {
        Ok(request) => match answer_of(alloc, request) {
            Ok(answer) => {
                let status = tell_revoked_answer(alloc, &answer, out, err);
                mem::forget(answer);
                status
            }
            Err(_) => refuse_memory(out),
        },
        Err(error) => refuse_input(alloc, bytes, error, &REVOKED, out, err),
    }
}

// Writes what was found of a revoked commitment, and returns the status.
fn tell_revoked_answer(
    alloc: Global,
    answer: &RevokedAnswer,
    out: &mut dyn Write,
    err: &mut dyn Write,
) -> u8
    ensures { result ≤ 1 }
{
    let mut line = Page::new(alloc);
    tell_answer(&mut line, answer);
    let status = write_told(out, &mut line, 0);
    say_found(
        alloc,
        &answer.revoked,
        &answer.found,
        answer.names.values(),
        err,
    );
    status
}

// Writes what the unrevoked commitment that bytes spell lets claim, and returns the status.
fn tell_unrevoked(alloc: Global, bytes: &[u8], out: &mut dyn Write, err: &mut dyn Write) -> u8
    ensures { result ≤ 1 }
{
    match read_in::<CloseRequest>(alloc, bytes) {
        Ok(request) => match close_answer_of(alloc, request) {
            Ok(answer) => {
                let status = tell_close_answer(alloc, &answer, out, err);
                mem::forget(answer);
                status
            }
            Err(_) => refuse_memory(out),
        },
        Err(error) => refuse_input(alloc, bytes, error, &CLOSE, out, err),
    }
}

// Writes what was found of an unrevoked commitment, and returns the status.
fn tell_close_answer(
    alloc: Global,
    answer: &CloseAnswer,
    out: &mut dyn Write,
    err: &mut dyn Write,
) -> u8
    ensures { result ≤ 1 }
{
    let mut line = Page::new(alloc);
    tell_close(&mut line, answer);
    let status = write_told(out, &mut line, 0);
    say_found(
        alloc,
        &answer.close.commitment,
        &answer.found,
        answer.names.values(),
        err,
    );
    status
}

// Writes the plan for what is asked, and returns the status.
fn tell_asked(alloc: Global, asked: &Asked, out: &mut dyn Write, err: &mut dyn Write) -> u8
    requires { IsWithin asked.now }
    ensures { result ≤ 1 }
{
    match plan_of(alloc, asked) {
        Ok(plan) => {
            let mut line = Page::new(alloc);
            tell_plan(alloc, &mut line, asked.claims.values(), &plan);
            let status = write_told(out, &mut line, 0);
            say_plan(alloc, asked, &plan, err);
            mem::forget(plan);
            status
        }
        Err(error) => {
            let status = refuse(alloc, error, out);
            say_refusal(alloc, asked, error, err);
            status
        }
    }
}

// Writes a plan of claims: a line with a JSON object.
fn tell_plan(alloc: Global, line: &mut Page, claims: &[Claim], plan: &Plan) {
    let tx = &plan.spend.tx;
    match encode_stripped(alloc, tx) {
        Ok(bytes) => line.hex("{\"transaction\":\"", bytes.as_slice()),
        Err(_) => line.fail(),
    }
    line.write(
        "\",\"explorer\":\"%\",\"fee\":%,\"weight\":%,\"inputs\":[",
        &[
            Hash(reversed(txid(tx))),
            Sum(plan.fee_sat),
            Sum(plan.weight),
        ],
    );
    let signatures = plan.spend.signatures.values();
    for (index, claim) in claims.iter().enumerate() {
        if let Some(input) = tx.inputs().get(index) {
            tell_input(line, index, input, claim, signatures);
        }
    }
    line.push("]}\n");
}

// Writes an input, an element of an array: what it spends, its witness, and the signatures that it lacks.
fn tell_input(
    line: &mut Page,
    index: usize,
    input: &TxIn,
    claim: &Claim,
    signatures: &[MissingSignature],
) {
    line.element(
        "{\"explorer\":\"%:%\",\"value\":%",
        &[
            Hash(reversed(input.outpoint.txid)),
            Count(u64::from(input.outpoint.index)),
            Count(claim.place().value),
        ],
    );
    line.hex(",\"program\":\"", claim.place().program.bytes());
    line.hex("\",\"script\":\"", claim.script());
    line.write(
        "\",\"path\":%,\"witness\":[",
        &[Count(claim.index() as u64)],
    );
    for (place, item) in input.witness.as_slice().iter().enumerate() {
        tell_item(line, item, is_missing(signatures, index, place));
    }
    line.push("],\"signatures\":[");
    for signature in signatures {
        if signature.input == index {
            tell_signature(line, signature);
        }
    }
    line.push("]}");
}

// Whether a signature is missing at an item of an input.
fn is_missing(signatures: &[MissingSignature], input: usize, item: usize) -> bool {
    for signature in signatures {
        if signature.input == input && signature.item == item {
            return true;
        }
    }
    false
}

// Writes an item of a witness, an element of an array: in hexadecimal, or nothing where a signature is missing.
fn tell_item(line: &mut Page, item: &ByteString, is_missing: bool) {
    if is_missing {
        line.element("null", &[]);
    } else {
        line.element("", &[]);
        line.hex("\"", item.bytes());
        line.push("\"");
    }
}

// Writes a missing signature, an element of an array: where it goes, whose it is, and what it signs.
fn tell_signature(line: &mut Page, signature: &MissingSignature) {
    line.element("{\"item\":%,", &[Count(signature.item as u64)]);
    line.hex("\"key\":\"", &signature.key.bytes);
    line.write("\",\"digest\":\"%\"}", &[Hash(signature.digest)]);
}
