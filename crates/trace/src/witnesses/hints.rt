// Notes on what stands in the place of a transaction with the outputs that it spends, and of a token.

use crate::witnesses::errors::SpentError;
use judge::Stopped;
use script::{Cause, Kind};
use script_notes::is_der;
use std::alloc::Global;
use streams::InputError;
use tx::DecodeError;
use warnings::{TextFault, text_fault};

const PSBT: &str =
    "note: this is a PSBT (BIP 174), and not a transaction: give the transaction that it is finalized to, in hexadecimal\n";

const NO_WITNESS: &str =
    "note: a transaction without a witness is not read here: it is not signed yet, or spends outputs of older forms alone\n";

const SCRIPTED: &str =
    "note: an input has a script of its own (scriptSig), as inputs of older forms and nested ones have: only inputs with a witness alone are read here\n";

const LINES: &str =
    "note: after the transaction comes a line for each of its inputs: the value in satoshis of the output that it spends, a space, and the output's program\n";

const REAL_SIGNATURE: &str =
    "note: a real signature stands there (DER, BIP 66), which is not judged here, where tokens stand for signatures: what ran before it is in order\n";

/// The note on a refused text; empty if there is none.
pub fn refused_note(alloc: Global, text: &str, error: &SpentError) -> &'static str {
    let first = text.lines().next().unwrap_or("");
    match error {
        // a first line that is not hexadecimal
        SpentError::Input(InputError::BadHex) => match text_fault(first) {
            Some(TextFault::Psbt) => PSBT,
            Some(TextFault::Prefix) => "note: the transaction begins with 0x: leave that out\n",
            Some(TextFault::Odd(_)) => {
                "note: the transaction has an odd number of digits: a byte has two\n"
            }
            Some(_) => "note: the first line has the transaction in hexadecimal (BIP 144)\n",
            None => "",
        },
        SpentError::Input(_) => "",
        SpentError::Decode(error) => decode_note(alloc, first, error),
        // a text that has not as many lines as are wanted
        SpentError::BadCount => match text.lines().last() {
            Some(line) if line.trim().is_empty() => "note: the last line is blank: leave it out\n",
            _ => LINES,
        },
        SpentError::BadLine(number) => {
            let before = number.saturating_sub(1);
            line_note(text.lines().nth(before).unwrap_or(""))
        }
    }
}

// The note on bytes that are no transaction.
fn decode_note(alloc: Global, first: &str, error: &DecodeError) -> &'static str {
    if first.starts_with("70736274ff") {
        return PSBT;
    }
    match error {
        DecodeError::BadMarker | DecodeError::NoWitness => NO_WITNESS,
        DecodeError::OverLimit => match hex::decode(alloc, first) {
            Ok(bytes) => script_note(bytes.as_slice()),
            Err(_) => "",
        },
        _ => "",
    }
}

// The note on a transaction with at most 252 inputs, of which one has a script of its own, and no input before it has one. Each of those has 41 bytes.
fn script_note(bytes: &[u8]) -> &'static str {
    match bytes.get(6) {
        Some(count) if *count <= 252 => {
            for index in 0..usize::from(*count) {
                if let Some(1..) = bytes.get(43 + 41 * index) {
                    return SCRIPTED;
                }
            }
            ""
        }
        _ => "",
    }
}

// The note on a line that is not a value and a program.
fn line_note(line: &str) -> &'static str {
    let Some((value, program)) = line.split_once(' ') else {
        return LINES;
    };
    if value.contains('.') {
        return "note: a value is a whole number of satoshis: 0.1 bitcoins are 10000000\n";
    }
    match text_fault(program) {
        Some(TextFault::Address) => {
            "note: this looks like an address: give the output's program, in hexadecimal\n"
        }
        _ => LINES,
    }
}

/// The note on a script that stops at a signature, where one in DER stands on the stack; else empty.
pub fn stopped_note(stopped: &Stopped) -> &'static str {
    if let (Cause::FailedCheck(Kind::TokenForm), Some(stack)) = (stopped.cause, &stopped.stack) {
        for item in stack.values() {
            if is_der(item.bytes()) {
                return REAL_SIGNATURE;
            }
        }
    }
    ""
}
