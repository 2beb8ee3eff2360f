// Reads and explains a script.

use crate::formats::Form;
use crate::notes::tell_notes;
use crate::scripts::names::branches;
use crate::scripts::opcodes::tell_op;
use crate::scripts::places::place;
use crate::scripts::{json, pages};
use digest::sha256;
use hex::FromHexError;
use page::{Page, Piece};
use paths::{Path, check};
use script::limits::MAX_SCRIPT_SIZE;
use script::{Op, ParseError, Script};
use script_notes::notes;
use std::alloc::Global;
use std::fmt::Display;

/// Explains a script in hexadecimal, which may stand between blanks and begin with `0x`: its opcodes, then its paths, or why it is refused, and at last the notes of `enforce` on it. Returns
/// whether its paths are listed.
pub fn tell(alloc: Global, line: &mut Page, form: Form, text: &str) -> bool {
    let text = text.trim();
    let text = text.strip_prefix("0x").unwrap_or(text);
    let is_listed = tell_text(alloc, line, form, text);
    match notes(alloc, text) {
        Ok(notes) => tell_notes(line, form, notes.as_str()),
        Err(_) => line.fail(),
    }
    if let Form::Json = form {
        line.push("}\n");
    }
    is_listed
}

// Explains a script in hexadecimal, without notes.
fn tell_text(alloc: Global, line: &mut Page, form: Form, text: &str) -> bool {
    match hex::decode(alloc, text) {
        Ok(bytes) => tell_bytes(alloc, line, form, bytes.as_slice()),
        Err(FromHexError::OutOfMemory) => {
            line.fail();
            false
        }
        Err(_) => {
            refuse(line, form, None, &[], &"BadHex", None);
            false
        }
    }
}

// Explains the bytes of a script.
fn tell_bytes(alloc: Global, line: &mut Page, form: Form, bytes: &[u8]) -> bool {
    match Script::parse(alloc, bytes) {
        Ok(script) => tell_script(alloc, line, form, &script),
        Err(error) => {
            tell_part(alloc, line, form, bytes, error);
            false
        }
    }
}

// Explains bytes that are not a script: the opcodes before the fault.
fn tell_part(alloc: Global, line: &mut Page, form: Form, bytes: &[u8], error: ParseError) {
    let (read, fault) = match error {
        ParseError::NoMemory => {
            line.fail();
            return;
        }
        ParseError::BadOpcode(at) | ParseError::Truncated(at) => (at, at),
        ParseError::TooLong => (0, MAX_SCRIPT_SIZE),
    };
    match Script::parse(alloc, &bytes[..read.min(bytes.len())]) {
        Ok(part) => {
            let fault = Some(fault as u64);
            refuse(line, form, Some(bytes), part.ops(), &error, fault);
        }
        Err(_) => line.fail(),
    }
}

// Explains a script, and returns whether its paths are listed.
fn tell_script(alloc: Global, line: &mut Page, form: Form, script: &Script) -> bool {
    let Ok(copy) = script.copy() else {
        line.fail();
        return false;
    };
    match check(alloc, copy) {
        Ok(checked) => {
            tell_listed(line, form, script, checked.paths());
            true
        }
        Err(error) => {
            match place(alloc, script.ops(), &error) {
                Ok(byte) => {
                    let bytes = Some(script.bytes());
                    refuse(line, form, bytes, script.ops(), &error, byte);
                }
                Err(_) => line.fail(),
            }
            false
        }
    }
}

// Explains a script that is listed.
fn tell_listed(line: &mut Page, form: Form, script: &Script, paths: &[Path]) {
    let size = script.bytes().len();
    begin(line, form, Some(script.bytes()), script.ops());
    match form {
        Form::Json => {
            line.push(r#","paths":["#);
            for path in paths {
                json::tell_path(line, path, size);
            }
            line.push("]");
        }
        Form::Text => {
            if paths.is_empty() {
                line.push("no path: by the rules here no witness satisfies this script\n");
            }
            for (number, path) in paths.iter().enumerate() {
                pages::tell_path(line, path, number, size);
            }
        }
    }
}

// Writes what comes first of each script: what its bytes are, and its opcodes.
fn begin(line: &mut Page, form: Form, bytes: Option<&[u8]>, ops: &[Op]) {
    if let Form::Json = form {
        json::tell_bytes(line, bytes);
    }
    let (mut byte, mut ifs) = (0usize, 0usize);
    for op in ops {
        let (depth, after) = branches(op, ifs);
        tell_op(line, form, op, byte, depth);
        byte = byte.saturating_add(op.payload_len()).saturating_add(1);
        ifs = after;
    }
    match form {
        Form::Json => line.push("]"),
        // the program of an output to the script (P2WSH, BIP 141)
        Form::Text => {
            if let Some(bytes) = bytes {
                line.write("program 0020%\n", &[Piece::Hash(sha256(bytes))]);
            }
        }
    }
}

/// Explains a refusal: the script's bytes, the opcodes that were read, the reason, and the byte at which it is refused.
pub fn refuse<D: Display>(
    line: &mut Page,
    form: Form,
    bytes: Option<&[u8]>,
    ops: &[Op],
    refusal: &D,
    byte: Option<u64>,
) {
    begin(line, form, bytes, ops);
    line.push(match form {
        Form::Json => r#","refused":""#,
        Form::Text => "refused ",
    });
    line.show(refusal);
    match (form, byte) {
        (Form::Json, _) => line.write(r#"","byte":%"#, &[Piece::or_null(byte)]),
        (Form::Text, Some(byte)) => line.write(" at byte %\n", &[Piece::Count(byte)]),
        (Form::Text, None) => line.push("\n"),
    }
}
