// Notes on bytes and texts that are no witness script.

use page::Page;
use page::Piece::{Count, Text};
use paths::{CheckError, check};
use script::Script;
use std::alloc::Global;
use warnings::{Look, TextFault, length_before, look_of, text_fault};

/// Notes what bytes look like that are no witness script, and returns whether that is a transaction or a PSBT, and not an output's program.
pub fn note_look(notes: &mut Page, bytes: &[u8]) -> bool {
    match look_of(bytes) {
        Some(Look::WitnessProgram(version)) => {
            notes.write(
                "note: these bytes have the form of an output's program, of witness version % (BIP 141): no witness script of version 0 spends it\n",
                &[Count(u64::from(version))],
            );
            false
        }
        Some(look) => {
            notes.push(text_of_look(look));
            matches!(look, Look::Transaction | Look::Psbt)
        }
        None => false,
    }
}

// The note on what bytes look like, but for a witness program of another version.
fn text_of_look(look: Look) -> &'static str {
    match look {
        Look::Transaction => {
            "note: these bytes look like a transaction (BIP 144): give the witness script of an output, or the last item of an input's witness\n"
        }
        Look::Psbt => {
            "note: these bytes look like a PSBT (BIP 174): give the witness script of one of its inputs\n"
        }
        Look::KeyHash => {
            "note: these bytes have the form of an output's program, P2PKH: such an output has no witness script; the key with this hash spends it\n"
        }
        Look::ScriptHash => {
            "note: these bytes have the form of an output's program, P2SH (BIP 16): give the witness script, if it has one; this is the hash of another script\n"
        }
        Look::Key => {
            "note: these bytes have the form of an output's program, P2PK: such an output has no witness script; this key spends it\n"
        }
        Look::WitnessKeyHash => {
            "note: these bytes have the form of an output's program, P2WPKH (BIP 141): such an output has no witness script; the key with this hash spends it\n"
        }
        Look::WitnessScriptHash => {
            "note: these bytes have the form of an output's program, P2WSH (BIP 141): give the witness script, whose SHA-256 this is\n"
        }
        Look::Taproot => {
            "note: these bytes have the form of an output's program, P2TR (BIP 341): such an output has no witness script; its scripts are tapscripts, which are not listed here\n"
        }
        Look::WitnessProgram(_) => "",
    }
}

// The note on a private key.
const PRIVATE_KEY: &str =
    "note: this looks like a private key, which nothing here asks for: move what it guards to another key, and delete this one wherever it stands (a word of a command stands in the history of the shell)\n";

/// Notes a private key in a text, if there is one.
pub fn note_private_key(notes: &mut Page, text: &str) {
    if let Some(TextFault::PrivateKey) = text_fault(text) {
        notes.push(PRIVATE_KEY);
    }
}

/// Notes bytes that are no script, and as many as a private key has.
pub fn note_size_of_key(notes: &mut Page, bytes: &[u8]) {
    if bytes.len() == 32 {
        notes.push(
            "note: these are 32 bytes, as a private key has: if they are one, move what it guards to another key, and delete this one wherever it stands\n",
        );
    }
}

/// Notes a length before a script, as serialisations have it. The byte may be an opcode of a sound script, which has no such note; a push of all that follows has it.
pub fn note_length_before(notes: &mut Page, bytes: &[u8]) {
    let Some(size) = length_before(bytes) else {
        return;
    };
    let rest = &bytes[size.min(bytes.len())..];
    let is_push = matches!(bytes.first(), Some(1..=75));
    let is_after = is_sound(notes.alloc(), rest, true);
    if is_after && (is_push || !is_sound(notes.alloc(), bytes, false)) {
        let end = if rest.len() == 1 { "" } else { "s" };
        notes.write(
            "note: these bytes begin with the length of the % byte% after it, as a script stands in serialisations: leave the length out\n",
            &[Count(rest.len() as u64), Text(end)],
        );
    }
}

// Whether bytes are a script whose branches are closed, and by which somebody may spend, or nobody where that serves too.
fn is_sound(alloc: Global, bytes: &[u8], serves_nobody: bool) -> bool {
    match Script::parse(alloc, bytes) {
        Ok(script) => match check(alloc, script) {
            Ok(checked) => serves_nobody || !checked.paths().is_empty(),
            Err(error) => !matches!(error, CheckError::OpenBranch),
        },
        Err(_) => false,
    }
}

/// Notes why the text of a script is not hexadecimal.
pub fn note_text(notes: &mut Page, text: &str) {
    match text_fault(text) {
        Some(TextFault::PrivateKey) => notes.push(PRIVATE_KEY),
        Some(TextFault::Psbt) => notes.push(
            "note: this looks like a PSBT in Base64 (BIP 174): give the witness script of one of its inputs, in hexadecimal\n",
        ),
        Some(TextFault::Address) => notes.push(
            "note: this looks like an address, which has no script in it: give the witness script, in hexadecimal\n",
        ),
        Some(TextFault::Descriptor) => notes.push(
            "note: this looks like a descriptor or a policy: give the bytes of its witness script, in hexadecimal\n",
        ),
        Some(TextFault::Assembly) => notes.push(
            "note: this looks like assembly: give the bytes of the script, in hexadecimal\n",
        ),
        Some(fault) => note_digits(notes, text, fault),
        None => {}
    }
}

/// Notes why the text of a message is not hexadecimal.
pub fn note_message(notes: &mut Page, text: &str) {
    match text_fault(text) {
        Some(TextFault::PrivateKey) => notes.push(PRIVATE_KEY),
        Some(fault) => note_digits(notes, text, fault),
        None => {}
    }
}

// Notes which byte of a text is no digit.
fn note_digits(notes: &mut Page, text: &str, fault: TextFault) {
    match fault {
        TextFault::Prefix => notes.push("note: the text begins with 0x: leave that out\n"),
        TextFault::Blank(at) => notes.write(
            "note: byte % of the text is a blank or the end of a line: leave it out\n",
            &[Count(at as u64)],
        ),
        TextFault::NoDigit(at) => note_byte(notes, text.as_bytes(), at),
        TextFault::Odd(count) => notes.write(
            "note: the text has an odd number of digits, %: a byte has two\n",
            &[Count(count as u64)],
        ),
        _ => notes.push("note: the text is not hexadecimal: give each byte as two digits\n"),
    }
}

// Notes the byte that is no digit: as a character where it is one of ASCII that is seen.
fn note_byte(notes: &mut Page, text: &[u8], at: usize) {
    let Some(byte) = text.get(at) else {
        return;
    };
    notes.write("note: byte % of the text is ", &[Count(at as u64)]);
    if byte.is_ascii_graphic() {
        notes.show(&char::from(*byte));
    } else {
        notes.hex("", &[*byte]);
    }
    notes.push(", which is no hexadecimal digit\n");
}
