// Writes the verdict on an input.

ghost use Rattle.std.specs.Prelude.{◌≤◌};

use crate::formats::Form;
use crate::notes::tell_notes;
use crate::scripts::{byte_of, opcode_name};
use crate::witnesses::causes::cause_sentence;
use crate::witnesses::hints::stopped_note;
use chain::ProgramFault;
use judge::{Clean, Fault, Stopped, Verdict};
use lists::ByteString;
use page::Page;
use page::Piece::{Count, Hash, Text};

// Writes a clean run.
fn tell_clean(line: &mut Page, form: Form, clean: &Clean) {
    let digest = clean.digest;
    let counted = Count(clean.run.counted as u64);
    let height = Count(clean.run.height as u64);
    match form {
        Form::Json => {
            let path = match clean.path {
                Some(path) => Count(path as u64),
                None => Text("null"),
            };
            line.write(
                ",\"path\":%,\"counted\":%,\"height\":%,\"digest\":\"%\"}\n",
                &[path, counted, height, Hash(digest)],
            );
        }
        Form::Text => {
            match clean.path {
                Some(path) => line.write(" runs clean on path %", &[Count(path as u64)]),
                None => line.push(" runs clean, its paths are not listed"),
            }
            line.write(
                ": % opcode% counted, % % at most\n",
                &[
                    counted,
                    Text(if clean.run.counted == 1 { "" } else { "s" }),
                    height,
                    Text(if clean.run.height == 1 {
                        "entry"
                    } else {
                        "entries"
                    }),
                ],
            );
        }
    }
}

// Writes the entries of a stack, the top first: of an array, or a line each, where the empty entry is `-`.
fn tell_stack(line: &mut Page, form: Form, items: &[ByteString]) {
    for item in items.iter().rev() {
        match form {
            Form::Json => {
                line.element("\"", &[]);
                line.hex("", item.bytes());
                line.push("\"");
            }
            Form::Text if item.is_empty() => line.push("  stack   -\n"),
            Form::Text => {
                line.hex("  stack   ", item.bytes());
                line.push("\n");
            }
        }
    }
}

// Writes at which opcode a run stops, and why.
fn tell_stop(line: &mut Page, form: Form, stopped: &Stopped) {
    let index = stopped.index;
    let ops = stopped.script.ops();
    let byte = byte_of(ops, index);
    let says = cause_sentence(stopped.cause);
    match form {
        Form::Json => {
            // what stands on both sides of the opcode's name, and the name, if there is one
            let (quote, op) = match ops.get(index) {
                Some(op) => ("\"", opcode_name(op)),
                None => ("", "null"),
            };
            line.push(r#","stopped":""#);
            line.show(&stopped.cause);
            line.write(
                r#"","opcode":%,"op":%%%,"byte":%,"says":"%","stack":["#,
                &[
                    Count(index as u64),
                    Text(quote),
                    Text(op),
                    Text(quote),
                    Count(byte),
                    Text(says),
                ],
            );
        }
        Form::Text => {
            let op = match ops.get(index) {
                Some(op) => opcode_name(op),
                None => "end",
            };
            line.write(
                " stops at opcode % (%), byte %: ",
                &[Count(index as u64), Text(op), Count(byte)],
            );
            line.show(&stopped.cause);
            line.write(": %\n", &[Text(says)]);
        }
    }
}

// Writes where a run stops, why, and the stack there.
fn tell_stopped(line: &mut Page, form: Form, stopped: &Stopped) {
    let digest = stopped.digest;
    tell_stop(line, form, stopped);
    if let Some(stack) = &stopped.stack {
        tell_stack(line, form, stack.values());
    }
    let (after, end) = match form {
        Form::Json => ("],\"digest\":\"%\"", "}\n"),
        Form::Text => ("  digest  %\n", ""),
    };
    line.write(after, &[Hash(digest)]);
    tell_notes(line, form, stopped_note(stopped));
    line.push(end);
}

// Writes why no script runs.
fn tell_fault(line: &mut Page, form: Form, fault: &Fault) {
    let (before, after) = match form {
        Form::Json => (r#","refused":""#, "\",\"says\":\"%\"}\n"),
        Form::Text => (" is refused: ", ": %\n"),
    };
    line.push(before);
    let says = match fault {
        Fault::Program(fault) => {
            line.debug(fault);
            match fault {
                ProgramFault::OtherProgram => {
                    "the program is not of version 0 with the hash of a key or of a script"
                }
                ProgramFault::NotTwoItems => {
                    "the program has the hash of a key, and the witness has not two items"
                }
                ProgramFault::NoScript => {
                    "the program has the hash of a script, and the witness has no item"
                }
                ProgramFault::OtherScript => {
                    "the last item of the witness has another hash than the program"
                }
            }
        }
        Fault::BadScript(error) => {
            line.show(error);
            "the last item of the witness is no script of the opcodes here"
        }
    };
    line.write(after, &[Text(says)]);
}

/// Writes the verdict on an input, an object on a line or lines for people, and returns 0 if it runs clean.
pub fn tell_verdict(line: &mut Page, form: Form, input: usize, verdict: &Verdict) -> u8
    ensures { result ≤ 1 }
{
    let before = match form {
        Form::Json => r#"{"input":%"#,
        Form::Text => "input %",
    };
    line.write(before, &[Count(input as u64)]);
    match verdict {
        Verdict::Refused(fault) => {
            tell_fault(line, form, fault);
            1
        }
        Verdict::Stopped(stopped) => {
            tell_stopped(line, form, stopped);
            1
        }
        Verdict::Clean(clean) => {
            tell_clean(line, form, clean);
            0
        }
    }
}
