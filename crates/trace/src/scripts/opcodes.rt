// Opcodes as JSON, and as text for people.

use crate::formats::Form;
use crate::scripts::looks::Look;
use crate::scripts::names::opcode_name;
use page::Page;
use page::Piece::{Count, Text};
use script::Op;
use std::slice;

// What stands after the bytes of a push: what they look like, with places for the sign and the magnitude of a number.
fn look_text(form: Form, item: &[u8], look: Look) -> &'static str {
    match form {
        Form::Json => match look {
            Look::Key => r#"","looks":"key""#,
            Look::Hash => r#"","looks":"hash""#,
            Look::Number(_) => r#"","looks":"number","number":%%"#,
            Look::Bytes => r#"","looks":"bytes""#,
        },
        Form::Text => match look {
            Look::Key => " (key)",
            Look::Hash => " (hash)",
            Look::Number(_) if item.is_empty() => " (the empty item, number %%)",
            Look::Number(_) => " (number %%)",
            Look::Bytes => "",
        },
    }
}

// Writes the bytes of a push, and what they look like.
fn tell_push(line: &mut Page, form: Form, item: &[u8]) {
    let before = match form {
        Form::Json => r#","hex":""#,
        Form::Text if item.is_empty() => " -",
        Form::Text => " ",
    };
    line.hex(before, item);
    let look = Look::of(item);
    let text = look_text(form, item, look);
    match look {
        Look::Number(read) => {
            let sign = if read.negative { "-" } else { "" };
            line.write(text, &[Text(sign), Count(read.magnitude)]);
        }
        _ => line.push(text),
    }
}

/// Writes an opcode, which begins at this byte and is in this number of branches: an element of an array, or a line that is indented by branch.
pub fn tell_op(line: &mut Page, form: Form, op: &Op, byte: usize, depth: usize) {
    let name = opcode_name(op);
    let end = match form {
        Form::Json => {
            line.element(
                r#"{"byte":%,"depth":%,"op":"%""#,
                &[Count(byte as u64), Count(depth as u64), Text(name)],
            );
            "}"
        }
        Form::Text => {
            line.show(&format_args!("{byte:>5}  "));
            for _ in 0..depth {
                line.push("  ");
            }
            line.push(name);
            "\n"
        }
    };
    match op {
        Op::Push(item) => tell_push(line, form, item.bytes()),
        Op::Number(n) => tell_push(line, form, slice::from_ref(n)),
        _ => {}
    }
    line.push(end);
}
