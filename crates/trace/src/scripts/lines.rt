// Explains the scripts on standard input.

ghost use Rattle.std.specs.Prelude.{◌≤◌};

use crate::formats::Form;
use crate::scripts::reading::{refuse, tell};
use page::Page;
use std::alloc::Global;
use std::io::Write;
use streams::{InputError, write_told};

/// Explains a script, for people with its number where it is one of several, after an empty line but for the first. Returns the status.
pub fn told(alloc: Global, text: &str, number: Option<usize>, form: Form, out: &mut dyn Write) -> u8
    ensures { result ≤ 1 }
{
    let mut line = Page::new(alloc);
    if let (Form::Text, Some(number)) = (form, number) {
        line.count(
            if number > 0 { "\nscript " } else { "script " },
            number as u64,
        );
        line.push("\n");
    }
    let status = if tell(alloc, &mut line, form, text) {
        0
    } else {
        1
    };
    write_told(out, &mut line, status)
}

/// Explains each script of the bytes of a text, one a line and each at once, and returns the greatest status.
pub fn tell_text(alloc: Global, bytes: &[u8], form: Form, out: &mut dyn Write) -> u8
    ensures { result ≤ 1 }
{
    let Ok(text) = str::from_utf8(bytes) else {
        return refuse_input(alloc, form, InputError::BadHex, out);
    };
    let several = text.lines().count() > 1;
    let mut status = 0;
    let mut number = 0usize;
    for line in text.lines() {
        let numbered = if several { Some(number) } else { None };
        if told(alloc, line, numbered, form, out) == 1 {
            status = 1;
        }
        number = number.saturating_add(1);
    }
    status
}

/// Reports that the input is refused, and returns the status.
pub fn refuse_input(alloc: Global, form: Form, refusal: InputError, out: &mut dyn Write) -> u8
    ensures { result ≤ 1 }
{
    let mut line = Page::new(alloc);
    match refusal {
        InputError::NoMemory => line.fail(),
        _ => {
            refuse(&mut line, form, None, &[], &refusal.text(), None);
            if let Form::Json = form {
                line.push("}\n");
            }
        }
    }
    write_told(out, &mut line, 1)
}
