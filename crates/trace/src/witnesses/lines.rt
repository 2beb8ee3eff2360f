// Judges transactions that stand on lines, each as it comes.

ghost use Rattle.std.specs.Prelude.{◌≤◌};

use crate::formats::Form;
use crate::witnesses::errors::SpentError;
use crate::witnesses::words::{refuse, tell_text};
use page::Page;
use std::alloc::Global;
use std::io::{BufRead, BufReader, ErrorKind, Read, Write};
use streams::{InputError, MAX_INPUT, refuse_memory};

// What stands on a line in the place of each end of a line of a text.
const LINE_END: char = ';';

/// Judges the inputs of each transaction on a line, before the next line is read, and returns the greatest status. A line is a text with semicolons in the place of ends of lines, and is answered
/// as that text. All lines together have at most as many bytes as an input may have.
pub fn tell_lines(alloc: Global, form: Form, input: &mut dyn Read, out: &mut dyn Write) -> u8
    ensures { result ≤ 1 }
{
    let Ok(mut reader) = BufReader::new(alloc, input) else {
        return refuse_memory(out);
    };
    let mut line = String::new(alloc);
    let (mut status, mut left) = (0, MAX_INPUT);
    // each line has a byte at least
    for _ in 0..=MAX_INPUT {
        match next_size(&mut reader, &mut line, left) {
            Ok(0) => return status,
            Ok(size) => {
                left = left.saturating_sub(size);
                if tell_line(alloc, form, line.as_str(), out) == 1 {
                    status = 1;
                }
            }
            Err(error) => return refuse(alloc, form, "", &SpentError::Input(error), out),
        }
    }
    status
}

// Reads the next line, and gives its size, 0 at the end of the input. It is too long with more bytes than are left.
fn next_size<R: BufRead + Drop>(
    reader: &mut R,
    line: &mut String,
    left: usize,
) -> Result<usize, InputError> {
    line.clear();
    match reader.take((left as u64).saturating_add(1)).read_line(line) {
        Ok(size) if size > left => Err(InputError::TooLong),
        Ok(size) => Ok(size),
        Err(error) => Err(match error.kind() {
            ErrorKind::OutOfMemory => InputError::NoMemory,
            ErrorKind::InvalidData => InputError::BadHex,
            _ => InputError::ReadFailed,
        }),
    }
}

// Judges the inputs of the transaction on a line, and returns the status.
fn tell_line(alloc: Global, form: Form, line: &str, out: &mut dyn Write) -> u8
    ensures { result ≤ 1 }
{
    let mut text = Page::new(alloc);
    let line = line.lines().next().unwrap_or("");
    for part in line.split(LINE_END) {
        text.push(part);
        text.push("\n");
    }
    match text.whole() {
        Some(text) => tell_text(alloc, form, text, out),
        None => refuse_memory(out),
    }
}
