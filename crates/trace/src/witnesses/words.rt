// The word `witness`.

ghost use Rattle.std.specs.Prelude.{◌≡◌, ◌≤◌, Some, slice_get};

use crate::formats::Form;
use crate::notes::tell_notes;
use crate::replies::WRONG_WORDS;
use crate::witnesses::errors::SpentError;
use crate::witnesses::hints::refused_note;
use crate::witnesses::lines::tell_lines;
use crate::witnesses::reading::{read_outputs, read_tx};
use crate::witnesses::telling::tell_verdict;
use judge::judge;
use page::Page;
use sighash::SighashCache;
use std::alloc::Global;
use std::io::{Read, Write};
use streams::{InputError, read_all, refuse_memory, write_told};
use tx::{Tx, TxIn, TxOut};

/// The note after wrong words.
pub const HELP: &str =
    "note: witness reads a transaction and the outputs that it spends from standard input, and takes --text, --lines, both or no word: trace witness --text <FILE\n";

/// Runs the word `witness` on the words after it and returns its status: 0 when each input runs clean, 1 for an input that does not, refused text or a failed
/// write, 2 for wrong words, which are detected before any input is read. The verdict on an input is written before the next input is judged.
pub fn run_words(alloc: Global, words: &[String], input: &mut dyn Read, out: &mut dyn Write) -> u8
    ensures { result ≤ 2 }
{
    let (form, rest) = Form::read(words);
    match rest {
        [] => tell_input_text(alloc, form, input, out),
        [word] if word.as_str() == "--lines" => tell_lines(alloc, form, input, out),
        _ => WRONG_WORDS,
    }
}

// Judges the inputs of the transaction on standard input, and returns the status.
fn tell_input_text(alloc: Global, form: Form, input: &mut dyn Read, out: &mut dyn Write) -> u8
    ensures { result ≤ 1 }
{
    match read_all(alloc, input) {
        Ok(bytes) => tell_bytes(alloc, form, bytes.as_slice(), out),
        Err(error) => refuse(alloc, form, "", &SpentError::Input(error), out),
    }
}

// Judges the inputs of the transaction in the bytes of a text, and returns the status.
fn tell_bytes(alloc: Global, form: Form, bytes: &[u8], out: &mut dyn Write) -> u8
    ensures { result ≤ 1 }
{
    match str::from_utf8(bytes) {
        Ok(text) => tell_text(alloc, form, text, out),
        Err(_) => refuse(alloc, form, "", &SpentError::Input(InputError::BadHex), out),
    }
}

/// Judges the inputs of the transaction in a text, writes each verdict at once, and returns the greatest status.
pub fn tell_text(alloc: Global, form: Form, text: &str, out: &mut dyn Write) -> u8
    ensures { result ≤ 1 }
{
    match read_tx(alloc, text) {
        Ok(tx) => tell_tx(alloc, form, text, &tx, out),
        Err(error) => refuse(alloc, form, text, &error, out),
    }
}

// The same, where the first line of the text is this transaction.
fn tell_tx(alloc: Global, form: Form, text: &str, tx: &Tx, out: &mut dyn Write) -> u8
    ensures { result ≤ 1 }
{
    let mut outputs = Vec::new(alloc);
    match read_outputs(alloc, &mut outputs, text, tx.inputs().len()) {
        Ok(()) => tell_inputs(alloc, form, tx, outputs.as_slice(), out),
        Err(error) => refuse(alloc, form, text, &error, out),
    }
}

/// Reports that a text is refused, with the note on it, and returns the status.
pub fn refuse(alloc: Global, form: Form, text: &str, error: &SpentError, out: &mut dyn Write) -> u8
    ensures { result ≤ 1 }
{
    let (before, after, end) = match form {
        Form::Json => (r#"{"refused":""#, "\"", "}\n"),
        Form::Text => ("refused ", "\n", ""),
    };
    let mut line = Page::new(alloc);
    line.push(before);
    match error {
        SpentError::Input(InputError::NoMemory) => line.fail(),
        SpentError::Input(error) => line.push(error.text()),
        SpentError::Decode(error) => line.show(error),
        SpentError::BadCount => line.push("BadCount"),
        SpentError::BadLine(number) => line.count("BadLine ", *number as u64),
    }
    line.push(after);
    tell_notes(&mut line, form, refused_note(alloc, text, error));
    line.push(end);
    write_told(out, &mut line, 1)
}

// Judges each input, writes each verdict at once, and returns the greatest status.
fn tell_inputs(alloc: Global, form: Form, tx: &Tx, outputs: &[TxOut], out: &mut dyn Write) -> u8
    ensures { result ≤ 1 }
{
    let cache = SighashCache::new(tx);
    let inputs = tx.inputs();
    let mut status = 0;
    for (index, input) in inputs.iter().enumerate() {
        if let Some(output) = outputs.get(index) {
            if tell_input(alloc, form, tx, &cache, index, input, output, out) == 1 {
                status = 1;
            }
        }
    }
    status
}

// Judges an input, writes the verdict, and returns 0 if it runs clean.
fn tell_input(
    alloc: Global,
    form: Form,
    tx: &Tx,
    cache: &SighashCache<'_>,
    index: usize,
    input: &TxIn,
    output: &TxOut,
    out: &mut dyn Write,
) -> u8
    requires cached { cache.now ≡ tx.now }
    requires indexed { slice_get tx.now.inputs index ≡ Some input.now }
    ensures { result ≤ 1 }
{
    match judge(alloc, tx, cache, index, input, output) {
        Ok(verdict) => {
            let mut line = Page::new(alloc);
            let status = tell_verdict(&mut line, form, index, &verdict);
            write_told(out, &mut line, status)
        }
        Err(_) => refuse_memory(out),
    }
}
