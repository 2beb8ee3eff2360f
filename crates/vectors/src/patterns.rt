//! Reads patterns of scripts and their fills, one on each line. It prints the instances: their bytes, their paths, and whether `check` lists the same paths for the same bytes.
//!
//! A line `pattern` has opcodes in hexadecimal, and `key`, `hash` and `num` for holes. A line `fill` fills the last pattern, with `key=HEX`, `hash=HEX` and `num=N`. The expected
//! output is from an independent script.

use hex::FromHex;
use page::Page;
use paths::{Checked, CheckedPattern, Fill, Path, PatternError, Piece, check, check_pattern};
use script::Script;
use std::alloc::Global;

/// The hole that a word names.
fn hole_of(word: &str) -> Option<Piece> {
    if word == "key" {
        Some(Piece::KeyHole)
    } else if word == "hash" {
        Some(Piece::HashHole)
    } else if word == "num" {
        Some(Piece::NumHole)
    } else {
        None
    }
}

/// Appends the opcodes of a script. Returns whether there was memory.
fn push_ops(pieces: &mut Vec<Piece>, script: &Script) -> bool {
    for op in script.ops() {
        match op.copy() {
            Ok(op) => {
                if pieces.push(Piece::Op(op)).is_err() {
                    return false;
                }
            }
            Err(_) => return false,
        }
    }
    true
}

/// Appends the opcodes of a script with these bytes. Returns whether there is one.
fn push_script(pieces: &mut Vec<Piece>, bytes: &[u8]) -> bool {
    match Script::parse(*pieces.allocator(), bytes) {
        Ok(script) => push_ops(pieces, &script),
        Err(_) => false,
    }
}

/// Appends the opcodes of a script in hexadecimal. Returns whether it is one.
fn push_opcodes(pieces: &mut Vec<Piece>, word: &str) -> bool {
    match hex::decode(*pieces.allocator(), word) {
        Ok(bytes) => push_script(pieces, bytes.as_slice()),
        Err(_) => false,
    }
}

/// Appends the pieces that words name. Returns whether each word names some.
fn push_pieces(pieces: &mut Vec<Piece>, words: &str) -> bool {
    for word in words.split_whitespace() {
        let is_named = match hole_of(word) {
            Some(hole) => pieces.push(hole).is_ok(),
            None => push_opcodes(pieces, word),
        };
        if !is_named {
            return false;
        }
    }
    true
}

/// The pattern that these words name, or why there is none.
fn pattern_of(alloc: Global, words: &str) -> Result<CheckedPattern, PatternError> {
    let mut pieces = Vec::new(alloc);
    if push_pieces(&mut pieces, words) {
        check_pattern(alloc, pieces)
    } else {
        Err(PatternError::BadOpcode)
    }
}

/// The fill for a hole, by its kind and its text.
fn fill_of(kind: &str, text: &str) -> Option<Fill> {
    if kind == "key" {
        <[u8; 33] as FromHex>::from_hex(text).ok().map(Fill::Key)
    } else if kind == "hash" {
        <[u8; 20] as FromHex>::from_hex(text).ok().map(Fill::Hash)
    } else if kind == "num" {
        text.parse::<u32>().ok().map(Fill::Num)
    } else {
        None
    }
}

/// The fill that a word names.
fn fill_of_word(word: &str) -> Option<Fill> {
    let (kind, text) = word.split_once('=')?;
    fill_of(kind, text)
}

/// Appends the fills that words name. Returns whether each word names one.
fn push_fills(fills: &mut Vec<Fill>, words: &str) -> bool {
    for word in words.split_whitespace() {
        match fill_of_word(word) {
            Some(fill) => {
                if fills.push(fill).is_err() {
                    return false;
                }
            }
            None => return false,
        }
    }
    true
}

/// Writes a number, or `-` if there is none.
fn write_number(page: &mut Page, number: Option<u64>) {
    match number {
        Some(number) => page.count(" ", number),
        None => page.push(" -"),
    }
}

/// Writes a path.
fn write_path(page: &mut Page, path: &Path) {
    page.count(" | ", path.arity as u64);
    page.count(" ", path.ops as u64);
    page.count(" ", path.height as u64);
    write_number(page, path.lock);
    write_number(page, path.age.map(u64::from));
    for stated in path.facts.values() {
        page.push(", ");
        page.show(stated);
    }
}

/// Writes all paths of a script.
fn write_paths(page: &mut Page, checked: &Checked) {
    for path in checked.paths() {
        write_path(page, path);
    }
}

/// Whether the paths of a script are written as this text.
fn has_paths(alloc: Global, checked: &Checked, text: &str) -> bool {
    let mut page = Page::new(alloc);
    write_paths(&mut page, checked);
    page.is(text)
}

/// Whether `check` lists paths that are written as this text.
fn are_listed(alloc: Global, script: Script, text: &str) -> bool {
    match check(alloc, script) {
        Ok(checked) => has_paths(alloc, &checked, text),
        Err(_) => false,
    }
}

/// The same for the script with these bytes.
fn are_listed_of(alloc: Global, bytes: &[u8], text: &str) -> bool {
    match Script::parse(alloc, bytes) {
        Ok(script) => are_listed(alloc, script, text),
        Err(_) => false,
    }
}

/// Whether `check` lists the paths of an instance for its bytes.
fn is_listed(alloc: Global, instance: &Checked) -> bool {
    let mut page = Page::new(alloc);
    write_paths(&mut page, instance);
    are_listed_of(alloc, instance.script().bytes(), page.text())
}

/// Shows an instance.
fn show_instance(page: &mut Page, instance: &Checked) {
    page.hex("", instance.script().bytes());
    let is_listed = is_listed(page.alloc(), instance);
    page.push(if is_listed { " listed" } else { " other" });
    write_paths(page, instance);
    page.push("\n");
}

/// Shows the instance of a pattern with these fills.
fn show_filled(page: &mut Page, pattern: &CheckedPattern, fills: &[Fill]) {
    match pattern.instance(page.alloc(), fills) {
        Ok(instance) => show_instance(page, &instance),
        Err(refusal) => page.refuse(&refusal),
    }
}

/// Shows the instance of a pattern with the fills that words name.
fn show_fill(page: &mut Page, pattern: &CheckedPattern, words: &str) {
    let mut fills = Vec::new(page.alloc());
    if push_fills(&mut fills, words) {
        show_filled(page, pattern, fills.as_slice());
    } else {
        page.push("refused BadFill\n");
    }
}

/// Shows the lines after a pattern.
fn show_fills(page: &mut Page, pattern: &CheckedPattern, lines: &str) {
    for line in lines.lines() {
        match line.strip_prefix("fill ") {
            Some(words) => show_fill(page, pattern, words),
            None => page.push("no words\n"),
        }
    }
}

/// Shows the lines after words that name no pattern.
fn show_none(page: &mut Page, lines: &str) {
    for line in lines.lines() {
        match line.strip_prefix("fill ") {
            Some(_) => page.push("no pattern\n"),
            None => page.push("no words\n"),
        }
    }
}

/// Shows the pattern that words name, and the lines after it.
fn show_pattern(page: &mut Page, words: &str, lines: &str) {
    match pattern_of(page.alloc(), words) {
        Ok(pattern) => {
            page.push("pattern\n");
            show_fills(page, &pattern, lines);
        }
        Err(refusal) => {
            page.refuse(&refusal);
            show_none(page, lines);
        }
    }
}

/// Shows all lines.
pub fn show_all(page: &mut Page, lines: &str) {
    for group in lines.split("pattern ") {
        if let Some((words, lines)) = group.split_once('\n') {
            show_pattern(page, words, lines);
        }
    }
}
