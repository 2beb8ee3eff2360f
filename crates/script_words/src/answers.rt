// The text of each word.

use crate::errors::ScriptError;
use crate::listings::paths_text;
use digest::ripemd160;
use facts::texts::Hex;
use hex::FromHexError;
use paths::check;
use script::Script;
use std::alloc::Global;
use std::fmt::Write;

/// A word that needs no scenario, with what follows it.
#[derive(Drop)]
pub enum ScriptWord<'a> {
    /// `ripemd HEX`: the RIPEMD-160 of a message.
    Ripemd(&'a str),
    /// `paths HEX`: the ways through a script.
    Paths(&'a str),
}

impl<'a> ScriptWord<'a> {
    /// The word that the words name; `None` for others.
    pub fn read(words: &'a [String]) -> Option<ScriptWord<'a>> {
        match words {
            [name, text] if name.as_str() == "ripemd" => Some(ScriptWord::Ripemd(text.as_str())),
            [name, text] if name.as_str() == "paths" => Some(ScriptWord::Paths(text.as_str())),
            _ => None,
        }
    }
}

/// The text that is printed of a word: RIPEMD-160 of the message as a line in hexadecimal, or the script's paths with their facts. Its refusals come in this order:
/// a text that is not hexadecimal (`BadHex`), bytes that are not a script (`Parse`), paths that can't be listed (`Check`); `NoMemory` at any point.
pub fn answer(alloc: Global, word: &ScriptWord<'_>) -> Result<String, ScriptError> {
    match word {
        ScriptWord::Ripemd(text) => hash_text(alloc, text),
        ScriptWord::Paths(text) => listing(alloc, text),
    }
}

// The hash of a message that is written in hexadecimal.
fn hash_text(alloc: Global, text: &str) -> Result<String, ScriptError> {
    let message = bytes_of(alloc, text)?;
    let hash = ripemd160(message.as_slice());
    Ok(format!(in alloc; "{}\n", Hex(&hash))?)
}

// The ways through a script that is written in hexadecimal.
fn listing(alloc: Global, text: &str) -> Result<String, ScriptError> {
    let bytes = bytes_of(alloc, text)?;
    let script = Script::parse(alloc, bytes.as_slice()).map_err(ScriptError::Parse)?;
    let checked = check(alloc, script).map_err(ScriptError::Check)?;
    Ok(paths_text(alloc, checked.paths())?)
}

// The bytes of a hexadecimal text, in either letter case.
fn bytes_of(alloc: Global, text: &str) -> Result<Vec<u8>, ScriptError> {
    match hex::decode(alloc, text) {
        Ok(bytes) => Ok(bytes),
        Err(FromHexError::OutOfMemory) => Err(ScriptError::NoMemory),
        Err(_) => Err(ScriptError::BadHex),
    }
}
