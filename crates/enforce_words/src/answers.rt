// The output of each program.

use crate::errors::CommandError;
use crate::playing::play;
use script_words::ScriptWord;
use std::alloc::Global;
use std::io::Read;

/// A program, with its words.
#[derive(Drop)]
pub enum Command<'a> {
    /// `ripemd HEX` or `paths HEX`.
    Script(ScriptWord<'a>),
    /// `run`: plays the scenario on standard input.
    Run,
}

impl<'a> Command<'a> {
    /// The program that the words name; `None` for wrong words.
    pub fn read(words: &'a [String]) -> Option<Command<'a>> {
        match words {
            [name] if name.as_str() == "run" => Some(Command::Run),
            _ => ScriptWord::read(words).map(Command::Script),
        }
    }
}

/// The text that a program prints. Only `run` reads the input, and appends to the note.
pub fn answer<R: Read>(
    alloc: Global,
    command: &Command<'_>,
    input: &mut R,
    note: &mut String,
) -> Result<String, CommandError> {
    match command {
        Command::Script(word) => script_words::answer(alloc, word).map_err(CommandError::Script),
        Command::Run => play(alloc, input, note),
    }
}
