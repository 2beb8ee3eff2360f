// The format of an answer.

/// The format of an answer.
#[derive(Clone, Copy)]
pub enum Form {
    /// One JSON object on a line.
    Json,
    /// Lines for people.
    Text,
}

impl Form {
    /// The format that words ask for, and the words after it: `--text` comes first.
    pub fn read(words: &[String]) -> (Form, &[String]) {
        match words.split_first() {
            Some((word, rest)) if word.as_str() == "--text" => (Form::Text, rest),
            _ => (Form::Json, words),
        }
    }
}
