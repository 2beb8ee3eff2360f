// Notes, in the words of `enforce`.

use crate::formats::Form;
use page::Page;

/// Writes notes, if there are any: as they are, or as a member with an element for each line. All characters of a note are ASCII and can be seen, so JSON
/// and Rust write it in quotes alike.
pub fn tell_notes(line: &mut Page, form: Form, notes: &str) {
    if let Form::Text = form {
        line.push(notes);
        return;
    }
    if notes.is_empty() {
        return;
    }
    line.push(r#","notes":["#);
    for note in notes.lines() {
        line.element("", &[]);
        line.debug(&note.strip_prefix("note: ").unwrap_or(note));
    }
    line.push("]");
}
