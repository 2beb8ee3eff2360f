//! Input in parts, each of which begins with a line `== NAME`.

use crate::Page;

/// What a program shows of its input.
pub trait Parts {
    /// Shows the lines of a part of this name.
    fn show_lines(&self, page: &mut Page, name: &str, lines: &str);
}

/// Shows a part, which begins with its name in a line.
fn show_part<P: Parts>(parts: &P, page: &mut Page, part: &str) {
    let (name, lines) = part.split_once('\n').unwrap_or((part, ""));
    page.push("== ");
    page.push(name);
    page.push("\n");
    parts.show_lines(page, name, lines);
}

/// Shows all parts of an input, each below its name.
pub fn show_parts<P: Parts>(parts: &P, page: &mut Page, input: &str) {
    for part in input.split("== ") {
        if !part.is_empty() {
            show_part(parts, page, part);
        }
    }
}
