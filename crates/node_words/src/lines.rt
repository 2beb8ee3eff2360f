// The lines that are printed.

use enforce_words::{note_refused, push_all_kept};
use running::Report;
use scenario::Event;
use std::alloc::{AllocError, Global};
use std::fmt::Write;

/// The height of the chain, how many events of each channel were played and refused, and the penalties that each side keeps.
pub(crate) fn text_of(alloc: Global, report: &Report) -> Result<String, AllocError> {
    let mut text = String::new(alloc);
    let height = report.height;
    writeln!(text, "height {height}")?;
    push_channels(&mut text, report)?;
    push_all_kept(&mut text, "A", &report.a)?;
    push_all_kept(&mut text, "B", &report.b)?;
    Ok(text)
}

/// The notes on the events of the chain that were refused, a line each. The only error is that memory ran out.
pub(crate) fn notes_of(
    alloc: Global,
    events: &[Event],
    report: &Report,
) -> Result<String, AllocError> {
    let mut notes = String::new(alloc);
    for (index, event) in events.iter().enumerate() {
        if let Some(Some(error)) = report.outcomes.get(index) {
            note_refused(&mut notes, index, event, error)?;
        }
    }
    Ok(notes)
}

// Appends how many events of each channel were played and refused.
fn push_channels(text: &mut String, report: &Report) -> Result<(), AllocError> {
    for (channel, counts) in report.channels.iter().enumerate() {
        let (played, refused) = (counts.played, counts.refused);
        writeln!(text, "channel {channel} played {played} refused {refused}")?;
    }
    Ok(())
}
