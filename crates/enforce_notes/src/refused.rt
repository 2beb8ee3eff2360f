// Which events a play refused, by the lines that it printed.

use std::alloc::{AllocError, Global};

/// The events that the lines of a play say were refused, each by its number: lines of a number, a blank and `refused`.
pub(crate) fn refused_in(alloc: Global, printed: &[u8]) -> Result<Vec<usize>, AllocError> {
    let mut refused: Vec<usize> = Vec::new(alloc);
    let mut start = 0usize;
    for (at, byte) in printed.iter().enumerate() {
        if *byte == b'\n' {
            if start <= at {
                if let Some(event) = refused_event(&printed[start..at]) {
                    refused.push(event)?;
                }
            }
            start = at.saturating_add(1);
        }
    }
    Ok(refused)
}

// The event of a line, if it was refused.
fn refused_event(line: &[u8]) -> Option<usize> {
    let mut event = 0usize;
    for (at, byte) in line.iter().enumerate() {
        if byte.is_ascii_digit() {
            event = event
                .saturating_mul(10)
                .saturating_add(usize::from(byte.wrapping_sub(b'0')));
        } else if at > 0 && line[at..].starts_with(b" refused ") {
            return Some(event);
        } else {
            return None;
        }
    }
    None
}
