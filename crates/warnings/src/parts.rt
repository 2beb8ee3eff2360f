// Bytes at a place of other bytes.

ghost use Rattle.std.specs.Prelude.{◌≡◌, ◌<◌, slice_index};
ghost use Rattle.warnings.specs.Parts.{has_at, has_part};

/// Whether these bytes stand at a position.
pub(crate) fn has_at(bytes: &[u8], at: usize, part: &[u8]) -> bool
    ensures { result ≡ has_at at part.now bytes.now }
{
    at <= bytes.len() && bytes[at..].starts_with(part)
}

/// Whether these bytes stand at any position before the end.
pub(crate) fn has_part(bytes: &[u8], part: &[u8]) -> bool
    ensures { result ≡ has_part part.now bytes.now }
{
    let mut rest = bytes;
    while let Some((_, after)) = rest.split_first() {
        if rest.starts_with(part) {
            return true;
        }
        rest = after;
    }
    false
}

/// The byte at a position, or 0 after the end.
pub(crate) fn byte_at(bytes: &[u8], at: usize) -> usize
    ensures value { result ≡ slice_index bytes.now at }
    ensures small { result < 256 }
{
    if at < bytes.len() {
        bytes[at] as usize
    } else {
        0
    }
}
