// Bytes, printed with their number; of none there is the empty item.

use facts::texts::Hex;
use std::fmt;

/// Bytes in hexadecimal, printed with their number, or
/// the empty item.
#[derive(Drop)]
pub struct Counted<'a>(pub &'a [u8]);

impl fmt::Display for Counted<'_> {
    fn fmt<W: fmt::Write>(&self, f: &mut fmt::Formatter<W>) -> fmt::Result {
        if self.0.is_empty() {
            return f.write_str("the empty item");
        }
        let (hex, len) = (Hex(self.0), self.0.len());
        let end = if len == 1 { "" } else { "s" };
        write!(f, "{hex} ({len} byte{end})")
    }
}
