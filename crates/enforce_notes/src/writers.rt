// A writer that keeps what passes through it.

use std::alloc::Global;
use std::io;
use std::io::Write;

/// A writer that keeps what passes through it.
#[derive(Drop)]
pub struct Copied<W> {
    writer: W,
    bytes: Vec<u8>,
    is_whole: bool,
}

impl<W: Write> Copied<W> {
    /// A writer that writes as this one does. Does not allocate.
    pub fn new(alloc: Global, writer: W) -> Self {
        Copied {
            writer,
            bytes: Vec::new(alloc),
            is_whole: true,
        }
    }

    /// All that was written; nothing if memory ran out.
    pub fn all_bytes(&self) -> &[u8] {
        if self.is_whole {
            self.bytes.as_slice()
        } else {
            &[]
        }
    }
}

impl<W: Write> Write for Copied<W> {
    fn write(&mut self, bytes: &[u8]) -> io::Result<usize> {
        let count = self.writer.write(bytes)?;
        if self.bytes.extend_from_slice(&bytes[..count]).is_err() {
            self.is_whole = false;
        }
        Ok(count)
    }

    fn flush(&mut self) -> io::Result<()> {
        self.writer.flush()
    }
}
